// What writes nodes: they are taken from the free list, counted and given back. Module 2
// (RULES 6.2), with `arena`.
#![tactic(auto)]

ghost use Rattle.std.specs.Prelude.{◌≡◌};
ghost use Rattle.words.specs.Model.{with_count, raising, freeing};
ghost use Rattle.arena.specs.Nodes.{NodeInside};
ghost use Rattle.nodes.specs.Promises.{Raisable, Writable, Written, Makable, Made, Holds, Releases};

use arena::{
    COLOR_WORD, COUNT_WORD, HEAD_WORD, KEY_WORD, LEFT_WORD, NODE_WORDS, Node, RIGHT_WORD,
    VALUE_WORD, count_of, first_free, left_of, right_of,
};

#[tactic(auto, unfolding(words::specs::Model::with_count))]
fn set_count(ws: &mut [u32], i: u32, c: u32)
    requires { NodeInside ws.old i }
    ensures { ws.new ≡ with_count ws.old i c }
{
    ws[NODE_WORDS * (i as usize) + COUNT_WORD] = c;
}

// One name more for node i. None has no count.
#[tactic(auto, using(crate::proofs::Raised::raised_none, crate::proofs::Raised::raised_node))]
pub fn count_up(ws: &mut [u32], i: u32)
    requires { Raisable ws.old i }
    ensures { ws.new ≡ raising ws.old i }
{
    if i == 0 {
        return;
    }
    let c = count_of(ws, i);
    set_count(ws, i, c + 1);
}

// Node i goes to the front of the free list.
#[tactic(auto, unfolding(words::specs::Model::freeing, words::specs::Layout::head))]
pub fn push_free(ws: &mut [u32], i: u32)
    requires { NodeInside ws.old i }
    ensures { ws.new ≡ freeing ws.old i }
{
    let b = NODE_WORDS * (i as usize);
    let next = ws[HEAD_WORD];
    ws[b + COUNT_WORD] = 0;
    ws[b + LEFT_WORD] = next;
    ws[HEAD_WORD] = i;
}

// Node i, the first of the free list, is taken and written whole, with count 1.
fn write_first(ws: &mut [u32], i: u32, d: Node)
    requires { Writable ws.old i d }
    ensures { Written ws.old ws.new d }
{
    let b = NODE_WORDS * (i as usize);
    ws[HEAD_WORD] = ws[b + LEFT_WORD];
    ws[b + KEY_WORD] = d.entry.key;
    ws[b + VALUE_WORD] = d.entry.value;
    ws[b + LEFT_WORD] = d.left;
    ws[b + RIGHT_WORD] = d.right;
    ws[b + COLOR_WORD] = d.color;
    ws[b + COUNT_WORD] = 1;
}

// Takes the first free node and writes it whole, with count 1.
pub fn make_node(ws: &mut [u32], d: Node) -> u32
    requires { Makable ws.old d }
    ensures { Made result ws.old ws.new d }
{
    let i = first_free(ws);
    write_first(ws, i, d);
    i
}

// RULES 6.3: one name less for the link i, at which stands a tree of height h at most. At its last
// name a node is freed, and its links are released. Answers how many nodes were freed.
pub fn release(ws: &mut [u32], i: u32, h: u32) -> u32
    requires { Holds ws.old i h }
    ensures { Releases h ws.old ws.new i result }
{
    if i == 0 {
        return 0;
    }
    let c = count_of(ws, i);
    if 1 < c {
        set_count(ws, i, c - 1);
        return 0;
    }
    let l = left_of(ws, i);
    let r = right_of(ws, i);
    push_free(ws, i);
    let a = release(ws, l, h - 1);
    let b = release(ws, r, h - 1);
    a + b + 1
}
