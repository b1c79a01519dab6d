// The arena's words: nodes as they are read, and the slots. Module 2 (RULES 6.2), with `nodes`.
#![tactic(auto)]

ghost use Rattle.std.specs.Prelude.{◌≡◌, ◌≤◌, length};
ghost use Rattle.words.specs.Layout.{nodes, slots, head, left, right, count, slot_root, slot_size};
ghost use Rattle.words.specs.Model.{slotting};
ghost use Rattle.arena.specs.Nodes.{NodeInside, SlotInside, IsNode};

// RULES 2.7: the limits of N and V. RULES 5.8: the height that no version within them exceeds,
// H(2,047), and H(2,048) too.
pub const MAX_NODES: u32 = 2047;

pub const MAX_SLOTS: u32 = 32;

pub const MAX_HEIGHT: u32 = 22;

// A colour is a word in the layout (RULES 2.16), and `soundness` reads words that may be none. Its
// enum is `plan::Color`.
pub const RED: u32 = 0;

pub const BLACK: u32 = 1;

// RULES 2.17: the root word of a slot that is not held. It stays a number, as links do: it is a
// word of the layout. `answers::enter` makes a Result of it.
pub const NOT_HELD: u32 = 4294967295;

// The layout, RULES 2.8 to 2.14: each number has one name here and one in the definitions of
// `words`.
pub const HEADER_WORDS: usize = 8;

pub const NODE_WORDS: usize = 6;

pub const SLOT_WORDS: usize = 2;

pub const NODES_WORD: usize = 0;

pub const SLOTS_WORD: usize = 1;

pub const HEAD_WORD: usize = 2;

pub const KEY_WORD: usize = 2;

pub const VALUE_WORD: usize = 3;

pub const LEFT_WORD: usize = 4;

pub const RIGHT_WORD: usize = 5;

pub const COLOR_WORD: usize = 6;

pub const COUNT_WORD: usize = 7;

const ROOT_WORD: usize = 8;

const SIZE_WORD: usize = 9;

// A tag and the position of its value.
#[derive(Clone, Copy, PartialEq, Eq, PartialOrd, Ord)]
pub struct Entry {
    pub key: u32,
    pub value: u32,
}

// A node's words but its count. A link is 0 for none, for which RULES 13.2 sets one number aside; a
// colour is 0 for red, 1 for black.
#[derive(Clone, Copy)]
pub struct Node {
    pub entry: Entry,
    pub left: u32,
    pub right: u32,
    pub color: u32,
}

// The arena is a plain slice to each call (RULES 13.8), so each says which node or slot it asks
// for, and each of these readers has the definition of its own word.
//
// The N and the V that the arena records.
#[tactic(auto, unfolding(words::specs::Layout::nodes))]
pub fn nodes_of(ws: &[u32]) -> u32
    requires { 8 ≤ length ws.now }
    ensures { result ≡ nodes ws.now }
{
    ws[NODES_WORD]
}

#[tactic(auto, unfolding(words::specs::Layout::slots))]
pub fn slots_of(ws: &[u32]) -> u32
    requires { 8 ≤ length ws.now }
    ensures { result ≡ slots ws.now }
{
    ws[SLOTS_WORD]
}

// The first free node, 0 where there is none.
#[tactic(auto, unfolding(words::specs::Layout::head))]
pub fn first_free(ws: &[u32]) -> u32
    requires { 8 ≤ length ws.now }
    ensures { result ≡ head ws.now }
{
    ws[HEAD_WORD]
}

// The words of node i.
pub fn node_at(ws: &[u32], i: u32) -> Node
    requires { NodeInside ws.now i }
    ensures { IsNode ws.now i result }
{
    let b = NODE_WORDS * (i as usize);
    Node {
        entry: Entry {
            key: ws[b + KEY_WORD],
            value: ws[b + VALUE_WORD],
        },
        left: ws[b + LEFT_WORD],
        right: ws[b + RIGHT_WORD],
        color: ws[b + COLOR_WORD],
    }
}

// Each word of a node has its own name in `words`: these stay three, since one that takes the
// word's place would be a fourth line and leave the three to call it.
#[tactic(auto, unfolding(words::specs::Layout::left))]
pub fn left_of(ws: &[u32], i: u32) -> u32
    requires { NodeInside ws.now i }
    ensures { result ≡ left ws.now i }
{
    ws[NODE_WORDS * (i as usize) + LEFT_WORD]
}

#[tactic(auto, unfolding(words::specs::Layout::right))]
pub fn right_of(ws: &[u32], i: u32) -> u32
    requires { NodeInside ws.now i }
    ensures { result ≡ right ws.now i }
{
    ws[NODE_WORDS * (i as usize) + RIGHT_WORD]
}

#[tactic(auto, unfolding(words::specs::Layout::count))]
pub fn count_of(ws: &[u32], i: u32) -> u32
    requires { NodeInside ws.now i }
    ensures { result ≡ count ws.now i }
{
    ws[NODE_WORDS * (i as usize) + COUNT_WORD]
}

// The root of slot s, in an arena of n nodes. It and the size stay two lines, as a node's words do.
#[tactic(auto, unfolding(words::specs::Layout::slot_root))]
pub fn slot_root(ws: &[u32], n: u32, s: u32) -> u32
    requires { SlotInside n ws.now s }
    ensures { result ≡ slot_root n ws.now s }
{
    ws[NODE_WORDS * (n as usize) + SLOT_WORDS * (s as usize) + ROOT_WORD]
}

#[tactic(auto, unfolding(words::specs::Layout::slot_size))]
pub fn slot_size(ws: &[u32], n: u32, s: u32) -> u32
    requires { SlotInside n ws.now s }
    ensures { result ≡ slot_size n ws.now s }
{
    ws[NODE_WORDS * (n as usize) + SLOT_WORDS * (s as usize) + SIZE_WORD]
}

// A root and a size go into slot s.
#[tactic(auto, unfolding(words::specs::Model::slotting))]
pub fn put_slot(ws: &mut [u32], n: u32, s: u32, root: u32, size: u32)
    requires { SlotInside n ws.old s }
    ensures { ws.new ≡ slotting n ws.old s root size }
{
    let b = NODE_WORDS * (n as usize) + SLOT_WORDS * (s as usize);
    ws[b + ROOT_WORD] = root;
    ws[b + SIZE_WORD] = size;
}
