// Format, RULES 4.1, 4.32 and 4.33, on any words.
#![tactic(auto)]

ghost use Rattle.std.specs.Prelude.{◌≡◌, ◌≤◌, length};
ghost use Rattle.words.specs.Layout.{head, header_words, arena_words};
ghost use Rattle.arena.specs.Nodes.{NodeInside};
ghost use Rattle.calls.specs.Call.{Call};
ghost use Rattle.calls.specs.Outcome.{Outcome};
ghost use Rattle.versions.specs.Slots.{done_answer};
ghost use Rattle.formatting.specs.Steps.{Headed, FreeAbove, EmptyBelow};

use answers::Refusal;
use arena::{HEAD_WORD, HEADER_WORDS, NODES_WORD, NOT_HELD, SLOTS_WORD, put_slot};
use limits::fits;
use nodes::push_free;

// The first spare word of the header, whose other words from there on are spare too.
const SPARE_WORD: usize = 3;

// The header of an arena without a free node.
fn write_header(ws: &mut [u32], n: u32, v: u32)
    requires { header_words ≤ length ws.old }
    ensures { Headed n v ws.old ws.new }
{
    ws[NODES_WORD] = n;
    ws[SLOTS_WORD] = v;
    ws[HEAD_WORD] = 0;
    ws[SPARE_WORD..HEADER_WORDS].fill(0);
}

// RULES 4.33: every node goes to the front of the free list, the last first, so that they are
// listed in the order of their numbers.
fn free_nodes(ws: &mut [u32], n: u32)
    requires node_inside { NodeInside ws.old n }
    requires ws_value { head ws.old ≡ 0 }
    ensures { FreeAbove 0 n ws.old ws.new }
{
    for i in (1..=n).rev() {
        push_free(ws, i);
    }
}

// No slot is held.
fn empty_slots(ws: &mut [u32], n: u32, v: u32)
    requires { arena_words n v ≤ length ws.old }
    ensures { EmptyBelow v n ws.old ws.new }
{
    for s in 0..v {
        put_slot(ws, n, s, NOT_HELD, 0);
    }
}

// RULES 4.32: "Format accepts whatever the slice held. It records its N and V in words 0 and 1;
// every node is then free, and no slot is held."
pub fn format(ws: &mut [u32], n: u32, v: u32) -> Result<(), Refusal>
    ensures { Outcome (Call.format n v) ws.old (done_answer result) ws.new }
{
    if !fits(ws.len(), n, v) {
        return Err(Refusal::BadShape);
    }
    write_header(ws, n, v);
    free_nodes(ws, n);
    empty_slots(ws, n, v);
    Ok(())
}
