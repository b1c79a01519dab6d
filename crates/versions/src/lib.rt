// The versions, RULES 4.34 to 4.36: new, hold and release, on a sound arena, and the tests of the
// calls that hand out a slot. Each keeps the free number beside the words, which are a plain slice
// to each call (RULES 13.8): so each asks for a sound arena and its free number.
#![tactic(auto)]

ghost use Rattle.std.specs.Prelude.{◌≡◌};
ghost use Rattle.words.specs.Layout.{nodes};
ghost use Rattle.words.specs.Sound.{Sound};
ghost use Rattle.words.specs.Model.{raising, slotting};
ghost use Rattle.calls.specs.Call.{Call};
ghost use Rattle.calls.specs.Outcome.{Outcome};
ghost use Rattle.versions.specs.Free.{FreeIs};
ghost use Rattle.versions.specs.Slots.{LowestIs, Opens, Parents, slot_answer, done_answer};

use answers::{Refusal, enter};
use arena::{MAX_HEIGHT, NOT_HELD, nodes_of, put_slot, slot_root, slot_size, slots_of};
use nodes::count_up;

// The version that a call takes as its parent, and the slot that it hands out.
#[derive(Clone, Copy)]
pub struct Parent {
    pub root: u32,
    pub size: u32,
    pub out: u32,
}

// RULES 4.21: "A slot that is handed out is the lowest that is not held."
fn lowest_slot(ws: &[u32]) -> Option<u32>
    requires { Sound ws.now }
    ensures { LowestIs ws.now result }
{
    let n = nodes_of(ws);
    (0..slots_of(ws)).find(|&q| slot_root(ws, n, q) == NOT_HELD)
}

// The tests of hold, insert and remove: slot s is held, and a slot is not.
pub fn open(ws: &[u32], s: u32) -> Result<Parent, Refusal>
    requires { Sound ws.now }
    ensures { Opens ws.now s result }
{
    let root = enter(ws, s)?;
    let out = lowest_slot(ws).ok_or(Refusal::NoSlot)?;
    let size = slot_size(ws, nodes_of(ws), s);
    Ok(Parent { root, size, out })
}

// A new empty version.
pub fn new_version(ws: &mut [u32], free: &mut u32) -> Result<u32, Refusal>
    requires sound { Sound ws.old }
    requires free_is { FreeIs ws.old free.old }
    ensures outcome { Outcome Call.new ws.old (slot_answer result) ws.new }
    ensures free_after { FreeIs ws.new free.new }
{
    let q = lowest_slot(ws).ok_or(Refusal::NoSlot)?;
    let n = nodes_of(ws);
    put_slot(ws, n, q, 0, 0);
    Ok(q)
}

// The slot handed out is given the parent itself: one name more for its root.
pub fn share(ws: &mut [u32], p: Parent)
    requires { Parents ws.old p }
    ensures { ws.new ≡ slotting (nodes ws.old) (raising ws.old p.root) p.out p.root p.size }
{
    let n = nodes_of(ws);
    count_up(ws, p.root);
    put_slot(ws, n, p.out, p.root, p.size);
}

// A second slot for the same version.
pub fn hold(ws: &mut [u32], s: u32, free: &mut u32) -> Result<u32, Refusal>
    requires sound { Sound ws.old }
    requires free_is { FreeIs ws.old free.old }
    ensures outcome { Outcome (Call.hold s) ws.old (slot_answer result) ws.new }
    ensures free_after { FreeIs ws.new free.new }
{
    let p = open(ws, s)?;
    share(ws, p);
    Ok(p.out)
}

// Slot s is given up, and its root is released.
pub fn release(ws: &mut [u32], s: u32, free: &mut u32) -> Result<(), Refusal>
    requires sound { Sound ws.old }
    requires free_is { FreeIs ws.old free.old }
    ensures outcome { Outcome (Call.release s) ws.old (done_answer result) ws.new }
    ensures free_after { FreeIs ws.new free.new }
{
    let root = enter(ws, s)?;
    let n = nodes_of(ws);
    put_slot(ws, n, s, NOT_HELD, 0);
    *free += nodes::release(ws, root, MAX_HEIGHT);
    Ok(())
}
