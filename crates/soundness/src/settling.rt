// The second half of the soundness test: the summary of every node in the queue, children first,
// and the slots.
// `memo` and `ends` are passed apart: lent in a struct, each contract would name their loans too.
ghost use Rattle.std.specs.Prelude.{◌+◌, ◌*◌, ◌-◌, ◌≤◌, ◌<◌, length, get_or};
ghost use Rattle.words.specs.Layout.{nodes, slots};
ghost use Rattle.words.specs.Sound.{Sound};
ghost use Rattle.soundness_laws.specs.Answer.{Answers, Decides};
ghost use Rattle.soundness_laws.specs.Ways.{Ways};
ghost use Rattle.soundness_laws.specs.Packed.{briefs, Least, Greatest, Room};
ghost use Rattle.soundness_laws.specs.Known.{Settle, Settled, Barren, AllKnown};
ghost use Rattle.soundness_laws.specs.Whole.{Whole, SlotRight, SlotsRight, SoundWith};

use crate::packed::{DARK, SHAPE, put, shapes_fit, word_above, word_of};
use arena::{NOT_HELD, RED, node_at, nodes_of, slot_root, slot_size, slots_of};

// The least key of a tree with this key at its root and the tree at x to the left, if the keys
// there are below it.
fn least_key(ends: &[u32], x: u32, key: u32) -> Option<u32>
    requires { 2 * x + 1 < length ends.now }
    ensures { Ways result (Least ends.now x key) ((1 ≤ x → get_or ends.now (2 * x + 1) 0 < key) → ⊥) }
{
    if x == 0 {
        return Some(key);
    }
    let at = 2 * (x as usize);
    if key <= ends[at + 1] {
        return None;
    }
    Some(ends[at])
}

// The greatest, if the keys of the tree at y, to the right, are above. It mirrors `least_key` and
// stays beside it: the key that is tested, the test and the key that is answered all turn round.
fn greatest_key(ends: &[u32], y: u32, key: u32) -> Option<u32>
    requires { 2 * y + 1 < length ends.now }
    ensures { Ways result (Greatest ends.now y key) ((1 ≤ y → key < get_or ends.now (2 * y) 0) → ⊥) }
{
    if y == 0 {
        return Some(key);
    }
    let at = 2 * (y as usize);
    if ends[at] <= key {
        return None;
    }
    Some(ends[at + 1])
}

// Notes node i, both children of which are known, if its tree can be a part of a version.
fn settle(ws: &[u32], i: u32, memo: &mut [u32], ends: &mut [u32]) -> bool
    requires { Settle ws.now (briefs memo.old ends.old) i × Room ws.now memo.old ends.old }
    ensures { Answers
        result
        (Settled ws.now (briefs memo.old ends.old) (briefs memo.new ends.new) i)
        (Barren ws.now i) }
{
    let d = node_at(ws, i);
    let e = d.entry;
    let l = word_of(memo, d.left);
    let r = word_of(memo, d.right);
    if !shapes_fit(d.color, l, r) {
        return false;
    }
    let Some(least) = least_key(ends, d.left, e.key) else {
        return false;
    };
    let Some(greatest) = greatest_key(ends, d.right, e.key) else {
        return false;
    };
    put(memo, ends, i, word_above(d.color, l, r), least, greatest);
    true
}

// Notes every node of the queue, from its end on.
fn settle_all(ws: &[u32], queue: &[u32], tail: u32, memo: &mut [u32], ends: &mut [u32]) -> bool
    requires { Whole ws.now queue.now tail × Room ws.now memo.old ends.old }
    ensures { Answers result (AllKnown ws.now (briefs memo.new ends.new)) (Sound ws.now → ⊥) }
{
    put(memo, ends, 0, SHAPE + DARK, 0, 0);
    for k in (0..tail).rev() {
        let i = queue[k as usize];
        if !settle(ws, i, memo, ends) {
            return false;
        }
    }
    true
}

// Whether slot s is not held, with size 0, or has the tree of a version and its size.
fn slot_right(ws: &[u32], s: u32, memo: &[u32], ends: &[u32]) -> bool
    requires { AllKnown ws.now (briefs memo.now ends.now) × Room ws.now memo.now ends.now × (s < slots ws.now) }
    ensures { Decides result (SlotRight ws.now s) }
{
    let n = nodes_of(ws);
    let root = slot_root(ws, n, s);
    if root == NOT_HELD {
        return slot_size(ws, n, s) == 0;
    }
    let top = word_of(memo, root);
    top / DARK % 2 != RED && slot_size(ws, n, s) == top % DARK
}

// The same of every slot.
fn slots_right(ws: &[u32], memo: &[u32], ends: &[u32]) -> bool
    requires { AllKnown ws.now (briefs memo.now ends.now) × Room ws.now memo.now ends.now }
    ensures { Decides result (SlotsRight ws.now) }
{
    for s in 0..slots_of(ws) {
        if !slot_right(ws, s, memo, ends) {
            return false;
        }
    }
    true
}

// Whether each held slot has the tree of a version and its size, the live nodes being queued: so
// whether the arena is sound.
pub fn trees_right(ws: &[u32], queue: &[u32], live: u32, memo: &mut [u32], ends: &mut [u32]) -> bool
    requires { Whole ws.now queue.now live × Room ws.now memo.old ends.old }
    ensures { Answers result (SoundWith ws.now (nodes ws.now - live)) (Sound ws.now → ⊥) }
{
    settle_all(ws, queue, live, memo, ends) && slots_right(ws, memo, ends)
}
