// The first half of the soundness test: every node that is reached, each queued after all that name
// it, and the free list.
#![tactic(auto)]

ghost use Rattle.std.specs.Prelude.{◌+◌, ◌<◌};
ghost use Rattle.words.specs.Layout.{slots};
ghost use Rattle.soundness_laws.specs.Answer.{Decides};
ghost use Rattle.soundness_laws.specs.Within.{Within};
ghost use Rattle.soundness_laws.specs.Queue.{Fresh, Arriving, Arrives, Roots, Heads, Reach, Onward};
ghost use Rattle.soundness_laws.specs.Spare.{Spare, SpareList};
ghost use Rattle.soundness_laws.specs.Whole.{Whole};

use arena::{NOT_HELD, count_of, first_free, left_of, nodes_of, right_of, slot_root, slots_of};

// One name more for link x: at its last name the node enters the queue. The queue's new end, or
// none where the arena is not sound. The node is written behind the queue at every name, so that
// the processor need not guess which is the last. Names and queue are passed on apart: lent in a
// struct, each contract would have to name their loans too.
fn arrive(ws: &[u32], x: u32, names: &mut [u32], queue: &mut [u32], tail: u32) -> Option<u32>
    requires { Arriving ws.now names.old queue.old tail }
    ensures { Arrives ws.now x names.old queue.old tail names.new queue.new result }
{
    if x == 0 {
        return Some(tail);
    }
    if nodes_of(ws) < x {
        return None;
    }
    let at = x as usize;
    let met = names[at];
    let count = count_of(ws, x);
    if count <= met {
        return None;
    }
    names[at] = met + 1;
    queue[tail as usize] = x;
    if met + 1 < count {
        return Some(tail);
    }
    Some(tail + 1)
}

// The same for the root of slot s, where it is held.
fn arrive_root(ws: &[u32], s: u32, names: &mut [u32], queue: &mut [u32], tail: u32) -> Option<u32>
    requires { Roots ws.now s names.old queue.old tail × (s < slots ws.now) }
    ensures { Onward ws.now result (Roots ws.now (s + 1) names.new queue.new) }
{
    let root = slot_root(ws, nodes_of(ws), s);
    if root == NOT_HELD {
        return Some(tail);
    }
    arrive(ws, root, names, queue, tail)
}

// The same for every held slot.
fn arrive_roots(ws: &[u32], names: &mut [u32], queue: &mut [u32]) -> Option<u32>
    requires { Roots ws.now 0 names.old queue.old 0 }
    ensures { Onward ws.now result (Heads ws.now 0 names.new queue.new) }
{
    let mut tail = 0u32;
    for s in 0..slots_of(ws) {
        tail = arrive_root(ws, s, names, queue, tail)?;
    }
    Some(tail)
}

// The same for the children of the node at the front of the queue.
fn arrive_children(
    ws: &[u32],
    front: u32,
    names: &mut [u32],
    queue: &mut [u32],
    tail: u32,
) -> Option<u32>
    requires { Heads ws.now front names.old queue.old tail × (front < tail) }
    ensures { Onward ws.now result (Heads ws.now (front + 1) names.new queue.new) }
{
    let i = queue[front as usize];
    let left = left_of(ws, i);
    let right = right_of(ws, i);
    let t = arrive(ws, left, names, queue, tail)?;
    arrive(ws, right, names, queue, t)
}

// Queues every node that is reached, and returns the queue's end, which moves on as the loop runs
// behind it: no range to go over.
fn reach(ws: &[u32], names: &mut [u32], queue: &mut [u32]) -> Option<u32>
    requires { Fresh ws.now names.old queue.old }
    ensures { Onward ws.now result (Reach ws.now names.new queue.new) }
{
    let mut tail = arrive_roots(ws, names, queue)?;
    let mut front = 0u32;
    while front < tail {
        tail = arrive_children(ws, front, names, queue, tail)?;
        front += 1;
    }
    Some(tail)
}

// Whether link i names a node of count 0. The words are a plain slice (RULES 13.8), so that this
// and the next ask for words within their limits.
fn is_spare(ws: &[u32], i: u32) -> bool
    requires { Within ws.now }
    ensures { Decides result (Spare ws.now i) }
{
    i != 0 && i <= nodes_of(ws) && count_of(ws, i) == 0
}

// Whether the free list leads over k nodes of count 0, and ends there.
fn free_list_right(ws: &[u32], k: u32) -> bool
    requires { Within ws.now }
    ensures { Decides result (SpareList ws.now k) }
{
    let mut i = first_free(ws);
    for _gone in 0..k {
        if !is_spare(ws, i) {
            return false;
        }
        i = left_of(ws, i);
    }
    i == 0
}

// Queues the live nodes, each after all that name it, if the free list has all others. How many
// they are; none where the arena is not sound.
pub fn live_nodes(ws: &[u32], names: &mut [u32], queue: &mut [u32]) -> Option<u32>
    requires { Fresh ws.now names.old queue.old }
    ensures { Onward ws.now result (Whole ws.now queue.new) }
{
    let tail = reach(ws, names, queue)?;
    let rest = nodes_of(ws) - tail;
    if !free_list_right(ws, rest) {
        return None;
    }
    Some(tail)
}
