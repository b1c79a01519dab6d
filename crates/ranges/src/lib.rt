// The descents of module 8 (RULES 6.9, 7.8): the steps of a walk over a range, over node numbers.
#![tactic(auto)]

ghost use Rattle.std.specs.Prelude.{◌≡◌};
ghost use Rattle.words.specs.Layout.{max_height};
ghost use Rattle.trees.specs.Range.{from_start, to_end, past};
ghost use Rattle.trees.specs.Lookup.{step as step_of};
ghost use Rattle.lookup.specs.Finding.{Rooted, Finds};
ghost use Rattle.lookup.specs.Ends.{end_of};
ghost use Rattle.ranges.specs.Ranges.{bound_of, last_of, range_of};
ghost use Rattle.ranges.specs.Digging.{admits, dug};

use arena::{Entry, MAX_HEIGHT, node_at};
use lookup::End;
use std::ops::Bound;

// RULES 7.1: what a walk keeps besides its slot: the ends of its range, and the last key that it
// gave at either end, if any.
#[derive(Clone, Copy)]
pub struct Range {
    pub start: Bound<u32>,
    pub end: Bound<u32>,
    pub front: Option<u32>,
    pub back: Option<u32>,
}

// It mirrors `to_end`: RULES 7.2 and the definitions have both, with the comparison turned round.
fn from_start(b: Bound<u32>, key: u32) -> bool
    ensures { result ≡ from_start (bound_of b) key }
{
    match b {
        Bound::Included(a) => a <= key,
        Bound::Excluded(a) => a < key,
        Bound::Unbounded => true,
    }
}

fn to_end(b: Bound<u32>, key: u32) -> bool
    ensures { result ≡ to_end (bound_of b) key }
{
    match b {
        Bound::Included(a) => key <= a,
        Bound::Excluded(a) => key < a,
        Bound::Unbounded => true,
    }
}

// RULES 7.3: a last key is excluded; none given bounds nothing.
fn past(last: Option<u32>) -> Bound<u32>
    ensures { bound_of result ≡ past (last_of last) }
{
    match last {
        Some(k) => Bound::Excluded(k),
        None => Bound::Unbounded,
    }
}

// Whether the key is in range as seen from that end, which has not passed it.
fn admits(w: Range, end: End, key: u32) -> bool
    ensures { result ≡ admits end (range_of w) key }
{
    match end {
        End::Front => from_start(w.start, key) && from_start(past(w.front), key),
        End::Back => to_end(w.end, key) && to_end(past(w.back), key),
    }
}

// The entry nearest to that end which it has not passed. The remaining height h is what falls, and
// no instruction is made of it: the descent ends at a link, not at a count.
fn dig_towards(ws: &[u32], i: u32, w: Range, end: End) -> Option<Entry>
    requires { Rooted ws.now i max_height }
    ensures { Finds ws.now i result (dug end (range_of w)) }
{
    let mut at = i;
    let mut h = MAX_HEIGHT;
    let mut noted = None;
    while at != 0 {
        let d = node_at(ws, at);
        let e = d.entry;
        let nearer = end.toward(d);
        let further = end.away(d);
        if admits(w, end, e.key) {
            noted = Some(e);
            at = nearer;
        } else {
            at = further;
        }
        h -= 1;
    }
    noted
}

// A step at that end: the nearest entry left, unless it has passed the other end.
pub fn step(ws: &[u32], i: u32, w: Range, end: End) -> Option<Entry>
    requires { Rooted ws.now i max_height }
    ensures { Finds ws.now i result (step_of (end_of end) (range_of w)) }
{
    let e = dig_towards(ws, i, w, end)?;
    if admits(w, end.opposite(), e.key) {
        Some(e)
    } else {
        None
    }
}
