// The steps of a walk, on a sound arena: RULES 4.14 and 7. `red_black_tree_map` tests the arena
// first.
#![tactic(auto)]

ghost use Rattle.std.specs.Prelude.{◌≡◌};
ghost use Rattle.trees.specs.Range.{is_bad_range};
ghost use Rattle.words.specs.Sound.{Sound};
ghost use Rattle.lookup.specs.Ends.{end_of};
ghost use Rattle.ranges.specs.Ranges.{bound_of, last_of};
ghost use Rattle.calls.specs.Call.{Call};
ghost use Rattle.calls.specs.Outcome.{Outcome};
ghost use Rattle.answers.specs.Answers.{entry_answer};
ghost use Rattle.walking.specs.Walks.{walk_of, walk_from};

use answers::{Refusal, enter};
use arena::Entry;
use lookup::End;
use ranges::Range;
use std::ops::Bound;

// RULES 7.1: what the caller keeps of a walk, by value.
#[derive(Clone, Copy)]
pub struct Walk {
    pub slot: u32,
    pub range: Range,
}

impl Walk {
    // The walk over a whole version that has given the entries up to a last key, if any.
    pub fn whole(slot: u32, front: Option<u32>) -> Walk
        ensures { walk_of result ≡ walk_from slot (last_of front) }
    {
        let range = Range {
            start: Bound::Unbounded,
            end: Bound::Unbounded,
            front,
            back: None,
        };
        Walk { slot, range }
    }
}

// RULES 7.5: start above end, or equal and both excluded.
fn is_bad_range(start: Bound<u32>, end: Bound<u32>) -> bool
    ensures { result ≡ is_bad_range (bound_of start) (bound_of end) }
{
    match start {
        Bound::Unbounded => false,
        Bound::Included(a) => match end {
            Bound::Unbounded => false,
            Bound::Included(b) => b < a,
            Bound::Excluded(b) => b < a,
        },
        Bound::Excluded(a) => match end {
            Bound::Unbounded => false,
            Bound::Included(b) => b < a,
            Bound::Excluded(b) => b <= a,
        },
    }
}

// A step of the walk at that end, RULES 7.4: the entry, or END (4.29) where none is left. Each
// caller knows the end: as a part of it the step does not ask again at each node.
#[inline(always)]
pub fn step(ws: &[u32], w: Walk, end: End) -> Result<Entry, Refusal>
    requires { Sound ws.now }
    ensures { Outcome (Call.step (end_of end) (walk_of w)) ws.now (entry_answer result) ws.now }
{
    let range = w.range;
    let i = enter(ws, w.slot)?;
    if is_bad_range(range.start, range.end) {
        return Err(Refusal::BadRange);
    }
    ranges::step(ws, i, range, end).ok_or(Refusal::End)
}
