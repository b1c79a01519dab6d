// The difference step, RULES 4.41 and 8.7 to 8.11, on a sound arena: two stacks are filled above
// the last key given, what both list alike is passed over, and the next entries say what differs.
#![tactic(auto)]

mod filling;

ghost use Rattle.std.specs.Prelude.{◌≡◌};
ghost use Rattle.words.specs.Sound.{Sound};
ghost use Rattle.arena.specs.Nodes.{entry_of};
ghost use Rattle.lookup.specs.Finding.{found_of};
ghost use Rattle.ranges.specs.Ranges.{last_of};
ghost use Rattle.calls.specs.Call.{Call};
ghost use Rattle.calls.specs.Outcome.{Outcome};
ghost use Rattle.answers.specs.Answers.{difference_of, difference_answer};
ghost use Rattle.differing.specs.Nexts.{entries_differ, heads_differ, or_ended, Ordered, Differs};
ghost use Rattle.differing.specs.Positions.{differences_of};

use crate::filling::fill;
use abreast::{Heads, Side, walk};
use answers::{Difference, Refusal, enter};
use arena::Entry;
use std::cmp::Ordering;

// RULES 8.9: what the caller keeps, by value.
#[derive(Clone, Copy)]
pub struct Differences {
    pub first: u32,
    pub second: u32,
    pub given: Option<u32>,
}

// Two next entries that are not the same: the lesser key is missing on the other side.
fn of_both(x: Entry, y: Entry) -> Difference
    ensures { difference_of result ≡ entries_differ (entry_of x) (entry_of y) }
{
    match x.key.cmp(&y.key) {
        Ordering::Less => Difference::OnlyFirst(x),
        Ordering::Greater => Difference::OnlySecond(y),
        Ordering::Equal => Difference::InBoth(x, y),
    }
}

// What differs where two versions part, or END where neither goes on.
fn of_heads(h: Heads) -> Result<Difference, Refusal>
    ensures { difference_answer result ≡ or_ended (heads_differ (found_of h.one) (found_of h.other)) }
{
    match (h.one, h.other) {
        (None, None) => Err(Refusal::End),
        (None, Some(y)) => Ok(Difference::OnlySecond(y)),
        (Some(x), None) => Ok(Difference::OnlyFirst(x)),
        (Some(x), Some(y)) => Ok(of_both(x, y)),
    }
}

// What differs next between the versions whose roots are the links i and j.
fn next_difference(ws: &[u32], i: u32, j: u32, last: Option<u32>) -> Result<Difference, Refusal>
    requires ordered { Ordered ws.now i }
    requires ordered_other { Ordered ws.now j }
    ensures { Differs ws.now i j (last_of last) result }
{
    let mut one = Side::new(i);
    let mut other = Side::new(j);
    fill(ws, &mut one, last);
    fill(ws, &mut other, last);
    of_heads(walk(ws, &mut one, &mut other))
}

pub fn step_difference(ws: &[u32], x: Differences) -> Result<Difference, Refusal>
    requires { Sound ws.now }
    ensures { Outcome (Call.difference (differences_of x)) ws.now (difference_answer result) ws.now }
{
    let i = enter(ws, x.first)?;
    let j = enter(ws, x.second)?;
    next_difference(ws, i, j, x.given)
}
