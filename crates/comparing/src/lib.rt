// Compare and equal, RULES 8.1 to 8.3, on a sound arena: both versions are walked side by side, and
// where they part the next entries decide.
#![tactic(auto)]

ghost use Rattle.std.specs.Prelude.{◌≡◌};
ghost use Rattle.words.specs.Layout.{max_height};
ghost use Rattle.words.specs.Sound.{Sound};
ghost use Rattle.lookup.specs.Finding.{Rooted};
ghost use Rattle.calls.specs.Call.{Call};
ghost use Rattle.calls.specs.Outcome.{Outcome};
ghost use Rattle.answers.specs.Answers.{sign_answer, truth_answer};
ghost use Rattle.comparing.specs.Ranks.{Compares};

use abreast::part;
use answers::{Refusal, enter};
use std::cmp::Ordering;

// The order of two versions, by their roots. The entries with which they part decide, key before
// value; a version that ends there has none, which is less than any.
#[tactic(auto, using(crate::proofs::Ordering::roots_compared, crate::proofs::Ordering::beginning_less, crate::proofs::Ordering::both_compared))]
fn compare_roots(ws: &[u32], i: u32, j: u32) -> Ordering
    requires rooted { Rooted ws.now i max_height }
    requires rooted_other { Rooted ws.now j max_height }
    ensures { Compares ws.now i j result }
{
    let heads = part(ws, i, j);
    heads.one.cmp(&heads.other)
}

pub fn compare(ws: &[u32], s: u32, t: u32) -> Result<Ordering, Refusal>
    requires { Sound ws.now }
    ensures { Outcome (Call.compare s t) ws.now (sign_answer result) ws.now }
{
    let i = enter(ws, s)?;
    let j = enter(ws, t)?;
    Ok(compare_roots(ws, i, j))
}

// Equal means compare 0.
pub fn equal(ws: &[u32], s: u32, t: u32) -> Result<bool, Refusal>
    requires { Sound ws.now }
    ensures { Outcome (Call.equal s t) ws.now (truth_answer result) ws.now }
{
    let i = enter(ws, s)?;
    let j = enter(ws, t)?;
    Ok(compare_roots(ws, i, j).is_eq())
}
