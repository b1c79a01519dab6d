// The calls that only read one version, on a sound arena: RULES 4.5 to 4.9, 4.15.
// `red_black_tree_map` tests the arena first. `first` and `last` are calls of RULES 4, each with
// its definition. That the arena is sound stays a `requires` of each call, here and in the crates
// beside this one: `Sound` is a record of the trees, from which the laws take them, and a ghost
// field may state a fact alone. ABSENT is answered where `let .. else` takes a lookup apart: RULES
// 13.10.
#![tactic(auto)]

ghost use Rattle.words.specs.Sound.{Sound};
ghost use Rattle.calls.specs.Call.{Call};
ghost use Rattle.calls.specs.Outcome.{Outcome};
ghost use Rattle.answers.specs.Answers.{number_answer, value_answer, entry_answer, truth_answer};

use answers::{Refusal, enter};
use arena::{Entry, nodes_of, slot_size};

// RULES 2.2: (0028,1053) Rescale Slope.
const RESCALE_SLOPE: u32 = 2625619;

pub fn size(ws: &[u32], s: u32) -> Result<u32, Refusal>
    requires { Sound ws.now }
    ensures { Outcome (Call.size s) ws.now (number_answer result) ws.now }
{
    enter(ws, s)?;
    Ok(slot_size(ws, nodes_of(ws), s))
}

pub fn get(ws: &[u32], s: u32, key: u32) -> Result<u32, Refusal>
    requires { Sound ws.now }
    ensures { Outcome (Call.get s key) ws.now (value_answer result) ws.now }
{
    let i = enter(ws, s)?;
    let Some(e) = lookup::get(ws, i, key) else {
        return Err(Refusal::Absent);
    };
    Ok(e.value)
}

#[tactic(auto, using(answers::proofs::Entries::rooted, crate::proofs::Answering::first_entry, crate::proofs::Answering::first_absent))]
pub fn first(ws: &[u32], s: u32) -> Result<Entry, Refusal>
    requires { Sound ws.now }
    ensures { Outcome (Call.first s) ws.now (entry_answer result) ws.now }
{
    let i = enter(ws, s)?;
    let Some(e) = lookup::first(ws, i) else {
        return Err(Refusal::Absent);
    };
    Ok(e)
}

#[tactic(auto, using(answers::proofs::Entries::rooted, crate::proofs::Answering::last_entry, crate::proofs::Answering::last_absent))]
pub fn last(ws: &[u32], s: u32) -> Result<Entry, Refusal>
    requires { Sound ws.now }
    ensures { Outcome (Call.last s) ws.now (entry_answer result) ws.now }
{
    let i = enter(ws, s)?;
    let Some(e) = lookup::last(ws, i) else {
        return Err(Refusal::Absent);
    };
    Ok(e)
}

// RULES 8.4: yes exactly when the version holds (0028,1053).
pub fn rescale_mark(ws: &[u32], s: u32) -> Result<bool, Refusal>
    requires { Sound ws.now }
    ensures { Outcome (Call.rescale_mark s) ws.now (truth_answer result) ws.now }
{
    let i = enter(ws, s)?;
    Ok(lookup::get(ws, i, RESCALE_SLOPE).is_some())
}
