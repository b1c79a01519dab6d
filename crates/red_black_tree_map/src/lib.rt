// The public calls, RULES 4: any words, slots, keys and ranges may come in. Each call tests the
// arena and then does what the table says. Both ends have calls of their own, `first` and `last`,
// `step_front` and `step_back`: by 000's names, and as the C functions have them.
#![tactic(auto)]

ghost use Rattle.std.specs.Prelude.{◌≡◌, IfOk, IfErr};
ghost use Rattle.trees.specs.Range.{front as atFront, back as atBack};
ghost use Rattle.words.specs.Sound.{Sound};
ghost use Rattle.arena.specs.Nodes.{entry_of};
ghost use Rattle.soundness_laws.specs.Whole.{SoundWith};
ghost use Rattle.calls.specs.Call.{Call, Answer};
ghost use Rattle.calls.specs.Outcome.{Outcome};
ghost use Rattle.answers.specs.Answers.{number_answer, value_answer, entry_answer, truth_answer, sign_answer, difference_answer};
ghost use Rattle.differing.specs.Positions.{differences_of};
ghost use Rattle.walking.specs.Walks.{walk_of};
ghost use Rattle.versions.specs.Slots.{slot_answer, done_answer};

use answers::{Difference, Refusal};
use arena::Entry;
use differing::Differences;
use lookup::End;
use soundness::test;
use std::cmp::Ordering;
use walking::Walk;

// The test with which every call but format and `sound` begins: the free number of a sound arena,
// or UNSOUND.
fn tested(ws: &[u32]) -> Result<u32, Refusal>
    ensures ok { IfOk result (λ free. SoundWith ws.now free) }
    ensures err { IfErr result (λ r. (r ≡ Refusal.Unsound) × (Sound ws.now → ⊥)) }
{
    test(ws).ok_or(Refusal::Unsound)
}

// Records N and V, makes all nodes free and no slot held. Any old contents will do.
pub fn format(ws: &mut [u32], n: u32, v: u32) -> Result<(), Refusal>
    ensures { Outcome (Call.format n v) ws.old (done_answer result) ws.new }
{
    formatting::format(ws, n, v)
}

// A slot for a new empty version.
pub fn new_version(ws: &mut [u32]) -> Result<u32, Refusal>
    ensures { Outcome Call.new ws.old (slot_answer result) ws.new }
{
    let mut free = tested(ws)?;
    versions::new_version(ws, &mut free)
}

// A second slot for the version of slot s.
pub fn hold(ws: &mut [u32], s: u32) -> Result<u32, Refusal>
    ensures { Outcome (Call.hold s) ws.old (slot_answer result) ws.new }
{
    let mut free = tested(ws)?;
    versions::hold(ws, s, &mut free)
}

// Slot s is given up.
pub fn release(ws: &mut [u32], s: u32) -> Result<(), Refusal>
    ensures { Outcome (Call.release s) ws.old (done_answer result) ws.new }
{
    let mut free = tested(ws)?;
    versions::release(ws, s, &mut free)
}

// The number of entries of slot s.
pub fn size(ws: &[u32], s: u32) -> Result<u32, Refusal>
    ensures { Outcome (Call.size s) ws.now (number_answer result) ws.now }
{
    tested(ws)?;
    reading::size(ws, s)
}

// How many nodes are free. The number has a name here, so that an invented one is tried against
// this contract.
pub fn free_nodes(ws: &[u32]) -> Result<u32, Refusal>
    ensures { Outcome Call.free_nodes ws.now (number_answer result) ws.now }
{
    let free = tested(ws)?;
    Ok(free)
}

// The value at the key.
pub fn get(ws: &[u32], s: u32, key: u32) -> Result<u32, Refusal>
    ensures { Outcome (Call.get s key) ws.now (value_answer result) ws.now }
{
    tested(ws)?;
    reading::get(ws, s, key)
}

// The entry with the least key.
pub fn first(ws: &[u32], s: u32) -> Result<Entry, Refusal>
    ensures { Outcome (Call.first s) ws.now (entry_answer result) ws.now }
{
    tested(ws)?;
    reading::first(ws, s)
}

// The entry with the greatest key.
pub fn last(ws: &[u32], s: u32) -> Result<Entry, Refusal>
    ensures { Outcome (Call.last s) ws.now (entry_answer result) ws.now }
{
    tested(ws)?;
    reading::last(ws, s)
}

// A slot for the version of slot s with the entry set.
pub fn insert(ws: &mut [u32], s: u32, e: Entry) -> Result<u32, Refusal>
    ensures { Outcome (Call.insert s (entry_of e)) ws.old (slot_answer result) ws.new }
{
    let mut free = tested(ws)?;
    writing::insert(ws, s, e, &mut free)
}

// A slot for the version of slot s without the key.
pub fn remove(ws: &mut [u32], s: u32, key: u32) -> Result<u32, Refusal>
    ensures { Outcome (Call.remove s key) ws.old (slot_answer result) ws.new }
{
    let mut free = tested(ws)?;
    writing::remove(ws, s, key, &mut free)
}

// The order of the versions of slots s and t.
pub fn compare(ws: &[u32], s: u32, t: u32) -> Result<Ordering, Refusal>
    ensures { Outcome (Call.compare s t) ws.now (sign_answer result) ws.now }
{
    tested(ws)?;
    comparing::compare(ws, s, t)
}

// Whether the versions of slots s and t list the same.
pub fn equal(ws: &[u32], s: u32, t: u32) -> Result<bool, Refusal>
    ensures { Outcome (Call.equal s t) ws.now (truth_answer result) ws.now }
{
    tested(ws)?;
    comparing::equal(ws, s, t)
}

// The least entry of the walk that is left.
pub fn step_front(ws: &[u32], w: Walk) -> Result<Entry, Refusal>
    ensures { Outcome (Call.step atFront (walk_of w)) ws.now (entry_answer result) ws.now }
{
    tested(ws)?;
    walking::step(ws, w, End::Front)
}

// The greatest entry of the walk that is left.
pub fn step_back(ws: &[u32], w: Walk) -> Result<Entry, Refusal>
    ensures { Outcome (Call.step atBack (walk_of w)) ws.now (entry_answer result) ws.now }
{
    tested(ws)?;
    walking::step(ws, w, End::Back)
}

// Whether the version of slot s holds (0028,1053).
pub fn rescale_mark(ws: &[u32], s: u32) -> Result<bool, Refusal>
    ensures { Outcome (Call.rescale_mark s) ws.now (truth_answer result) ws.now }
{
    tested(ws)?;
    reading::rescale_mark(ws, s)
}

// Whether the arena is sound.
pub fn sound(ws: &[u32]) -> bool
    ensures { Outcome Call.soundness_test ws.now (Answer.truth result) ws.now }
{
    test(ws).is_some()
}

// What differs next between two versions, above the last key given.
pub fn step_difference(ws: &[u32], x: Differences) -> Result<Difference, Refusal>
    ensures { Outcome (Call.difference (differences_of x)) ws.now (difference_answer result) ws.now }
{
    tested(ws)?;
    differing::step_difference(ws, x)
}
