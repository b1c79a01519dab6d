// The refusals, what differs between two versions at a tag, and the way into the version of a slot,
// on a sound arena.
#![tactic(auto)]

ghost use Rattle.std.specs.Prelude.{◌≡◌};
ghost use Rattle.words.specs.Sound.{Sound};
ghost use Rattle.answers.specs.Answers.{refusal_number};
ghost use Rattle.answers.specs.Entering.{Enters};

use arena::{Entry, NOT_HELD, nodes_of, slot_root, slots_of};

// The refusals, each with its number in the table of RULES 4.22 to 4.29.
#[derive(Clone, Copy, PartialEq, Eq)]
pub enum Refusal {
    BadShape = 1,
    Unsound = 2,
    NoVersion = 3,
    BadRange = 4,
    Absent = 5,
    NoSlot = 6,
    NoRoom = 7,
    End = 8,
}

impl From<Refusal> for u32 {
    ghost from_gives = { λ r n. n ≡ refusal_number r };

    fn from(r: Refusal) -> u32 {
        r as u32
    }
}

// RULES 8.7: at a tag only the first version has an entry, only the second, or both, and not the
// same.
#[derive(Clone, Copy)]
pub enum Difference {
    OnlyFirst(Entry),
    OnlySecond(Entry),
    InBoth(Entry, Entry),
}

// The root of the version of slot s.
pub fn enter(ws: &[u32], s: u32) -> Result<u32, Refusal>
    requires { Sound ws.now }
    ensures { Enters ws.now s result }
{
    if slots_of(ws) <= s {
        return Err(Refusal::NoVersion);
    }
    let i = slot_root(ws, nodes_of(ws), s);
    if i == NOT_HELD {
        return Err(Refusal::NoVersion);
    }
    Ok(i)
}
