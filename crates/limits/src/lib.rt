// RULES 2.7, 2.8: N is 1 to 2,047, V is 1 to 32, and both agree with the length.
#![tactic(auto)]

ghost use Rattle.std.specs.Prelude.{◌≡◌, ◌≤◌};
ghost use Rattle.words.specs.Layout.{max_nodes, max_slots, arena_words};
ghost use Rattle.words.specs.Sound.{Limits};
ghost use Rattle.soundness_laws.specs.Answer.{Decides};
ghost use Rattle.soundness_laws.specs.Within.{Within};

use arena::{HEADER_WORDS, MAX_NODES, MAX_SLOTS, NODE_WORDS, SLOT_WORDS, nodes_of, slots_of};

fn arena_words(n: u32, v: u32) -> usize
    requires { (n ≤ max_nodes) × (v ≤ max_slots) }
    ensures { result ≡ arena_words n v }
{
    HEADER_WORDS + SLOT_WORDS * (v as usize) + NODE_WORDS * (n as usize)
}

// Whether n and v are within their limits and agree with the length.
pub fn fits(long: usize, n: u32, v: u32) -> bool
    ensures { Decides result (Limits n v long) }
{
    n != 0 && n <= MAX_NODES && v != 0 && v <= MAX_SLOTS && long == arena_words(n, v)
}

// The same of the numbers that the arena records.
pub fn within_limits(ws: &[u32]) -> bool
    ensures { Decides result (Within ws.now) }
{
    HEADER_WORDS <= ws.len() && fits(ws.len(), nodes_of(ws), slots_of(ws))
}
