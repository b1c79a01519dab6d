// The soundness test, RULES 4.40: yes exactly when the arena is sound, and then how many nodes are
// free. It writes nothing.
#![tactic(auto)]

pub mod packed;
pub mod settling;

ghost use Rattle.std.specs.Prelude.{◌≡◌, ◌+◌, ◌*◌, ◌≤◌, ◌<◌};
ghost use Rattle.words.specs.Layout.{nodes, max_nodes};
ghost use Rattle.words.specs.Sound.{Sound};
ghost use Rattle.soundness_laws.specs.Answer.{Decides};
ghost use Rattle.soundness_laws.specs.Within.{Within};
ghost use Rattle.soundness.specs.Verdict.{Verdict, Scratch};

use crate::settling::trees_right;
use arena::nodes_of;
use limits::within_limits;
use reaching::live_nodes;

// How many links each size of scratch has room for, 0 for none and the nodes of an arena; and how
// many words the two keys of each take, since no const argument is computed. There is no heap.
const SMALL: usize = 64;

const SMALL_ENDS: usize = 2 * SMALL;

const MIDDLE: usize = 256;

const MIDDLE_ENDS: usize = 2 * MIDDLE;

const LARGE: usize = 2048;

const LARGE_ENDS: usize = 2 * LARGE;

// Tests an arena within its limits, on scratch that is large enough. The memo is all 0 at first: it
// has the names met, then the summaries.
fn test_on(ws: &[u32], memo: &mut [u32], ends: &mut [u32], queue: &mut [u32]) -> Option<u32>
    requires { Scratch ws.now memo.old ends.old queue.old }
    ensures { Verdict ws.now result }
{
    let live = live_nodes(ws, memo, queue)?;
    if !trees_right(ws, queue, live, memo, ends) {
        return None;
    }
    let free = nodes_of(ws) - live;
    Some(free)
}

// Tests an arena of fewer than LINKS nodes. It is not inlined, so that a small arena never pays for
// a large one's scratch.
#[inline(never)]
fn test_with<const LINKS: usize, const ENDS: usize>(ws: &[u32]) -> Option<u32>
    requires within { Within ws.now }
    requires few { nodes ws.now < LINKS }
    requires no_more { LINKS ≤ max_nodes + 1 }
    requires two_a_link { ENDS ≡ 2 * LINKS }
    ensures { Verdict ws.now result }
{
    let mut memo = [0u32; LINKS];
    let mut ends = [0u32; ENDS];
    let mut queue = [0u32; LINKS];
    test_on(ws, &mut memo, &mut ends, &mut queue)
}

// The number of free nodes, if the arena is sound. It is tested on the least scratch that is large
// enough.
pub fn test(ws: &[u32]) -> Option<u32>
    ensures { Verdict ws.now result }
{
    if !within_limits(ws) {
        return None;
    }
    let n = nodes_of(ws) as usize;
    if n < SMALL {
        return test_with::<SMALL, SMALL_ENDS>(ws);
    }
    if n < MIDDLE {
        return test_with::<MIDDLE, MIDDLE_ENDS>(ws);
    }
    test_with::<LARGE, LARGE_ENDS>(ws)
}

// Whether the arena is sound.
pub fn sound(ws: &[u32]) -> bool
    ensures { Decides result (Sound ws.now) }
{
    test(ws).is_some()
}
