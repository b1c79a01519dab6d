// A side of a walk, started above a key: a descent puts on its stack the nodes on the way whose
// keys are above it, the nearest last.
ghost use Rattle.std.specs.Prelude.{◌≡◌};
ghost use Rattle.trees.specs.Difference.{beyond};
ghost use Rattle.ranges.specs.Ranges.{last_of};
ghost use Rattle.differing.specs.Filling.{Descends, Turns, Fills};

use abreast::Side;
use arena::node_at;

fn above(last: Option<u32>, key: u32) -> bool
    ensures { result ≡ beyond (last_of last) key }
{
    match last {
        Some(k) => k < key,
        None => true,
    }
}

// A round of the descent: a node above the last key goes on the stack, and what is nearer to that
// key lies to its left; any other node is passed, with all to its left. `sink` would read the node
// once more.
fn turn(ws: &[u32], side: &mut Side, last: Option<u32>)
    requires descends { Descends ws.now side.old }
    requires fact { side.old.link ≡ 0 → ⊥ }
    ensures { Turns ws.now (last_of last) side.old side.new }
{
    let i = side.link;
    let d = node_at(ws, i);
    if !above(last, d.entry.key) {
        side.link = d.right;
        return;
    }
    let top = side.depth;
    side.stack[top as usize] = i;
    side.link = d.left;
    side.depth = top + 1;
}

// Fills the empty stack of a side with what its link lists above the last key. The side is lent and
// not handed back, as a stack is 23 words.
pub fn fill(ws: &[u32], side: &mut Side, last: Option<u32>)
    requires descends { Descends ws.now side.old }
    requires empty { side.old.depth ≡ 0 }
    ensures { Fills ws.now (last_of last) side.old.link side.new }
{
    while side.link != 0 {
        turn(ws, side, last);
    }
}
