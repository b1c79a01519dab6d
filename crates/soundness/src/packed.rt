// The scratch of the test: for each link a word, `blacks` * SHAPE + `color` * DARK + `size`, and
// the keys at the two ends of its tree. `blacks` is one more than the black nodes on each way down.
// The three stay in one word: `word_above` defines it, and the same word counts the names before.
ghost use Rattle.std.specs.Prelude.{◌≡◌, ◌<◌, length, get_or};
ghost use Rattle.soundness_laws.specs.Answer.{Decides};
ghost use Rattle.soundness_laws.specs.Packed.{ShapesFit, Wordable, word_above, Places, Put};

use arena::{BLACK, RED};

pub const SHAPE: u32 = 16777216;

pub const DARK: u32 = 8388608;

pub fn word_of(memo: &[u32], x: u32) -> u32
    requires { x < length memo.now }
    ensures { result ≡ get_or memo.now x 0 }
{
    memo[x as usize]
}

// Notes link i. The two arrays are passed on apart: lent in a struct, each contract would have to
// name their loans too.
pub fn put(memo: &mut [u32], ends: &mut [u32], i: u32, word: u32, least: u32, greatest: u32)
    requires { Places memo.old ends.old i }
    ensures { Put memo.old ends.old i word least greatest memo.new ends.new }
{
    let at = i as usize;
    memo[at] = word;
    ends[2 * at] = least;
    ends[2 * at + 1] = greatest;
}

// Whether a node of this colour may stand above two trees with the words l and r.
pub fn shapes_fit(color: u32, l: u32, r: u32) -> bool
    ensures { Decides result (ShapesFit color l r) }
{
    color <= BLACK
        && l / SHAPE == r / SHAPE
        && (color == BLACK || l / DARK % 2 != RED && r / DARK % 2 != RED)
}

// The word of its tree.
pub fn word_above(color: u32, l: u32, r: u32) -> u32
    requires { Wordable color l r }
    ensures { result ≡ word_above color l r }
{
    (l / SHAPE + color) * SHAPE + color * DARK + (l % DARK + r % DARK + 1)
}
