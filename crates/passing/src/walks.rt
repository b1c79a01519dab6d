// A walk from nine lent words: RULES 9.20. The kinds are numbers as C has them, and the conversions
// are functions, since a crate can write no `From` between types of others.
ghost use Rattle.std.specs.Prelude.{◌≡◌};
ghost use Rattle.ranges.specs.Ranges.{bound_of, last_of};
ghost use Rattle.walking.specs.Walks.{walk_of};
ghost use Rattle.passing.specs.Walks.{bound_in, last_in, walk_in};

use ranges::Range;
use std::ops::Bound;
use walking::Walk;

const INCLUDED: u32 = 1;

const EXCLUDED: u32 = 2;

// Every other kind is none.
fn bound_in(kind: u32, key: u32) -> Bound<u32>
    ensures { bound_of result ≡ bound_in kind key }
{
    match kind {
        INCLUDED => Bound::Included(key),
        EXCLUDED => Bound::Excluded(key),
        _ => Bound::Unbounded,
    }
}

// 0 is "not given".
pub fn last_in(given: u32, key: u32) -> Option<u32>
    ensures { last_of result ≡ last_in given key }
{
    if given == 0 { None } else { Some(key) }
}

pub fn walk_in(w: &[u32; 9]) -> Walk
    ensures { walk_of result ≡ walk_in w.now }
{
    let range = Range {
        start: bound_in(w[1], w[2]),
        end: bound_in(w[3], w[4]),
        front: last_in(w[5], w[6]),
        back: last_in(w[7], w[8]),
    };
    Walk { slot: w[0], range }
}
