// A difference to four lent words, RULES 9.21, and from four what the caller keeps for the next
// one, RULES 9.22. The kinds are numbers as C has them.
ghost use Rattle.std.specs.Prelude.{◌≡◌};
ghost use Rattle.answers.specs.Answers.{difference_of, difference_answer};
ghost use Rattle.differing.specs.Positions.{differences_of};
ghost use Rattle.passing.specs.Results.{PassedOn};
ghost use Rattle.passing.specs.Differences.{differences_in, row_of};

use crate::pass;
use crate::walks::last_in;
use answers::{Difference, Refusal};
use differing::Differences;

const ONLY_FIRST: u32 = 1;

const ONLY_SECOND: u32 = 2;

const IN_BOTH: u32 = 3;

// The value of a version that has no entry at the tag.
const NO_VALUE: u32 = 0;

// RULES 9.21: the kind; the key; the value in the first version; the value in the second.
fn row_of(d: Difference) -> [u32; 4]
    ensures { result ≡ row_of (difference_of d) }
{
    match d {
        Difference::OnlyFirst(e) => [ONLY_FIRST, e.key, e.value, NO_VALUE],
        Difference::OnlySecond(f) => [ONLY_SECOND, f.key, NO_VALUE, f.value],
        Difference::InBoth(e, f) => [IN_BOTH, e.key, e.value, f.value],
    }
}

pub fn pass_difference(a: Result<Difference, Refusal>, out: &mut [u32; 4]) -> u32
    ensures { PassedOn (difference_answer a) out.old result out.new }
{
    pass(a.map(row_of), out)
}

pub fn differences_in(at: &[u32; 4]) -> Differences
    ensures { differences_of result ≡ differences_in at.now }
{
    let given = last_in(at[2], at[3]);
    Differences {
        first: at[0],
        second: at[1],
        given: given,
    }
}
