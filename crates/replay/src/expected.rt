// Compares an answer with the one that a line gives from a place on: STATUS VALUES.., and no number
// more.
use super::numbers::Line;
use std::convert::AsSlice;

// The status of an accepted call; any other is the number of the refusal. (It stays a number: the
// list has what crosses to C, where `PassedOn` keeps it one.)
pub const ACCEPTED: u32 = 0;

// Whether the line ends with the status that `pass` makes of the answer, and with the words that it
// passes on where the call is accepted.
pub fn says<A, W: AsSlice<u32> + Default + Drop, F: FnOnce(A, &mut W) -> u32>(
    line: &Line,
    at: usize,
    answer: A,
    pass: F,
) -> bool
    requires { F.IsAlwaysCallable pass }
{
    let mut words = W::default();
    let status = pass(answer, &mut words);
    let Some((first, rest)) = line.rest(at).split_first() else {
        return false;
    };
    let ends = if status == ACCEPTED {
        rest == words.as_slice()
    } else {
        rest.is_empty()
    };
    ends && *first == status
}
