// What crosses to C: each kind of answer as a result and values in lent words, and what the caller
// keeps of a walk or of an audit, from such words.
#![tactic(auto)]

pub mod differences;
pub mod walks;

ghost use Rattle.std.specs.Prelude.{◌≡◌, [], ◌∷◌, IfOk, IfErr};
ghost use Rattle.answers.specs.Answers.{refusal_number, sign_of, number_answer, value_answer, entry_answer, truth_answer, sign_answer};
ghost use Rattle.versions.specs.Slots.{slot_answer, done_answer};
ghost use Rattle.passing.specs.Results.{sign_word, truth_word, PassedOn};

use answers::Refusal;
use arena::Entry;
use std::cmp::Ordering;

// What crosses to C are numbers, by RULES 9.18 to 9.22, in this file and in the two below it.
//
// RULES 9.18: the result of an accepted call.
const ACCEPTED: u32 = 0;

// RULES 9.19: -1 in two's complement.
const MINUS_ONE: u32 = 4294967295;

// RULES 9.18: "0 when its call is accepted, and else the refusal's number": the values go to the
// words lent for them, which a refusal leaves.
fn pass<const N: usize>(values: Result<[u32; N], Refusal>, out: &mut [u32; N]) -> u32
    ensures ok { IfOk values.entry (λ words. (result ≡ 0) × (out.new ≡ words)) }
    ensures err { IfErr values.entry (λ r. (result ≡ refusal_number r) × (out.new ≡ out.old)) }
{
    match values {
        Ok(words) => {
            *out = words;
            ACCEPTED
        },
        Err(r) => u32::from(r),
    }
}

// C lends no words for it, so it is not `pass`.
pub fn pass_done(a: Result<(), Refusal>) -> u32
    ensures { PassedOn (done_answer a) [] result [] }
{
    match a {
        Ok(()) => ACCEPTED,
        Err(r) => u32::from(r),
    }
}

fn word(n: u32) -> [u32; 1]
    ensures { result ≡ n ∷ [] }
{
    [n]
}

// A slot, a number of entries or of nodes, or a value: one word.
pub fn pass_number(a: Result<u32, Refusal>, out: &mut [u32; 1]) -> u32
    ensures slot { PassedOn (slot_answer a) out.old result out.new }
    ensures number { PassedOn (number_answer a) out.old result out.new }
    ensures value { PassedOn (value_answer a) out.old result out.new }
{
    pass(a.map(word), out)
}

// RULES 9.19: the key, then the value.
fn entry_words(e: Entry) -> [u32; 2]
    ensures { result ≡ e.key ∷ (e.value ∷ []) }
{
    [e.key, e.value]
}

pub fn pass_entry(a: Result<Entry, Refusal>, out: &mut [u32; 2]) -> u32
    ensures { PassedOn (entry_answer a) out.old result out.new }
{
    pass(a.map(entry_words), out)
}

fn sign_word(d: Ordering) -> [u32; 1]
    ensures { result ≡ sign_word (sign_of d) ∷ [] }
{
    match d {
        Ordering::Less => [MINUS_ONE],
        Ordering::Equal => [0],
        Ordering::Greater => [1],
    }
}

pub fn pass_sign(a: Result<Ordering, Refusal>, out: &mut [u32; 1]) -> u32
    ensures { PassedOn (sign_answer a) out.old result out.new }
{
    pass(a.map(sign_word), out)
}

fn truth_word(b: bool) -> [u32; 1]
    ensures { result ≡ truth_word b ∷ [] }
{
    [u32::from(b)]
}

pub fn pass_truth(a: Result<bool, Refusal>, out: &mut [u32; 1]) -> u32
    ensures { PassedOn (truth_answer a) out.old result out.new }
{
    pass(a.map(truth_word), out)
}
