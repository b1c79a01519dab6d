// The answers of the program, RULES 9.6 to 9.15: each written as a line.
#![tactic(auto)]

ghost use Rattle.std.specs.Prelude.{[], ◌∷◌, ◌++◌, ◌+◌, ◌≤◌, length};
ghost use Rattle.decimal.specs.Decimal.{digits};
ghost use Rattle.decimal.specs.Written.{Written};
ghost use Rattle.replies.specs.Text.{reply, longest};

use decimal::{put_number, put_text};

// An answer that takes one line. A refusal is its number here, since that is all that the line
// says.
#[derive(Clone, Copy)]
pub enum Reply {
    Number(u32),
    Done,
    Refused(u32),
    Entry(u32, u32),
    End,
    Unknown,
}

// The most bytes that an answer's line takes.
pub const LONGEST: usize = 22;

// Writes the number and a line end.
#[tactic(auto, using(decimal::proofs::Writing::reaches))]
fn put_last(out: &mut [u8], at: usize, n: u32) -> usize
    requires { at + 11 ≤ length out.old }
    ensures { Written out.old at (digits n ++ 10 ∷ []) out.new result }
{
    let next = put_number(out, at, n);
    put_text(out, next, b"\n")
}

#[tactic(auto, using(decimal::proofs::Writing::reaches, decimal::proofs::Writing::written_both))]
fn put_refused(out: &mut [u8], at: usize, n: u32) -> usize
    requires { at + 13 ≤ length out.old }
    ensures { Written out.old at (reply (Reply.Refused n)) out.new result }
{
    let next = put_text(out, at, b"R ");
    put_last(out, next, n)
}

#[tactic(auto, using(decimal::proofs::Writing::reaches))]
fn put_entry(out: &mut [u8], at: usize, key: u32, value: u32) -> usize
    requires { at + 22 ≤ length out.old }
    ensures { Written out.old at (reply (Reply.Entry key value)) out.new result }
{
    let space = put_number(out, at, key);
    let next = put_text(out, space, b" ");
    put_last(out, next, value)
}

// Writes the answer's line. The buffer and the place stay, as `decimal` says at `put_text`.
pub fn put_reply(out: &mut [u8], at: usize, r: Reply) -> usize
    requires { at + longest ≤ length out.old }
    ensures { Written out.old at (reply r) out.new result }
{
    match r {
        Reply::Number(n) => put_last(out, at, n),
        Reply::Done => put_text(out, at, b"ok\n"),
        Reply::Refused(n) => put_refused(out, at, n),
        Reply::Entry(key, value) => put_entry(out, at, key, value),
        Reply::End => put_text(out, at, b"end\n"),
        Reply::Unknown => put_text(out, at, b"?\n"),
    }
}
