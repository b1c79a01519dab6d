// What the program makes of a command, RULES 9.6 to 9.13: the call, and the reply to what the call
// answers.
#![tactic(auto)]

ghost use Rattle.std.specs.Prelude.{◌≡◌};
ghost use Rattle.trees.specs.Range.{front as atFront};
ghost use Rattle.words.specs.Sound.{Sound};
ghost use Rattle.calls.specs.Call.{Call, Answer};
ghost use Rattle.arena.specs.Nodes.{entry_of};
ghost use Rattle.ranges.specs.Ranges.{last_of};
ghost use Rattle.answers.specs.Answers.{refusal_of, value_answer, entry_answer};
ghost use Rattle.walking.specs.Walks.{walk_from};
ghost use Rattle.versions.specs.Slots.{slot_answer, done_answer};
ghost use Rattle.answering.specs.Answering.{call_of, RepliesTo, Replies};

use answers::Refusal;
use arena::Entry;
use commands::Command;
use lookup::End;
use red_black_tree_map::{get, hold, insert, new_version, release, remove, step_front};
use replies::Reply;
use walking::Walk;

fn refusal_reply(r: Refusal) -> Reply
    ensures { RepliesTo (Answer.refused (refusal_of r)) result }
{
    match r {
        Refusal::End => Reply::End,
        other => Reply::Refused(u32::from(other)),
    }
}

// The reply to each kind of answer. One function for all three, with what makes the reply as its
// argument, could not say which answer of the rules it replies to.
//
// The number of a slot, or a value.
fn number_reply(a: Result<u32, Refusal>) -> Reply
    ensures slot { RepliesTo (slot_answer a) result }
    ensures value { RepliesTo (value_answer a) result }
{
    match a {
        Ok(n) => Reply::Number(n),
        Err(r) => refusal_reply(r),
    }
}

fn done_reply(a: Result<(), Refusal>) -> Reply
    ensures { RepliesTo (done_answer a) result }
{
    match a {
        Ok(()) => Reply::Done,
        Err(r) => refusal_reply(r),
    }
}

fn entry_reply(a: Result<Entry, Refusal>) -> Reply
    ensures { RepliesTo (entry_answer a) result }
{
    match a {
        Ok(e) => Reply::Entry(e.key, e.value),
        Err(r) => refusal_reply(r),
    }
}

// The next line of a listing that has come so far. It makes no test: that of the first line still
// holds, since a listing writes no word of the arena.
pub fn listed(ws: &[u32], slot: u32, front: Option<u32>) -> Reply
    requires { Sound ws.now }
    ensures { Replies (Call.step atFront (walk_from slot (last_of front))) ws.now result ws.now }
{
    entry_reply(walking::step(ws, Walk::whole(slot, front), End::Front))
}

// Makes the command's call. A listing's first line is the answer to its first step.
pub fn answer(ws: &mut [u32], c: Command) -> Reply
    ensures { Replies (call_of c) ws.old result ws.new }
{
    match c {
        Command::New => number_reply(new_version(ws)),
        Command::Hold(s) => number_reply(hold(ws, s)),
        Command::Set(s, key, value) => number_reply(insert(ws, s, Entry { key, value })),
        Command::Cut(s, key) => number_reply(remove(ws, s, key)),
        Command::Drop(s) => done_reply(release(ws, s)),
        Command::Get(s, key) => number_reply(get(ws, s, key)),
        Command::List(s) => entry_reply(step_front(ws, Walk::whole(s, None))),
    }
}
