// Replays the list of calls with rpds's answers that oracle/list makes, on one arena, and counts
// the answers that differ.
#![tactic(auto)]

mod calling;
mod expected;
mod listing;
mod numbers;

ghost use Rattle.std.specs.Prelude.{◌≤◌, length};

use self::calling::{Code, answered};
use self::numbers::Line;
use arena::{MAX_NODES, MAX_SLOTS};
use red_black_tree_map::format;
use std::io::Read;

// The words of the largest arena.
const WORDS: usize = 12354;

// More than the list has: a longer text is cut off, and lacks its last line.
const BYTES: usize = 262144;

// What is counted: lines, differences, the line of the first, and whether the list's last line was
// met.
#[derive(Clone, Copy, Default)]
struct Tally {
    lines: u32,
    differences: u32,
    first: Option<u32>,
    // A state of the whole list, with no value beside it: an Option would be no plainer.
    finished: bool,
}

impl Tally {
    // Counts a difference in the line at hand unless it is so.
    fn expect(&mut self, so: bool) {
        if !so {
            self.first = self.first.or(Some(self.lines));
            self.differences = self.differences.saturating_add(1);
        }
    }

    // The calls are the lines but the list's last one.
    fn calls(&self) -> u32 {
        self.lines.saturating_sub(u32::from(self.finished))
    }

    // Whether the list's last line comes for the first time, and says that so many calls stand
    // above it.
    fn finish(&mut self, line: &Line) -> bool {
        let again = self.finished;
        self.finished = true;
        !again && line.rest(2) == [0, self.calls()].as_slice()
    }

    // A line has ended: a whole one is the last or a call, any other a difference.
    fn end_line(&mut self, ws: &mut [u32], line: &mut Line) {
        self.lines = self.lines.saturating_add(1);
        let so = match line.end() {
            Some(Code::Finish) => self.finish(line),
            Some(code) => !self.finished && answered(ws, line, code),
            None => false,
        };
        self.expect(so);
        line.clear();
    }
}

// Writes a number, and then what it counts. A write that fails is let go, and the next is tried.
fn say(rt: &impl Print, n: u32, what: &[u8]) {
    let _ = rt.print(n);
    let _ = rt.write_all(what);
}

// Writes what was counted, and where the first difference is.
fn report(rt: &impl Print, tally: &Tally) {
    say(rt, tally.calls(), b" calls\n");
    say(rt, tally.differences, b" differences\n");
    if let Some(line) = tally.first {
        let _ = rt.write_all(b"the first at line ");
        say(rt, line, b"\n");
    }
}

// Replays the list on an arena that is formatted first. The list must have its last line, and
// nothing after it.
fn replay(text: &[u8]) -> Tally {
    let mut ws = [0u32; WORDS];
    let mut line = Line::new();
    let mut tally = Tally::default();
    tally.expect(format(&mut ws, MAX_NODES, MAX_SLOTS).is_ok());
    for &byte in text {
        if byte == b'\n' {
            tally.end_line(&mut ws, &mut line);
        } else {
            line.take(byte);
        }
    }
    let ended = tally.finished && line.is_untouched();
    tally.expect(ended);
    tally
}

// Reads until the buffer is full, the input ends or a read fails, and gives the bytes that came.
// (The new form is no plainer: `done` grows by what each read brought, which no `for` counts, and
// `read_exact` does not say how many bytes came before the end.)
fn read_full<'a>(input: &mut impl Read, text: &'a mut [u8]) -> &'a [u8]
    ensures { length result.now ≤ length text.old }
{
    let mut done = 0usize;
    while done < text.len() {
        match input.read(&mut text[done..]) {
            Ok(0) | Err(_) => break,
            Ok(n) => done += n,
        }
    }
    &text[..done]
}

fn main(rt: HostRuntime) {
    let mut text = [0u8; BYTES];
    let tally = replay(read_full(&mut rt.stdin(), &mut text));
    report(&rt, &tally);
}
