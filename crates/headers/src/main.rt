// The program, RULES 9: reads commands from standard input, one to a line, and writes the answers
// to standard output.
#![tactic(auto)]

ghost use Rattle.std.specs.Prelude.{◌≡◌, ◌≤◌};
ghost use Rattle.answering.specs.Answering.{call_of, Replies};
ghost use Rattle.headers.specs.declared.TheConstants.{LINE_ROOM, OUT_ROOM};

use answering::{answer, listed};
use arena::{MAX_NODES, MAX_SLOTS};
use commands::{Command, parse};
use red_black_tree_map::format;
use replies::{LONGEST, Reply, put_reply};
use std::io::{self, Read};

// The words of the largest arena.
const WORDS: usize = 12354;

// The most bytes of a line, its end not counted; one more is kept, which tells a longer line.
const LINE_BYTES: usize = 63;

const LINE_ROOM: usize = 64;

const OUT_ROOM: usize = 65536;

// The most bytes of one read.
const IN_ROOM: usize = 65536;

// The line that is read, as far as it is kept. Its buffer is fixed, and so is that of the answers:
// the program has no heap.
#[derive(Drop)]
struct Line {
    bytes: [u8; LINE_ROOM],
    kept: usize,
    ghost within: { kept ≤ LINE_ROOM },
}

impl Line {
    // Keeps the byte, if the line is not too long already.
    fn keep(&mut self, b: u8) {
        if self.kept < LINE_ROOM {
            self.bytes[self.kept] = b;
            self.kept += 1;
        }
    }

    // The command that the line is the text of. One that is too long is no command's.
    fn command(&self) -> Option<Command> {
        if LINE_BYTES < self.kept {
            return None;
        }
        parse(&self.bytes[..self.kept])
    }
}

// The answers that wait to be written.
#[derive(Drop)]
struct Answers {
    bytes: [u8; OUT_ROOM],
    waiting: usize,
    ghost within: { waiting ≤ OUT_ROOM },
}

impl Answers {
    // Writes the answers that wait. None waits any more, after a failed write either.
    fn flush(&mut self, rt: &impl Print) -> io::Result<()>
        ensures { self.new.waiting ≡ 0 }
    {
        let n = self.waiting;
        self.waiting = 0;
        rt.write_all(&self.bytes[..n])
    }

    // The answer's line waits behind the others; where those leave no room for it they are written
    // first.
    fn put(&mut self, rt: &impl Print, reply: Reply) -> io::Result<()> {
        if OUT_ROOM - LONGEST < self.waiting {
            self.flush(rt)?;
        }
        self.waiting = put_reply(&mut self.bytes, self.waiting, reply);
        Ok(())
    }
}

// What a run of the program has: the arena, the line that is read and the answers that wait. An
// `Err` is of a failed write, after which nothing more is read or written.
#[derive(Drop)]
struct Session {
    words: [u32; WORDS],
    line: Line,
    answers: Answers,
}

impl Session {
    // The lines of a listing after the first, up to its end.
    fn list_rest(&mut self, rt: &impl Print, slot: u32, first: Reply) -> io::Result<()>
        requires { Replies (call_of (Command.List slot)) self.old.words first self.old.words }
    {
        let mut reply = first;
        while let Reply::Entry(key, _) = reply {
            reply = listed(&self.words, slot, Some(key));
            self.answers.put(rt, reply)?;
        }
        Ok(())
    }

    // Answers a command.
    fn run(&mut self, rt: &impl Print, command: Command) -> io::Result<()> {
        let first = answer(&mut self.words, command);
        self.answers.put(rt, first)?;
        if let Command::List(slot) = command {
            self.list_rest(rt, slot, first)?;
        }
        Ok(())
    }

    // Answers the line and begins the next.
    fn end_line(&mut self, rt: &impl Print) -> io::Result<()> {
        let said = self.line.command();
        self.line.kept = 0;
        match said {
            Some(command) => self.run(rt, command),
            None => self.answers.put(rt, Reply::Unknown),
        }
    }

    // Takes every byte that came.
    fn take_all(&mut self, rt: &impl Print, input: &[u8]) -> io::Result<()> {
        for b in input {
            if *b == b'\n' {
                self.end_line(rt)?;
            } else {
                self.line.keep(*b);
            }
        }
        Ok(())
    }

    // Reads to the input's end, and writes the answers to what came after each read. A last line
    // without a line end counts. A proved loop has to end, and nothing says that an input does: so
    // the turns are as many as no run uses up.
    fn serve(&mut self, rt: &(impl Print + Eprint), reader: &mut impl Read) -> io::Result<()> {
        let mut input = [0u8; IN_ROOM];
        for _ in 0..u64::MAX {
            let Some(came) = read_some(rt, reader, &mut input) else {
                break;
            };
            self.take_all(rt, came)?;
            self.answers.flush(rt)?;
        }
        if 0 < self.line.kept {
            self.end_line(rt)?;
            self.answers.flush(rt)?;
        }
        Ok(())
    }
}

// Reads once: the bytes that came, if any did. None do at the input's end and where a read fails.
fn read_some<'a>(
    rt: &impl Eprint,
    reader: &mut impl Read,
    input: &'a mut [u8],
) -> Option<&'a [u8]> {
    match reader.read(input) {
        Ok(0) => None,
        Ok(n) => Some(&input[..n]),
        Err(_) => {
            let _ = rt.eprintln("headers: a read failed");
            None
        }
    }
}

fn main(rt: HostRuntime) {
    let mut session = Session {
        words: [0; WORDS],
        line: Line {
            bytes: [0; LINE_ROOM],
            kept: 0,
        },
        answers: Answers {
            bytes: [0; OUT_ROOM],
            waiting: 0,
        },
    };
    // The words are those of the most nodes and slots, so the call is not refused.
    let _ = format(&mut session.words, MAX_NODES, MAX_SLOTS);
    if session.serve(&rt, &mut rt.stdin()).is_err() {
        let _ = rt.eprintln("headers: a write failed");
    }
}
