// Runs long random histories of insert, remove and release, and holds the arena to a plain table
// after every step.
#![tactic(auto)]

mod course;

use self::course::{Course, LARGE, LARGE_KEYS, SMALL, SMALL_KEYS};
use answers::Refusal;
use arena::Entry;
use red_black_tree_map::{
    format, free_nodes, hold, insert, new_version, release, remove, size, sound, step_front,
};
use std::ops::Range;
use walking::Walk;

// Words of the small history, and of the large one, which is on the largest arena.
const SMALL_WORDS: usize = 400;

const LARGE_WORDS: usize = 12354;

// Where the first part of the small history, all of it and the large one end.
const SMALL_STEPS: u32 = 1000;

const ALL_SMALL_STEPS: u32 = 3000;

const LARGE_STEPS: u32 = 2500;

// The random number at the start of a history.
const SEED: u32 = 2463534242;

// What is counted.
#[derive(Clone, Copy, Default)]
struct Counts {
    insertions: u32,
    removals: u32,
    refusals: u32,
    differences: u32,
}

// A history: its arena, its table, whose place k has the value of the k-th key if it has an entry,
// the current version's slot, the random number, and what is counted.
#[derive(Drop)]
struct History<const WORDS: usize, const KEYS: usize> {
    course: Course,
    ws: [u32; WORDS],
    table: [Option<u32>; KEYS],
    cur: u32,
    seed: u32,
    counts: Counts,
}

// The next random number.
fn random(x: u32) -> u32 {
    let a = x ^ (x << 13);
    let b = a ^ (a >> 17);
    b ^ (b << 5)
}

// The next entry of a walk over the whole version whose last key at the front is this one. Two
// programs have this one line, and no crate between them.
fn next_entry(ws: &[u32], slot: u32, front: Option<u32>) -> Result<Entry, Refusal> {
    step_front(ws, Walk::whole(slot, front))
}

impl<const WORDS: usize, const KEYS: usize> History<WORDS, KEYS> {
    // Makes an empty arena and takes a first version. The history is built where it stays, and lent
    // here: answered by value its 82 kB stood on the stack three times.
    fn begin(&mut self) {
        let formatted = format(&mut self.ws, self.course.nodes, self.course.slots);
        self.expect(formatted.is_ok());
        match new_version(&mut self.ws) {
            Ok(q) => self.cur = q,
            Err(_) => self.expect(false),
        }
    }

    // Counts a difference unless it is so.
    fn expect(&mut self, so: bool) {
        if !so {
            self.counts.differences = self.counts.differences.saturating_add(1);
        }
    }

    // Whether a walk gives the entries of the table in order, and then ends.
    fn lists(&self, slot: u32, table: &[Option<u32>; KEYS]) -> bool {
        let mut front = None;
        for (k, place) in (0u32..).zip(table.iter()) {
            let key = self.course.key(k);
            if let Some(value) = *place {
                match next_entry(&self.ws, slot, front) {
                    Ok(e) if e.key == key && e.value == value => front = Some(key),
                    _ => return false,
                }
            }
        }
        next_entry(&self.ws, slot, front) == Err(Refusal::End)
    }

    // Gives up the version of a slot.
    fn give_up(&mut self, slot: u32) {
        let released = release(&mut self.ws, slot);
        self.expect(released.is_ok());
    }

    // Gives up the old version for the new one.
    fn move_to(&mut self, q: u32) {
        self.give_up(self.cur);
        self.cur = q;
    }

    // Notes that the k-th key has the value, or no entry.
    fn put(&mut self, k: u32, value: Option<u32>) {
        if let Some(place) = self.table.get_mut(k as usize) {
            *place = value;
        }
    }

    // Counts an insertion of a value, or a removal where there is none.
    fn count_change(&mut self, value: Option<u32>) {
        match value {
            Some(_) => self.counts.insertions = self.counts.insertions.saturating_add(1),
            None => self.counts.removals = self.counts.removals.saturating_add(1),
        }
    }

    // Inserts the k-th key with the value, or removes it where there is none. Only for want of room
    // may the call be refused.
    fn set(&mut self, k: u32, value: Option<u32>) {
        let key = self.course.key(k);
        let answer = match value {
            Some(value) => insert(&mut self.ws, self.cur, Entry { key, value }),
            None => remove(&mut self.ws, self.cur, key),
        };
        match answer {
            Ok(q) => {
                self.put(k, value);
                self.move_to(q);
                self.count_change(value);
            },
            Err(r) => {
                self.expect(r == Refusal::NoRoom);
                self.counts.refusals = self.counts.refusals.saturating_add(1);
            },
        }
    }

    // Five times of eight an insertion, else a removal, of one of so many keys.
    fn change(&mut self, keys: u32, value: u32) {
        let x = random(self.seed);
        self.seed = x;
        let k = x.checked_rem(keys).unwrap_or(0);
        let inserts = (x >> 16) % 8 < 5;
        self.set(k, inserts.then_some(value));
    }

    // The current version goes on with an empty one, if there is one.
    fn start_over(&mut self) {
        self.table.fill(None);
        match new_version(&mut self.ws) {
            Ok(q) => self.move_to(q),
            Err(_) => self.expect(false),
        }
    }

    // The number of entries of the table.
    fn entries(&self) -> usize {
        self.table.iter().filter(|place| place.is_some()).count()
    }

    // The arena must be sound, and the current version of the size of the table.
    fn check_size(&mut self) {
        let is_sound = sound(&self.ws);
        self.expect(is_sound);
        let answer = size(&self.ws, self.cur);
        let entries = self.entries();
        self.expect(answer.is_ok_and(|n| n as usize == entries));
    }

    // The current version must have the entries of the table.
    fn check_listing(&mut self) {
        let same = self.lists(self.cur, &self.table);
        self.expect(same);
    }

    // One step, and its tests.
    fn step(&mut self, step: u32) {
        if self.course.starts_over(step) {
            self.start_over();
        }
        self.change(self.course.keys(step), step.saturating_add(1));
        self.check_size();
        if self.course.is_listed(step) {
            self.check_listing();
        }
    }

    // So many steps, from one number up to another.
    fn run(&mut self, steps: Range<u32>) {
        for step in steps {
            self.step(step);
        }
    }

    // Gives up the current version, which must leave every node free.
    fn end(&mut self) {
        self.give_up(self.cur);
        let free = free_nodes(&self.ws);
        self.expect(free == Ok(self.course.nodes));
    }

    // Holds the current version, goes on, and finds the held version as it was.
    fn run_with_older(&mut self, steps: Range<u32>) {
        match hold(&mut self.ws, self.cur) {
            Ok(q) => {
                let older = self.table;
                self.run(steps);
                let same = self.lists(q, &older);
                self.expect(same);
                self.give_up(q);
                self.end();
            },
            Err(_) => self.expect(false),
        }
    }
}

// Writes a number, and then what it counts. A write that fails is let go, and the next is tried.
fn say(rt: &impl Print, n: u32, what: &[u8]) {
    let _ = rt.print(n);
    let _ = rt.write_all(what);
}

// Writes what was counted of so many steps.
fn report(rt: &impl Print, nodes: u32, steps: u32, counts: Counts) {
    say(rt, nodes, b" nodes: ");
    say(rt, steps, b" steps, ");
    say(rt, counts.insertions, b" insertions, ");
    say(rt, counts.removals, b" removals, ");
    say(rt, counts.refusals, b" refusals, ");
    say(rt, counts.differences, b" differences\n");
}

// The small history.
fn small(rt: &impl Print) {
    let mut history = History {
        course: SMALL,
        ws: [0; SMALL_WORDS],
        table: [None; SMALL_KEYS],
        cur: 0,
        seed: SEED,
        counts: Counts::default(),
    };
    history.begin();
    history.run(0..SMALL_STEPS);
    report(rt, SMALL.nodes, SMALL_STEPS, history.counts);
    history.counts.differences = 0;
    history.run_with_older(SMALL_STEPS..ALL_SMALL_STEPS);
    say(rt, SMALL.nodes, b" nodes, an older version held: ");
    say(rt, ALL_SMALL_STEPS - SMALL_STEPS, b" steps, ");
    say(rt, history.counts.differences, b" differences\n");
}

// The large history.
fn large(rt: &impl Print) {
    let mut history = History {
        course: LARGE,
        ws: [0; LARGE_WORDS],
        table: [None; LARGE_KEYS],
        cur: 0,
        seed: SEED,
        counts: Counts::default(),
    };
    history.begin();
    history.run(0..LARGE_STEPS);
    history.end();
    report(rt, LARGE.nodes, LARGE_STEPS, history.counts);
}

// Both histories.
fn main(rt: HostRuntime) {
    small(&rt);
    large(&rt);
}
