// Runs the soundness test on arenas built by hand, each rule of RULES 3 broken one at a time, and
// writes each verdict on a line. The expected lines are read off the rules, beside each case in
// `arenas` and `broken`.
#![tactic(auto)]

mod arenas;
mod broken;

ghost use Rattle.std.specs.Prelude.{◌≤◌, length};

use self::arenas::{BASE, EMPTY, FULL, SHARED};
use self::broken::CHANGED;
use soundness::test;

// A write that fails is let go.
fn say(rt: &impl Print, free: Option<u32>) {
    let _ = match free {
        Some(free) => println!(rt; "yes {free}"),
        None => println!(rt; "no"),
    };
}

// The verdict on BASE with these changes.
fn changed(rt: &impl Print, changes: &[(usize, u32)]) {
    let mut ws = BASE;
    for (at, value) in changes {
        if let Some(word) = ws.get_mut(*at) {
            *word = *value;
        }
    }
    say(rt, test(&ws));
}

// The verdict on the first n words.
fn cut_off(rt: &impl Print, ws: &[u32], n: usize)
    requires { n ≤ length ws.now }
{
    say(rt, test(&ws[..n]));
}

// Slices too short for a header, and one word too few or too many.
fn lengths(rt: &impl Print) {
    let mut long = [0u32; 57];
    long[..56].copy_from_slice(&BASE);
    for n in 0..=8 {
        cut_off(rt, &long, n);
    }
    cut_off(rt, &long, 55);
    cut_off(rt, &long, 57);
}

fn main(rt: HostRuntime) {
    for changes in CHANGED {
        changed(&rt, changes);
    }
    say(&rt, test(&FULL));
    say(&rt, test(&EMPTY));
    say(&rt, test(&SHARED));
    lengths(&rt);
}
