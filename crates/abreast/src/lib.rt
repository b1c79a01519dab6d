// Two versions walked side by side. A side is a link, whose tree comes next, and a stack of node
// numbers, top last: each node's entry and then its right part are still to come. Where both sides
// stand at one link both list alike, and the link is passed over. What a side stands for is said of
// the words, which are lent to each step (RULES 13.8), and so is no invariant of the side.
#![tactic(auto)]

ghost use Rattle.std.specs.Prelude.{◌≡◌};
ghost use Rattle.words.specs.Layout.{max_height};
ghost use Rattle.lookup.specs.Finding.{found_of, Rooted};
ghost use Rattle.abreast.specs.Alike.{alike_heads};
ghost use Rattle.abreast.specs.Sides.{ahead, Stacked, Topped, Stands, Starts, Sinks, Tops, Pops, Meets, Parts, PartsBelow};

use arena::{Entry, MAX_HEIGHT, node_at, right_of};

// RULES 13.5: "no more than 23 numbers", which is one more than the nodes on the longest way down.
pub const STACK: usize = MAX_HEIGHT as usize + 1;

// A side: its link, how many numbers its stack has, and the stack. It is lent, and no walk copies
// it, as a stack is 23 words. There is no heap, so the depth stands beside.
// As a u32 the depth stays in a register, where a usize was stored at each step of a walk.
#[derive(Clone, Copy)]
pub struct Side {
    pub link: u32,
    pub depth: u32,
    pub stack: [u32; STACK],
}

// What comes next on both sides, where they part.
#[derive(Clone, Copy)]
pub struct Heads {
    pub one: Option<Entry>,
    pub other: Option<Entry>,
}

impl Side {
    // A side with the link and an empty stack.
    pub fn new(link: u32) -> Side
        ensures { Starts link result }
    {
        Side {
            link: link,
            depth: 0,
            stack: [0; STACK],
        }
    }

    // A step down to the left, if there is a node.
    fn sink(&mut self, ws: &[u32])
        requires { Stands ws.now self.old }
        ensures { Sinks ws.now self.old self.new }
    {
        let i = self.link;
        if i != 0 {
            let d = node_at(ws, i);
            let top = self.depth;
            self.stack[top as usize] = i;
            self.link = d.left;
            self.depth = top + 1;
        }
    }

    // The entry that comes next on the stack, which is its top's.
    fn head(&self, ws: &[u32]) -> Option<Entry>
        requires { Stacked ws.now self.now.stack self.now.depth }
        ensures { Tops ws.now self.now result }
    {
        if self.depth == 0 {
            return None;
        }
        let top = self.depth - 1;
        let d = node_at(ws, self.stack[top as usize]);
        Some(d.entry)
    }

    // The top's entry is passed: what comes next is the top's right part.
    fn pop(&mut self, ws: &[u32])
        requires { Topped ws.now self.old.stack self.old.depth }
        ensures { Pops ws.now self.old self.new }
    {
        let top = self.depth - 1;
        self.link = right_of(ws, self.stack[top as usize]);
        self.depth = top;
    }
}

// Both sides go down until they stand at one link, which is none at the latest.
fn dive(ws: &[u32], one: &mut Side, other: &mut Side)
    requires stands { Stands ws.now one.old }
    requires stands_other { Stands ws.now other.old }
    ensures { Meets ws.now one.old other.old one.new other.new }
{
    while one.link != other.link {
        one.sink(ws);
        other.sink(ws);
    }
}

// Whether both sides have an entry next, and the same.
fn alike(h: Heads) -> bool
    ensures { result ≡ alike_heads (found_of h.one) (found_of h.other) }
{
    match (h.one, h.other) {
        (Some(x), Some(y)) => x == y,
        _ => false,
    }
}

// What both sides begin with alike is passed over, from wherever they stand. Where the sides are a
// caller's own, their links and depths stay in registers; through a reference each step stores
// them.
#[inline(always)]
pub fn walk(ws: &[u32], one: &mut Side, other: &mut Side) -> Heads
    requires stands { Stands ws.now one.old }
    requires stands_other { Stands ws.now other.old }
    ensures { Parts (ahead ws.now one.old) (ahead ws.now other.old) result }
{
    loop {
        dive(ws, one, other);
        let heads = Heads {
            one: one.head(ws),
            other: other.head(ws),
        };
        if !alike(heads) {
            return heads;
        }
        one.pop(ws);
        other.pop(ws);
    }
}

// Where the versions whose roots are the links i and j part.
pub fn part(ws: &[u32], i: u32, j: u32) -> Heads
    requires rooted { Rooted ws.now i max_height }
    requires rooted_other { Rooted ws.now j max_height }
    ensures { PartsBelow ws.now i j result }
{
    let mut one = Side::new(i);
    let mut other = Side::new(j);
    walk(ws, &mut one, &mut other)
}
