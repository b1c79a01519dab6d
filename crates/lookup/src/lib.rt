// Module 3 (RULES 6.4, 13.9): lookups over node numbers, the remaining height falling. "`get`: a
// loop; `first`, `last`: recursive descents". The words are a plain slice to each (RULES 13.8), so
// each asks for a link that is rooted in them.
#![tactic(auto)]

ghost use Rattle.std.specs.Prelude.{◌≡◌, ltb, if◌then◌else◌};
ghost use Rattle.words.specs.Layout.{max_height};
ghost use Rattle.trees.specs.Lookup.{get as getOf, first as firstIn, last as last_in};
ghost use Rattle.lookup.specs.Finding.{Rooted, Finds};
ghost use Rattle.lookup.specs.Ends.{toward as towardOf, away as awayOf, opposite as oppositeOf, entry_at};

use arena::{Entry, MAX_HEIGHT, Node, node_at};

// RULES 7.4: the ends of a listing.
#[derive(Clone, Copy)]
pub enum End {
    Front,
    Back,
}

impl End {
    // The child of a node that lies towards this end.
    pub fn toward(self, d: Node) -> u32
        ensures { result ≡ towardOf self d }
    {
        match self {
            End::Front => d.left,
            End::Back => d.right,
        }
    }

    // The child that lies away from it.
    pub fn away(self, d: Node) -> u32
        ensures { result ≡ awayOf self d }
    {
        match self {
            End::Front => d.right,
            End::Back => d.left,
        }
    }

    pub fn opposite(self) -> End
        ensures { result ≡ oppositeOf self }
    {
        match self {
            End::Front => End::Back,
            End::Back => End::Front,
        }
    }
}

// Where the descent of `get` goes on below a node of another key.
fn side(d: Node, key: u32) -> u32
    ensures { result ≡ (if ltb key d.entry.key then d.left else d.right) }
{
    let e = d.entry;
    if key < e.key {
        return d.left;
    }
    d.right
}

// The entry with the key, in the version whose root is the link i. The remaining height h is what
// falls (RULES 13.9), and no instruction is made of it: the descent ends at a link, not at a count.
pub fn get(ws: &[u32], i: u32, key: u32) -> Option<Entry>
    requires { Rooted ws.now i max_height }
    ensures { Finds ws.now i result (getOf key) }
{
    let mut at = i;
    let mut h = MAX_HEIGHT;
    while at != 0 {
        let d = node_at(ws, at);
        let e = d.entry;
        if key == e.key {
            return Some(e);
        }
        // A node without children ends the descent. Since both links are asked for here, the side
        // is chosen between two numbers that are there, and not loaded once the keys are compared.
        if d.left == 0 {
            if d.right == 0 {
                return None;
            }
        }
        at = side(d, key);
        h -= 1;
    }
    None
}

// The entry at that end of the tree at the link i.
fn entry_at(ws: &[u32], i: u32, h: u32, end: End) -> Option<Entry>
    requires { Rooted ws.now i h }
    ensures { Finds ws.now i result (entry_at end) }
{
    if i == 0 {
        return None;
    }
    let d = node_at(ws, i);
    let nearer = entry_at(ws, end.toward(d), h - 1, end);
    nearer.or(Some(d.entry))
}

// The entry with the least key. `first` and `last` are 000's names, each with its definition.
pub fn first(ws: &[u32], i: u32) -> Option<Entry>
    requires { Rooted ws.now i max_height }
    ensures { Finds ws.now i result firstIn }
{
    entry_at(ws, i, MAX_HEIGHT, End::Front)
}

// The entry with the greatest key.
pub fn last(ws: &[u32], i: u32) -> Option<Entry>
    requires { Rooted ws.now i max_height }
    ensures { Finds ws.now i result last_in }
{
    entry_at(ws, i, MAX_HEIGHT, End::Back)
}
