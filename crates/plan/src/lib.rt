// The plan: a call draws up its new nodes in a lent scratch before it writes a word of the arena.
// Here it is read; `planning` adds to it.
#![tactic(auto)]

ghost use Rattle.std.specs.Prelude.{◌≡◌, ◌+◌};
ghost use Rattle.plan.specs.Scratch.{PlanInside, IsPlanned};
ghost use Rattle.plan.specs.Held.{Some as SomeTree, Room};
ghost use Rattle.plan.specs.Colors.{word_of, Decodes, NodeDecodes, HasColor, IsNodeOf};
ghost use Rattle.plan.specs.Steps.{Finds, FindsColored};

use arena::{BLACK, Entry, RED, node_at, nodes_of};

// RULES 3.2: a node is "red or black".
#[derive(Clone, Copy, PartialEq, Eq)]
pub enum Color {
    Red,
    Black,
}

// A word that stands for no colour.
#[derive(Clone, Copy)]
pub struct NoColor;

impl From<Color> for u32 {
    ghost from_gives = { λ c r. r ≡ word_of c };

    fn from(c: Color) -> u32 {
        match c {
            Color::Red => RED,
            Color::Black => BLACK,
        }
    }
}

impl TryFrom<u32> for Color {
    type Error = NoColor;

    ghost try_from_gives = { Decodes };

    fn try_from(word: u32) -> Result<Color, NoColor> {
        match word {
            RED => Ok(Color::Red),
            BLACK => Ok(Color::Black),
            _ => Err(NoColor),
        }
    }
}

// A node as a step reads and writes it: that of `arena` with a colour for the colour's word.
#[derive(Clone, Copy)]
pub struct Node {
    pub entry: Entry,
    pub left: u32,
    pub right: u32,
    pub color: Color,
}

impl TryFrom<arena::Node> for Node {
    type Error = NoColor;

    ghost try_from_gives = { NodeDecodes };

    fn try_from(words: arena::Node) -> Result<Node, NoColor> {
        let color = Color::try_from(words.color)?;
        Ok(Node {
            entry: words.entry,
            left: words.left,
            right: words.right,
            color,
        })
    }
}

// The plan is lent as words, and not as a slice of `Node` with its count: `PlanInside`, `used` and
// what `planned` promises are about words. What asks for room in it is as `planning` says.
//
// The layout of the scratch: each number has one name here and one in the definitions.
pub const PLAN_HEADER_WORDS: usize = 1;

pub const PLAN_NODE_WORDS: usize = 5;

pub const PLAN_KEY_WORD: usize = 1;

pub const PLAN_VALUE_WORD: usize = 2;

pub const PLAN_LEFT_WORD: usize = 3;

pub const PLAN_RIGHT_WORD: usize = 4;

pub const PLAN_COLOR_WORD: usize = 5;

// The words of node j of the plan. It stays beside `arena::node_at`: what the two promise,
// `IsPlanned` and `IsNode`, are definitions apart.
pub fn planned(plan: &[u32], j: u32) -> arena::Node
    requires { PlanInside plan.now (j + 1) }
    ensures { IsPlanned plan.now j result }
{
    let b = PLAN_NODE_WORDS * (j as usize);
    arena::Node {
        entry: Entry {
            key: plan[b + PLAN_KEY_WORD],
            value: plan[b + PLAN_VALUE_WORD],
        },
        left: plan[b + PLAN_LEFT_WORD],
        right: plan[b + PLAN_RIGHT_WORD],
        color: plan[b + PLAN_COLOR_WORD],
    }
}

// The node that has these words. It is no `From`, since it asks that the colour's word is one.
fn node_of(words: arena::Node) -> Node
    requires { HasColor words }
    ensures { IsNodeOf words result }
{
    let Ok(x) = Node::try_from(words) else {
        unreachable!()
    };
    x
}

// The node at the link, if one is there.
pub fn look(ws: &[u32], plan: &[u32], link: u32) -> Option<Node>
    requires room { Room ws.now plan.now 0 }
    requires some { SomeTree ws.now plan.now link }
    ensures { Finds ws.now plan.now link result }
{
    if link == 0 {
        return None;
    }
    let n = nodes_of(ws);
    if link <= n {
        Some(node_of(node_at(ws, link)))
    } else {
        Some(node_of(planned(plan, link - (n + 1))))
    }
}

// The node at the link, if one is there and has the colour: what the matches on `Option<Color>` in
// 000 test.
#[tactic(auto, using(crate::proofs::Looking::found_none, crate::proofs::Looking::found_colored, crate::proofs::Looking::found_other))]
pub fn colored(ws: &[u32], plan: &[u32], link: u32, color: Color) -> Option<Node>
    requires room { Room ws.now plan.now 0 }
    requires some { SomeTree ws.now plan.now link }
    ensures { FindsColored ws.now plan.now link color result }
{
    match look(ws, plan, link) {
        Some(x) if x.color == color => Some(x),
        _ => None,
    }
}
