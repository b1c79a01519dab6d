// What adds to a plan. Nodes are only added, so that what a link holds, it goes on holding.
//
// The arena and the plan stay two parameters of each step. As one struct that holds the `&mut`,
// each step would ensure beside its promise that the field keeps its ghost name: a clause more, and
// none less.
#![tactic(auto)]

ghost use Rattle.std.specs.Prelude.{◌≡◌, ◌+◌, ◌<◌};
ghost use Rattle.trees.specs.Tree.{copy as copy_of, paint as paint_of};
ghost use Rattle.plan.specs.Scratch.{used, PlanInside};
ghost use Rattle.plan.specs.Colors.{color_of};
ghost use Rattle.plan.specs.Held.{Some as SomeTree, word_limit, Room};
ghost use Rattle.plan.specs.Steps.{Steps, itself, Turns};
ghost use Rattle.planning.specs.Pushed.{pushed};

use arena::nodes_of;
use plan::{
    Color, Node, PLAN_COLOR_WORD, PLAN_KEY_WORD, PLAN_LEFT_WORD, PLAN_NODE_WORDS, PLAN_RIGHT_WORD,
    PLAN_VALUE_WORD, look,
};

// Writes x after the plan's nodes.
#[tactic(auto, unfolding(crate::specs::Pushed::pushed))]
fn write_node(plan: &mut [u32], x: Node)
    requires plan_inside { PlanInside plan.old (used plan.old + 1) }
    requires plan_bound { used plan.old + 1 < word_limit }
    ensures { plan.new ≡ pushed plan.old x }
{
    let j = plan[0];
    let b = PLAN_NODE_WORDS * (j as usize);
    plan[b + PLAN_KEY_WORD] = x.entry.key;
    plan[b + PLAN_VALUE_WORD] = x.entry.value;
    plan[b + PLAN_LEFT_WORD] = x.left;
    plan[b + PLAN_RIGHT_WORD] = x.right;
    plan[b + PLAN_COLOR_WORD] = u32::from(x.color);
    plan[0] = j + 1;
}

// Adds the node x, and answers its link.
pub fn push(ws: &[u32], plan: &mut [u32], x: Node) -> u32
    requires { Room ws.now plan.old 1 }
    ensures { Steps ws.now plan.old plan.new 1 x result itself }
{
    let j = plan[0];
    write_node(plan, x);
    nodes_of(ws) + 1 + j
}

// The node at the link made anew, as `make_mut` does; none stays none.
pub fn copy(ws: &[u32], plan: &mut [u32], link: u32) -> u32
    requires room { Room ws.now plan.old 1 }
    requires some { SomeTree ws.now plan.old link }
    ensures { Turns ws.now plan.old plan.new 1 link result copy_of }
{
    match look(ws, plan, link) {
        Some(x) => push(ws, plan, x),
        None => 0,
    }
}

// The node at the link made anew in a colour: a shared node keeps its own.
pub fn paint(ws: &[u32], plan: &mut [u32], link: u32, color: Color) -> u32
    requires room { Room ws.now plan.old 1 }
    requires some { SomeTree ws.now plan.old link }
    ensures { Turns ws.now plan.old plan.new 1 link result (paint_of (color_of color)) }
{
    match look(ws, plan, link) {
        Some(x) => push(ws, plan, Node { color, ..x }),
        None => 0,
    }
}
