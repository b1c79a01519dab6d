// The commit of a planned tree: its fresh nodes are counted, the kept nodes that it names are
// counted up, and the fresh ones are made bottom up. Each step takes the plan as `plan` has it: as
// words apart from the arena's, and a link above the arena's nodes for a planned one.
#![tactic(auto)]

ghost use Rattle.commit.specs.Planned.{Countable, Counts, Raisable, Raises, Buildable, Builds};

use arena::Node;
use nodes::{count_up, make_node};
use plan::planned;

// How many nodes the tree planned at the link makes; its height is h at most.
pub fn fresh_nodes(n: u32, plan: &[u32], link: u32, h: u32) -> u32
    requires { Countable n plan.now link h }
    ensures { Counts n plan.now link result }
{
    if link <= n {
        return 0;
    }
    let d = planned(plan, link - (n + 1));
    let a = fresh_nodes(n, plan, d.left, h - 1);
    let b = fresh_nodes(n, plan, d.right, h - 1);
    a + b + 1
}

// One name more for each kept node that the planned tree names from a fresh one, or as its root.
pub fn count_up_kept(ws: &mut [u32], n: u32, plan: &[u32], link: u32, h: u32)
    requires { Raisable ws.old n plan.now link h }
    ensures { Raises ws.old ws.new n plan.now link }
{
    if link <= n {
        count_up(ws, link);
        return;
    }
    let d = planned(plan, link - (n + 1));
    count_up_kept(ws, n, plan, d.left, h - 1);
    count_up_kept(ws, n, plan, d.right, h - 1);
}

// Makes the fresh nodes of the planned tree, bottom up, and answers its link in the arena.
pub fn build(ws: &mut [u32], n: u32, plan: &[u32], link: u32, h: u32) -> u32
    requires { Buildable ws.old n plan.now link h }
    ensures { Builds ws.old ws.new n plan.now link result }
{
    if link <= n {
        return link;
    }
    let d = planned(plan, link - (n + 1));
    let left = build(ws, n, plan, d.left, h - 1);
    let right = build(ws, n, plan, d.right, h - 1);
    make_node(ws, Node { left, right, ..d })
}
