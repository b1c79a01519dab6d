// 000's `del` with its two sides, and `remove`, on a read-only arena and a plan. Module 6
// (RULES 6.7, 13.12), whose other parts stand in `turning`, `rebalancing` and `fusing`.
// The arena and the plan are two parameters, as `planning` says.
#![tactic(auto)]

ghost use Rattle.std.specs.Prelude.{◌+◌};
ghost use Rattle.trees.specs.Remove.{del as delOf};
ghost use Rattle.plan.specs.Held.{Room};
ghost use Rattle.plan.specs.Steps.{Steps, Turns};
ghost use Rattle.turning.specs.Promises.{side_room};
ghost use Rattle.removal.specs.Promises.{del_room, remove_room, cut_left, cut_right, RedBlack, Sides, Removes};

use fusing::remove_fuse;
use plan::Color::{Black, Red};
use plan::{Node, colored, look};
use planning::{paint, push};
use rebalancing::{remove_balance_left_node, remove_balance_right_node};

// Removes k on the left of x, whose sides are of height h at most.
#[cycle(del_del_left_del_right)]
fn del_left(ws: &[u32], plan: &mut [u32], x: Node, k: u32, h: u32) -> u32
    requires room { Room ws.now plan.old (del_room h + side_room) }
    requires sides { Sides ws.now plan.old x h }
    ensures { Steps ws.now plan.old plan.new (del_room h + side_room) x result (cut_left k) }
{
    let was_black = colored(ws, plan, x.left, Black).is_some();
    let left = del(ws, plan, x.left, k, h);
    let y = Node {
        left,
        color: Red,
        ..x
    };
    if was_black {
        return remove_balance_left_node(ws, plan, y);
    }
    push(ws, plan, y)
}

// Removes k on the right of x, whose sides are of height h at most. It mirrors `del_left`, and
// RULES 13.12 name both.
#[cycle(del_del_left_del_right)]
fn del_right(ws: &[u32], plan: &mut [u32], x: Node, k: u32, h: u32) -> u32
    requires room { Room ws.now plan.old (del_room h + side_room) }
    requires sides { Sides ws.now plan.old x h }
    ensures { Steps ws.now plan.old plan.new (del_room h + side_room) x result (cut_right k) }
{
    let was_black = colored(ws, plan, x.right, Black).is_some();
    let right = del(ws, plan, x.right, k, h);
    let y = Node {
        right,
        color: Red,
        ..x
    };
    if was_black {
        return remove_balance_right_node(ws, plan, y);
    }
    push(ws, plan, y)
}

// Removes k from the tree at the link, whose height is h at most.
#[cycle(del_del_left_del_right)]
fn del(ws: &[u32], plan: &mut [u32], link: u32, k: u32, h: u32) -> u32
    requires room { Room ws.now plan.old (del_room h) }
    requires red_black { RedBlack ws.now plan.old link h }
    ensures { Turns ws.now plan.old plan.new (del_room h) link result (delOf k) }
{
    let Some(x) = look(ws, plan, link) else {
        return 0;
    };
    if k < x.entry.key {
        return del_left(ws, plan, x, k, h - 1);
    }
    if x.entry.key < k {
        return del_right(ws, plan, x, k, h - 1);
    }
    remove_fuse(ws, plan, x.left, x.right, (h - 1) * 2)
}

// `remove` of a key that is there, on the tree at the root, whose height is h at most: the root
// ends black.
pub fn remove(ws: &[u32], plan: &mut [u32], root: u32, k: u32, h: u32) -> u32
    requires room { Room ws.now plan.old (remove_room h) }
    requires red_black { RedBlack ws.now plan.old root h }
    ensures { Removes ws.now plan.old plan.new (remove_room h) root result k }
{
    let t = del(ws, plan, root, k, h);
    paint(ws, plan, t, Black)
}
