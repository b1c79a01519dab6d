// 000's `remove_balance_left` and `remove_balance_right` (RULES 6.30, 6.31) on a read-only arena
// and a plan. A part of module 6 (RULES 6.7).
// The arena and the plan are two parameters, as `planning` says.
#![tactic(auto)]

ghost use Rattle.trees.specs.Tree.{lf, rt};
ghost use Rattle.plan.specs.Held.{Some as SomeTree, Room};
ghost use Rattle.plan.specs.Steps.{Steps, StepsFrom};
ghost use Rattle.turning.specs.Promises.{side_room};
ghost use Rattle.rebalancing.specs.Promises.{balance_left, balance_right, Leans};

use plan::Color::{Black, Red};
use plan::{Node, colored};
use planning::{paint, push};
use turning::{remove_balance_node, turn_left, turn_right};

// The left side is one black level short. What the right side has to be leaves no fourth arm: it is
// black where it is not red.
pub fn remove_balance_left_node(ws: &[u32], plan: &mut [u32], x: Node) -> u32
    requires room { Room ws.now plan.old side_room }
    requires some { SomeTree ws.now plan.old x.left }
    requires leans { Leans ws.now plan.old x.right lf }
    ensures { Steps ws.now plan.old plan.new side_room x result balance_left }
{
    if colored(ws, plan, x.left, Red).is_some() {
        let left = paint(ws, plan, x.left, Black);
        let y = Node {
            left,
            color: Red,
            ..x
        };
        return push(ws, plan, y);
    }
    let Some(r) = colored(ws, plan, x.right, Red) else {
        let right = paint(ws, plan, x.right, Red);
        let y = Node {
            right,
            color: Black,
            ..x
        };
        return remove_balance_node(ws, plan, y);
    };
    turn_left(ws, plan, x, r)
}

// The right side is one black level short. What the left side has to be leaves no fourth arm: it is
// black where it is not red. It mirrors the left, and RULES 6.7 name both.
pub fn remove_balance_right_node(ws: &[u32], plan: &mut [u32], x: Node) -> u32
    requires room { Room ws.now plan.old side_room }
    requires leans { Leans ws.now plan.old x.left rt }
    requires some { SomeTree ws.now plan.old x.right }
    ensures { Steps ws.now plan.old plan.new side_room x result balance_right }
{
    if colored(ws, plan, x.right, Red).is_some() {
        let right = paint(ws, plan, x.right, Black);
        let y = Node {
            right,
            color: Red,
            ..x
        };
        return push(ws, plan, y);
    }
    let Some(l) = colored(ws, plan, x.left, Red) else {
        let left = paint(ws, plan, x.left, Red);
        let y = Node {
            left,
            color: Black,
            ..x
        };
        return remove_balance_node(ws, plan, y);
    };
    turn_right(ws, plan, x, l)
}

// `remove_balance_left` of a node in the arena's words, as `balancing` says of `balance`.
pub fn remove_balance_left(ws: &[u32], plan: &mut [u32], words: arena::Node) -> u32
    requires room { Room ws.now plan.old side_room }
    requires some { SomeTree ws.now plan.old words.left }
    requires leans { Leans ws.now plan.old words.right lf }
    ensures { StepsFrom ws.now plan.old plan.new side_room words result balance_left }
{
    match Node::try_from(words) {
        Ok(x) => remove_balance_left_node(ws, plan, x),
        Err(_) => 0,
    }
}

// `remove_balance_right` likewise.
pub fn remove_balance_right(ws: &[u32], plan: &mut [u32], words: arena::Node) -> u32
    requires room { Room ws.now plan.old side_room }
    requires leans { Leans ws.now plan.old words.left rt }
    requires some { SomeTree ws.now plan.old words.right }
    ensures { StepsFrom ws.now plan.old plan.new side_room words result balance_right }
{
    match Node::try_from(words) {
        Ok(x) => remove_balance_right_node(ws, plan, x),
        Err(_) => 0,
    }
}
