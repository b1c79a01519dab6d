// 000's `remove_balance`, and the third arms of its two sides, on a read-only arena and a plan. A
// part of module 6 (RULES 6.7).
// The arena and the plan are two parameters, as `planning` says.
#![tactic(auto)]

ghost use Rattle.trees.specs.Remove.{remove_balance};
ghost use Rattle.plan.specs.Held.{Some as SomeTree, Room};
ghost use Rattle.plan.specs.Steps.{Looks, Steps, StepsFrom};
ghost use Rattle.balancing.specs.Promises.{balance_room};
ghost use Rattle.turning.specs.Promises.{side_room, turned_left, turned_right};

use arena::Entry;
use balancing::balance_node;
use plan::Color::{Black, Red};
use plan::{Node, colored, look};
use planning::{paint, push};

// RULES 6.33: "of a missing node the entry with key and value 0 and no children".
const MISSING: Node = Node {
    entry: Entry { key: 0, value: 0 },
    left: 0,
    right: 0,
    color: Red,
};

// RULES 6.29, at a node that its caller has made black: two red children are painted black, else
// `balance`.
pub fn remove_balance_node(ws: &[u32], plan: &mut [u32], x: Node) -> u32
    requires room { Room ws.now plan.old balance_room }
    requires some { SomeTree ws.now plan.old x.left }
    requires some_right { SomeTree ws.now plan.old x.right }
    ensures { Steps ws.now plan.old plan.new balance_room x result remove_balance }
{
    let l = colored(ws, plan, x.left, Red);
    let r = colored(ws, plan, x.right, Red);
    match (l, r) {
        (Some(_), Some(_)) => {
            let left = paint(ws, plan, x.left, Black);
            let right = paint(ws, plan, x.right, Black);
            let top = Node {
                left,
                right,
                color: Red,
                ..x
            };
            push(ws, plan, top)
        },
        _ => balance_node(ws, plan, x),
    }
}

// `remove_balance` of a node in the arena's words, as `balancing` says of `balance`.
pub fn remove_balance(ws: &[u32], plan: &mut [u32], words: arena::Node) -> u32
    requires room { Room ws.now plan.old balance_room }
    requires some { SomeTree ws.now plan.old words.left }
    requires some_right { SomeTree ws.now plan.old words.right }
    ensures { StepsFrom ws.now plan.old plan.new balance_room words result remove_balance }
{
    match Node::try_from(words) {
        Ok(x) => remove_balance_node(ws, plan, x),
        Err(_) => 0,
    }
}

// RULES 6.30, the third case: r is the red right child of x, and its black left child rises.
pub fn turn_left(ws: &[u32], plan: &mut [u32], x: Node, r: Node) -> u32
    requires room { Room ws.now plan.old side_room }
    requires looks { Looks ws.now plan.old x.right r }
    ensures { Steps ws.now plan.old plan.new side_room x result turned_left }
{
    let m = look(ws, plan, r.left).unwrap_or(MISSING);
    let outer = paint(ws, plan, r.right, Red);
    let s = Node {
        left: m.right,
        right: outer,
        color: Black,
        ..r
    };
    let right = remove_balance_node(ws, plan, s);
    let y = Node {
        right: m.left,
        color: Black,
        ..x
    };
    let left = push(ws, plan, y);
    let top = Node {
        left,
        right,
        color: Red,
        ..m
    };
    push(ws, plan, top)
}

// RULES 6.31, the third case: l is the red left child of x, and its black right child rises. It
// mirrors `turn_left` and stays beside it, as `balancing` says of its halves: `turned_left` and
// `turned_right` are definitions apart.
pub fn turn_right(ws: &[u32], plan: &mut [u32], x: Node, l: Node) -> u32
    requires room { Room ws.now plan.old side_room }
    requires looks { Looks ws.now plan.old x.left l }
    ensures { Steps ws.now plan.old plan.new side_room x result turned_right }
{
    let m = look(ws, plan, l.right).unwrap_or(MISSING);
    let outer = paint(ws, plan, l.left, Red);
    let s = Node {
        left: outer,
        right: m.left,
        color: Black,
        ..l
    };
    let left = remove_balance_node(ws, plan, s);
    let y = Node {
        left: m.right,
        color: Black,
        ..x
    };
    let right = push(ws, plan, y);
    let top = Node {
        left,
        right,
        color: Red,
        ..m
    };
    push(ws, plan, top)
}
