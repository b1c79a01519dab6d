// 000's `remove_fuse` (RULES 6.32) on a read-only arena and a plan. A part of module 6 (RULES 6.7).
// The arena and the plan are two parameters, as `planning` says.
#![tactic(auto)]

ghost use Rattle.trees.specs.Remove.{fuse};
ghost use Rattle.plan.specs.Held.{Room};
ghost use Rattle.fusing.specs.Promises.{join_room, fuse_room, Twin, Joins, Ends, Fuses};

use plan::Color::{Black, Red};
use plan::{Node, colored, look};
use planning::{copy, push};
use rebalancing::remove_balance_left_node;

// Two nodes of one colour, and m, to which their inner children were fused: a red one comes between
// them, any other below.
fn fuse_join(ws: &[u32], plan: &mut [u32], a: Node, m: u32, b: Node) -> u32
    requires room { Room ws.now plan.old join_room }
    requires ends { Ends ws.now plan.old a m b }
    ensures { Fuses ws.now plan.old plan.new a m b result }
{
    if let Some(f) = colored(ws, plan, m, Red) {
        let left = push(ws, plan, Node { right: f.left, ..a });
        let right = push(ws, plan, Node { left: f.right, ..b });
        return push(ws, plan, Node { left, right, ..f });
    }
    let right = push(ws, plan, Node { left: m, ..b });
    let top = Node {
        right,
        color: Red,
        ..a
    };
    match a.color {
        Red => push(ws, plan, top),
        Black => remove_balance_left_node(ws, plan, top),
    }
}

// Fuses two trees whose heights add up to h at most.
pub fn remove_fuse(ws: &[u32], plan: &mut [u32], l: u32, r: u32, h: u32) -> u32
    requires room { Room ws.now plan.old (fuse_room h) }
    requires twin { Twin ws.now plan.old l r h }
    ensures { Joins ws.now plan.old plan.new (fuse_room h) l r result fuse }
{
    let Some(a) = look(ws, plan, l) else {
        return copy(ws, plan, r);
    };
    let Some(b) = look(ws, plan, r) else {
        return copy(ws, plan, l);
    };
    match (a.color, b.color) {
        (Black, Red) => {
            let m = remove_fuse(ws, plan, l, b.left, h - 1);
            push(ws, plan, Node { left: m, ..b })
        },
        (Red, Black) => {
            let m = remove_fuse(ws, plan, a.right, r, h - 1);
            push(ws, plan, Node { right: m, ..a })
        },
        // Both of one colour.
        _ => {
            let m = remove_fuse(ws, plan, a.right, b.left, h - 2);
            fuse_join(ws, plan, a, m, b)
        },
    }
}
