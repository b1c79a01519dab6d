// 000's `balance` on a read-only arena and a plan. Module 4 (RULES 6.5).
// The arena and the plan are two parameters, as `planning` says.
#![tactic(auto)]

ghost use Rattle.std.specs.Prelude.{◌≡◌};
ghost use Rattle.trees.specs.Insert.{balance as balanceOf};
ghost use Rattle.plan.specs.declared.Color.TheVariants.{Black};
ghost use Rattle.plan.specs.Held.{Some as SomeTree, Room};
ghost use Rattle.plan.specs.Steps.{Steps, StepsFrom};
ghost use Rattle.balancing.specs.Promises.{balance_room, Rises, Calm};

use plan::Color::{Black, Red};
use plan::{Node, colored};
use planning::push;

// RULES 6.23: "the middle entry goes up as a red node and has two black children": y between x and
// z.
fn rise(ws: &[u32], plan: &mut [u32], x: Node, y: Node, z: Node) -> u32
    requires { Room ws.now plan.old balance_room }
    ensures { Rises ws.now plan.old plan.new x y z result }
{
    let left = push(ws, plan, Node { color: Black, ..x });
    let right = push(ws, plan, Node { color: Black, ..z });
    let top = Node {
        left,
        right,
        color: Red,
        ..y
    };
    push(ws, plan, top)
}

// RULES 6.21, 6.22: the third and the fourth case, at a black node to which the first two do not
// apply. They mirror those and stay beside them: with the side as an argument each field that is
// read or set would be a call, since a struct update cannot choose its field.
fn balance_right(ws: &[u32], plan: &mut [u32], x: Node) -> u32
    requires room { Room ws.now plan.old balance_room }
    requires color_value { x.color ≡ Black }
    requires calm { Calm ws.now plan.old x.left }
    requires some { SomeTree ws.now plan.old x.right }
    ensures { Steps ws.now plan.old plan.new balance_room x result balanceOf }
{
    if let Some(r) = colored(ws, plan, x.right, Red) {
        if let Some(rl) = colored(ws, plan, r.left, Red) {
            let a = Node {
                right: rl.left,
                ..x
            };
            let b = Node {
                left: rl.right,
                ..r
            };
            return rise(ws, plan, a, rl, b);
        }
        if let Some(rr) = colored(ws, plan, r.right, Red) {
            let a = Node { right: r.left, ..x };
            return rise(ws, plan, a, r, rr);
        }
    }
    push(ws, plan, x)
}

// RULES 6.19 to 6.22: the four cases at a black node, in this order.
fn balance_black(ws: &[u32], plan: &mut [u32], x: Node) -> u32
    requires room { Room ws.now plan.old balance_room }
    requires color_value { x.color ≡ Black }
    requires some { SomeTree ws.now plan.old x.left }
    requires some_right { SomeTree ws.now plan.old x.right }
    ensures { Steps ws.now plan.old plan.new balance_room x result balanceOf }
{
    if let Some(l) = colored(ws, plan, x.left, Red) {
        if let Some(ll) = colored(ws, plan, l.left, Red) {
            let b = Node { left: l.right, ..x };
            return rise(ws, plan, ll, l, b);
        }
        if let Some(lr) = colored(ws, plan, l.right, Red) {
            let a = Node {
                right: lr.left,
                ..l
            };
            let b = Node {
                left: lr.right,
                ..x
            };
            return rise(ws, plan, a, lr, b);
        }
    }
    balance_right(ws, plan, x)
}

// RULES 6.18: "`balance` changes a black node only": x is written down with what balances it.
pub fn balance_node(ws: &[u32], plan: &mut [u32], x: Node) -> u32
    requires room { Room ws.now plan.old balance_room }
    requires some { SomeTree ws.now plan.old x.left }
    requires some_right { SomeTree ws.now plan.old x.right }
    ensures { Steps ws.now plan.old plan.new balance_room x result balanceOf }
{
    match x.color {
        Black => balance_black(ws, plan, x),
        Red => push(ws, plan, x),
    }
}

// `balance` of a node in the arena's words, whose colour may be any word: nothing is made of one
// that is no colour.
pub fn balance(ws: &[u32], plan: &mut [u32], words: arena::Node) -> u32
    requires room { Room ws.now plan.old balance_room }
    requires some { SomeTree ws.now plan.old words.left }
    requires some_right { SomeTree ws.now plan.old words.right }
    ensures { StepsFrom ws.now plan.old plan.new balance_room words result balanceOf }
{
    match Node::try_from(words) {
        Ok(x) => balance_node(ws, plan, x),
        Err(_) => 0,
    }
}
