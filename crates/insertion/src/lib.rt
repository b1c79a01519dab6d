// 000's `insert` on a read-only arena and a plan. Module 5 (RULES 6.6).
// The arena and the plan are two parameters, as `planning` says.
#![tactic(auto)]

ghost use Rattle.std.specs.Prelude.{not};
ghost use Rattle.trees.specs.Insert.{settle as settleOf, ins as insOf, insert as insertOf};
ghost use Rattle.arena.specs.Nodes.{entry_of};
ghost use Rattle.plan.specs.Held.{Some as SomeTree, Held, Room};
ghost use Rattle.plan.specs.Steps.{Steps, Turns};
ghost use Rattle.balancing.specs.Promises.{balance_room};
ghost use Rattle.insertion.specs.Promises.{ins_room, insert_room, News};

use arena::Entry;
use balancing::balance_node;
use plan::Color::{Black, Red};
use plan::{Node, look};
use planning::{paint, push};

// A link, and whether its key is new. No `Option`: the link is there either way.
#[derive(Clone, Copy)]
pub struct Put {
    pub link: u32,
    pub new: bool,
}

// RULES 6.25: "For a new key `balance` runs at each node of the path, on the way up."
#[tactic(auto, using(crate::proofs::Inserting::settle_new, crate::proofs::Inserting::settle_old))]
fn settle(ws: &[u32], plan: &mut [u32], x: Node, new: bool) -> u32
    requires room { Room ws.now plan.old balance_room }
    requires some { SomeTree ws.now plan.old x.left }
    requires some_right { SomeTree ws.now plan.old x.right }
    ensures { Steps ws.now plan.old plan.new balance_room x result (settleOf (not new)) }
{
    if new {
        balance_node(ws, plan, x)
    } else {
        push(ws, plan, x)
    }
}

// Inserts e into the tree at the link, whose height is h at most.
fn ins(ws: &[u32], plan: &mut [u32], link: u32, e: Entry, h: u32) -> Put
    requires room { Room ws.now plan.old (ins_room h) }
    requires held { Held ws.now plan.old link h }
    ensures turns { Turns ws.now plan.old plan.new (ins_room h) link result.link (insOf (entry_of e)) }
    ensures news { News ws.now plan.old link e.key result.new }
{
    let Some(x) = look(ws, plan, link) else {
        let y = Node {
            entry: e,
            left: 0,
            right: 0,
            color: Red,
        };
        return Put {
            link: push(ws, plan, y),
            new: true,
        };
    };
    if e.key < x.entry.key {
        let l = ins(ws, plan, x.left, e, h - 1);
        let y = Node { left: l.link, ..x };
        return Put {
            link: settle(ws, plan, y, l.new),
            new: l.new,
        };
    }
    if x.entry.key < e.key {
        let r = ins(ws, plan, x.right, e, h - 1);
        let y = Node { right: r.link, ..x };
        return Put {
            link: settle(ws, plan, y, r.new),
            new: r.new,
        };
    }
    Put {
        link: push(ws, plan, Node { entry: e, ..x }),
        new: false,
    }
}

// `insert` on the tree at the root, whose height is h at most. RULES 6.26: "The root ends black".
pub fn insert(ws: &[u32], plan: &mut [u32], root: u32, e: Entry, h: u32) -> Put
    requires room { Room ws.now plan.old (insert_room h) }
    requires held { Held ws.now plan.old root h }
    ensures turns { Turns ws.now plan.old plan.new (insert_room h) root result.link (insertOf (entry_of e)) }
    ensures news { News ws.now plan.old root e.key result.new }
{
    let p = ins(ws, plan, root, e, h);
    Put {
        link: paint(ws, plan, p.link, Black),
        new: p.new,
    }
}
