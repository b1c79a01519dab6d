// Insert and remove, on a sound arena: RULES 4.10, 4.11, 4.37 and 4.38. `red_black_tree_map` tests
// the arena first. Each keeps the free number beside the words.
#![tactic(auto)]

ghost use Rattle.std.specs.Prelude.{◌≡◌, ◌+◌, ◌<◌, if◌then◌else◌};
ghost use Rattle.heights.specs.Height.{insert_reserve, remove_reserve};
ghost use Rattle.trees.specs.Edit.{setting, cutting};
ghost use Rattle.words.specs.Sound.{Sound};
ghost use Rattle.arena.specs.Nodes.{entry_of};
ghost use Rattle.calls.specs.Call.{Call};
ghost use Rattle.calls.specs.Outcome.{Outcome};
ghost use Rattle.versions.specs.Free.{FreeIs, HasFree};
ghost use Rattle.versions.specs.Slots.{Parents, slot_answer};
ghost use Rattle.writing.specs.Planned.{Planned, Puts, Edits, Present};

use answers::Refusal;
use arena::{Entry, MAX_HEIGHT, nodes_of, put_slot};
use heights::conservative_height;
use versions::{Parent, open, share};

// Room for the nodes that an insertion plans, and for those of a removal: `insert_room` and
// `remove_room` of the greatest height.
const INSERT_PLAN_WORDS: usize = 341;

const REMOVE_PLAN_WORDS: usize = 886;

// RULES 5.3: "An insert needs H(n) + 1 free nodes". It and the next stay two, each with the sum and
// the definition of its rule; what they ask of a size is that the height can be had of it.
fn insert_reserve(size: u32) -> u32
    requires { size < 4294967295 }
    ensures { result ≡ insert_reserve size }
{
    conservative_height(size) + 1
}

// RULES 5.4: "A remove needs 6 × H(n) + 2 free nodes where the version has the key."
fn remove_reserve(size: u32) -> u32
    requires { size < 4294967295 }
    ensures { result ≡ remove_reserve size }
{
    6 * conservative_height(size) + 2
}

// Puts the planned tree into the arena, and into slot q with its size. Answers how many nodes that
// took.
fn commit_to(ws: &mut [u32], plan: &[u32], link: u32, q: u32, size: u32) -> u32
    requires { Planned ws.old plan.now link q }
    ensures { Puts ws.old ws.new plan.now link q size result }
{
    let n = nodes_of(ws);
    let taken = commit::fresh_nodes(n, plan, link, MAX_HEIGHT);
    commit::count_up_kept(ws, n, plan, link, MAX_HEIGHT);
    let root = commit::build(ws, n, plan, link, MAX_HEIGHT);
    put_slot(ws, n, q, root, size);
    taken
}

// RULES 6.26: one entry more where the key is new.
fn size_with(size: u32, new: bool) -> u32
    requires { size < 4294967295 }
    ensures { result ≡ size + (if new then 1 else 0) }
{
    if new { size + 1 } else { size }
}

// The parent with the entry set is put into the slot handed out. Answers how many nodes that took.
fn insert_into(ws: &mut [u32], p: Parent, e: Entry) -> u32
    requires parents { Parents ws.old p }
    requires has_free { HasFree ws.old (insert_reserve p.size) }
    ensures { Edits ws.old ws.new p (setting (entry_of e)) result }
{
    let mut plan = [0u32; INSERT_PLAN_WORDS];
    let t = insertion::insert(ws, &mut plan, p.root, e, MAX_HEIGHT);
    let size = size_with(p.size, t.new);
    commit_to(ws, &plan, t.link, p.out, size)
}

// The parent with a key of it cut.
fn remove_from(ws: &mut [u32], p: Parent, key: u32) -> u32
    requires parents { Parents ws.old p }
    requires has_free { HasFree ws.old (remove_reserve p.size) }
    requires present { Present ws.old p key }
    ensures { Edits ws.old ws.new p (cutting key) result }
{
    let mut plan = [0u32; REMOVE_PLAN_WORDS];
    let link = removal::remove(ws, &mut plan, p.root, key, MAX_HEIGHT);
    commit_to(ws, &plan, link, p.out, p.size - 1)
}

// A slot for the parent with the entry set.
pub fn insert(ws: &mut [u32], s: u32, e: Entry, free: &mut u32) -> Result<u32, Refusal>
    requires sound { Sound ws.old }
    requires free_is { FreeIs ws.old free.old }
    ensures outcome { Outcome (Call.insert s (entry_of e)) ws.old (slot_answer result) ws.new }
    ensures free_after { FreeIs ws.new free.new }
{
    let p = open(ws, s)?;
    if *free < insert_reserve(p.size) {
        return Err(Refusal::NoRoom);
    }
    *free -= insert_into(ws, p, e);
    Ok(p.out)
}

// A slot for the parent without the key: of an absent key the parent itself (RULES 6.38), which
// needs no free node (RULES 5.5).
pub fn remove(ws: &mut [u32], s: u32, key: u32, free: &mut u32) -> Result<u32, Refusal>
    requires sound { Sound ws.old }
    requires free_is { FreeIs ws.old free.old }
    ensures outcome { Outcome (Call.remove s key) ws.old (slot_answer result) ws.new }
    ensures free_after { FreeIs ws.new free.new }
{
    let p = open(ws, s)?;
    if lookup::get(ws, p.root, key).is_none() {
        share(ws, p);
        return Ok(p.out);
    }
    if *free < remove_reserve(p.size) {
        return Err(Refusal::NoRoom);
    }
    *free -= remove_from(ws, p, key);
    Ok(p.out)
}
