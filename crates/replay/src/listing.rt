// Compares a version's listing, walked from the front, with the one of a line: STATUS, and then a
// key and a value for each entry.
use super::expected::ACCEPTED;
use answers::Refusal;
use arena::Entry;
use red_black_tree_map::step_front;
use walking::Walk;

// The next entry of a walk over the whole version whose last key at the front is this one. Two
// programs have this one line, and no crate between them.
fn next_entry(ws: &[u32], slot: u32, front: Option<u32>) -> Result<Entry, Refusal> {
    step_front(ws, Walk::whole(slot, front))
}

// Whether a walk from the front gives the entries of the answer in order, and then ends.
pub fn listed(ws: &[u32], slot: u32, answer: &[u32]) -> bool {
    let Some((&ACCEPTED, listing)) = answer.split_first() else {
        return false;
    };
    let (entries, []) = listing.as_chunks::<2>() else {
        return false;
    };
    let mut front = None;
    for &[key, value] in entries {
        match next_entry(ws, slot, front) {
            Ok(e) if e.key == key && e.value == value => front = Some(key),
            _ => return false,
        }
    }
    next_entry(ws, slot, front) == Err(Refusal::End)
}
