// What is changed in the arena BASE to break one thing each, with the verdict that RULES 3 asks
// for.

// Words of it, each by its number and its new value.
pub const CHANGED: [&[(usize, u32)]; 34] = [
    // As it stands. Yes 1.
    &[],
    // A link out of range. No.
    &[(22, 8)],
    // A colour that is neither red nor black. No.
    &[(24, 2)],
    // A red root: a third slot for node 3. No.
    &[(54, 3), (55, 1), (25, 2)],
    // A cycle: node 3 has its parent for a child. No.
    &[(22, 2), (19, 2)],
    // A node twice in one tree, counts and free list in step. No.
    &[(17, 1), (13, 3), (25, 0), (2, 3), (22, 7)],
    // Two keys equal. No.
    &[(20, 20)],
    // Two keys swapped. No.
    &[(14, 30), (20, 20)],
    // Red over red, size, count and free list in step. No.
    &[(23, 7), (44, 35), (49, 1), (2, 0), (51, 4)],
    // One black short. No.
    &[(42, 0)],
    // A size too small. No.
    &[(53, 3)],
    // A size too large. No.
    &[(53, 5)],
    // A count too large. No.
    &[(25, 2)],
    // A count too small. No.
    &[(13, 1)],
    // A free node missing from the list. No.
    &[(2, 0)],
    // A free node listed twice. No.
    &[(46, 7)],
    // A reachable node on the free list. No.
    &[(46, 6)],
    // A free node with a count. No.
    &[(49, 1)],
    // The free list leads out of range. No.
    &[(2, 8)],
    // N one too large. No.
    &[(0, 8)],
    // N one too small. No.
    &[(0, 6)],
    // V one too large. No.
    &[(1, 4)],
    // V one too small. No.
    &[(1, 2)],
    // No node at all. No.
    &[(0, 0)],
    // No slot at all. No.
    &[(1, 0)],
    // A size in a slot that is not held. No.
    &[(55, 1)],
    // A root above N that does not say: not held. No.
    &[(54, 8)],
    // A third slot, held and empty. Yes 1.
    &[(54, 0)],
    // The same with a size. No.
    &[(54, 0), (55, 1)],
    // A third slot for the first version: its root has two names. Yes 1.
    &[(54, 2), (55, 3), (19, 2)],
    // The same without the second name. No.
    &[(54, 2), (55, 3)],
    // Spare words of any value. Yes 1.
    &[(3, 1), (4, 4294967295), (5, 7), (6, 2147483648), (7, 5)],
    // Other words of a free node of any value. Yes 1.
    &[(44, 10), (45, 4294967295), (47, 9), (48, 5)],
    // A key at the least and one at the greatest number. Yes 1.
    &[(8, 0), (20, 4294967295)],
];
