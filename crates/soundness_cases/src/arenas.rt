// The arenas that are tested, word by word as docs/LAYOUT.md has them.

// Two versions of seven nodes: 10, 20, 30 in slot 0, and the same with 40 in slot 1, which shares
// node 1. Node 7 is free, slot 2 not held.
pub const BASE: [u32; 56] = [
    7, 3, 7, 0, 0, 0, 0, 0, 10, 100, 0, 0, 0, 2, 20, 200, 1, 3, 1, 1, 30, 300, 0, 0, 0, 1, 30, 300,
    5, 6, 1, 1, 20, 200, 1, 0, 1, 1, 40, 400, 0, 0, 1, 1, 0, 0, 0, 0, 0, 0, 2, 3, 4, 4, 4294967295,
    0,
];

// A perfect tree that leaves no node free; no version at all; one node that all 32 slots hold.
pub const FULL: [u32; 52] = [
    7, 1, 0, 0, 0, 0, 0, 0, 10, 1, 0, 0, 1, 1, 20, 2, 1, 3, 1, 1, 30, 3, 0, 0, 1, 1, 40, 4, 2, 6,
    1, 1, 50, 5, 0, 0, 1, 1, 60, 6, 5, 7, 1, 1, 70, 7, 0, 0, 1, 1, 4, 7,
];

pub const EMPTY: [u32; 52] = [
    7, 1, 1, 0, 0, 0, 0, 0, 0, 0, 2, 0, 0, 0, 0, 0, 3, 0, 0, 0, 0, 0, 4, 0, 0, 0, 0, 0, 5, 0, 0, 0,
    0, 0, 6, 0, 0, 0, 0, 0, 7, 0, 0, 0, 0, 0, 0, 0, 0, 0, 4294967295, 0,
];

pub const SHARED: [u32; 78] = [
    1, 32, 0, 0, 0, 0, 0, 0, 5, 50, 0, 0, 1, 32, 1, 1, 1, 1, 1, 1, 1, 1, 1, 1, 1, 1, 1, 1, 1, 1, 1,
    1, 1, 1, 1, 1, 1, 1, 1, 1, 1, 1, 1, 1, 1, 1, 1, 1, 1, 1, 1, 1, 1, 1, 1, 1, 1, 1, 1, 1, 1, 1, 1,
    1, 1, 1, 1, 1, 1, 1, 1, 1, 1, 1, 1, 1, 1, 1,
];
