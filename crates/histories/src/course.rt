// What sets the two histories apart.
use arena::{MAX_NODES, MAX_SLOTS};

// How many keys the small history has, and the large one.
pub const SMALL_KEYS: usize = 256;

pub const LARGE_KEYS: usize = 4096;

// With so few entries, and no other version held, every removal of the small history finds room.
const FEW_KEYS: u32 = 14;

// Nodes and slots of the arena, how many keys there are and how far apart, after how many steps the
// history starts over with an empty version, if it does, and at every how many steps, the last
// among them, the version is listed.
#[derive(Clone, Copy)]
pub struct Course {
    pub nodes: u32,
    pub slots: u32,
    keys: u32,
    stride: u32,
    life: Option<u32>,
    listed: u32,
}

pub const SMALL: Course = Course {
    nodes: 64,
    slots: 4,
    keys: SMALL_KEYS as u32,
    stride: 16777259,
    life: Some(160),
    listed: 1,
};

// It is listed more seldom, since each entry of a walk costs a test of the largest arena.
pub const LARGE: Course = Course {
    nodes: MAX_NODES,
    slots: MAX_SLOTS,
    keys: LARGE_KEYS as u32,
    stride: 1048583,
    life: None,
    listed: 20,
};

impl Course {
    // The k-th key. The strides are such that the last key does not wrap.
    pub fn key(self, k: u32) -> u32 {
        k.wrapping_mul(self.stride)
    }

    // Whether a life starts at this step.
    pub fn starts_over(self, step: u32) -> bool {
        self.life.is_some_and(|life| step.is_multiple_of(life))
    }

    // How many keys there are at this step: in turn few and all from life to life, else all.
    pub fn keys(self, step: u32) -> u32 {
        match self.life.and_then(|life| step.checked_div(life)) {
            Some(lives) if lives % 2 == 0 => FEW_KEYS,
            _ => self.keys,
        }
    }

    // Whether the version is listed at this step.
    pub fn is_listed(self, step: u32) -> bool {
        step.saturating_add(1).is_multiple_of(self.listed)
    }
}
