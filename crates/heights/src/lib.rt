// Module 1 (RULES 6.1): `lg_floor` and `conservative_height` of rpds's red_black_tree_map.
#![tactic(auto)]

ghost use Rattle.std.specs.Prelude.{◌≡◌, ◌<◌};
ghost use Rattle.heights.specs.Height.{lg, H as heightOf};

// RULES 5.2: the rounded-down base-two logarithm, from the count of leading zeros.
pub fn lg_floor(size: u32) -> u32
    requires { 0 < size }
    ensures { result ≡ lg size }
{
    31 - u32::leading_zeros(size)
}

// RULES 5.1: a height that no red-black tree of `size` entries exceeds.
pub fn conservative_height(size: u32) -> u32
    requires { size < 4294967295 }
    ensures { result ≡ heightOf size }
{
    if size > 0 { 2 * lg_floor(size + 1) } else { 0 }
}
