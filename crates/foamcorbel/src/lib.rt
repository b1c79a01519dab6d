// The calls of RULES 4.1 to 4.16 and 4.41 as C functions (RULES 9.18 to 9.22, 13.13), which
// include/foamcorbel.h declares: any words, slots, keys and walks may come in (RULES 14.1). The
// result is the refusal's number, 0 when accepted; values go to the words lent as `out`, which a
// refusal leaves as they were.
#![tactic(auto)]

ghost use Rattle.std.specs.Prelude.{[]};
ghost use Rattle.trees.specs.Range.{front as atFront, back as atBack};
ghost use Rattle.calls.specs.Call.{Call};
ghost use Rattle.foamcorbel.specs.Gives.{Gives};
ghost use Rattle.passing.specs.Walks.{walk_in};
ghost use Rattle.passing.specs.Differences.{differences_in};

use arena::Entry;
use passing::differences::{differences_in, pass_difference};
use passing::walks::walk_in;
use passing::{pass_done, pass_entry, pass_number, pass_sign, pass_truth};

// Records N and V, makes all nodes free and no slot held. Any old contents will do.
#[unsafe(no_mangle)]
pub extern "C" fn foamcorbel_format(ws: &mut [u32], n: u32, v: u32) -> u32
    ensures { Gives (Call.format n v) ws.old [] result ws.new [] }
{
    pass_done(red_black_tree_map::format(ws, n, v))
}

// A slot for a new empty version.
#[unsafe(no_mangle)]
pub extern "C" fn foamcorbel_new_version(ws: &mut [u32], out: &mut [u32; 1]) -> u32
    ensures { Gives Call.new ws.old out.old result ws.new out.new }
{
    pass_number(red_black_tree_map::new_version(ws), out)
}

// A second slot for the version of slot s.
#[unsafe(no_mangle)]
pub extern "C" fn foamcorbel_hold(ws: &mut [u32], s: u32, out: &mut [u32; 1]) -> u32
    ensures { Gives (Call.hold s) ws.old out.old result ws.new out.new }
{
    pass_number(red_black_tree_map::hold(ws, s), out)
}

// Slot s is given up.
#[unsafe(no_mangle)]
pub extern "C" fn foamcorbel_release(ws: &mut [u32], s: u32) -> u32
    ensures { Gives (Call.release s) ws.old [] result ws.new [] }
{
    pass_done(red_black_tree_map::release(ws, s))
}

// The number of entries of slot s.
#[unsafe(no_mangle)]
pub extern "C" fn foamcorbel_size(ws: &[u32], s: u32, out: &mut [u32; 1]) -> u32
    ensures { Gives (Call.size s) ws.now out.old result ws.now out.new }
{
    pass_number(red_black_tree_map::size(ws, s), out)
}

// How many nodes are free.
#[unsafe(no_mangle)]
pub extern "C" fn foamcorbel_free_nodes(ws: &[u32], out: &mut [u32; 1]) -> u32
    ensures { Gives Call.free_nodes ws.now out.old result ws.now out.new }
{
    pass_number(red_black_tree_map::free_nodes(ws), out)
}

// The value at the key.
#[unsafe(no_mangle)]
pub extern "C" fn foamcorbel_get(ws: &[u32], s: u32, key: u32, out: &mut [u32; 1]) -> u32
    ensures { Gives (Call.get s key) ws.now out.old result ws.now out.new }
{
    pass_number(red_black_tree_map::get(ws, s, key), out)
}

// The entry with the least key: its key, then its value.
#[unsafe(no_mangle)]
pub extern "C" fn foamcorbel_first(ws: &[u32], s: u32, out: &mut [u32; 2]) -> u32
    ensures { Gives (Call.first s) ws.now out.old result ws.now out.new }
{
    pass_entry(red_black_tree_map::first(ws, s), out)
}

// The entry with the greatest key.
#[unsafe(no_mangle)]
pub extern "C" fn foamcorbel_last(ws: &[u32], s: u32, out: &mut [u32; 2]) -> u32
    ensures { Gives (Call.last s) ws.now out.old result ws.now out.new }
{
    pass_entry(red_black_tree_map::last(ws, s), out)
}

// A slot for the version of slot s with the entry set.
#[unsafe(no_mangle)]
pub extern "C" fn foamcorbel_insert(
    ws: &mut [u32],
    s: u32,
    key: u32,
    value: u32,
    out: &mut [u32; 1],
) -> u32
    ensures { Gives (Call.insert s (record { key = key; value = value })) ws.old out.old result ws.new out.new }
{
    pass_number(red_black_tree_map::insert(ws, s, Entry { key, value }), out)
}

// A slot for the version of slot s without the key.
#[unsafe(no_mangle)]
pub extern "C" fn foamcorbel_remove(ws: &mut [u32], s: u32, key: u32, out: &mut [u32; 1]) -> u32
    ensures { Gives (Call.remove s key) ws.old out.old result ws.new out.new }
{
    pass_number(red_black_tree_map::remove(ws, s, key), out)
}

// The order of the versions of slots s and t: -1 as 4294967295, 0 or 1.
#[unsafe(no_mangle)]
pub extern "C" fn foamcorbel_compare(ws: &[u32], s: u32, t: u32, out: &mut [u32; 1]) -> u32
    ensures { Gives (Call.compare s t) ws.now out.old result ws.now out.new }
{
    pass_sign(red_black_tree_map::compare(ws, s, t), out)
}

// Whether the versions of slots s and t list the same: 1 or 0.
#[unsafe(no_mangle)]
pub extern "C" fn foamcorbel_equal(ws: &[u32], s: u32, t: u32, out: &mut [u32; 1]) -> u32
    ensures { Gives (Call.equal s t) ws.now out.old result ws.now out.new }
{
    pass_truth(red_black_tree_map::equal(ws, s, t), out)
}

// The least entry of the walk that is left. The caller keeps its key in the walk.
#[unsafe(no_mangle)]
pub extern "C" fn foamcorbel_step_front(ws: &[u32], walk: &[u32; 9], out: &mut [u32; 2]) -> u32
    ensures { Gives (Call.step atFront (walk_in walk.now)) ws.now out.old result ws.now out.new }
{
    pass_entry(red_black_tree_map::step_front(ws, walk_in(walk)), out)
}

// The greatest entry of the walk that is left.
#[unsafe(no_mangle)]
pub extern "C" fn foamcorbel_step_back(ws: &[u32], walk: &[u32; 9], out: &mut [u32; 2]) -> u32
    ensures { Gives (Call.step atBack (walk_in walk.now)) ws.now out.old result ws.now out.new }
{
    pass_entry(red_black_tree_map::step_back(ws, walk_in(walk)), out)
}

// Whether the version of slot s holds (0028,1053): 1 or 0.
#[unsafe(no_mangle)]
pub extern "C" fn foamcorbel_rescale_mark(ws: &[u32], s: u32, out: &mut [u32; 1]) -> u32
    ensures { Gives (Call.rescale_mark s) ws.now out.old result ws.now out.new }
{
    pass_truth(red_black_tree_map::rescale_mark(ws, s), out)
}

// Whether the arena is sound: 1 or 0. It is never refused.
#[unsafe(no_mangle)]
pub extern "C" fn foamcorbel_sound(ws: &[u32], out: &mut [u32; 1]) -> u32
    ensures { Gives Call.soundness_test ws.now out.old result ws.now out.new }
{
    pass_truth(Ok(red_black_tree_map::sound(ws)), out)
}

// What differs next between two versions: the kind, the key and the two values. The caller keeps
// the key for the next step.
#[unsafe(no_mangle)]
pub extern "C" fn foamcorbel_step_difference(ws: &[u32], at: &[u32; 4], out: &mut [u32; 4]) -> u32
    ensures { Gives (Call.difference (differences_in at.now)) ws.now out.old result ws.now out.new }
{
    pass_difference(
        red_black_tree_map::step_difference(ws, differences_in(at)),
        out,
    )
}
