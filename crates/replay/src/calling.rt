// Makes the call of a line, LENGTH CODE ARGUMENTS.. STATUS VALUES.., and says whether its answer is
// the line's.
use super::expected::says;
use super::listing::listed;
use super::numbers::Line;
use arena::Entry;
use passing::differences::{differences_in, pass_difference};
use passing::walks::walk_in;
use passing::{pass_done, pass_entry, pass_number, pass_sign, pass_truth};
use red_black_tree_map::{
    compare, equal, first, get, hold, insert, last, new_version, release, remove, rescale_mark,
    size, step_back, step_difference, step_front,
};

// The calls, and the list's last line, which says how many calls stand above it.
#[derive(Clone, Copy)]
pub enum Code {
    Finish,
    New,
    Hold,
    Release,
    Size,
    Get,
    First,
    Last,
    Insert,
    Remove,
    Compare,
    Equal,
    StepFront,
    StepBack,
    RescaleMark,
    List,
    StepDifference,
}

// A number that is no call's code.
#[derive(Clone, Copy)]
pub struct NoCode;

// The codes are those of oracle/list.
impl TryFrom<u32> for Code {
    type Error = NoCode;

    fn try_from(code: u32) -> Result<Self, NoCode> {
        match code {
            0 => Ok(Code::Finish),
            1 => Ok(Code::New),
            2 => Ok(Code::Hold),
            3 => Ok(Code::Release),
            4 => Ok(Code::Size),
            5 => Ok(Code::Get),
            6 => Ok(Code::First),
            7 => Ok(Code::Last),
            8 => Ok(Code::Insert),
            9 => Ok(Code::Remove),
            10 => Ok(Code::Compare),
            11 => Ok(Code::Equal),
            12 => Ok(Code::StepFront),
            13 => Ok(Code::StepBack),
            14 => Ok(Code::RescaleMark),
            15 => Ok(Code::List),
            16 => Ok(Code::StepDifference),
            _ => Err(NoCode),
        }
    }
}

// Whether the call of a line is answered as the line says. The status stands after the arguments,
// which start at 2; a call takes as many of them as it has.
pub fn answered(ws: &mut [u32], line: &Line, code: Code) -> bool {
    let [s, k, value] = line.arguments::<3>();
    let w = walk_in(&line.arguments());
    let x = differences_in(&line.arguments());
    match code {
        // The list's last line makes no call.
        Code::Finish => false,
        Code::New => says(line, 2, new_version(ws), pass_number),
        Code::Hold => says(line, 3, hold(ws, s), pass_number),
        Code::Release => says(line, 3, release(ws, s), |a, _: &mut [u32; 0]| pass_done(a)),
        Code::Size => says(line, 3, size(ws, s), pass_number),
        Code::Get => says(line, 4, get(ws, s, k), pass_number),
        Code::First => says(line, 3, first(ws, s), pass_entry),
        Code::Last => says(line, 3, last(ws, s), pass_entry),
        Code::Insert => says(line, 5, insert(ws, s, Entry { key: k, value }), pass_number),
        Code::Remove => says(line, 4, remove(ws, s, k), pass_number),
        Code::Compare => says(line, 4, compare(ws, s, k), pass_sign),
        Code::Equal => says(line, 4, equal(ws, s, k), pass_truth),
        Code::StepFront => says(line, 11, step_front(ws, w), pass_entry),
        Code::StepBack => says(line, 11, step_back(ws, w), pass_entry),
        Code::RescaleMark => says(line, 3, rescale_mark(ws, s), pass_truth),
        Code::List => listed(ws, s, line.rest(3)),
        Code::StepDifference => says(line, 6, step_difference(ws, x), pass_difference),
    }
}
