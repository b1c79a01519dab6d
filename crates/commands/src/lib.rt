// The commands of the program, RULES 9.6 to 9.12: a line taken apart.
#![tactic(auto)]

ghost use Rattle.std.specs.Prelude.{◌≡◌, drop};
ghost use Rattle.decimal.specs.Numbers.{Finds};
ghost use Rattle.commands.specs.Parts.{field as fieldIn, fields as fieldsIn};
ghost use Rattle.commands.specs.Text.{Reads};

use decimal::number;

// A command, by its numbers in the order of the line.
#[derive(Clone, Copy)]
pub enum Command {
    New,
    Hold(u32),
    Set(u32, u32, u32),
    Cut(u32, u32),
    Drop(u32),
    Get(u32, u32),
    List(u32),
}

// The number after a space at the place, and the place after it.
#[tactic(auto, using(crate::proofs::Finding::spaces))]
fn field(line: &[u8], at: usize) -> Option<(u32, usize)>
    ensures { Finds line.now result (fieldIn (drop at line.now)) }
{
    if *line.get(at)? != b' ' {
        return None;
    }
    number(line, at + 1)
}

// So many fields, up to the line's end.
#[tactic(auto, using(crate::proofs::Finding::takings))]
fn fields<const N: usize>(line: &[u8]) -> Option<[u32; N]>
    ensures { result ≡ fieldsIn N line.now }
{
    let mut numbers = [0u32; N];
    let mut at = 0;
    for number in &mut numbers {
        let (n, next) = field(line, at)?;
        *number = n;
        at = next;
    }
    if at < line.len() {
        return None;
    }
    Some(numbers)
}

// The command that the line is the text of, if it is one's. No word is the beginning of another.
pub fn parse(line: &[u8]) -> Option<Command>
    ensures { Reads line.now result }
{
    if let Some(rest) = line.strip_prefix(b"new") {
        let [] = fields::<0>(rest)?;
        return Some(Command::New);
    }
    if let Some(rest) = line.strip_prefix(b"hold") {
        let [slot] = fields::<1>(rest)?;
        return Some(Command::Hold(slot));
    }
    if let Some(rest) = line.strip_prefix(b"set") {
        let [slot, key, value] = fields::<3>(rest)?;
        return Some(Command::Set(slot, key, value));
    }
    if let Some(rest) = line.strip_prefix(b"cut") {
        let [slot, key] = fields::<2>(rest)?;
        return Some(Command::Cut(slot, key));
    }
    if let Some(rest) = line.strip_prefix(b"drop") {
        let [slot] = fields::<1>(rest)?;
        return Some(Command::Drop(slot));
    }
    if let Some(rest) = line.strip_prefix(b"get") {
        let [slot, key] = fields::<2>(rest)?;
        return Some(Command::Get(slot, key));
    }
    if let Some(rest) = line.strip_prefix(b"list") {
        let [slot] = fields::<1>(rest)?;
        return Some(Command::List(slot));
    }
    None
}
