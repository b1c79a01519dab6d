// Reads the numbers of a line, byte by byte.
ghost use Rattle.std.specs.Prelude.{◌≤◌};

use super::calling::Code;

// The most numbers that a line has.
const NUMBERS: usize = 512;

// A length, a code and a status at least.
const FEWEST: usize = 3;

// What no line of numbers has there.
#[derive(Clone, Copy)]
pub struct Spoilt;

// A line as far as it is read, a spoilt one too: its numbers, how many there are, the number at
// hand once a digit of it is there, and whether all is well so far.
// (The count stands beside the array: no heap, and what may not change, namely what `replay` counts
// at a line that lacks arguments, whose call takes the numbers that earlier lines left there.)
#[derive(Drop)]
pub struct Line {
    numbers: [u32; NUMBERS],
    count: usize,
    number: Option<u32>,
    read: Result<(), Spoilt>,
}

impl Line {
    // Before the first byte of the first line.
    pub fn new() -> Line {
        Line {
            numbers: [0; NUMBERS],
            count: 0,
            number: None,
            read: Ok(()),
        }
    }

    // Before the first byte of the next line.
    pub fn clear(&mut self) {
        self.count = 0;
        self.number = None;
        self.read = Ok(());
    }

    // Whether nothing of a line is read.
    pub fn is_untouched(&self) -> bool {
        self.read.is_ok() && self.number.is_none() && self.count == 0
    }

    // Takes a digit; a number has no leading zero and fits 32 bits.
    fn take_digit(&mut self, digit: u8) -> Result<(), Spoilt> {
        let tens = self.number.unwrap_or(0).checked_mul(10).ok_or(Spoilt)?;
        let value = tens.checked_add(u32::from(digit)).ok_or(Spoilt)?;
        if self.number == Some(0) {
            return Err(Spoilt);
        }
        self.number = Some(value);
        Ok(())
    }

    // The number at hand has ended, and joins those before it.
    fn end_number(&mut self) -> Result<(), Spoilt> {
        let number = self.number.ok_or(Spoilt)?;
        if NUMBERS <= self.count {
            return Err(Spoilt);
        }
        self.numbers[self.count] = number;
        self.count += 1;
        self.number = None;
        Ok(())
    }

    // Takes a byte other than the line end.
    pub fn take(&mut self, byte: u8) {
        let taken = match byte {
            b' ' => self.end_number(),
            b'0'..=b'9' => self.take_digit(byte - b'0'),
            _ => Err(Spoilt),
        };
        self.read = self.read.and(taken);
    }

    // Whether the first number counts those that follow.
    fn is_whole(&self) -> bool {
        FEWEST <= self.count && self.numbers[0] as usize == self.count - 1
    }

    // The line has ended: the code of its call, where it is whole and there is such a call.
    pub fn end(&mut self) -> Option<Code> {
        let ended = self.end_number();
        self.read.and(ended).ok()?;
        if !self.is_whole() {
            return None;
        }
        Code::try_from(self.numbers[1]).ok()
    }

    // So many arguments of the call, which stand after the length and the code.
    pub fn arguments<const N: usize>(&self) -> [u32; N]
        requires { N ≤ 510 }
    {
        std::array::from_fn(|k| self.numbers[k + 2])
    }

    // The numbers that are read, from a place on.
    pub fn rest(&self, at: usize) -> &[u32] {
        self.numbers.get(at..self.count).unwrap_or(&[])
    }
}
