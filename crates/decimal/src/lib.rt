// The decimal text of a number, read and written at a place.
#![tactic(auto)]

ghost use Rattle.std.specs.Prelude.{◌≡◌, ◌+◌, ◌-◌, ◌*◌, ◌≤◌, ◌<◌, drop, SomeIff};
ghost use Rattle.decimal.specs.Decimal.{largest, digit, digits};
ghost use Rattle.decimal.specs.Numbers.{digit_in, number_from, number as number_in, Finds};
ghost use Rattle.decimal.specs.Written.{HasRoom, Written};

// The digit at the place, if one stands there.
fn digit_at(line: &[u8], at: usize) -> Option<u32>
    ensures { result ≡ digit_in (drop at line.now) }
{
    let b = *line.get(at)?;
    char::from(b).to_digit(10)
}

// The value with one more digit. RULES 9.5 has 4,294,967,295 for the largest: that of the type.
fn with_digit(value: u32, digit: u32) -> Option<u32>
    ensures { SomeIff result (value * 10 + digit ≤ largest) (value * 10 + digit) }
{
    value.checked_mul(10)?.checked_add(digit)
}

// The number whose digits go on at the place, after those that made the value, and the place after
// it. A 0 takes no digit after it (RULES 9.5). It calls itself, as its definition does: a loop
// would count the same places, and would need an invariant besides.
#[tactic(auto, using(crate::proofs::Finding::later_digits))]
fn number_from(line: &[u8], at: usize, value: u32) -> Option<(u32, usize)>
    ensures { Finds line.now result (number_from value (drop at line.now)) }
{
    let Some(digit) = digit_at(line, at) else {
        return Some((value, at));
    };
    if value == 0 {
        return None;
    }
    let more = with_digit(value, digit)?;
    number_from(line, at + 1, more)
}

// The number at the place, if one stands there, and the place after it.
#[tactic(auto, using(crate::proofs::Finding::first_digit))]
pub fn number(line: &[u8], at: usize) -> Option<(u32, usize)>
    ensures { Finds line.now result (number_in (drop at line.now)) }
{
    let first = digit_at(line, at)?;
    number_from(line, at + 1, first)
}

// The byte of a digit. `from_digit` answers an Option of a char, which this would take apart twice.
fn digit_byte(d: u32) -> u8
    requires { d < 10 }
    ensures { result ≡ digit d }
{
    b'0' + d as u8
}

// Writes the bytes at the place and answers the place after them. A writer struct or `write!` would
// be no plainer: `Written` speaks of the buffer, both places and the bytes, as the call here does.
#[tactic(auto, using(crate::proofs::Writing::copied))]
pub fn put_text(out: &mut [u8], at: usize, text: &[u8]) -> usize
    requires { HasRoom out.old at text.now }
    ensures { Written out.old at text.now out.new result }
{
    let next = at + text.len();
    out[at..next].copy_from_slice(text);
    next
}

// Writes the decimal text of the number (RULES 9.5). Its parameters stay as at `put_text`.
#[tactic(auto, using(crate::proofs::Writing::digit_places))]
pub fn put_number(out: &mut [u8], at: usize, n: u32) -> usize
    requires { HasRoom out.old at (digits n) }
    ensures { Written out.old at (digits n) out.new result }
{
    if n < 10 {
        out[at] = digit_byte(n);
        return at + 1;
    }
    let next = put_number(out, at, n / 10);
    out[next] = digit_byte(n % 10);
    next + 1
}
