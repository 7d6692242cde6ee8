// Numbers in decimal, at the end of a text.
ghost use Rattle.std.specs.Prelude.{◌≡◌, ◌+◌, ◌≤◌, ◌++◌, OnOk, codes, decimal, drop, length};
ghost use Rattle.std.specs.Fmt.{signed_decimal};

use itoa::{Buffer, write_digits};
use msg_buffer::NoMemory;

/// How long a pair is at most: a space, 39 digits, `=`, a sign and 19 digits.
const LONGEST: usize = 61;

/// Adds a number in decimal. A number of a single digit, as most are, is added without a buffer.
#[tactic(auto, using(std::proofs::lemmas::Fmt::decimal_digit))]
pub fn add_number(text: &mut Vec<u8>, number: u64) -> Result<(), NoMemory>
    ensures appends { OnOk result (text.new.items ≡ text.old.items ++ decimal number) }
{
    if number < 10 {
        text.push(b'0' + number as u8)?;
        return Ok(());
    }
    text.extend_from_slice(Buffer::new().format(number).as_bytes())
}

/// Adds a head, and then a number in decimal.
#[inline(always)]
pub fn add_count(text: &mut Vec<u8>, head: &[u8], number: u64) -> Result<(), NoMemory>
    ensures appends { OnOk result
        (text.new.items ≡ text.old.items ++ (head.now ++ decimal number)) }
{
    text.extend_from_slice(head)?;
    add_number(text, number)
}

/// Adds a value in decimal, with `-` in front if it is below 0.
pub fn add_value(text: &mut Vec<u8>, value: i64) -> Result<(), NoMemory>
    ensures appends { OnOk result (text.new.items ≡ text.old.items ++ signed_decimal value) }
{
    text.extend_from_slice(Buffer::new().format(value).as_bytes())
}

/// Adds a space, a number that may be past `u64`, `=` and a value. This text is made from its end,
/// and added at once.
pub fn add_pair(text: &mut Vec<u8>, number: u128, value: i64) -> Result<(), NoMemory>
    ensures appends { OnOk result (text.new.items
        ≡ text.old.items ++ (codes " " ++ decimal number ++ codes "=" ++ signed_decimal value)) }
{
    let mut pair = [0; LONGEST];
    let equals = write_value(value, &mut pair) - 1;
    pair[equals] = b'=';
    let start = write_number(number, &mut pair, equals) - 1;
    pair[start] = b' ';
    text.extend_from_slice(&pair[start..])
}

/// Writes a value at the end of a pair, and returns where it starts.
#[tactic(auto, using(crate::proofs::Digits::digits))]
fn write_value(value: i64, pair: &mut [u8; LONGEST]) -> usize
    ensures short { (41 ≤ result) × (result ≤ LONGEST) }
    ensures written { drop result pair.new ≡ signed_decimal value }
{
    let start = write_digits(value.unsigned_abs(), pair, LONGEST);
    if value >= 0 {
        return start;
    }
    pair[start - 1] = b'-';
    start - 1
}

/// Writes a number so that it ends at `end`, and returns where it starts. Digits past 64 bits go
/// one at a time.
#[tactic(auto, using(crate::proofs::Digits::wide_steps))]
fn write_number(number: u128, pair: &mut [u8; LONGEST], end: usize) -> usize
    requires room { 40 ≤ end }
    requires within { end ≤ LONGEST }
    ensures start { result + length (decimal number) ≡ end }
    ensures short { 1 ≤ result }
    ensures written { drop result pair.new ≡ decimal number ++ drop end pair.old }
{
    let mut left = number;
    let mut at = end;
    while left > u64::MAX as u128 {
        at -= 1;
        pair[at] = b'0' + (left % 10) as u8;
        left /= 10;
    }
    write_digits(left as u64, pair, at)
}
