//! What a format prints.

ghost use Rattle.std.specs.Prelude.{◌≡◌, ◌+◌, ◌<◌, cond, ◌++◌, pos, drop, get_or, IfOk, OnOk, if◌then◌else◌};
ghost use Rattle.cc_base.specs.Formats.{conversions, formatted};
ghost use Rattle.cc_vm.specs.Printing.{IsMark, left_over, numbered, reading_after, written};

use crate::marks::{Mark, Reading};
use cc_base::arithmetic::byte_of;
use cc_base::{Bytes, Cells, Memory};
use itoa::Buffer;
use std::alloc::Global;

/// What a byte is.
fn mark_of(byte: u8) -> Mark
    ensures { IsMark byte result }
{
    match byte {
        b'%' => Mark::Percent,
        b'd' => Mark::Decimal,
        b'c' => Mark::Character,
        b'l' => Mark::Long,
        _ => Mark::Other,
    }
}

/// The next number, or 0 where none is left.
fn next_number(numbers: &Cells, used: usize) -> i64
    ensures { result ≡ get_or (drop used numbers.now) 0 (pos 0) }
{
    match numbers.get(used) {
        Some(number) => number,
        None => 0,
    }
}

/// How many numbers are used once the next one is.
fn used_one(numbers: &Cells, used: usize) -> usize
    ensures { drop result numbers.now ≡ drop 1 (drop used numbers.now) }
{
    if used < numbers.len() { used + 1 } else { used }
}

/// Whether a number is taken here.
fn is_numbered(reading: Reading, mark: Mark) -> bool
    ensures { result ≡ numbered reading mark }
{
    match (reading, mark) {
        (Reading::Percent, Mark::Decimal | Mark::Character) | (Reading::Long, Mark::Decimal) =>
            true,
        _ => false,
    }
}

/// How many numbers are used after this byte.
fn used_after(numbers: &Cells, used: usize, takes: bool) -> usize
    ensures { drop result numbers.now ≡ (if takes then drop 1 (drop used numbers.now) else drop used numbers.now) }
{
    if takes { used_one(numbers, used) } else { used }
}

/// Where the reading stands after this byte.
fn reading_after(reading: Reading, mark: Mark) -> Reading
    ensures { result ≡ reading_after reading mark }
{
    match (reading, mark) {
        (Reading::Plain | Reading::Long, Mark::Percent) => Reading::Percent,
        (Reading::Percent, Mark::Long) => Reading::Long,
        _ => Reading::Plain,
    }
}

/// Puts a number in decimal digits.
fn put_decimal(text: &mut Bytes, number: i64) -> Result<(), Memory>
    ensures { OnOk result (text.new ≡ text.old ++ written Reading.Long Mark.Decimal 100 number) }
{
    text.append(Buffer::new().format(number).as_bytes())
}

/// Puts what was read of a conversion that is none.
fn put_left_over(text: &mut Bytes, reading: Reading) -> Result<(), Memory>
    ensures { OnOk result (text.new ≡ text.old ++ left_over reading) }
{
    match reading {
        Reading::Plain => Ok(()),
        Reading::Percent => text.push(b'%'),
        Reading::Long => text.append(b"%l"),
    }
}

/// Puts what this byte prints.
fn put_written(
    text: &mut Bytes,
    reading: Reading,
    mark: Mark,
    byte: u8,
    number: i64,
) -> Result<(), Memory>
    ensures { OnOk result (text.new ≡ text.old ++ written reading mark byte number) }
{
    match (reading, mark) {
        (Reading::Plain, Mark::Percent) | (Reading::Percent, Mark::Long) => Ok(()),
        (Reading::Plain, _) | (Reading::Percent, Mark::Percent) => text.push(byte),
        (Reading::Percent | Reading::Long, Mark::Decimal) => put_decimal(text, number),
        (Reading::Percent, Mark::Character) => text.push(byte_of(number)),
        (Reading::Long, Mark::Percent) => put_left_over(text, reading),
        _ => {
            put_left_over(text, reading)?;
            text.push(byte)
        }
    }
}

/// One more, where a number is taken.
fn counted(count: usize, takes: bool) -> usize
    requires { count < 18446744073709551615 }
    ensures { result ≡ count + cond takes 1 0 }
{
    if takes { count + 1 } else { count }
}

/// How many numbers the format takes.
pub(crate) fn numbers_of(format: &[u8]) -> usize
    ensures { result ≡ conversions format.now }
{
    let mut reading = Reading::Plain;
    let mut count = 0;
    for byte in format {
        let mark = mark_of(*byte);
        count = counted(count, is_numbered(reading, mark));
        reading = reading_after(reading, mark);
    }
    count
}

/// What the format prints with these numbers.
pub(crate) fn print_format(alloc: Global, format: &[u8], numbers: &Cells) -> Result<Bytes, Memory>
    ensures { IfOk result (λ text. text ≡ formatted format.now numbers.now) }
{
    let mut text = Bytes::new(alloc);
    let mut reading = Reading::Plain;
    let mut used = 0;
    for byte in format {
        let mark = mark_of(*byte);
        put_written(&mut text, reading, mark, *byte, next_number(numbers, used))?;
        used = used_after(numbers, used, is_numbered(reading, mark));
        reading = reading_after(reading, mark);
    }
    put_left_over(&mut text, reading)?;
    Ok(text)
}
