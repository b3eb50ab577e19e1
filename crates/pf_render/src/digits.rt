//! The digits of a number.
ghost use Rattle.std.specs.Prelude.{◌≡◌, ◌≤◌, drop, map, Bool};
ghost use Rattle.std.specs.Fmt.{digit_glyph};
ghost use Rattle.std.specs.Int.Digits.{digits_of};
ghost use Rattle.pf_values.specs.meaning.Bases.{number_of};
ghost use Rattle.pf_values.specs.meaning.Conversions.{base_under, has_capitals};

use itoa::write_digits;
use pf_values::{Base, Kind};

/// The most digits that a number of 64 bits has, those in base two.
pub(crate) const MAX_DIGITS: usize = 64;

/// Writes the digits of a number as a kind of conversions prints them, none for 0, so that they end
/// where the buffer does. Returns where they start.
pub(crate) fn write_digits_of(number: u64, kind: Kind, buf: &mut [u8; MAX_DIGITS]) -> usize
    ensures within { result ≤ MAX_DIGITS }
    ensures digits { let base = number_of (base_under kind) in
        drop result buf.new ≡ map (digit_glyph (has_capitals kind)) (digits_of base number) }
{
    match kind.base() {
        Base::Decimal => write_decimal(number, buf),
        base => write_based(number, base.number(), kind.has_capitals(), buf),
    }
}

// Writes the decimal digits of a number, none for 0, so that they end where the buffer does.
// Returns where they start.
fn write_decimal(number: u64, buf: &mut [u8; MAX_DIGITS]) -> usize
    ensures within { result ≤ MAX_DIGITS }
    ensures digits { (capitals : Bool)
        → drop result buf.new ≡ map (digit_glyph capitals) (digits_of 10 number) }
{
    if number == 0 {
        return MAX_DIGITS;
    }
    write_digits(number, buf, MAX_DIGITS)
}

// Writes the digits of a number, none for 0, so that they end where the buffer does. Returns
// where they start.
fn write_based(number: u64, base: u64, capitals: bool, buf: &mut [u8; MAX_DIGITS]) -> usize
    requires { (2 ≤ base) × (base ≤ 36) }
    ensures within { result ≤ MAX_DIGITS }
    ensures digits { drop result buf.new ≡ map (digit_glyph capitals) (digits_of base number) }
{
    let mut left = number;
    let mut start = MAX_DIGITS;
    while left > 0 {
        start -= 1;
        buf[start] = glyph((left % base) as u8, capitals);
        left /= base;
    }
    start
}

// The byte of a digit.
fn glyph(digit: u8, capitals: bool) -> u8
    requires { digit ≤ 35 }
    ensures { result ≡ digit_glyph capitals digit }
{
    match digit {
        0..=9 => b'0' + digit,
        _ if capitals => b'A' + (digit - 10),
        _ => b'a' + (digit - 10),
    }
}
