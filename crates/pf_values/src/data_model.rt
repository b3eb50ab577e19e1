//! The data models: what a length modifier says, and how many bits a type has.
ghost use Rattle.std.specs.Prelude.{◌≡◌, ◌↔◌, IsTrue, false, true};
ghost use Rattle.pf_values.specs.meaning.Bits.{Bits, bit_count};
ghost use Rattle.pf_values.specs.meaning.DataModel.{
  FitsIn,
  bits_under,
  kept_length,
  row_of_rank,
  signed_type,
  unsigned_type,
};
ghost use Rattle.pf_values.specs.TypeBits.{type_bits};

use crate::lengths::Length;
use crate::models::{Model, Rank};
use crate::types::ArgType;

/// What a length modifier says (C11 7.21.6.1, paragraph 7).
#[derive(Clone, Copy, Debug, PartialEq, Eq)]
pub(crate) struct LengthRow {
    /// The modifier that a normal directive has for it.
    pub(crate) kept: Length,
    /// The bits of the value that is printed.
    pub(crate) bits: u8,
    /// The type of the argument of `d` and `i`.
    pub(crate) signed: ArgType,
    /// The type of the argument of `u`, `o`, `x`, `X` and `b`.
    pub(crate) unsigned: ArgType,
}

/// The row of a length modifier.
#[inline(always)]
pub(crate) fn length_row(model: Model, length: Length) -> LengthRow
    ensures kept { result.kept ≡ kept_length model length }
    ensures bits { result.bits ≡ bit_count (bits_under model length) }
    ensures signed { result.signed ≡ signed_type model length }
    ensures unsigned { result.unsigned ≡ unsigned_type model length }
{
    match length {
        Length::Hh => columns(Length::Hh, 8, ArgType::Int, ArgType::Int),
        Length::H => columns(Length::H, 16, ArgType::Int, ArgType::Int),
        Length::None => row_of_rank(model, Rank::Int),
        Length::L => row_of_rank(model, Rank::Long),
        Length::Ll => row_of_rank(model, Rank::LongLong),
        Length::J => row_of_rank(model, model.greatest_rank()),
        Length::Z | Length::T => row_of_rank(model, model.size_rank()),
    }
}

// The row of the modifier that names the types of a rank.
#[inline(always)]
fn row_of_rank(model: Model, rank: Rank) -> LengthRow
    ensures kept { result.kept ≡ (row_of_rank model rank).kept }
    ensures bits { result.bits ≡ bit_count (row_of_rank model rank).bits }
    ensures signed { result.signed ≡ (row_of_rank model rank).signed }
    ensures unsigned { result.unsigned ≡ (row_of_rank model rank).unsigned }
{
    match rank {
        Rank::Int => columns(Length::None, 32, ArgType::Int, ArgType::UInt),
        Rank::Long => columns(Length::L, model.long_bits(), ArgType::Long, ArgType::ULong),
        Rank::LongLong => columns(Length::Ll, 64, ArgType::LongLong, ArgType::ULongLong),
    }
}

#[inline(always)]
fn columns(kept: Length, bits: u8, signed: ArgType, unsigned: ArgType) -> LengthRow
    ensures { result ≡ record { kept = kept; bits = bits; signed = signed; unsigned = unsigned } }
{
    LengthRow {
        kept,
        bits,
        signed,
        unsigned,
    }
}

/// The bits of an integer type (C11 6.2.5). A string has none, and nothing reads its row.
pub(crate) fn type_bits(model: Model, arg_type: ArgType) -> u8
    ensures { result ≡ bit_count (type_bits model arg_type) }
{
    match arg_type {
        ArgType::Int => 32,
        ArgType::UInt => 32,
        ArgType::Long => model.long_bits(),
        ArgType::ULong => model.long_bits(),
        ArgType::LongLong => 64,
        ArgType::ULongLong => 64,
        ArgType::Str => 64,
    }
}

/// Whether a number fits `bits` bits with its sign.
pub(crate) fn fits_signed(number: i128, bits: u8) -> bool
    ensures { (b : Bits) → bits ≡ bit_count b
        → (IsTrue result ↔ FitsIn true (bit_count b) number) }
{
    match bits {
        8 => i8::try_from(number).is_ok(),
        16 => i16::try_from(number).is_ok(),
        32 => i32::try_from(number).is_ok(),
        _ => i64::try_from(number).is_ok(),
    }
}

/// Whether a number fits `bits` bits without a sign.
pub(crate) fn fits_unsigned(number: i128, bits: u8) -> bool
    ensures { (b : Bits) → bits ≡ bit_count b
        → (IsTrue result ↔ FitsIn false (bit_count b) number) }
{
    match bits {
        8 => u8::try_from(number).is_ok(),
        16 => u16::try_from(number).is_ok(),
        32 => u32::try_from(number).is_ok(),
        _ => u64::try_from(number).is_ok(),
    }
}
