//! An argument that is fetched, and the type of the argument of a conversion (C11 7.21.6.1,
//! paragraphs 7 and 8).
ghost use Rattle.std.specs.Prelude.{◌≡◌, if◌then◌else◌, IfSome, Some, option_map};
ghost use Rattle.pf_values.specs.declared.lengths.Length.TheVariants as lengths;
ghost use Rattle.pf_values.specs.declared.models.Model.{Model};
ghost use Rattle.pf_posix.specs.declared.conversions.WholeLength.TheVariants.{Integer};
ghost use Rattle.pf_posix.specs.Letters.{conversion_of};
ghost use Rattle.pf_posix.specs.Types.{counted_type, floating_type, int_type, kind_type, integer_length, conversion_type, pointer_to};
ghost use Rattle.pf_posix.specs.declared.types.WholeArgType.TheVariants.{Profile, WideChar, WideString};
ghost use Rattle.pf_values.specs.declared.types.ArgType.TheVariants as profile;
ghost use Rattle.pf_values.specs.meaning.Lengths.{is_long};

use crate::conversions::{WholeConv, WholeLength};
use crate::types::WholeArgType;
use pf_values::{ArgType, Kind, Length, Model};

/// An argument that is fetched.
#[derive(Clone, Copy, Debug, PartialEq, Eq)]
pub(crate) struct Fetch {
    /// Its number, counted from 1, or the next one.
    pub(crate) number: Option<u16>,
    /// Its type.
    pub(crate) wanted: WholeArgType,
}

/// The type of the argument of a conversion under a length modifier.
#[inline(always)]
pub(crate) fn conversion_type(
    model: Model,
    modifier: WholeLength,
    conversion: WholeConv,
) -> WholeArgType
    ensures { result ≡ conversion_type model modifier conversion }
{
    match conversion {
        WholeConv::Profile(conv) => kind_type(model, conv.kind(), integer_length(modifier)),
        WholeConv::Float(_) => floating_type(modifier),
        WholeConv::UpperC => WholeArgType::WideChar,
        WholeConv::UpperS => WholeArgType::WideString,
        WholeConv::Pointer => WholeArgType::Pointer,
        WholeConv::Count => counted_type(model, integer_length(modifier)),
    }
}

/// The type of the argument of a specification that is only a conversion, or None.
#[inline(always)]
pub(crate) fn bare_type(byte: u8) -> Option<WholeArgType>
    ensures { IfSome result (λ wanted. (model : Model) → Some wanted
        ≡ option_map (conversion_type model (Integer lengths.None)) (conversion_of byte)) }
{
    match byte {
        b'd' | b'i' | b'c' => Some(WholeArgType::Profile(ArgType::Int)),
        b'u' | b'o' | b'x' | b'X' | b'b' => Some(WholeArgType::Profile(ArgType::UInt)),
        b's' => Some(WholeArgType::Profile(ArgType::Str)),
        b'f' | b'F' | b'e' | b'E' | b'g' | b'G' | b'a' | b'A' => Some(WholeArgType::Double),
        b'p' => Some(WholeArgType::Pointer),
        b'n' => Some(WholeArgType::PointerToInt),
        b'C' => Some(WholeArgType::WideChar),
        b'S' => Some(WholeArgType::WideString),
        _ => None,
    }
}

/// Returns a length modifier as one of integer conversions: none in place of `L`.
#[inline(always)]
pub fn integer_length(modifier: WholeLength) -> Length
    ensures { result ≡ integer_length modifier }
{
    match modifier {
        WholeLength::Integer(length) => length,
        WholeLength::LongDouble => Length::None,
    }
}

#[inline(always)]
fn floating_type(modifier: WholeLength) -> WholeArgType
    ensures { result ≡ floating_type modifier }
{
    match modifier {
        WholeLength::Integer(_) => WholeArgType::Double,
        WholeLength::LongDouble => WholeArgType::LongDouble,
    }
}

#[inline(always)]
fn kind_type(model: Model, kind: Kind, length: Length) -> WholeArgType
    ensures { result ≡ kind_type model kind length }
{
    match kind {
        Kind::Signed => WholeArgType::Profile(length.signed_type(model)),
        Kind::Unsigned(_, _) => WholeArgType::Profile(length.unsigned_type(model)),
        Kind::Char => char_type(length),
        Kind::String => string_type(length),
    }
}

#[inline(always)]
fn char_type(length: Length) -> WholeArgType
    ensures { result ≡ (if is_long length then WideChar else int_type) }
{
    match length {
        Length::L => WholeArgType::WideChar,
        _ => WholeArgType::Profile(ArgType::Int),
    }
}

#[inline(always)]
fn string_type(length: Length) -> WholeArgType
    ensures { result ≡ (if is_long length then WideString else Profile profile.Str) }
{
    match length {
        Length::L => WholeArgType::WideString,
        _ => WholeArgType::Profile(ArgType::Str),
    }
}

// What `n` points to.
#[inline(always)]
fn counted_type(model: Model, length: Length) -> WholeArgType
    ensures { result ≡ counted_type model length }
{
    match length {
        Length::Hh => WholeArgType::PointerToSChar,
        Length::H => WholeArgType::PointerToShort,
        _ => pointer_to(length.signed_type(model)),
    }
}

#[inline(always)]
fn pointer_to(signed: ArgType) -> WholeArgType
    ensures { result ≡ pointer_to signed }
{
    match signed {
        ArgType::Long => WholeArgType::PointerToLong,
        ArgType::LongLong => WholeArgType::PointerToLongLong,
        _ => WholeArgType::PointerToInt,
    }
}
