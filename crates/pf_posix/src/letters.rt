//! Single bytes of a specification: length modifiers and conversions (C11 7.21.6.1, paragraphs 7
//! and 8).
ghost use Rattle.std.specs.Prelude.{◌≡◌};
ghost use Rattle.pf_posix.specs.Letters.{conversion_of, length_modifier_of};

use crate::conversions::{Floating, WholeConv, WholeLength};
use pf_text::{conv_of, modifier_of};

/// The length modifier that a letter is or begins.
#[inline(always)]
pub(crate) fn length_modifier_of(byte: u8) -> Option<WholeLength>
    ensures { result ≡ length_modifier_of byte }
{
    match byte {
        b'L' => Some(WholeLength::LongDouble),
        _ => modifier_of(byte).map(WholeLength::Integer),
    }
}

#[inline(always)]
pub(crate) fn conversion_of(byte: u8) -> Option<WholeConv>
    ensures { result ≡ conversion_of byte }
{
    match byte {
        b'f' => Some(WholeConv::Float(Floating::F)),
        b'F' => Some(WholeConv::Float(Floating::UpperF)),
        b'e' => Some(WholeConv::Float(Floating::E)),
        b'E' => Some(WholeConv::Float(Floating::UpperE)),
        b'g' => Some(WholeConv::Float(Floating::G)),
        b'G' => Some(WholeConv::Float(Floating::UpperG)),
        b'a' => Some(WholeConv::Float(Floating::A)),
        b'A' => Some(WholeConv::Float(Floating::UpperA)),
        b'C' => Some(WholeConv::UpperC),
        b'S' => Some(WholeConv::UpperS),
        b'p' => Some(WholeConv::Pointer),
        b'n' => Some(WholeConv::Count),
        _ => conv_of(byte).map(WholeConv::Profile),
    }
}
