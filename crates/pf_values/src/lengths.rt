//! Length modifiers.
ghost use Rattle.std.specs.Prelude.{◌≡◌};
ghost use Rattle.pf_values.specs.meaning.DataModel.{kept_length, signed_type, unsigned_type};
ghost use Rattle.pf_values.specs.meaning.Lengths.{is_long, is_absent, length_letters};

use crate::data_model::length_row;
use crate::models::Model;
use crate::types::ArgType;

/// A length modifier (C11 7.21.6.1, paragraph 7).
#[derive(Clone, Copy, Debug, PartialEq, Eq)]
pub enum Length {
    /// No modifier.
    None,
    /// `hh`
    Hh,
    /// `h`
    H,
    /// `l`
    L,
    /// `ll`
    Ll,
    /// `j`
    J,
    /// `z`
    Z,
    /// `t`
    T,
}

impl Length {
    /// All length modifiers.
    pub const ALL: [Length; 8] = [
        Length::None,
        Length::Hh,
        Length::H,
        Length::L,
        Length::Ll,
        Length::J,
        Length::Z,
        Length::T,
    ];

    /// Returns the letters that spell the length modifier: at most two.
    pub fn letters(self) -> &'static [u8]
        ensures { result.now ≡ length_letters self }
    {
        match self {
            Length::None => b"",
            Length::Hh => b"hh",
            Length::H => b"h",
            Length::L => b"l",
            Length::Ll => b"ll",
            Length::J => b"j",
            Length::Z => b"z",
            Length::T => b"t",
        }
    }

    /// Returns the length modifier that a normal directive uses instead: one that names the same
    /// types in this data model (C11 7.21.6.1, paragraph 7).
    pub fn representative(self, model: Model) -> Length
        ensures { result ≡ kept_length model self }
    {
        length_row(model, self).kept
    }

    /// Returns the type of the argument of `d` and `i` under it (C11 7.21.6.1, paragraphs 7 and 8).
    #[inline(always)]
    pub fn signed_type(self, model: Model) -> ArgType
        ensures { result ≡ signed_type model self }
    {
        length_row(model, self).signed
    }

    /// Returns the type of the argument of `u`, `o`, `x`, `X` and `b` under it (C11 7.21.6.1,
    /// paragraphs 7 and 8).
    #[inline(always)]
    pub fn unsigned_type(self, model: Model) -> ArgType
        ensures { result ≡ unsigned_type model self }
    {
        length_row(model, self).unsigned
    }

    pub(crate) fn is_absent(self) -> bool
        ensures { result ≡ is_absent self }
    {
        matches!(self, Length::None)
    }

    pub(crate) fn is_long(self) -> bool
        ensures { result ≡ is_long self }
    {
        matches!(self, Length::L)
    }
}
