//! Conversions, and what they print.
ghost use Rattle.std.specs.Prelude.{◌≡◌};
ghost use Rattle.pf_values.specs.meaning.Bases.{is_defined};
ghost use Rattle.pf_values.specs.meaning.DataModel.{type_under};
ghost use Rattle.pf_values.specs.meaning.Conversions.{
  alternative_under,
  base_under,
  conv_letter,
  has_capitals,
  kept_conv,
  kind_of,
  prints_char,
  prints_grouped,
  prints_text,
};

use crate::bases::{Alternative, Base};
use crate::lengths::Length;
use crate::models::Model;
use crate::types::ArgType;

/// A conversion (C11 7.21.6.1, paragraph 8).
#[derive(Clone, Copy, Debug, PartialEq, Eq)]
pub enum Conv {
    /// `d`: a signed number.
    D,
    /// `i`: the same.
    I,
    /// `u`: an unsigned number.
    U,
    /// `o`: an unsigned number in octal.
    O,
    /// `x`: an unsigned number in hexadecimal.
    X,
    /// `X`: the same in upper case.
    UpperX,
    /// `b`: an unsigned number in binary (C23 7.23.6.1, paragraph 8).
    B,
    /// `c`: one byte.
    C,
    /// `s`: a string.
    S,
}

/// What a conversion prints (C11 7.21.6.1, paragraph 8).
#[derive(Clone, Copy, Debug, PartialEq, Eq)]
pub enum Kind {
    /// A number that may be below 0, in base ten.
    Signed,
    /// A number that is not, in a base; and whether its digits from ten on are capitals.
    Unsigned(Base, bool),
    /// One byte.
    Char,
    /// The bytes of a string.
    String,
}

impl Conv {
    /// All conversions.
    pub const ALL: [Conv; 9] = [
        Conv::D,
        Conv::I,
        Conv::U,
        Conv::O,
        Conv::X,
        Conv::UpperX,
        Conv::B,
        Conv::C,
        Conv::S,
    ];

    /// Returns the letter that spells the conversion.
    pub fn letter(self) -> u8
        ensures { result ≡ conv_letter self }
    {
        match self {
            Conv::D => b'd',
            Conv::I => b'i',
            Conv::U => b'u',
            Conv::O => b'o',
            Conv::X => b'x',
            Conv::UpperX => b'X',
            Conv::B => b'b',
            Conv::C => b'c',
            Conv::S => b's',
        }
    }

    /// Returns the conversion that a normal directive uses instead: `i` is another name for `d`
    /// (C11 7.21.6.1, paragraph 8).
    pub fn representative(self) -> Conv
        ensures { result ≡ kept_conv self }
    {
        match self {
            Conv::I => Conv::D,
            other => other,
        }
    }

    /// Returns the type of its argument under a length modifier in this data model (C11 7.21.6.1,
    /// paragraphs 7 and 8).
    #[inline(always)]
    pub fn arg_type(self, model: Model, length: Length) -> ArgType
        ensures { result ≡ type_under model self length }
    {
        match self.kind() {
            Kind::Signed => length.signed_type(model),
            Kind::Unsigned(_, _) => length.unsigned_type(model),
            Kind::Char => ArgType::Int,
            Kind::String => ArgType::Str,
        }
    }

    /// Returns what it prints.
    #[inline(always)]
    pub fn kind(self) -> Kind
        ensures { result ≡ kind_of self }
    {
        match self {
            Conv::D | Conv::I => Kind::Signed,
            Conv::U => Kind::Unsigned(Base::Decimal, false),
            Conv::O => Kind::Unsigned(Base::Octal, false),
            Conv::X => Kind::Unsigned(Base::Hexadecimal, false),
            Conv::UpperX => Kind::Unsigned(Base::Hexadecimal, true),
            Conv::B => Kind::Unsigned(Base::Binary, false),
            Conv::C => Kind::Char,
            Conv::S => Kind::String,
        }
    }
}

impl Kind {
    /// Returns whether it is one byte or a string.
    pub fn is_text(self) -> bool
        ensures { result ≡ prints_text self }
    {
        matches!(self, Kind::Char | Kind::String)
    }

    /// Returns whether it is one byte.
    pub fn is_char(self) -> bool
        ensures { result ≡ prints_char self }
    {
        matches!(self, Kind::Char)
    }

    /// Returns whether it is a number in a base whose digits the flag `'` groups (POSIX `fprintf`).
    pub fn is_grouped(self) -> bool
        ensures { result ≡ prints_grouped self }
    {
        match self {
            Kind::Signed => true,
            Kind::Unsigned(base, _) => base.is_grouped(),
            Kind::Char | Kind::String => false,
        }
    }

    /// Returns whether the flag `#` is defined for it (C11 7.21.6.1, paragraph 6).
    pub fn has_alternative_form(self) -> bool
        ensures { result ≡ is_defined (alternative_under self) }
    {
        !matches!(self.alternative(), Alternative::Undefined)
    }

    /// Returns the base of the digits, ten for numbers with a sign; a byte and a string have none.
    pub fn base(self) -> Base
        ensures { result ≡ base_under self }
    {
        match self {
            Kind::Unsigned(base, _) => base,
            Kind::Signed | Kind::Char | Kind::String => Base::Decimal,
        }
    }

    /// Returns whether the digits from ten on are capitals.
    pub fn has_capitals(self) -> bool
        ensures { result ≡ has_capitals self }
    {
        match self {
            Kind::Unsigned(_, capitals) => capitals,
            Kind::Signed | Kind::Char | Kind::String => false,
        }
    }

    /// Returns what the flag `#` does to it (C11 7.21.6.1, paragraph 6).
    pub fn alternative(self) -> Alternative
        ensures { result ≡ alternative_under self }
    {
        match self {
            Kind::Unsigned(base, _) => base.alternative(),
            Kind::Signed | Kind::Char | Kind::String => Alternative::Undefined,
        }
    }
}
