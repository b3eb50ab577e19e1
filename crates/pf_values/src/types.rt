//! Argument types.
ghost use Rattle.std.specs.Prelude.{◌≡◌, ◌↔◌, IsTrue};
ghost use Rattle.pf_values.specs.TypeNumbers.{type_number};
ghost use Rattle.pf_values.specs.meaning.DataModel.{IsInRange};

use crate::data_model::{fits_signed, fits_unsigned, type_bits};
use crate::models::Model;

/// The type of an argument.
#[derive(Clone, Copy, Debug, Default, PartialEq, Eq)]
pub enum ArgType {
    /// `int`
    #[default]
    Int,
    /// `unsigned int`
    UInt,
    /// `long`
    Long,
    /// `unsigned long`
    ULong,
    /// `long long`
    LongLong,
    /// `unsigned long long`
    ULongLong,
    /// A pointer to bytes that end in NUL.
    Str,
}

impl ArgType {
    /// Returns the number of the type, from 1 to 7.
    #[inline(always)]
    pub fn number(self) -> u8
        ensures { result ≡ type_number self }
    {
        match self {
            ArgType::Int => 1,
            ArgType::UInt => 2,
            ArgType::Long => 3,
            ArgType::ULong => 4,
            ArgType::LongLong => 5,
            ArgType::ULongLong => 6,
            ArgType::Str => 7,
        }
    }

    /// Returns whether the number is in the range of the type in this data model (C11 6.2.5). No
    /// number is in that of a string.
    pub fn contains(self, model: Model, number: i128) -> bool
        ensures { IsTrue result ↔ IsInRange model self number }
    {
        let bits = type_bits(model, self);
        match self {
            ArgType::Int | ArgType::Long | ArgType::LongLong => fits_signed(number, bits),
            ArgType::UInt | ArgType::ULong | ArgType::ULongLong => fits_unsigned(number, bits),
            ArgType::Str => false,
        }
    }
}
