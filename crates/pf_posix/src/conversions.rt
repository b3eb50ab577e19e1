//! Conversions and length modifiers of the whole language.
ghost use Rattle.std.specs.Prelude.{◌≡◌};
ghost use Rattle.pf_posix.specs.Specifications.{conversion_letter, floating_letter, modifier_letters};

use pf_values::{Conv, Length};

/// A floating conversion (C11 7.21.6.1, paragraph 8).
#[derive(Clone, Copy, Debug, PartialEq, Eq)]
pub enum Floating {
    /// `f`
    F,
    /// `F`
    UpperF,
    /// `e`
    E,
    /// `E`
    UpperE,
    /// `g`
    G,
    /// `G`
    UpperG,
    /// `a`
    A,
    /// `A`
    UpperA,
}

impl Floating {
    /// Returns the letter that spells the conversion.
    pub fn letter(self) -> u8
        ensures { result ≡ floating_letter self }
    {
        match self {
            Floating::F => b'f',
            Floating::UpperF => b'F',
            Floating::E => b'e',
            Floating::UpperE => b'E',
            Floating::G => b'g',
            Floating::UpperG => b'G',
            Floating::A => b'a',
            Floating::UpperA => b'A',
        }
    }
}

/// A conversion (C11 7.21.6.1, paragraph 8; `C` and `S` are of POSIX).
#[derive(Clone, Copy, Debug, PartialEq, Eq)]
pub enum WholeConv {
    /// One that the profile has.
    Profile(Conv),
    /// A floating one.
    Float(Floating),
    /// `C`
    UpperC,
    /// `S`
    UpperS,
    /// `p`
    Pointer,
    /// `n`
    Count,
}

impl WholeConv {
    /// Returns the letter that spells the conversion.
    pub fn letter(self) -> u8
        ensures { result ≡ conversion_letter self }
    {
        match self {
            WholeConv::Profile(conv) => conv.letter(),
            WholeConv::Float(floating) => floating.letter(),
            WholeConv::UpperC => b'C',
            WholeConv::UpperS => b'S',
            WholeConv::Pointer => b'p',
            WholeConv::Count => b'n',
        }
    }
}

/// A length modifier (C11 7.21.6.1, paragraph 7).
#[derive(Clone, Copy, Debug, PartialEq, Eq)]
pub enum WholeLength {
    /// None, or one of integers.
    Integer(Length),
    /// `L`
    LongDouble,
}

impl WholeLength {
    /// Returns the letters that spell the length modifier: at most two.
    pub fn letters(self) -> &'static [u8]
        ensures { result.now ≡ modifier_letters self }
    {
        match self {
            WholeLength::Integer(length) => length.letters(),
            WholeLength::LongDouble => b"L",
        }
    }
}
