//! The bases in which numbers are printed.
ghost use Rattle.std.specs.Prelude.{◌≡◌, ◌≤◌, length};
ghost use Rattle.pf_values.specs.meaning.Bits.{Bits, bit_count, by_bits};
ghost use Rattle.pf_values.specs.meaning.Bases.{
  alternative_of,
  is_grouped,
  most_digits_in,
  number_of,
  prefix_of,
};

/// A base in which a number is printed (C11 7.21.6.1, paragraph 8).
#[derive(Clone, Copy, Debug, PartialEq, Eq)]
pub enum Base {
    /// Base two (C23 7.23.6.1, paragraph 8).
    Binary,
    /// Base eight.
    Octal,
    /// Base ten.
    Decimal,
    /// Base sixteen.
    Hexadecimal,
}

/// What the flag `#` does to the numbers of a base (C11 7.21.6.1, paragraph 6).
#[derive(Clone, Copy, Debug, PartialEq, Eq)]
pub enum Alternative {
    /// The standard leaves it undefined.
    Undefined,
    /// It raises the precision until the first digit is 0.
    Raised,
    /// It puts two letters before a number other than 0.
    Prefixed,
}

impl Base {
    /// Returns the base as a number.
    pub fn number(self) -> u64
        ensures value { result ≡ number_of self }
        ensures range { (2 ≤ result) × (result ≤ 16) }
    {
        match self {
            Base::Binary => 2,
            Base::Octal => 8,
            Base::Decimal => 10,
            Base::Hexadecimal => 16,
        }
    }

    /// Returns what the flag `#` does.
    pub fn alternative(self) -> Alternative
        ensures { result ≡ alternative_of self }
    {
        match self {
            Base::Octal => Alternative::Raised,
            Base::Decimal => Alternative::Undefined,
            Base::Binary | Base::Hexadecimal => Alternative::Prefixed,
        }
    }

    // Whether the apostrophe groups the digits (POSIX).
    pub(crate) fn is_grouped(self) -> bool
        ensures { result ≡ is_grouped self }
    {
        match self {
            Base::Binary | Base::Octal | Base::Hexadecimal => false,
            Base::Decimal => true,
        }
    }

    /// Returns the letters that the flag `#` puts before a number, in lower case or as capitals;
    /// none if it puts none (C11 7.21.6.1, paragraph 6).
    pub fn prefix(self, capitals: bool) -> &'static [u8]
        ensures value { result.now ≡ prefix_of self capitals }
        ensures short { length result.now ≤ 2 }
    {
        match self {
            Base::Octal | Base::Decimal => b"",
            Base::Binary if capitals => b"0B",
            Base::Binary => b"0b",
            Base::Hexadecimal if capitals => b"0X",
            Base::Hexadecimal => b"0x",
        }
    }

    /// The most digits that a number of `bits` bits has.
    pub(crate) fn max_digits(self, bits: u8) -> u8
        ensures { (b : Bits) → bits ≡ bit_count b → result ≡ most_digits_in self b }
    {
        match self {
            Base::Binary => by_bits(bits, 8, 16, 32, 64),
            Base::Octal => by_bits(bits, 3, 6, 11, 22),
            Base::Decimal => by_bits(bits, 3, 5, 10, 20),
            Base::Hexadecimal => by_bits(bits, 2, 4, 8, 16),
        }
    }
}

/// One of four numbers, by the bits: 8, 16, 32 or 64.
pub(crate) fn by_bits(bits: u8, b8: u8, b16: u8, b32: u8, b64: u8) -> u8
    ensures { (b : Bits) → bits ≡ bit_count b → result ≡ by_bits b b8 b16 b32 b64 }
{
    match bits {
        8 => b8,
        16 => b16,
        32 => b32,
        _ => b64,
    }
}
