//! The notations of numeric escape sequences, and their digits.
ghost use Rattle.std.specs.Prelude.{◌≡◌, ◌<◌, true, false, MatchOption};
ghost use Rattle.pf_literals.specs.Elements.{base, digit_value, is_escape_digit, is_full};
ghost use Rattle.pf_literals.specs.Tokens.{before_digits};

/// The notation of a numeric escape sequence (C11 6.4.4.4, paragraph 1).
#[derive(Clone, Copy, Debug, PartialEq, Eq)]
pub(crate) enum Notation {
    /// `\` and one to three octal digits.
    Octal,
    /// `\x` and hexadecimal digits.
    Hexadecimal,
}

impl Notation {
    pub(crate) fn base(self) -> u16
        ensures { result ≡ base self }
    {
        match self {
            Notation::Octal => 8,
            Notation::Hexadecimal => 16,
        }
    }

    /// How many bytes come before the digits.
    pub(crate) fn before_digits(self) -> usize
        ensures { result ≡ before_digits self }
    {
        match self {
            Notation::Octal => 1,
            Notation::Hexadecimal => 2,
        }
    }

    /// Whether an escape sequence of `count` digits can have no more.
    pub(crate) fn is_full(self, count: usize) -> bool
        ensures { result ≡ is_full self count }
    {
        match self {
            Notation::Octal => count == 3,
            Notation::Hexadecimal => false,
        }
    }

    /// What a digit is worth, if the byte is one.
    pub(crate) fn digit(self, byte: u8) -> Option<u16>
        ensures { MatchOption result (is_escape_digit self byte ≡ false)
            (λ value. (is_escape_digit self byte ≡ true) × (value ≡ digit_value byte) × (value < base self)) }
    {
        match self {
            Notation::Octal => octal_digit(byte),
            Notation::Hexadecimal => hexadecimal_digit(byte),
        }
    }
}

fn octal_digit(byte: u8) -> Option<u16>
    ensures { MatchOption result (is_escape_digit Notation.Octal byte ≡ false)
        (λ value. (is_escape_digit Notation.Octal byte ≡ true) × (value ≡ digit_value byte) × (value < 8)) }
{
    match byte {
        b'0'..=b'7' => Some(u16::from(byte - b'0')),
        _ => None,
    }
}

fn hexadecimal_digit(byte: u8) -> Option<u16>
    ensures { MatchOption result (is_escape_digit Notation.Hexadecimal byte ≡ false)
        (λ value. (is_escape_digit Notation.Hexadecimal byte ≡ true) × (value ≡ digit_value byte) × (value < 16)) }
{
    match byte {
        b'0'..=b'9' => Some(u16::from(byte - b'0')),
        b'A'..=b'F' => Some(u16::from(byte - b'A') + 10),
        b'a'..=b'f' => Some(u16::from(byte - b'a') + 10),
        _ => None,
    }
}
