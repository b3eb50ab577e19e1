//! Why a text is not a source, and why it has no bytes.
ghost use Rattle.std.specs.Prelude.{◌≡◌};
ghost use Rattle.pf_literals.specs.Kinds.{literal_kind_name, literal_kind_number};

use thiserror::Error;

/// The kind, and the offset from 0 where the text stops being a source.
#[derive(Clone, Copy, Debug, PartialEq, Eq, Error)]
#[error("no source ({kind:?}) at byte {at}")]
pub struct LiteralRefusal {
    /// Why it is rejected.
    pub kind: LiteralKind,
    /// Where it is rejected.
    pub at: u64,
}

/// Why there are no bytes of a source.
#[derive(Clone, Copy, Debug, PartialEq, Eq, Error)]
pub enum LiteralFault {
    /// The text is not a source.
    #[error("{0}")]
    Refused(LiteralRefusal),
    /// Memory was refused.
    #[error("out of memory")]
    Memory,
}

/// Why a text is not a source of string literals. Each kind has a number and a name of its own.
#[derive(Clone, Copy, Debug, PartialEq, Eq)]
pub enum LiteralKind {
    /// A byte outside of a literal that is neither white space nor `"`, or the end of a text that
    /// has no literal.
    NoLiteral,
    /// The end of a line, or of the text, in a literal.
    Unterminated,
    /// `\` and what it makes no escape sequence with.
    BadEscape,
    /// A numeric escape sequence of a number above 255.
    EscapeTooLarge,
    /// NUL in a literal, as such or by an escape sequence: a C string would end there.
    ZeroByte,
    /// `??` and a third byte that make a trigraph, for which not all compilers put another byte.
    Trigraph,
}

impl LiteralKind {
    /// All kinds, in the order of their numbers.
    pub const ALL: [LiteralKind; 6] = [
        LiteralKind::NoLiteral,
        LiteralKind::Unterminated,
        LiteralKind::BadEscape,
        LiteralKind::EscapeTooLarge,
        LiteralKind::ZeroByte,
        LiteralKind::Trigraph,
    ];

    /// Returns the number of the kind, from 1 to 6.
    pub fn number(self) -> u8
        ensures { result ≡ literal_kind_number self }
    {
        match self {
            LiteralKind::NoLiteral => 1,
            LiteralKind::Unterminated => 2,
            LiteralKind::BadEscape => 3,
            LiteralKind::EscapeTooLarge => 4,
            LiteralKind::ZeroByte => 5,
            LiteralKind::Trigraph => 6,
        }
    }

    /// Returns the name of the kind, in ASCII.
    pub fn name(self) -> &'static str
        ensures { result.now ≡ literal_kind_name self }
    {
        match self {
            LiteralKind::NoLiteral => "NoLiteral",
            LiteralKind::Unterminated => "Unterminated",
            LiteralKind::BadEscape => "BadEscape",
            LiteralKind::EscapeTooLarge => "EscapeTooLarge",
            LiteralKind::ZeroByte => "ZeroByte",
            LiteralKind::Trigraph => "Trigraph",
        }
    }
}
