//! Arguments of directives.
ghost use Rattle.std.specs.Prelude.{◌≡◌, ◌<◌, ◌↔◌, IfSome, IsNone, IsTrue, MatchOption, Contains, All};

use crate::models;
use crate::types::ArgType;

/// Bytes without NUL: those of a C string before its end.
#[derive(Clone, Copy, Debug)]
pub struct CBytes<'a> {
    bytes: &'a [u8],
    ghost in_range: { All (λ byte. (0 < byte) × (byte < 256)) bytes.now },
}

impl<'a> CBytes<'a> {
    ghost use Rattle.pf_values.specs.Arg.{bytes_of};

    /// Returns the bytes, or `None` if a NUL is among them.
    pub fn new(bytes: &'a [u8]) -> Option<CBytes<'a>>
        ensures value { IfSome result (λ s. bytes_of s ≡ bytes.now) }
        ensures zero { IsNone result ↔ Contains bytes.now 0 }
    {
        if bytes.contains(&0) {
            return None;
        }
        Some(CBytes { bytes })
    }

    /// Returns the bytes.
    pub fn bytes(self) -> &'a [u8]
        ensures { result.now ≡ bytes_of self.entry }
    {
        self.bytes
    }
}

/// An argument: a number of one of the integer types, or a string.
#[derive(Clone, Copy, Debug)]
pub enum Arg<'a> {
    /// An `int`.
    Int(i32),
    /// An `unsigned int`.
    UInt(u32),
    /// A `long`.
    Long(i64),
    /// An `unsigned long`.
    ULong(u64),
    /// A `long long`.
    LongLong(i64),
    /// An `unsigned long long`.
    ULongLong(u64),
    /// A string.
    Str(CBytes<'a>),
}

impl<'a> Arg<'a> {
    ghost use Rattle.pf_values.specs.Arg.{argument_of, type_of};
    ghost use Rattle.pf_values.specs.declared.models.Model.TheVariants.{Lp64};
    ghost use Rattle.pf_values.specs.meaning.Arguments.{HasType, Number, String};
    ghost use Rattle.pf_values.specs.meaning.Text.{Text};

    /// Returns the type of the argument.
    pub fn arg_type(self) -> ArgType
        ensures value { result ≡ type_of self.entry }
        ensures typed { HasType Lp64 (argument_of self.entry) result }
    {
        match self {
            Arg::Int(_) => ArgType::Int,
            Arg::UInt(_) => ArgType::UInt,
            Arg::Long(_) => ArgType::Long,
            Arg::ULong(_) => ArgType::ULong,
            Arg::LongLong(_) => ArgType::LongLong,
            Arg::ULongLong(_) => ArgType::ULongLong,
            Arg::Str(_) => ArgType::Str,
        }
    }

    /// Returns whether the argument is in the range of its type in this data model (C11 6.2.5). In
    /// LP64 each one is, and a string is in any.
    pub fn fits(self, model: models::Model) -> bool
        ensures { IsTrue result ↔ HasType model (argument_of self.entry) (type_of self.entry) }
    {
        match self.number() {
            Some(number) => self.arg_type().contains(model, number),
            None => true,
        }
    }

    /// Returns the number of an integer argument, or `None` for a string.
    pub fn number(self) -> Option<i128>
        ensures { MatchOption result ((bytes : Text) × (argument_of self.entry ≡ String bytes))
            (λ n. argument_of self.entry ≡ Number n) }
    {
        match self {
            Arg::Int(n) => Some(i128::from(n)),
            Arg::UInt(n) => Some(i128::from(n)),
            Arg::Long(n) | Arg::LongLong(n) => Some(i128::from(n)),
            Arg::ULong(n) | Arg::ULongLong(n) => Some(i128::from(n)),
            Arg::Str(_) => None,
        }
    }
}
