//! The arguments of a C program.
ghost use Rattle.std.specs.Prelude.{◌≡◌, ◌↔◌, IsTrue, MatchOption, ℤ};
ghost use Rattle.pf_values.specs.meaning.Arguments.{HasType, Number, String};
ghost use Rattle.pf_values.specs.meaning.Text.{Text};
ghost use Rattle.fmtcanon_c.specs.Arguments.{type_with_number, value_from};

use pf_render::FormatArgument;
use pf_values::{ArgType, Model};

/// `fmtcanon_argument`: an argument of a format.
#[repr(C)]
#[derive(Clone, Copy)]
pub struct CArgument<'a> {
    /// The number of its type, from 1 to 7.
    pub kind: u32,
    /// The number, if it is one; 2^64 is added to one below 0.
    pub number: u64,
    /// The bytes of the string, if it is one.
    pub string: &'a [u8],
}

impl<'a> FormatArgument for CArgument<'a> {
    ghost use Rattle.fmtcanon_c.specs.Arguments.{type_in_c, value_in_c};

    ghost type_of = { type_in_c };

    ghost argument_of = { value_in_c };

    fn has_type(&self, model: Model, wanted: ArgType) -> bool {
        match type_with_number(self.kind) {
            None => false,
            Some(own) => {
                if own != wanted {
                    return false;
                }
                is_of(model, own, self.number, self.string)
            }
        }
    }

    fn as_number(&self) -> Option<i128> {
        match type_with_number(self.kind) {
            None => None,
            Some(own) => number_from(own, self.number),
        }
    }

    fn as_string(&self) -> Option<&[u8]> {
        match type_with_number(self.kind) {
            None => Some(self.string),
            Some(own) => string_from(own, self.string),
        }
    }
}

// The type with a number of the header.
fn type_with_number(number: u32) -> Option<ArgType>
    ensures { result ≡ type_with_number number }
{
    match number {
        1 => Some(ArgType::Int),
        2 => Some(ArgType::UInt),
        3 => Some(ArgType::Long),
        4 => Some(ArgType::ULong),
        5 => Some(ArgType::LongLong),
        6 => Some(ArgType::ULongLong),
        7 => Some(ArgType::Str),
        _ => None,
    }
}

// The number of an integer type that these bits are; `None` for a string.
fn number_from(own: ArgType, bits: u64) -> Option<i128>
    ensures { (bytes : Text) → MatchOption result (value_from own bits bytes ≡ String bytes)
        (λ n. value_from own bits bytes ≡ Number n) }
{
    match own {
        ArgType::Int | ArgType::Long | ArgType::LongLong => Some(i128::from(bits.cast_signed())),
        ArgType::UInt | ArgType::ULong | ArgType::ULongLong => Some(i128::from(bits)),
        ArgType::Str => None,
    }
}

// The bytes of a string; `None` for a number.
fn string_from(own: ArgType, bytes: &[u8]) -> Option<&[u8]>
    ensures { (bits : _) → MatchOption result ((n : ℤ) × (value_from own bits bytes.now ≡ Number n))
        (λ string. value_from own bits bytes.now ≡ String string.now) }
{
    match own {
        ArgType::Int => None,
        ArgType::UInt => None,
        ArgType::Long => None,
        ArgType::ULong => None,
        ArgType::LongLong => None,
        ArgType::ULongLong => None,
        ArgType::Str => Some(bytes),
    }
}

// Whether the number that these bits are is in the range of the type, or the string has no NUL.
fn is_of(model: Model, own: ArgType, bits: u64, bytes: &[u8]) -> bool
    ensures { IsTrue result ↔ HasType model (value_from own bits bytes.now) own }
{
    match number_from(own, bits) {
        Some(number) => own.contains(model, number),
        None => !bytes.contains(&0),
    }
}
