//! Arguments: the words that give them, and their values before and after they have a type.
ghost use Rattle.std.specs.Prelude.{◌≡◌, ◌↔◌, IfSome, IsSome, ℕ, ℤ, pos, IfNone, IfErr, IfOk, length, map};
ghost use Rattle.pf_values.specs.Arg.{argument_of, type_of};
ghost use Rattle.pf_values.specs.meaning.Arguments.{HasType, Number, Argument, HasTypes};
ghost use Rattle.pf_values.specs.meaning.DataModel.{IsInRange};
ghost use Rattle.fmtcanon.specs.UntypedArgs.{argument_given};
ghost use Rattle.fmtcanon.specs.ArgumentWords.{SpellsArgument, SpellsMagnitude, SpellsNumber};
ghost use Rattle.fmtcanon.specs.FormatArguments.{AreArgumentsFor, IsArgumentFault, IsBadWord, IsWrongType, SpellArguments};

use crate::outcome::Outcome;
use crate::type_lines::types_of;
use pf_values::{Arg, ArgType, CBytes, Model};
use std::alloc::Global;

/// An argument that has no type yet.
#[derive(Clone, Copy)]
pub enum UntypedArg<'a> {
    /// A number.
    Number(i128),
    /// A string.
    String(CBytes<'a>),
}

impl<'a> UntypedArg<'a> {
    /// Returns the argument at a type, or `None` if it isn't one of this type in the data model.
    pub fn as_type(self, model: Model, arg_type: ArgType) -> Option<Arg<'a>>
        ensures typed { IsSome result ↔ HasType model (argument_given self.entry) arg_type }
        ensures some { IfSome result
            (λ arg. (type_of arg ≡ arg_type) × (argument_of arg ≡ argument_given self.entry)) }
    {
        match self {
            UntypedArg::Number(number) => number_as(model, number, arg_type),
            UntypedArg::String(bytes) if arg_type == ArgType::Str => Some(Arg::Str(bytes)),
            UntypedArg::String(_) => None,
        }
    }
}

// The number at a type of numbers.
fn number_as(model: Model, number: i128, arg_type: ArgType) -> Option<Arg<'static>>
    ensures typed { IsSome result ↔ IsInRange model arg_type number }
    ensures some { IfSome result
        (λ arg. (type_of arg ≡ arg_type) × (argument_of arg ≡ Number number)) }
{
    if !arg_type.contains(model, number) {
        return None;
    }
    match arg_type {
        ArgType::Int => Some(Arg::Int(number as i32)),
        ArgType::UInt => Some(Arg::UInt(number as u32)),
        ArgType::Long => Some(Arg::Long(number as i64)),
        ArgType::ULong => Some(Arg::ULong(number as u64)),
        ArgType::LongLong => Some(Arg::LongLong(number as i64)),
        ArgType::ULongLong => Some(Arg::ULongLong(number as u64)),
        ArgType::Str => None,
    }
}

/// The most digits of a number, zeros in front included.
pub const MAX_DIGITS: usize = 20;

/// Returns the argument that a word gives, or `None` if it gives none.
pub fn read_argument(word: &[u8]) -> Option<UntypedArg<'_>>
    ensures some { IfSome result (λ given. SpellsArgument word.now (argument_given given)) }
    ensures none { IfNone result ((argument : Argument) → ¬ SpellsArgument word.now argument) }
{
    match word {
        [b'n', b':', number @ ..] => Some(UntypedArg::Number(number_of(number)?)),
        [b's', b':', bytes @ ..] => Some(UntypedArg::String(CBytes::new(bytes)?)),
        _ => None,
    }
}

// The number of a text with a `-` or none.
fn number_of(text: &[u8]) -> Option<i128>
    ensures some { IfSome result (SpellsNumber text.now) }
    ensures none { IfNone result ((n : ℤ) → ¬ SpellsNumber text.now n) }
{
    match text {
        [b'-', digits @ ..] => Some(-magnitude_of(digits)?),
        digits => magnitude_of(digits),
    }
}

// The number of a text of digits.
fn magnitude_of(digits: &[u8]) -> Option<i128>
    ensures some { IfSome result
        (λ number. (n : ℕ) × SpellsMagnitude digits.now n × (number ≡ pos n)) }
    ensures none { IfNone result ((n : ℕ) → ¬ SpellsMagnitude digits.now n) }
{
    if digits.is_empty() || digits.len() > MAX_DIGITS {
        return None;
    }
    let mut magnitude = 0;
    for digit in digits {
        if !digit.is_ascii_digit() {
            return None;
        }
        magnitude = magnitude * 10 + i128::from(digit - b'0');
    }
    Some(magnitude)
}

/// Returns the arguments for a format, each of its type in a data model. `Err` with the reason if
/// there are none.
pub fn arguments_for<'a>(
    alloc: Global,
    model: Model,
    format: &[u8],
    words: &[&'a str],
) -> Result<Vec<Arg<'a>>, Outcome>
    ensures ok { IfOk result
        (λ args. AreArgumentsFor model format.now (map (λ s. s.now) words.now) args.items) }
    ensures err { IfErr result (IsArgumentFault model format.now (map (λ s. s.now) words.now)) }
{
    let wanted = types_of(alloc, model, format)?;
    let given = read_words(alloc, words)?;
    if wanted.len() != given.len() {
        return Err(Outcome::WrongCount {
            wanted: wanted.len() as u64,
            given: given.len() as u64,
        });
    }
    at_types(alloc, model, &given, wanted.as_slice())
}

// The arguments that the words give.
fn read_words<'a>(alloc: Global, words: &[&'a str]) -> Result<Vec<UntypedArg<'a>>, Outcome>
    ensures ok { IfOk result
        (λ given. SpellArguments (map (λ s. s.now) words.now) (map argument_given given.items)) }
    ensures err { IfErr result (λ fault. IsBadWord (map (λ s. s.now) words.now) fault) }
{
    let mut given = Vec::new(alloc);
    for word in words {
        match read_argument(word.as_bytes()) {
            Some(argument) => {
                if given.push(argument).is_err() {
                    return Err(Outcome::Memory);
                }
            }
            None => return Err(Outcome::BadWord(given.len() as u64)),
        }
    }
    Ok(given)
}

// Returns the arguments at the types of the format, which takes just as many.
fn at_types<'a>(
    alloc: Global,
    model: Model,
    given: &[UntypedArg<'a>],
    wanted: &[ArgType],
) -> Result<Vec<Arg<'a>>, Outcome>
    requires { length given.now ≡ length wanted.now }
    ensures ok { IfOk result (λ args.
        (map argument_of args.items ≡ map argument_given given.now)
        × HasTypes model (map argument_of args.items) wanted.now
        × (map type_of args.items ≡ wanted.now)) }
    ensures err { IfErr result
        (λ fault. IsWrongType model (map argument_given given.now) wanted.now fault) }
{
    let mut args = Vec::new(alloc);
    for (argument, arg_type) in given.iter().zip(wanted) {
        match argument.as_type(model, *arg_type) {
            Some(arg) => {
                if args.push(arg).is_err() {
                    return Err(Outcome::Memory);
                }
            }
            None => return Err(Outcome::WrongType(args.len() as u64)),
        }
    }
    Ok(args)
}
