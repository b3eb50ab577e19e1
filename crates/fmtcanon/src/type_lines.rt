//! The types of a format's arguments, a line for each: in the profile, and in the whole language.
ghost use Rattle.std.specs.Prelude.{◌≡◌, IfOk, MatchResult, flat_map};
ghost use Rattle.fmtcanon.specs.Answers.{IsFormatFault};
ghost use Rattle.pf_whole.specs.Languages.{Numbered, Profile};
ghost use Rattle.fmtcanon.specs.ArgumentLines.{HasArgumentLines, argument_line, argument_name};
ghost use Rattle.pf_text.specs.Signatures.{TakesTypes, types_of};
ghost use Rattle.fmtcanon.specs.TypeLines.{HasTypeLines, type_line, type_name};

use crate::lines::push_line;
use crate::outcome::Outcome;
use pf_posix::{WholeArgType, arguments, arguments_vec};
use pf_text::{Signature, check, signature};
use pf_values::{ArgType, Model};
use std::alloc::{AllocError, Global};

// How many types are found with no allocation.
const ROOM: usize = 64;

// Room for `unsigned long` and a newline. Few lines are longer.
const USUAL_LINE: usize = 14;

/// Returns a line for each argument of a format in a data model. `Err` if the format or memory is
/// refused.
pub fn type_lines(alloc: Global, model: Model, format: &[u8]) -> Result<Vec<u8>, Outcome>
    ensures { MatchResult result (λ out. HasTypeLines model format.now out.items)
        (IsFormatFault Profile model format.now) }
{
    let types = types_of(alloc, model, format)?;
    Ok(lines_of_types(alloc, types.as_slice())?)
}

/// Returns the types of a format's arguments in a data model. `Err` if it is rejected, or if out of memory, for
/// an accepted format.
pub fn types_of(alloc: Global, model: Model, format: &[u8]) -> Result<Signature, Outcome>
    ensures { MatchResult result (λ signature. TakesTypes model format.now (types_of signature))
        (IsFormatFault Profile model format.now) }
{
    check(format)?;
    Ok(signature(alloc, model, format)?)
}

fn lines_of_types(alloc: Global, types: &[ArgType]) -> Result<Vec<u8>, AllocError>
    ensures { IfOk result (λ out. out.items ≡ flat_map type_line types.now) }
{
    let mut out = Vec::with_capacity(alloc, types.len().saturating_mul(USUAL_LINE))?;
    for arg_type in types {
        push_line(&mut out, type_name(*arg_type))?;
    }
    Ok(out)
}

/// Returns the name of a type, as C spells it; that of a string is `string`.
pub fn type_name(arg_type: ArgType) -> &'static str
    ensures { result.now ≡ type_name arg_type }
{
    match arg_type {
        ArgType::Int => "int",
        ArgType::UInt => "unsigned int",
        ArgType::Long => "long",
        ArgType::ULong => "unsigned long",
        ArgType::LongLong => "long long",
        ArgType::ULongLong => "unsigned long long",
        ArgType::Str => "string",
    }
}

/// Returns a line for each argument of a format of the whole language in a data model. `Err` if the
/// format or memory is refused.
pub fn whole_type_lines(alloc: Global, model: Model, format: &[u8]) -> Result<Vec<u8>, Outcome>
    ensures { MatchResult result (λ out. HasArgumentLines model format.now out.items)
        (IsFormatFault Numbered model format.now) }
{
    let mut types = [WholeArgType::Profile(ArgType::Int); ROOM];
    let count = arguments(model, format, &mut types)?;
    if count > ROOM as u64 {
        return many_type_lines(alloc, model, format);
    }
    Ok(lines_of_arguments(alloc, &types[..count as usize])?)
}

// Returns a line for each of any number of arguments.
#[inline(never)]
fn many_type_lines(alloc: Global, model: Model, format: &[u8]) -> Result<Vec<u8>, Outcome>
    ensures { MatchResult result (λ out. HasArgumentLines model format.now out.items)
        (IsFormatFault Numbered model format.now) }
{
    let types = arguments_vec(alloc, model, format)?;
    Ok(lines_of_arguments(alloc, &types)?)
}

fn lines_of_arguments(alloc: Global, types: &[WholeArgType]) -> Result<Vec<u8>, AllocError>
    ensures { IfOk result (λ out. out.items ≡ flat_map argument_line types.now) }
{
    let mut out = Vec::with_capacity(alloc, types.len().saturating_mul(USUAL_LINE))?;
    for argument_type in types {
        push_line(&mut out, argument_name(*argument_type))?;
    }
    Ok(out)
}

/// Returns a type in words: as C spells it, except for strings, wide characters and pointers.
pub fn argument_name(argument_type: WholeArgType) -> &'static str
    ensures { result.now ≡ argument_name argument_type }
{
    match argument_type {
        WholeArgType::Profile(arg_type) => type_name(arg_type),
        WholeArgType::Double => "double",
        WholeArgType::LongDouble => "long double",
        WholeArgType::WideChar => "wide character",
        WholeArgType::WideString => "wide string",
        WholeArgType::Pointer => "pointer",
        WholeArgType::PointerToSChar => "pointer to signed char",
        WholeArgType::PointerToShort => "pointer to short",
        WholeArgType::PointerToInt => "pointer to int",
        WholeArgType::PointerToLong => "pointer to long",
        WholeArgType::PointerToLongLong => "pointer to long long",
    }
}
