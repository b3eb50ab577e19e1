//! The types of the arguments that a format takes, in the profile and in the whole language.
ghost use Rattle.std.specs.Prelude.{◌≡◌};
ghost use Rattle.fmtcanon_c.specs.Models.{InModel};
ghost use Rattle.fmtcanon_c.specs.Calls.{PutsArguments, PutsTypes};

use crate::interface::{CError, NO_MEMORY, NO_MODEL, model_of, put_codes, put_refusal};
use pf_posix::{WholeArgType, arguments, arguments_vec};
use pf_text::{Side, TextFault, known_types, signature};
use pf_values::{ArgType, Model};
use std::alloc::Global;

// How many types are put with no allocation.
const ROOM: usize = 32;

/// Puts the codes of the types into a buffer that has room for them. The number of arguments, or
/// the code of an error.
#[unsafe(no_mangle)]
pub extern "C" fn fmtcanon_types(
    alloc: Global,
    model: i32,
    text: &[u8],
    out: &mut [u8],
    error: &mut CError,
) -> i64
    ensures { InModel model (λ m. PutsTypes m text.now out.old error.old result out.new error.new)
        result ((out.new ≡ out.old) × (error.new ≡ error.old)) }
{
    let Some(model) = model_of(model) else {
        return NO_MODEL;
    };
    // Up to `ROOM` types wait on the stack until the format is known to be accepted.
    let mut types = [ArgType::Int; ROOM];
    match known_types(model, text, &mut types) {
        Some(count) => put_codes(out, &types[..count]),
        None => put_signature(alloc, model, text, out, error),
    }
}

// Puts the codes of any number of types, or returns the code of the error.
#[inline(never)]
fn put_signature(
    alloc: Global,
    model: Model,
    text: &[u8],
    out: &mut [u8],
    error: &mut CError,
) -> i64
    ensures { PutsTypes model text.now out.old error.old result out.new error.new }
{
    match signature(alloc, model, text) {
        Ok(signature) => put_codes(out, signature.as_slice()),
        Err(TextFault::Refused(refusal)) => put_refusal(error, Side::First, refusal),
        Err(TextFault::Memory) => NO_MEMORY,
    }
}

/// Puts the numbers of the types into a buffer that has room for them (POSIX `fprintf`). The number
/// of arguments, or the code of an error.
#[unsafe(no_mangle)]
pub extern "C" fn fmtcanon_arguments(
    alloc: Global,
    model: i32,
    text: &[u8],
    out: &mut [u8],
    error: &mut CError,
) -> i64
    ensures { InModel model
        (λ m. PutsArguments m text.now out.old error.old result out.new error.new)
        result ((out.new ≡ out.old) × (error.new ≡ error.old)) }
{
    let Some(model) = model_of(model) else {
        return NO_MODEL;
    };
    let mut types = [WholeArgType::Profile(ArgType::Int); ROOM];
    match arguments(model, text, &mut types) {
        Ok(count) => {
            if count > ROOM as u64 {
                return put_many_arguments(alloc, model, text, out, error);
            }
            put_codes(out, &types[..count as usize])
        }
        Err(refusal) => put_refusal(error, Side::First, refusal),
    }
}

// Puts the numbers of any number of arguments.
#[inline(never)]
fn put_many_arguments(
    alloc: Global,
    model: Model,
    text: &[u8],
    out: &mut [u8],
    error: &mut CError,
) -> i64
    ensures { PutsArguments model text.now out.old error.old result out.new error.new }
{
    match arguments_vec(alloc, model, text) {
        Ok(types) => put_codes(out, types.as_slice()),
        Err(TextFault::Refused(refusal)) => put_refusal(error, Side::First, refusal),
        Err(TextFault::Memory) => NO_MEMORY,
    }
}
