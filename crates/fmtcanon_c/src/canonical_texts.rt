//! Whether a text is a format, whether it is canonical, and its canonical text.
ghost use Rattle.std.specs.Prelude.{◌≡◌, length, MatchResult};
ghost use Rattle.pf_values.specs.meaning.Refusals.{IsRefusedAt};
ghost use Rattle.pf_values.specs.meaning.Text.{Text};
ghost use Rattle.pf_canon.specs.Answers.{IsCanonicalFor};
ghost use Rattle.pf_canon.specs.Languages.{FaultIn, HasCanonicalIn};
ghost use Rattle.pf_canon.specs.VerbatimFronts.{IsVerbatimFront, front_model};
ghost use Rattle.pf_posix.specs.Unnumbered.{IsUnnumberedRefusedAt};
ghost use Rattle.pf_whole.specs.Answers.{IsWholeCanonicalFor};
ghost use Rattle.fmtcanon_c.specs.Calls.{AnswersCanonical, AnswersLength, Checks, IsLengthAnswer, IsLengthCode, PutsCanonical, PutsCanonicalIn, PutsWholeCanonical};
ghost use Rattle.fmtcanon_c.specs.Models.{InModel};

use crate::interface::{CError, NO_MEMORY, NO_MODEL, model_of, put_refusal, put_string};
use pf_canon::{
    Language, Profile, Room, ShortText, VerbatimFront, canonical_in, canonical_len,
    canonical_of_len, is_canonical,
};
use pf_text::{Refusal, Side, TextFault, check};
use pf_values::Model;
use pf_whole::Whole;
use std::alloc::Global;

/// Returns 0 if the text is accepted, otherwise minus the kind of its refusal.
#[unsafe(no_mangle)]
pub extern "C" fn fmtcanon_check(text: &[u8], error: &mut CError) -> i64
    ensures { Checks text.now error.old result error.new }
{
    match check(text) {
        Ok(()) => 0,
        Err(refusal) => put_refusal(error, Side::First, refusal),
    }
}

/// Returns 1 if the text is canonical, 0 if it is accepted and not canonical, otherwise minus the
/// kind of its refusal.
#[unsafe(no_mangle)]
pub extern "C" fn fmtcanon_is_canonical(model: i32, text: &[u8], error: &mut CError) -> i64
    ensures { InModel model (λ m. AnswersCanonical m text.now error.old result error.new)
        result (error.new ≡ error.old) }
{
    let Some(model) = model_of(model) else {
        return NO_MODEL;
    };
    match is_canonical(model, text) {
        Ok(true) => 1,
        Ok(false) => 0,
        Err(refusal) => put_refusal(error, Side::First, refusal),
    }
}

/// Puts the canonical text and a zero into a buffer that has room for them. The length of the
/// canonical text, or the code of an error.
#[unsafe(no_mangle)]
pub extern "C" fn fmtcanon_canonical(
    alloc: Global,
    model: i32,
    text: &[u8],
    out: &mut [u8],
    error: &mut CError,
) -> i64
    ensures { InModel model
        (λ m. PutsCanonical m text.now out.old error.old result out.new error.new)
        result ((out.new ≡ out.old) × (error.new ≡ error.old)) }
{
    let Some(model) = model_of(model) else {
        return NO_MODEL;
    };
    put_canonical::<Profile>(alloc, model, text, out, error)
}

// Puts the canonical text of a format in a language, and a NUL.
#[inline(always)]
fn put_canonical<L: Language>(
    alloc: Global,
    model: Model,
    text: &[u8],
    out: &mut [u8],
    error: &mut CError,
) -> i64
    ensures { PutsCanonicalIn L.has_front L.refuses model text.now out.old error.old result out.new error.new }
{
    let front = VerbatimFront::of::<L>(model, text);
    if front.is_all::<L>(text) {
        put_string(out, text);
        return text.len() as i64;
    }
    put_other_canonical::<L>(alloc, model, &front, text, out, error)
}

// Puts the canonical text of a format that isn't verbatim. Never inlined, so that one that is doesn't make
// the room.
#[inline(never)]
fn put_other_canonical<L: Language>(
    alloc: Global,
    model: Model,
    front: &VerbatimFront<'_>,
    text: &[u8],
    out: &mut [u8],
    error: &mut CError,
) -> i64
    requires model { front_model front.now ≡ model }
    requires taken { IsVerbatimFront L.has_front text.now front.now }
    ensures { PutsCanonicalIn L.has_front L.refuses model text.now out.old error.old result out.new error.new }
{
    let mut short = ShortText::new();
    match short.put::<L>(front, text) {
        Ok(Room::Enough) => {
            let canonical = short.as_slice();
            put_string(out, canonical);
            canonical.len() as i64
        }
        Ok(Room::Counted(len)) => put_counted_canonical::<L>(
            alloc, model, front, text, len, out, error,
        ),
        Ok(Room::Unread) => put_long_canonical::<L>(alloc, model, text, out, error),
        Err(refusal) => put_refusal(error, Side::First, refusal),
    }
}

// Puts the canonical text of a short format, which has this length, and more than the stack has room for.
#[inline(never)]
fn put_counted_canonical<L: Language>(
    alloc: Global,
    model: Model,
    front: &VerbatimFront<'_>,
    text: &[u8],
    len: u128,
    out: &mut [u8],
    error: &mut CError,
) -> i64
    requires model { front_model front.now ≡ model }
    requires taken { IsVerbatimFront L.has_front text.now front.now }
    requires len { (c : Text) × HasCanonicalIn L.has_front (front_model front.now) text.now c
        × (len ≡ length c) }
    ensures { PutsCanonicalIn L.has_front L.refuses model text.now out.old error.old result out.new error.new }
{
    put_made::<L>(
        model,
        text,
        canonical_of_len::<L>(alloc, front, text, len, 0),
        out,
        error,
    )
}

// Puts the canonical text of a format that is too long for the stack.
#[inline(never)]
fn put_long_canonical<L: Language>(
    alloc: Global,
    model: Model,
    text: &[u8],
    out: &mut [u8],
    error: &mut CError,
) -> i64
    ensures { PutsCanonicalIn L.has_front L.refuses model text.now out.old error.old result out.new error.new }
{
    put_made::<L>(
        model,
        text,
        canonical_in::<L>(alloc, model, text, 0),
        out,
        error,
    )
}

// Puts a canonical text that was made in memory.
fn put_made<L: Language>(
    model: Model,
    text: &[u8],
    made: Result<Vec<u8>, TextFault>,
    out: &mut [u8],
    error: &mut CError,
) -> i64
    requires { MatchResult made (λ c. HasCanonicalIn L.has_front model text.now c.items)
        (FaultIn L.has_front L.refuses model text.now) }
    ensures { PutsCanonicalIn L.has_front L.refuses model text.now out.old error.old result out.new error.new }
{
    match made {
        Ok(canonical) => {
            put_string(out, &canonical);
            canonical.len() as i64
        }
        Err(TextFault::Refused(refusal)) => put_refusal(error, Side::First, refusal),
        Err(TextFault::Memory) => NO_MEMORY,
    }
}

/// Returns the length of the canonical text, or the code of an error: the code for out of memory if
/// the length is 2^63 or more. Allocates nothing.
#[unsafe(no_mangle)]
pub extern "C" fn fmtcanon_canonical_length(model: i32, text: &[u8], error: &mut CError) -> i64
    ensures { InModel model (λ m. AnswersLength (IsCanonicalFor m text.now) (IsRefusedAt text.now) error.old result error.new)
        result (error.new ≡ error.old) }
{
    let Some(model) = model_of(model) else {
        return NO_MODEL;
    };
    length_answer(canonical_len(model, text), error)
}

/// Puts the canonical text of a format of the whole language and a NUL into a buffer that has room for
/// them. Returns the length of the canonical text, or the code of an error.
#[unsafe(no_mangle)]
pub extern "C" fn fmtcanon_whole_canonical(
    alloc: Global,
    model: i32,
    text: &[u8],
    out: &mut [u8],
    error: &mut CError,
) -> i64
    ensures { InModel model
        (λ m. PutsWholeCanonical m text.now out.old error.old result out.new error.new)
        result ((out.new ≡ out.old) × (error.new ≡ error.old)) }
{
    let Some(model) = model_of(model) else {
        return NO_MODEL;
    };
    put_canonical::<Whole>(alloc, model, text, out, error)
}

/// Returns the length of the canonical text of a format of the whole language, or the code of an error:
/// the code for out of memory if the length is 2^63 or more. Allocates nothing.
#[unsafe(no_mangle)]
pub extern "C" fn fmtcanon_whole_canonical_length(
    model: i32,
    text: &[u8],
    error: &mut CError,
) -> i64
    ensures { InModel model (λ m. AnswersLength (IsWholeCanonicalFor m text.now) (IsUnnumberedRefusedAt m text.now) error.old result error.new)
        result (error.new ≡ error.old) }
{
    let Some(model) = model_of(model) else {
        return NO_MODEL;
    };
    length_answer(pf_whole::canonical_len(model, text), error)
}

// Returns the answer of a length that was found, or the code of a refusal.
fn length_answer(found: Result<u128, Refusal>, error: &mut CError) -> i64
    ensures { IsLengthAnswer found error.old result error.new }
{
    match found {
        Ok(len) => length_code(len),
        Err(refusal) => put_refusal(error, Side::First, refusal),
    }
}

// Returns a length as an answer, or the code of no memory if it is 2^63 or more.
fn length_code(len: u128) -> i64
    ensures { IsLengthCode len result }
{
    if len < 1 << 63 { len as i64 } else { NO_MEMORY }
}
