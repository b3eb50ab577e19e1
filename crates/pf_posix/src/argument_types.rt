//! The argument types of a format, in a slice or in a vector.
ghost use Rattle.std.specs.Prelude.{◌≡◌, ◌≢◌, ◌<◌, ◌≤◌, ◌++◌, ◌∷◌, ◌+◌, [], ℕ, None, List, get_or, length, take, MatchResult, IfErr, IfOk};
ghost use Rattle.pf_values.specs.declared.limits.TheConstants.{MAX_TEXT_LEN as LIMIT};
ghost use Rattle.pf_values.specs.meaning.Text.{percent};
ghost use Rattle.pf_text.specs.Walks.{HasPercent, IsWalk};
ghost use Rattle.pf_posix.specs.declared.specifications.Specification.{Specification as Read};
ghost use Rattle.pf_posix.specs.declared.types.WholeArgType.{WholeArgType as WholeArgTypeOf};
ghost use Rattle.pf_posix.specs.Halts.{IsDefinedAt};
ghost use Rattle.pf_posix.specs.Items.{HasArguments, errno_letter};
ghost use Rattle.pf_posix.specs.Laws.{FaultForArguments, HasCount, filled};
ghost use Rattle.pf_posix.specs.OpaqueParts.{amount_of, parts_of_opaque};
ghost use Rattle.pf_posix.specs.Plain.{HasPlainItems, IsPut, numbering_after};
ghost use Rattle.pf_posix.specs.Readings.{wanted_types};
ghost use Rattle.pf_posix.specs.Refusals.{IsWholeRefusedAt};
ghost use Rattle.pf_posix.specs.Types.{fetches, star_fetches};

use crate::fetches::{bare_type, conversion_type};
use crate::long_texts::{of_long, refusal_at, too_long};
use crate::numbered::numbered_arguments;
use crate::opaque_directives::{OpaqueAmount, OpaqueDirective, is_star};
use crate::specifications::{Numbering, defined_at, has_errno};
use crate::types::WholeArgType;
use pf_text::{Percents, Refusal, TextFault, Walk, directive_at};
use pf_values::limits::MAX_TEXT_LEN;
use pf_values::{ArgType, Model};
use std::alloc::{AllocError, Global};

// The front of a format in which no argument has a number: where it ends, and how many arguments it takes.
#[derive(Clone, Copy, Debug)]
struct PlainFront {
    at: usize,
    count: usize,
}

/// Returns how many arguments a format of the whole language takes in a data model (C11 7.21.6.1,
/// paragraphs 3 to 9; POSIX fprintf on numbered arguments). Their types, as many as `out` has room
/// for, are put at its front, and the rest of `out` is as it was. `Err` if the format is rejected:
/// then `out` has the same length, and its contents are unspecified.
#[inline(always)]
pub fn arguments(model: Model, text: &[u8], out: &mut [WholeArgType]) -> Result<u64, Refusal>
    ensures types { MatchResult result
        (λ count. HasCount model text.now out.old out.new count)
        (λ refusal. IsWholeRefusedAt model text.now refusal.kind refusal.at) }
    ensures length { length out.new ≡ length out.old }
{
    match arguments_within(model, text, out) {
        Ok(count) => {
            if text.len() as u64 > MAX_TEXT_LEN {
                return Err(too_long());
            }
            Ok(count)
        }
        Err(refusal) => Err(of_long(text, refusal)),
    }
}

// The arguments of the front of a text up to the limit.
#[inline(never)]
fn arguments_within(model: Model, text: &[u8], out: &mut [WholeArgType]) -> Result<u64, Refusal>
    ensures types { MatchResult result
        (λ count. HasCount model (take LIMIT text.now) out.old out.new count)
        (λ refusal. IsWholeRefusedAt model (take LIMIT text.now) refusal.kind refusal.at) }
    ensures length { length out.new ≡ length out.old }
{
    let mut walk = Walk::new(text);
    let mut count = 0;
    while walk.find::<Percents>() {
        let front = put_specification(model, walk.text(), walk.at, out, count);
        if front.at == walk.at {
            return other_arguments(model, walk, count, out);
        }
        walk.at = front.at;
        count = front.count;
    }
    if walk.at < walk.text().len() {
        return Err(refusal_at(walk.text(), walk.at));
    }
    Ok(count as u64)
}

// Puts the types of the arguments of the specification at an offset after `count` others.
#[inline(always)]
fn put_specification(
    model: Model,
    text: &[u8],
    at: usize,
    out: &mut [WholeArgType],
    count: usize,
) -> PlainFront
    requires percent { HasPercent text.now at }
    requires other { get_or text.now (at + 1) 0 ≢ percent }
    requires short { length text.now ≤ LIMIT }
    requires few { count ≤ at }
    ensures { IsPut model text.now at out.old out.new count result }
{
    match bare_type(text[at + 1]) {
        Some(wanted) => {
            put(out, count, wanted);
            PlainFront {
                at: at + 2,
                count: count + 1,
            }
        }
        None => put_other(model, text, at, out, count),
    }
}

// Puts the types of a specification that isn't a conversion alone. It isn't inlined: that keeps the loop of those
// short.
#[inline(never)]
fn put_other(
    model: Model,
    text: &[u8],
    at: usize,
    out: &mut [WholeArgType],
    count: usize,
) -> PlainFront
    requires percent { HasPercent text.now at }
    requires other { get_or text.now (at + 1) 0 ≢ percent }
    requires short { length text.now ≤ LIMIT }
    requires few { count ≤ at }
    ensures { IsPut model text.now at out.old out.new count result }
{
    match directive_at(text, at) {
        Some(found) => {
            put(
                out,
                count,
                WholeArgType::Profile(found.directive.arg_type(model)),
            );
            PlainFront {
                at: found.stop,
                count: count + 1,
            }
        }
        None => put_any(model, text, at, out, count),
    }
}

// Puts the types of a specification that the profile lacks, or none for `%m`.
#[inline(never)]
fn put_any(
    model: Model,
    text: &[u8],
    at: usize,
    out: &mut [WholeArgType],
    count: usize,
) -> PlainFront
    requires percent { HasPercent text.now at }
    requires other { get_or text.now (at + 1) 0 ≢ percent }
    requires short { length text.now ≤ LIMIT }
    requires few { count ≤ at }
    ensures { IsPut model text.now at out.old out.new count result }
{
    if has_errno(text, at) {
        return PlainFront { at: at + 2, count };
    }
    let unread = PlainFront { at, count };
    match defined_at(text, at, numbering_after(count)) {
        Ok((read, stop)) => match read.position {
            Some(_) => unread,
            None => PlainFront {
                at: stop,
                count: put_types(model, &read.parts, out, count),
            },
        },
        Err(_) => unread,
    }
}

/// The arguments of a format, or its refusal. The walk has come over items that take `count` arguments, none of them by
/// number, and is at a specification that has a number or is rejected.
#[inline(never)]
pub(crate) fn other_arguments(
    model: Model,
    walk: Walk<'_>,
    count: usize,
    out: &mut [WholeArgType],
) -> Result<u64, Refusal>
    requires walk { IsWalk walk }
    requires percent { HasPercent walk.text.now walk.at }
    requires other { get_or walk.text.now (walk.at + 1) 0 ≢ percent }
    requires errno { get_or walk.text.now (walk.at + 1) 0 ≢ errno_letter }
    requires front { HasPlainItems model walk.text.now walk.at count }
    requires never { (found : Read × ℕ) → IsDefinedAt walk.text.now walk.at (numbering_after count) found
        → found.0.position ≢ None }
    ensures types { MatchResult result
        (λ count. HasCount model walk.entry.text.now out.old out.new count)
        (λ refusal. IsWholeRefusedAt model walk.entry.text.now refusal.kind refusal.at) }
    ensures none { IfOk result (λ _. count ≡ 0) }
    ensures length { length out.new ≡ length out.old }
{
    match defined_at(walk.text(), walk.at, numbering_after(count)) {
        Ok(_) => numbered_arguments(model, walk, out),
        Err(refused) => Err(refused.refusal),
    }
}

/// Whether specifications are numbered after this many arguments without numbers.
#[inline(always)]
pub(crate) fn numbering_after(count: usize) -> Numbering
    ensures { result ≡ numbering_after count }
{
    match count {
        0 => Numbering::Undecided,
        _ => Numbering::Unnumbered,
    }
}

// Puts the types of the arguments of a specification of these parts after `count` others, and returns how many
// there are now.
#[inline(always)]
fn put_types(model: Model, parts: &OpaqueDirective, out: &mut [WholeArgType], count: usize) -> usize
    requires { count ≤ LIMIT }
    ensures count { result ≡ count + length (fetches model (parts_of_opaque parts.now)) }
    ensures put { (first before : List WholeArgTypeOf) → out.old ≡ filled first before → count ≡ length before
        → out.new ≡ filled first (before ++ wanted_types (fetches model (parts_of_opaque parts.now))) }
    ensures length { length out.new ≡ length out.old }
{
    let after_width = put_star(parts.width, out, count);
    let last = put_star(parts.precision, out, after_width);
    put(
        out,
        last,
        conversion_type(model, parts.modifier, parts.conversion),
    );
    last + 1
}

// Puts the type of the argument of a width or of a precision that is a `*`, and returns how many there are now.
#[inline(always)]
fn put_star(amount: Option<OpaqueAmount>, out: &mut [WholeArgType], count: usize) -> usize
    requires { count ≤ LIMIT + 1 }
    ensures few { result ≤ count + 1 }
    ensures count { result ≡ count + length (star_fetches (amount_of amount)) }
    ensures put { (first before : List WholeArgTypeOf) → out.old ≡ filled first before → count ≡ length before
        → out.new ≡ filled first (before ++ wanted_types (star_fetches (amount_of amount))) }
    ensures length { length out.new ≡ length out.old }
{
    if is_star(amount) {
        put(out, count, WholeArgType::Profile(ArgType::Int));
        return count + 1;
    }
    count
}

/// Sets the element at an index, if the slice has that index.
#[inline(always)]
pub(crate) fn put<T: Copy>(out: &mut [T], index: usize, element: T)
    ensures length { length out.new ≡ length out.old }
    ensures filled { (start before : List T) → out.old ≡ filled start before
        → index ≡ length before → out.new ≡ filled start (before ++ element ∷ []) }
{
    if index < out.len() {
        out[index] = element;
    }
}

/// Returns the types of the arguments that a format of the whole language takes in a data model, as
/// `arguments` defines them. The format is read twice, and it allocates once, for as many types as
/// there are: nothing if there are none. `Err` if the format is rejected, or if memory is refused.
pub fn arguments_vec(
    alloc: Global,
    model: Model,
    text: &[u8],
) -> Result<Vec<WholeArgType>, TextFault>
    ensures { MatchResult result (λ types. HasArguments model text.now types.items)
        (FaultForArguments model text.now) }
{
    let count = match arguments(model, text, &mut []) {
        Ok(count) => count,
        Err(refusal) => return Err(TextFault::Refused(refusal)),
    };
    let mut types = match room_for(alloc, WholeArgType::Profile(ArgType::Int), count) {
        Ok(types) => types,
        Err(AllocError) => return Err(TextFault::Memory),
    };
    match arguments(model, text, &mut types) {
        Ok(_) => Ok(types),
        Err(refusal) => Err(TextFault::Refused(refusal)),
    }
}

/// Returns a vector of `count` copies of `blank`. For 0 it allocates nothing.
pub(crate) fn room_for<T: Copy + Drop>(
    alloc: Global,
    blank: T,
    count: u64,
) -> Result<Vec<T>, AllocError>
    ensures room { IfOk result (λ room. length room.items ≡ count) }
    ensures some { IfErr result (λ _. 0 < count) }
{
    if count == 0 {
        return Ok(Vec::new(alloc));
    }
    match usize::try_from(count) {
        Ok(count) => Vec::from_elem(alloc, blank, count),
        Err(_) => Err(AllocError),
    }
}
