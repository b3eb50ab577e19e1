//! The conversion specifications of a format: which bytes they are, and which arguments they take.
ghost use Rattle.std.specs.Prelude.{◌≡◌, ◌≤◌, ◌*◌, ℕ, Option, length, MatchResult};
ghost use Rattle.pf_values.specs.declared.limits.TheConstants.{MAX_TEXT_LEN as LIMIT};
ghost use Rattle.pf_values.specs.declared.models.Model.{Model as ModelOf};
ghost use Rattle.pf_posix.specs.Directives.{FaultForDirectives, HasDirectiveCount, HasDirectives, argument_index, directive_between, star_index};
ghost use Rattle.pf_posix.specs.Items.{IsWholeAccepted};
ghost use Rattle.pf_posix.specs.OpaqueParts.{amount_at};
ghost use Rattle.pf_posix.specs.PartsInText.{specification_read};
ghost use Rattle.pf_posix.specs.Refusals.{IsWholeRefusedAt};
ghost use Rattle.pf_posix.specs.Types.{fetches, star_fetches};

use crate::argument_types::{put, room_for};
use crate::fetches::conversion_type;
use crate::listings::directives_within;
use crate::long_texts::{of_long, too_long};
use crate::opaque_directives::{OpaqueAmount, is_star};
use crate::specification_walk::item_at;
use crate::specifications::Specification;
use crate::types::WholeArgType;
use pf_text::{Percents, Refusal, TextFault, Walk};
use pf_values::Model;
use pf_values::limits::MAX_TEXT_LEN;
use std::alloc::{AllocError, Global};

/// A conversion specification in a format: its bytes, and the arguments that it takes (C11 7.21.6.1,
/// paragraphs 3 to 5; POSIX fprintf on numbered arguments). Arguments are counted from 0.
#[derive(Clone, Copy, Debug, Default, PartialEq, Eq)]
pub struct DirectiveSpan {
    /// The offset of its `%`.
    pub begin: u64,
    /// The offset after its conversion.
    pub end: u64,
    /// The argument that it converts.
    pub argument: u64,
    /// The argument of its field width, if that is a `*`.
    pub width_argument: Option<u64>,
    /// The argument of its precision, if that is a `*`.
    pub precision_argument: Option<u64>,
    /// The type of the argument that it converts.
    pub kind: WholeArgType,
}

/// Lists the conversion specifications of a format of the whole language in a data model, in the order
/// of the text (C11 7.21.6.1, paragraphs 3 to 5; POSIX fprintf on numbered arguments), and returns
/// their number; `%%` and `%m` do not count as one. It writes them to `out` from the front, as far as there
/// is room, and leaves the rest of `out` as it was. `Err` for the formats that `arguments` rejects:
/// then `out` has the same length, and its contents are unspecified.
pub fn directives(model: Model, text: &[u8], out: &mut [DirectiveSpan]) -> Result<u64, Refusal>
    ensures directives { MatchResult result
        (λ count. HasDirectiveCount model text.now out.old out.new count)
        (λ refusal. IsWholeRefusedAt model text.now refusal.kind refusal.at) }
    ensures length { length out.new ≡ length out.old }
{
    match directives_within(model, text, out) {
        Ok(count) => {
            if text.len() as u64 > MAX_TEXT_LEN {
                return Err(too_long());
            }
            Ok(count)
        }
        Err(refusal) => Err(of_long(text, refusal)),
    }
}

/// Lists the conversion specifications of a format of the whole language in a data model, as
/// `directives` does. It checks the format once, and allocates once, for exactly their number. If there
/// are no specifications, it allocates nothing. `Err` if the format or memory is refused.
pub fn directives_vec(
    alloc: Global,
    model: Model,
    text: &[u8],
) -> Result<Vec<DirectiveSpan>, TextFault>
    ensures { MatchResult result (λ directives. HasDirectives model text.now directives.items)
        (FaultForDirectives model text.now) }
{
    let count = match directives(model, text, &mut []) {
        Ok(count) => count,
        Err(refusal) => return Err(TextFault::Refused(refusal)),
    };
    let mut listed = match room_for(alloc, DirectiveSpan::default(), count) {
        Ok(listed) => listed,
        Err(AllocError) => return Err(TextFault::Memory),
    };
    put_directives(model, text, &mut listed);
    Ok(listed)
}

/// Puts the specifications of an accepted format at the front of a slice.
pub(crate) fn put_directives(model: Model, text: &[u8], out: &mut [DirectiveSpan]) -> u64
    requires { IsWholeAccepted model text.now }
    ensures directives { HasDirectiveCount model text.now out.old out.new result }
    ensures length { length out.new ≡ length out.old }
{
    let mut walk = Walk::new(text);
    let mut count: usize = 0;
    let mut fetched: u64 = 0;
    while walk.at < text.len() {
        match item_at(text, walk.at) {
            (None, end) => {
                walk.at = end;
                walk.find::<Percents>();
            }
            (Some(read), end) => {
                put(
                    out,
                    count,
                    span_between(model, walk.at, end, fetched, &read),
                );
                walk.at = end;
                count += 1;
                fetched += fetch_count(&read);
            }
        }
    }
    count as u64
}

/// The specification between two offsets, after `next` arguments were fetched.
#[inline(always)]
pub(crate) fn span_between(
    model: Model,
    begin: usize,
    end: usize,
    next: u64,
    read: &Specification,
) -> DirectiveSpan
    requires { next ≤ 3 * LIMIT }
    ensures { result ≡ directive_between model begin end next (specification_read read.now) }
{
    let parts = read.parts;
    let after_width = next + star_count(parts.width);
    DirectiveSpan {
        begin: begin as u64,
        end: end as u64,
        argument: argument_index(read.position, after_width + star_count(parts.precision)),
        width_argument: star_index(parts.width, read.stars.width, next),
        precision_argument: star_index(parts.precision, read.stars.precision, after_width),
        kind: conversion_type(model, parts.modifier, parts.conversion),
    }
}

/// How many arguments a specification fetches.
pub(crate) fn fetch_count(read: &Specification) -> u64
    ensures count { (model : ModelOf) → result ≡ length (fetches model (specification_read read.now)) }
    ensures few { result ≤ 3 }
{
    1 + star_count(read.parts.width) + star_count(read.parts.precision)
}

// How many of them its width or its precision fetches.
fn star_count(amount: Option<OpaqueAmount>) -> u64
    ensures count { (number : Option ℕ) → result ≡ length (star_fetches (amount_at amount number)) }
    ensures few { result ≤ 1 }
{
    u64::from(is_star(amount))
}

// The argument of an amount that is a `*`, with a number or else the next one.
fn star_index(amount: Option<OpaqueAmount>, number: Option<u16>, next: u64) -> Option<u64>
    ensures { result ≡ star_index (amount_at amount number) next }
{
    if is_star(amount) {
        return Some(argument_index(number, next));
    }
    None
}

// The argument with a number, which is 1 at least, or else the next one.
fn argument_index(number: Option<u16>, next: u64) -> u64
    ensures { result ≡ argument_index number next }
{
    match number {
        None => next,
        Some(number) => u64::from(number).saturating_sub(1),
    }
}
