//! The calls that formats make, and where those of two formats differ first.
ghost use Rattle.std.specs.Prelude.{◌≤◌, ◌≡◌, List, drop, length};
ghost use Rattle.pf_posix.specs.declared.types.WholeArgType.{WholeArgType};
ghost use Rattle.pf_posix.specs.Heads.{IsHead, IsPlaced};
ghost use Rattle.pf_posix.specs.Items.{HasArguments};
ghost use Rattle.pf_values.specs.declared.models.Model.{Model as ModelOf};
ghost use Rattle.pf_posix.specs.OpaqueParts.{amount_of, item_of_opaque};
ghost use Rattle.pf_posix.specs.Stretches.{IsUnnumberedAccepted, ReadsStretches, Stretches, types_of_opaque};
ghost use Rattle.pf_posix.specs.Types.{star_fetches};
ghost use Rattle.pf_whole.specs.Calls.{CallsDiffer, IsNextCall};

use crate::comparison::make_one_call;
use pf_posix::{Opaque, OpaqueAmount, Stretch, arguments, next_stretch};
use pf_values::Model;

/// What the profile lacks, and the place of its call: the index of the first argument.
#[derive(Clone, Copy)]
pub(crate) struct PlacedOpaque {
    pub(crate) index: u64,
    pub(crate) opaque: Opaque,
}

/// What is left of a format: it begins at this offset, and its first argument has this index.
#[derive(Clone, Copy)]
pub(crate) struct Rest {
    pub(crate) at: usize,
    pub(crate) index: u64,
}

/// Returns the place at which the calls of two accepted formats differ first: the smaller one of two calls.
pub(crate) fn first_call_difference(model: Model, first: &[u8], second: &[u8]) -> Option<u64>
    requires first { IsUnnumberedAccepted first.now }
    requires second { IsUnnumberedAccepted second.now }
    ensures { CallsDiffer model first.now second.now result }
{
    let mut one = Rest { at: 0, index: 0 };
    let mut two = Rest { at: 0, index: 0 };
    while let Some((call, after)) = next_call(model, first, one) {
        let Some((other, after_other)) = next_call(model, second, two) else {
            return Some(call.index);
        };
        if call.index != other.index {
            return Some(call.index.min(other.index));
        }
        if !make_one_call(model, call.opaque, other.opaque) {
            return Some(call.index);
        }
        one = after;
        two = after_other;
    }
    match next_call(model, second, two) {
        Some((other, _)) => Some(other.index),
        None => None,
    }
}

// Returns the next call of an accepted format, and what is left after it.
#[inline(always)]
fn next_call(model: Model, text: &[u8], rest: Rest) -> Option<(PlacedOpaque, Rest)>
    requires few { rest.index ≤ rest.at }
    requires within { rest.at ≤ length text.now }
    requires accepted { IsUnnumberedAccepted text.now }
    requires reads { (left : Stretches) × ReadsStretches (drop rest.at text.now) left }
    ensures { (left : Stretches) → ReadsStretches (drop rest.at text.now) left
        → IsNextCall model text.now left rest result }
{
    let Some(stretch) = next_stretch(text, rest.at) else {
        unreachable!();
    };
    call_after(model, text, rest, stretch)
}

/// Returns the call after the first stretch of what is left of an accepted format, and what is left after it.
#[inline(always)]
pub(crate) fn call_after(
    model: Model,
    text: &[u8],
    rest: Rest,
    stretch: Stretch,
) -> Option<(PlacedOpaque, Rest)>
    requires few { rest.index ≤ rest.at }
    requires within { rest.at ≤ length text.now }
    requires accepted { IsUnnumberedAccepted text.now }
    requires placed { IsPlaced text.now rest.at stretch }
    requires head { (left : Stretches) × IsHead text.now rest.at left stretch }
    ensures { (left : Stretches) → IsHead text.now rest.at left stretch
        → IsNextCall model text.now left rest result }
{
    let Some(opaque) = stretch.opaque else {
        return None;
    };
    let index = rest.index + argument_count(model, &text[rest.at..stretch.end]);
    let own = call_argument_count(opaque);
    let call = PlacedOpaque { index, opaque };
    let after = Rest {
        at: stretch.after,
        index: index + own,
    };
    Some((call, after))
}

// Returns how many arguments an accepted format takes.
fn argument_count(model: Model, text: &[u8]) -> u64
    requires { (types : List WholeArgType) × HasArguments model text.now types }
    ensures { (types : List WholeArgType) × HasArguments model text.now types
        × (result ≡ length types) }
{
    if text.is_empty() {
        return 0;
    }
    match arguments(model, text, &mut []) {
        Ok(count) => count,
        Err(_) => unreachable!(),
    }
}

/// Returns how many arguments a directive takes that the profile lacks: one for each `*`, and the one that it
/// converts. `%m` takes none.
pub(crate) fn call_argument_count(opaque: Opaque) -> u64
    ensures { (model : ModelOf) → result ≡ length (types_of_opaque model (item_of_opaque opaque)) }
{
    match opaque {
        Opaque::Directive(directive) => 1
            + star_count(directive.width)
            + star_count(directive.precision),
        Opaque::Errno => 0,
    }
}

fn star_count(amount: Option<OpaqueAmount>) -> u64
    ensures count { result ≡ length (star_fetches (amount_of amount)) }
    ensures few { result ≤ 1 }
{
    match amount {
        Some(OpaqueAmount::Star) => 1,
        Some(OpaqueAmount::Number(_)) => 0,
        None => 0,
    }
}
