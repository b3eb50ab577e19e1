//! What arguments a format takes, and whether a translation takes the same.
ghost use Rattle.std.specs.Prelude.{◌≤◌, IsTrue, [], ◌∷◌, IfSome, List, None, length, take};
ghost use Rattle.pf_values.specs.declared.types.ArgType.TheVariants as types;
ghost use Rattle.pf_values.specs.declared.models.Model.TheVariants.{Lp64};
ghost use Rattle.pf_text.specs.Signatures.{TakesTypes};
ghost use Rattle.pf_values.specs.meaning.Items.{HasItems, Item, types};
ghost use Rattle.pf_render.specs.Rendering.{DifferFirstAt};
ghost use Rattle.pf_posix.specs.declared.types.WholeArgType.{WholeArgType};
ghost use Rattle.pf_posix.specs.Items.{HasArguments};
ghost use Rattle.pf_posix.specs.Laws.{ComparesArgumentTypes, ComparesBeginning};
ghost use Rattle.pf_whole.specs.meaning.WholeArguments.{HasWholeTypes, WholeArgument};

use pf_compare::{Verdict, compare};
use pf_posix::laws::{fewer_both_ways, fits_is_fewer};
use pf_posix::{fits, fits_fewer};
use pf_text::signature;
use pf_values::{ArgType, Model};
use pf_whole::laws::serve_fewer;
use std::alloc::Global;

/// Returns whether a format from outside takes one int and nothing else, so that a program may
/// print a count with it.
pub fn takes_one_int(alloc: Global, format: &[u8]) -> bool
    ensures { IsTrue result → TakesTypes Lp64 format.now (types.Int ∷ []) }
{
    let Ok(signature) = signature(alloc, Model::Lp64, format) else {
        return false;
    };
    matches!(signature.as_slice(), [ArgType::Int])
}

/// Returns the first argument for which a translation has another type than its source, counted
/// from 0, or `None` if all are equal; the number of arguments of the one that takes fewer, if one
/// begins as the other.
pub fn other_type_at(alloc: Global, model: Model, source: &[u8], translation: &[u8]) -> Option<u64>
    ensures { IfSome result (λ at.
        (first second : List Item) × HasItems source.now first × HasItems translation.now second
        × DifferFirstAt (types model first) (types model second) at) }
{
    let Ok(comparison) = compare(alloc, model, source, translation) else {
        return None;
    };
    match comparison.verdict {
        Verdict::Types(at) => Some(at),
        _ => None,
    }
}

/// Returns whether a translation takes no other arguments than its message. False for a rejected format.
pub fn takes_no_others(model: Model, message: &[u8], translation: &[u8]) -> bool
    ensures { IsTrue result → ComparesBeginning model message.now translation.now None }
{
    matches!(fits_fewer(model, message, translation), Ok(None))
}

/// Returns whether a translation takes just the arguments of its message; so it takes no others.
pub fn takes_just_these(model: Model, message: &[u8], translation: &[u8]) -> bool
    ensures { IsTrue result → ComparesBeginning model message.now translation.now None }
{
    fits_is_fewer();
    matches!(fits(model, message, translation), Ok(None))
}

/// Returns whether each of two formats takes no other arguments than the other; so they take the same ones.
pub fn take_the_same(model: Model, first: &[u8], second: &[u8]) -> bool
    ensures { IsTrue result → ComparesArgumentTypes model first.now second.now None }
{
    fewer_both_ways();
    if !takes_no_others(model, first, second) {
        return false;
    }
    takes_no_others(model, second, first)
}

/// Returns whether arguments for a message serve its translation, too: those that it takes are there, and of its
/// types.
pub fn serves(model: Model, message: &[u8], translation: &[u8]) -> bool
    ensures { IsTrue result → (types : List WholeArgType) (args : List WholeArgument)
        → HasArguments model message.now types → HasWholeTypes model args types
        → (others : List WholeArgType) × HasArguments model translation.now others
        × (length others ≤ length args) × HasWholeTypes model (take (length others) args) others }
{
    serve_fewer();
    takes_no_others(model, message, translation)
}
