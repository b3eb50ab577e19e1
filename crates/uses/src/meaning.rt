//! Whether one format may be put in the place of another, and arguments that show a difference.
ghost use Rattle.std.specs.Prelude.{◌↔◌, IfSome, IsTrue, [], ◌∷◌};
ghost use Rattle.pf_values.specs.meaning.Canonical.{IsCanonicalOf};
ghost use Rattle.pf_values.specs.meaning.Printing.{AreEquivalent};
ghost use Rattle.pf_values.specs.meaning.Text.{Text};
ghost use Rattle.pf_values.specs.declared.arguments.Arg.TheVariants as args;
ghost use Rattle.pf_compare.specs.Answers.{TellApart};

use pf_canon::laws::one_canonical_text_means_the_same;
use pf_canon::{canonical, same_text};
use pf_compare::confirms;
use pf_compare::laws::{headline, sameness};
use pf_text::check;
use pf_values::{Arg, Model};
use std::alloc::Global;

/// Returns whether two formats take the same types and print the same bytes for all arguments, or
/// `None` if one of them is rejected. Allocates nothing.
pub fn are_equivalent(model: Model, first: &[u8], second: &[u8]) -> Option<bool>
    ensures { IfSome result (λ same. IsTrue same ↔ AreEquivalent model first.now second.now) }
{
    match same_text(model, first, second) {
        Ok(same) => Some(same),
        Err(_) => None,
    }
}

/// Returns whether the first of three formats is equivalent to the third, where it is to the second and that to the
/// third. False also if it isn't found so. `None` if one of them is rejected.
pub fn are_equivalent_by_second(
    model: Model,
    first: &[u8],
    second: &[u8],
    third: &[u8],
) -> Option<bool>
    ensures { IfSome result (λ both. IsTrue both → AreEquivalent model first.now third.now) }
{
    sameness();
    let Ok(one) = same_text(model, first, second) else {
        return None;
    };
    let Ok(two) = same_text(model, second, third) else {
        return None;
    };
    Some(one && two)
}

/// Returns whether two formats are equivalent; if they are, there is a text that each of them is equivalent to. `None` if
/// one of them is rejected.
pub fn share_a_text(model: Model, first: &[u8], second: &[u8]) -> Option<bool>
    ensures { IfSome result (λ same. IsTrue same → (t : Text) × AreEquivalent model first.now t
        × AreEquivalent model second.now t) }
{
    sameness();
    match same_text(model, first, second) {
        Ok(same) => Some(same),
        Err(_) => None,
    }
}

/// Returns whether `new` may replace `old`, by their canonical texts. True only if both take the
/// same types and print the same bytes for all arguments. False for a rejected format, and if out of
/// memory.
pub fn may_replace(alloc: Global, model: Model, old: &[u8], new: &[u8]) -> bool
    ensures { IsTrue result → AreEquivalent model old.now new.now }
{
    one_canonical_text_means_the_same();
    let Ok(of_old) = canonical(alloc, model, old) else {
        return false;
    };
    let Ok(of_new) = canonical(alloc, model, new) else {
        return false;
    };
    of_old.as_slice() == of_new.as_slice()
}

/// Returns whether the canonical texts of two formats are equal byte for byte. By the headline, they are
/// if and only if both formats take the same types and print the same bytes for all arguments. `None` if
/// a format is rejected, or out of memory.
pub fn have_one_canonical_text(
    alloc: Global,
    model: Model,
    first: &[u8],
    second: &[u8],
) -> Option<bool>
    ensures { IfSome result (λ same. IsTrue same ↔ AreEquivalent model first.now second.now) }
{
    headline();
    let Ok(of_first) = canonical(alloc, model, first) else {
        return None;
    };
    let Ok(of_second) = canonical(alloc, model, second) else {
        return None;
    };
    Some(of_first.as_slice() == of_second.as_slice())
}

/// Returns whether a format is accepted. If so, by the headline, it has a canonical text with the same meaning,
/// and that text is its own canonical text.
pub fn has_canonical_text(model: Model, format: &[u8]) -> bool
    ensures { IsTrue result → (c : Text) × IsCanonicalOf model format.now c
        × AreEquivalent model format.now c × IsCanonicalOf model c c }
{
    headline();
    match check(format) {
        Ok(()) => true,
        Err(_) => false,
    }
}

/// Returns whether a number shows that two formats differ: both take an int and nothing else, and
/// print different bytes for this one.
pub fn shows_difference(alloc: Global, model: Model, old: &[u8], new: &[u8], number: i32) -> bool
    ensures { IsTrue result → TellApart model old.now new.now (args.Int number ∷ []) }
{
    match confirms(alloc, model, old, new, &[Arg::Int(number)]) {
        Ok(differ) => differ,
        Err(_) => false,
    }
}
