//! Formats of the whole language, compared.
ghost use Rattle.std.specs.Prelude.{◌≡◌, ◌↔◌, IfSome, IsTrue};
ghost use Rattle.pf_values.specs.meaning.Canonical.{IsCanonicalOf};
ghost use Rattle.pf_values.specs.meaning.Text.{Text};
ghost use Rattle.pf_compare.specs.Answers.{IsComparisonOf};
ghost use Rattle.pf_compare.specs.declared.comparisons.Comparison.{Comparison};
ghost use Rattle.pf_compare.specs.declared.comparisons.Verdict.TheVariants.{Types};
ghost use Rattle.pf_whole.specs.Laws.{PrintAlikeBy};
ghost use Rattle.pf_whole.specs.meaning.Traces.{AreWholeAlike, Call};
ghost use Rattle.pf_whole.specs.meaning.WholeCanonical.{IsWholeCanonicalOf};

use pf_compare::Verdict;
use pf_values::Model;
use pf_whole::laws::{alike_print_alike, headline, profile_coincides, profile_compares};
use pf_whole::{WholeVerdict, canonical, check, compare, same_text};
use std::alloc::Global;

/// Returns whether two formats of the whole language are known to be alike. Allocates nothing.
pub fn are_alike(model: Model, first: &[u8], second: &[u8]) -> bool
    ensures { IsTrue result → AreWholeAlike model first.now second.now }
{
    match same_text(model, first, second) {
        Ok(alike) => alike,
        Err(_) => false,
    }
}

/// Returns whether the canonical texts of two formats of the whole language are equal byte for byte. By the
/// headline, they are if and only if the formats are alike. `None` if a format is rejected, or out of
/// memory.
pub fn have_one_whole_canonical_text(
    alloc: Global,
    model: Model,
    first: &[u8],
    second: &[u8],
) -> Option<bool>
    ensures { IfSome result (λ same. IsTrue same ↔ AreWholeAlike model first.now second.now) }
{
    headline();
    let Ok(of_first) = canonical(alloc, model, first) else {
        return None;
    };
    let Ok(of_second) = canonical(alloc, model, second) else {
        return None;
    };
    Some(of_first.as_slice() == of_second.as_slice())
}

/// Returns whether a format of the whole language is accepted. If so, by the headline, there is a canonical text
/// of it, which is alike to it, and is its own canonical text.
pub fn has_whole_canonical_text(model: Model, format: &[u8]) -> bool
    ensures { IsTrue result → (c : Text) × IsWholeCanonicalOf model format.now c
        × AreWholeAlike model format.now c × IsWholeCanonicalOf model c c }
{
    headline();
    match check(model, format) {
        Ok(()) => true,
        Err(_) => false,
    }
}

/// Returns whether two formats of the whole language are known to print the same, whatever their calls print.
pub fn print_alike(model: Model, first: &[u8], second: &[u8]) -> bool
    ensures { IsTrue result → (respond : Text → Call → Text)
        → PrintAlikeBy model respond first.now second.now }
{
    alike_print_alike();
    are_alike(model, first, second)
}

/// Returns whether two formats of the profile are alike in the whole language, as the profile compares them.
/// `None` if it rejects one of them.
pub fn are_alike_by_profile(model: Model, first: &[u8], second: &[u8]) -> Option<bool>
    ensures { IfSome result (λ same. IsTrue same ↔ AreWholeAlike model first.now second.now) }
{
    profile_coincides();
    match pf_canon::same_text(model, first, second) {
        Ok(same) => Some(same),
        Err(_) => None,
    }
}

/// Returns the canonical text of a format in the whole language, by that of the profile. `None` if it rejects the
/// format, or out of memory.
pub fn whole_text_by_profile(alloc: Global, model: Model, format: &[u8]) -> Option<Vec<u8>>
    ensures { IfSome result (λ text. IsWholeCanonicalOf model format.now text.items) }
{
    profile_coincides();
    match pf_canon::canonical(alloc, model, format) {
        Ok(text) => Some(text),
        Err(_) => None,
    }
}

/// Returns the canonical text of a format in the profile, by that of the whole language. `None` if the profile
/// rejects the format, or out of memory.
pub fn profile_text_by_whole(alloc: Global, model: Model, format: &[u8]) -> Option<Vec<u8>>
    ensures { IfSome result (λ text. IsCanonicalOf model format.now text.items) }
{
    profile_coincides();
    let Ok(()) = pf_text::check(format) else {
        return None;
    };
    match canonical(alloc, model, format) {
        Ok(text) => Some(text),
        Err(_) => None,
    }
}

/// Returns whether two formats of the profile are alike in the whole language, by how the profile compares them.
/// `None` if it rejects one of them, or out of memory.
pub fn are_alike_by_comparison(
    alloc: Global,
    model: Model,
    first: &[u8],
    second: &[u8],
) -> Option<bool>
    ensures { IfSome result (λ same. IsTrue same ↔ AreWholeAlike model first.now second.now) }
{
    profile_compares();
    let Ok(comparison) = pf_compare::compare(alloc, model, first, second) else {
        return None;
    };
    match comparison.verdict {
        Verdict::Same => Some(true),
        Verdict::Types(_) => Some(false),
        Verdict::Args(_) => Some(false),
    }
}

/// Returns the index at which the types of two formats differ first, as the whole language compares them: the profile
/// compares them in no other way. `None` if they don't differ so, if one is rejected, or out of memory.
pub fn other_types_at(alloc: Global, model: Model, first: &[u8], second: &[u8]) -> Option<u64>
    ensures { IfSome result (λ index. (comparison : Comparison) → IsComparisonOf model first.now second.now comparison
        → comparison.verdict ≡ Types index) }
{
    profile_compares();
    match compare(alloc, model, first, second) {
        Ok(WholeVerdict::Types(index)) => Some(index),
        _ => None,
    }
}
