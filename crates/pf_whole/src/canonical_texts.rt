//! Whether a format of the whole language is accepted, and its canonical text: each stretch before, between and after the
//! directives that the profile lacks is replaced by the canonical text that it has as a format of its own,
//! and each of these directives by its normal spelling.
ghost use Rattle.std.specs.Prelude.{◌≡◌, ◌↔◌, IsTrue, MatchResult, length};
ghost use Rattle.pf_values.specs.meaning.Text.{Text};
ghost use Rattle.pf_posix.specs.Stretches.{IsUnnumberedAccepted};
ghost use Rattle.pf_posix.specs.Unnumbered.{IsUnnumberedRefusedAt};
ghost use Rattle.pf_whole.specs.Answers.{IsWholeCanonicalFor};
ghost use Rattle.pf_whole.specs.Faults.{FaultForWholeCanonical};
ghost use Rattle.pf_whole.specs.meaning.WholeCanonical.{IsWholeCanonicalOf};

use crate::languages::Whole;
use pf_canon::{canonical_in, canonical_len_in, check_in, is_canonical_in};
use pf_text::{Refusal, TextFault};
use pf_values::Model;
use std::alloc::Global;

/// Checks whether a format is accepted in a data model if no argument may have a number (C11 7.21.6.1, paragraphs 3
/// to 9; POSIX fprintf). `Err` if it isn't: a `$` directly after the first number of a specification is rejected as
/// `Numbered`, and everything else as by `arguments` of pf_posix, at the same byte. Allocates nothing.
pub fn check(model: Model, text: &[u8]) -> Result<(), Refusal>
    ensures { MatchResult result (λ _. IsUnnumberedAccepted text.now)
        (λ refusal. IsUnnumberedRefusedAt model text.now refusal.kind refusal.at) }
{
    check_in::<Whole>(model, text)
}

/// Returns the canonical text of a format. `Err` if the format or memory is refused. It allocates once, and
/// not at all if the text is rejected or empty.
pub fn canonical(alloc: Global, model: Model, text: &[u8]) -> Result<Vec<u8>, TextFault>
    ensures { MatchResult result (λ c. IsWholeCanonicalFor model text.now c.items)
        (FaultForWholeCanonical model text.now) }
{
    canonical_in::<Whole>(alloc, model, text, 0)
}

/// Returns how many bytes the canonical text of a format has. `Err` if it is rejected. Allocates nothing.
pub fn canonical_len(model: Model, text: &[u8]) -> Result<u128, Refusal>
    ensures { MatchResult result
        (λ len. (c : Text) × IsWholeCanonicalFor model text.now c × (len ≡ length c))
        (λ refusal. IsUnnumberedRefusedAt model text.now refusal.kind refusal.at) }
{
    canonical_len_in::<Whole>(model, text)
}

/// Returns whether a format is its own canonical text. `Err` if it is rejected. Allocates nothing.
pub fn is_canonical(model: Model, text: &[u8]) -> Result<bool, Refusal>
    ensures { MatchResult result
        (λ is. IsUnnumberedAccepted text.now × (IsTrue is ↔ IsWholeCanonicalOf model text.now text.now))
        (λ refusal. IsUnnumberedRefusedAt model text.now refusal.kind refusal.at) }
{
    is_canonical_in::<Whole>(model, text)
}
