//! Comparing two formats, and confirming that two print different bytes for some arguments.
ghost use Rattle.std.specs.Prelude.{◌≡◌, ◌↔◌, ◌⊎◌, IfErr, IfOk, IsTrue, MatchOption, MatchResult, false};
ghost use Rattle.std.specs.Option.{option_map};
ghost use Rattle.pf_values.specs.meaning.Text.{Text};
ghost use Rattle.pf_canon.specs.Comparison.{AreTextsSame};
ghost use Rattle.pf_render.specs.Rendering.{Renders};
ghost use Rattle.pf_compare.specs.Answers.{AreUnlike, HaveSameTypes, FaultForCompare, IsComparisonOf, IsDifferenceOf, IsShown, PrintsSome, TellApart};
ghost use Rattle.pf_compare.specs.declared.comparisons.CompareFault.TheVariants.{Memory};

use crate::differences::first_type_difference;
use crate::neutral_texts::neutrals_of;
use crate::owned_args::OwnedArg;
use crate::witnesses::{Probe, arguments_of, common_text, first_probe};
use pf_canon::same_text;
use pf_render::{RenderVecFault, render_vec};
use pf_text::{Refusal, Side};
use pf_values::{Arg, Model};
use std::alloc::{AllocError, Global};
use thiserror::Error;

/// Compares two formats in a data model. Equivalent ones are `Same`. Otherwise they differ in their
/// types, or the first probe is given for which they print different bytes. `Err` if a text is
/// rejected, the first before the second, or if memory is refused. Allocates only for arguments: if
/// both are accepted, have the same types, and are not equivalent.
pub fn compare(
    alloc: Global,
    model: Model,
    first: &[u8],
    second: &[u8],
) -> Result<Comparison, CompareFault>
    ensures { MatchResult result (IsComparisonOf model first.now second.now)
        (FaultForCompare model first.now second.now) }
{
    let found = first_difference(alloc, model, first, second)?;
    Ok(comparison_of(alloc, model, first, found)?)
}

// A difference of a format from another one, with the arguments that show it.
fn comparison_of(
    alloc: Global,
    model: Model,
    text: &[u8],
    difference: Difference,
) -> Result<Comparison, AllocError>
    requires { (u : Text) × IsDifferenceOf model text.now u difference }
    ensures { MatchResult result
        (λ comparison. (u : Text) → IsDifferenceOf model text.now u difference
        → IsComparisonOf model text.now u comparison)
        (λ _. IsShown difference) }
{
    match difference {
        Difference::Nowhere => Ok(Comparison {
            verdict: Verdict::Same,
            renderings: 0,
        }),
        Difference::Types(index) => Ok(Comparison {
            verdict: Verdict::Types(index),
            renderings: 0,
        }),
        Difference::Neutral => Ok(Comparison {
            verdict: Verdict::Args(neutrals_of(alloc, model, text)?),
            renderings: 1,
        }),
        Difference::Probe(probe) => Ok(Comparison {
            verdict: Verdict::Args(arguments_of(alloc, model, text, probe)?),
            renderings: probe.renderings,
        }),
    }
}

/// Returns in what two formats differ first in a data model: `compare` without the arguments. `Err` as there.
pub fn first_difference(
    alloc: Global,
    model: Model,
    first: &[u8],
    second: &[u8],
) -> Result<Difference, CompareFault>
    ensures { MatchResult result (IsDifferenceOf model first.now second.now)
        (FaultForCompare model first.now second.now) }
{
    match are_equivalent(model, first, second) {
        Ok(true) => Ok(Difference::Nowhere),
        Ok(false) => compare_apart(alloc, model, first, second),
        Err(fault) => Err(fault),
    }
}

fn are_equivalent(model: Model, first: &[u8], second: &[u8]) -> Result<bool, CompareFault>
    ensures { MatchResult result (AreTextsSame model first.now second.now)
        (FaultForCompare model first.now second.now) }
{
    match same_text(model, first, second) {
        Ok(same) => Ok(same),
        Err((side, refusal)) => Err(CompareFault::Refused(side, refusal)),
    }
}

// Compares two formats that aren't equivalent.
#[inline(never)]
fn compare_apart(
    alloc: Global,
    model: Model,
    first: &[u8],
    second: &[u8],
) -> Result<Difference, CompareFault>
    requires { AreTextsSame model first.now second.now false }
    ensures { MatchResult result (IsDifferenceOf model first.now second.now)
        (FaultForCompare model first.now second.now) }
{
    if let Some(index) = first_type_difference(model, first, second) {
        return Ok(Difference::Types(index));
    }
    Ok(compare_bytes(alloc, model, first, second)?)
}

// Compares two formats with the same types, which differ in what they print.
fn compare_bytes(
    alloc: Global,
    model: Model,
    first: &[u8],
    second: &[u8],
) -> Result<Difference, AllocError>
    requires apart { AreTextsSame model first.now second.now false }
    requires types { HaveSameTypes model first.now second.now }
    ensures { IfOk result (IsDifferenceOf model first.now second.now) }
{
    let Some(whole) = common_text(alloc, model, first, second)? else {
        return Ok(Difference::Neutral);
    };
    match first_probe(alloc, model, first, second, &whole)? {
        Some(probe) => Ok(Difference::Probe(probe)),
        None => unreachable!(),
    }
}

/// In what two formats differ first.
#[derive(Clone, Copy, Debug, PartialEq, Eq)]
pub enum Difference {
    /// In nothing: they are equivalent.
    Nowhere,
    /// In their argument types, at this index, as in `Verdict::Types`.
    Types(u64),
    /// In what they print for neutral arguments. Their argument types are equal.
    Neutral,
    /// In what they print for this probe, the first that shows a difference. Their argument types are equal,
    /// and what they print for neutral arguments.
    Probe(Probe),
}

impl Difference {
    ghost use Rattle.pf_compare.specs.Answers.{renderings_of};

    /// Returns the number of the candidate that shows the difference, as `Comparison` has it.
    pub fn renderings(&self) -> u8
        ensures { result ≡ renderings_of self.now }
    {
        match self {
            Difference::Nowhere => 0,
            Difference::Types(_) => 0,
            Difference::Neutral => 1,
            Difference::Probe(probe) => probe.renderings,
        }
    }
}

/// How two formats compare.
#[derive(Debug, Drop)]
pub enum Verdict {
    /// They are equivalent: equal argument types, and equal bytes for all arguments.
    Same,
    /// Their argument types differ first at this index, counted from 0. Where one list of types
    /// begins the other, it is the length of the shorter.
    Types(u64),
    /// For these arguments, which both take, they print different bytes.
    Args(Vec<OwnedArg>),
}

/// A verdict, and the number of the candidate that it found in the row of its type, counted from 1.
#[derive(Debug, Drop)]
pub struct Comparison {
    /// The verdict.
    pub verdict: Verdict,
    /// The number of the candidate: 1 for neutral arguments, and 0 where no arguments are given. At most 17.
    pub renderings: u8,
}

/// Why two texts are not compared.
#[derive(Clone, Copy, Debug, PartialEq, Eq, Error)]
pub enum CompareFault {
    /// The text of this side is rejected.
    #[error("{1}")]
    Refused(Side, Refusal),
    /// An allocation failed.
    #[error("out of memory")]
    Memory,
}

impl From<AllocError> for CompareFault {
    ghost from_gives = { λ _ fault. fault ≡ Memory };

    fn from(_error: AllocError) -> CompareFault {
        CompareFault::Memory
    }
}

/// Returns whether two formats are accepted, take these arguments in a data model, and print
/// different bytes for them. `Err` if memory is refused. Allocates only for a format that takes the
/// arguments and prints something.
pub fn confirms(
    alloc: Global,
    model: Model,
    first: &[u8],
    second: &[u8],
    args: &[Arg<'_>],
) -> Result<bool, AllocError>
    ensures told { IfOk result (λ told. IsTrue told ↔ TellApart model first.now second.now args.now) }
    ensures memory { IfErr result
        (λ _. PrintsSome model first.now args.now ⊎ PrintsSome model second.now args.now) }
{
    let first_bytes = rendering_of(alloc, model, first, args)?;
    let second_bytes = rendering_of(alloc, model, second, args)?;
    Ok(differ(first_bytes, second_bytes))
}

// Whether there are two texts, and they differ.
fn differ(first: Option<Vec<u8>>, second: Option<Vec<u8>>) -> bool
    ensures { IsTrue result
        ↔ AreUnlike (option_map (λ v. v.items) first) (option_map (λ v. v.items) second) }
{
    if let Some(first) = first {
        if let Some(second) = second {
            return first.as_slice() != second.as_slice();
        }
    }
    false
}

// What a format prints for arguments, if it takes them.
fn rendering_of(
    alloc: Global,
    model: Model,
    text: &[u8],
    args: &[Arg<'_>],
) -> Result<Option<Vec<u8>>, AllocError>
    ensures memory { IfErr result (λ _. PrintsSome model text.now args.now) }
    ensures told { IfOk result (λ some. MatchOption some
        ((out : Text) → ¬ Renders model text.now args.now out)
        (λ bytes. Renders model text.now args.now bytes.items)) }
{
    match render_vec(alloc, model, text, args) {
        Ok(bytes) => Ok(Some(bytes)),
        Err(RenderVecFault::Memory) => Err(AllocError),
        Err(RenderVecFault::Refused(_)) => Ok(None),
        Err(RenderVecFault::WrongCount { .. }) => Ok(None),
        Err(RenderVecFault::WrongType(_)) => Ok(None),
    }
}
