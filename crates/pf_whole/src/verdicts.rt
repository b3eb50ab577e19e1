//! How two formats of the whole language compare.
ghost use Rattle.std.specs.Prelude.{◌≡◌, ◌<◌, ◌+◌, ◌^◌, ◌++◌, [], IfOk, IsTrue, List, MatchResult, None, Some, length, map, replicate};
ghost use Rattle.std.specs.List.{AllZip};
ghost use Rattle.pf_values.specs.meaning.Items.{HasItems, IsAccepted, Item, Reads, types};
ghost use Rattle.pf_values.specs.meaning.Text.{Text};
ghost use Rattle.pf_compare.specs.Answers.{IsDifferenceOf, IsShown};
ghost use Rattle.pf_compare.specs.Witnesses.{AreNeutral};
ghost use Rattle.pf_compare.specs.declared.owned_args.OwnedArg.{OwnedArg};
ghost use Rattle.pf_posix.specs.Stretches.{IsUnnumberedAccepted, ReadsStretches, Stretches, whole_types};
ghost use Rattle.pf_whole.specs.Answers.{HaveOneShape, neutral_shown};
ghost use Rattle.pf_whole.specs.Comparisons.{FaultForWholeCompare, HasShownType, IsComparison, IsFoundDifference, IsFoundNext, IsStretchDifference, IsTypedProbe, IsVerdictOf, shown_as, shown_for};
ghost use Rattle.pf_whole.specs.meaning.Traces.{AreWholeAlike};

use crate::calls::{Rest, call_after, call_argument_count, first_call_difference};
use crate::comparison::same_text;
use pf_compare::{
    CompareFault, Difference, OwnedArg, Probe, arguments_of, first_difference, neutrals_of,
    push_neutrals,
};
use pf_posix::{arguments, fits, next_stretch};
use pf_values::Model;
use std::alloc::{AllocError, Global};

/// How two formats of the whole language compare.
#[derive(Debug, Drop)]
pub enum WholeVerdict {
    /// They are alike: equal argument types, and for all arguments equal bytes and equal calls.
    Same,
    /// Their argument types differ first at this index, counted from 0. If one list of types begins
    /// the other, it is the length of the shorter.
    Types(u64),
    /// Their argument types are equal. This is the place at which their calls differ first: the smaller
    /// index of the first arguments of two calls.
    Directives(u64),
    /// Their argument types and their calls are equal. For these arguments they print different bytes.
    /// `None` is any argument of a directive that the profile lacks.
    Args(Vec<Option<OwnedArg>>),
}

impl WholeVerdict {
    /// Returns in what a format of the profile differs from another one, as a verdict of the whole language.
    /// `Err` if memory is refused, which only arguments need.
    pub fn of_profile(
        alloc: Global,
        model: Model,
        text: &[u8],
        difference: Difference,
    ) -> Result<WholeVerdict, AllocError>
        requires { (u : Text) × IsDifferenceOf model text.now u difference }
        ensures { MatchResult result (IsVerdictOf model text.now difference) (λ _. IsShown difference) }
    {
        match difference {
            Difference::Nowhere => Ok(WholeVerdict::Same),
            Difference::Types(index) => Ok(WholeVerdict::Types(index)),
            Difference::Neutral => Ok(WholeVerdict::Args(neutrals_of(alloc, model, text)?)),
            Difference::Probe(probe) => {
                Ok(WholeVerdict::Args(arguments_of(alloc, model, text, probe)?))
            }
        }
    }
}

/// Compares two formats in a data model. `Err` if one is rejected, the first before the second, or if
/// memory is refused. Allocates only for arguments: if both are accepted, and their argument types and
/// calls are equal, and they are not alike.
pub fn compare(
    alloc: Global,
    model: Model,
    first: &[u8],
    second: &[u8],
) -> Result<WholeVerdict, CompareFault>
    ensures { MatchResult result (IsComparison model first.now second.now)
        (FaultForWholeCompare model first.now second.now) }
{
    match first_difference(alloc, model, first, second) {
        Ok(difference) => Ok(WholeVerdict::of_profile(alloc, model, first, difference)?),
        Err(fault) => match fault {
            CompareFault::Memory => Err(CompareFault::Memory),
            CompareFault::Refused(_, _) => compare_by_stretches(alloc, model, first, second),
        },
    }
}

// Compares two formats that the profile may reject.
fn compare_by_stretches(
    alloc: Global,
    model: Model,
    first: &[u8],
    second: &[u8],
) -> Result<WholeVerdict, CompareFault>
    ensures { MatchResult result (IsComparison model first.now second.now)
        (FaultForWholeCompare model first.now second.now) }
{
    match same_text(model, first, second) {
        Ok(true) => Ok(WholeVerdict::Same),
        Ok(false) => compare_apart(alloc, model, first, second),
        Err((side, refusal)) => Err(CompareFault::Refused(side, refusal)),
    }
}

// Compares two accepted formats that aren't alike.
fn compare_apart(
    alloc: Global,
    model: Model,
    first: &[u8],
    second: &[u8],
) -> Result<WholeVerdict, CompareFault>
    requires accepted_first { IsUnnumberedAccepted first.now }
    requires accepted_second { IsUnnumberedAccepted second.now }
    requires apart { ¬ AreWholeAlike model first.now second.now }
    ensures { MatchResult result (IsComparison model first.now second.now)
        (FaultForWholeCompare model first.now second.now) }
{
    match fits(model, first, second) {
        Ok(Some(index)) => return Ok(WholeVerdict::Types(index)),
        Ok(None) => {}
        Err(_) => unreachable!(),
    }
    if let Some(index) = first_call_difference(model, first, second) {
        return Ok(WholeVerdict::Directives(index));
    }
    let probe = first_probe(alloc, model, first, second)?;
    Ok(WholeVerdict::Args(shown_arguments(alloc, model, first, probe)?))
}

// Returns the first probe for which two accepted formats print different bytes, whose types and calls are
// equal, and which aren't alike. `None` if they do for neutral arguments.
fn first_probe(
    alloc: Global,
    model: Model,
    first: &[u8],
    second: &[u8],
) -> Result<Option<Probe>, AllocError>
    requires accepted_first { IsUnnumberedAccepted first.now }
    requires accepted_second { IsUnnumberedAccepted second.now }
    requires shape { (a b : Stretches) → ReadsStretches first.now a → ReadsStretches second.now b
        → HaveOneShape model a b }
    requires apart { ¬ AreWholeAlike model first.now second.now }
    ensures { IfOk result (λ found. (a b : Stretches) → ReadsStretches first.now a
        → ReadsStretches second.now b → IsFoundDifference model a b found) }
{
    let mut found = None;
    let mut rest = Rest { at: 0, index: 0 };
    let mut from = 0;
    while let Some(stretch) = next_stretch(first, rest.at) {
        let Some(other) = next_stretch(second, from) else {
            unreachable!();
        };
        match probe_stretches(
            alloc,
            model,
            &first[rest.at..stretch.end],
            &second[from..other.end],
            rest.index,
            found,
        )? {
            Finding::Neutral => return Ok(None),
            Finding::Probe(now) => found = now,
        }
        let Some((_, after)) = call_after(model, first, rest, stretch) else {
            return Ok(found);
        };
        rest = after;
        from = other.after;
    }
    unreachable!()
}

// A finding about the stretches of two formats, which are compared one after another.
#[derive(Clone, Copy)]
enum Finding {
    // Neutral arguments tell two stretches apart.
    Neutral,
    // They don't, and this is the first probe that does, if there is one by now.
    Probe(Option<Probe>),
}

// Compares two stretches of equal types. The first argument of the first one has this index, and this probe
// tells stretches before them apart.
fn probe_stretches(
    alloc: Global,
    model: Model,
    first: &[u8],
    second: &[u8],
    index: u64,
    found: Option<Probe>,
) -> Result<Finding, AllocError>
    requires types { (xs ys : List Item) × HasItems first.now xs × HasItems second.now ys
        × (types model xs ≡ types model ys) }
    requires few { index + length first.now < 2 ^ 64 }
    ensures { IfOk result (IsFoundNext model first.now second.now index found) }
{
    match compare_stretches(alloc, model, first, second)? {
        Difference::Nowhere => Ok(Finding::Probe(found)),
        Difference::Types(_) => unreachable!(),
        Difference::Neutral => Ok(Finding::Neutral),
        Difference::Probe(probe) => match found {
            Some(_) => Ok(Finding::Probe(found)),
            None => Ok(Finding::Probe(Some(Probe {
                index: index as usize + probe.index,
                argument: probe.argument,
                renderings: probe.renderings,
            }))),
        },
    }
}

// Compares two stretches of equal types. Equal ones need no comparison.
fn compare_stretches(
    alloc: Global,
    model: Model,
    first: &[u8],
    second: &[u8],
) -> Result<Difference, AllocError>
    requires { (xs ys : List Item) × HasItems first.now xs × HasItems second.now ys
        × (types model xs ≡ types model ys) }
    ensures { IfOk result (IsStretchDifference model first.now second.now) }
{
    if are_equal(first, second) {
        return Ok(Difference::Nowhere);
    }
    match first_difference(alloc, model, first, second) {
        Ok(difference) => Ok(difference),
        Err(_) => Err(AllocError),
    }
}

fn are_equal(first: &[u8], second: &[u8]) -> bool
    ensures { IsTrue result → first.now ≡ second.now }
{
    first == second
}

// Returns the arguments of a probe for an accepted format, or neutral ones.
fn shown_arguments(
    alloc: Global,
    model: Model,
    text: &[u8],
    probe: Option<Probe>,
) -> Result<Vec<Option<OwnedArg>>, AllocError>
    requires accepted { IsUnnumberedAccepted text.now }
    requires typed { (a : Stretches) → ReadsStretches text.now a → IsTypedProbe model a probe }
    ensures { IfOk result (λ shown. (a : Stretches) → ReadsStretches text.now a
        → (shown_as shown.items ≡ shown_for model a probe)
        × AllZip HasShownType shown.items (whole_types model a)) }
{
    let mut shown = neutral_arguments(alloc, model, text)?;
    match probe {
        None => Ok(shown),
        Some(probe) => {
            shown[probe.index] = Some(probe.argument);
            Ok(shown)
        }
    }
}

// Returns room for the arguments of a format.
fn room_for_arguments(
    alloc: Global,
    model: Model,
    text: &[u8],
) -> Result<Vec<Option<OwnedArg>>, AllocError>
    ensures { IfOk result (λ room. room.items ≡ []) }
{
    match arguments(model, text, &mut []) {
        Ok(count) => Vec::with_capacity(alloc, count as usize),
        Err(_) => Ok(Vec::new(alloc)),
    }
}

// Returns neutral arguments for an accepted format.
fn neutral_arguments(
    alloc: Global,
    model: Model,
    text: &[u8],
) -> Result<Vec<Option<OwnedArg>>, AllocError>
    requires { IsUnnumberedAccepted text.now }
    ensures { IfOk result (λ shown. (a : Stretches) → ReadsStretches text.now a
        → (shown_as shown.items ≡ neutral_shown model a)
        × AllZip HasShownType shown.items (whole_types model a)) }
{
    let mut shown = room_for_arguments(alloc, model, text)?;
    let mut at = 0;
    while let Some(stretch) = next_stretch(text, at) {
        push_stretch(model, &text[at..stretch.end], &mut shown)?;
        let Some(opaque) = stretch.opaque else {
            return Ok(shown);
        };
        push_any(call_argument_count(opaque), &mut shown)?;
        at = stretch.after;
    }
    unreachable!()
}

// Adds the neutral arguments of a stretch. Most have none.
#[inline(always)]
fn push_stretch(
    model: Model,
    text: &[u8],
    shown: &mut Vec<Option<OwnedArg>>,
) -> Result<(), AllocError>
    requires { IsAccepted text.now }
    ensures { IfOk result (λ _. (items : List Item) → Reads text.now items
        → (args : List OwnedArg) × AreNeutral (types model items) args
        × (shown.new.items ≡ shown.old.items ++ map Some args)) }
{
    if text.is_empty() {
        return Ok(());
    }
    push_neutrals(model, text, shown)
}

// Adds `count` arguments that may be any.
fn push_any(count: u64, shown: &mut Vec<Option<OwnedArg>>) -> Result<(), AllocError>
    ensures { IfOk result (λ _. shown.new.items ≡ shown.old.items ++ replicate count None) }
{
    let mut left = count;
    while left > 0 {
        shown.push(None)?;
        left -= 1;
    }
    Ok(())
}
