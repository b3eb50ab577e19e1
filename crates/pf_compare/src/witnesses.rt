//! Arguments for which two formats print different bytes: the first of the probes that tell them apart.
//! One is searched only where the formats print the same for neutral arguments.
ghost use Rattle.std.specs.Prelude.{◌≡◌, ◌≢◌, ◌<◌, ◌≤◌, ◌+◌, ◌-◌, ◌++◌, IfOk, IsTrue, List, MatchBool, MatchOption, Some, drop, length, slice_get, take, ℕ};
ghost use Rattle.pf_values.specs.Arg.{argument_of};
ghost use Rattle.pf_values.specs.Candidates.{candidates, neutral};
ghost use Rattle.pf_values.specs.declared.models.Model.TheVariants.{Lp64};
ghost use Rattle.pf_values.specs.declared.types.ArgType.{ArgType};
ghost use Rattle.pf_values.specs.meaning.Arguments.{Argument, HasType};
ghost use Rattle.pf_values.specs.meaning.DataModel.{arg_type};
ghost use Rattle.pf_values.specs.meaning.Items.{HasItems, Item, Reads, types};
ghost use Rattle.pf_values.specs.meaning.Text.{Text};
ghost use Rattle.pf_probes.specs.Candidate as probes;
ghost use Rattle.pf_compare.specs.Answers.{FindsProbe, HaveSameTypes};
ghost use Rattle.pf_compare.specs.Spans.{AreNextSpans, HaveGivenSpans, ReplacementsEqual, ReplacementsDiffer, FindsUnlike, IsSpanIn, PrintOneText, PrintUnlikeNeutral, replace_span};
ghost use Rattle.pf_compare.specs.CandidateStrings.{IsCandidateString};
ghost use Rattle.pf_compare.specs.Owned.{argument_of_owned, type_of_owned};
ghost use Rattle.pf_compare.specs.Witnesses.{AreArgumentsOf, AreConverted, AreNeutral};

use crate::differences::{are_equal, are_unlike};
use crate::neutral_texts::{PrintedSpan, Spans, neutral_text, neutrals_of, print};
use crate::owned_args::OwnedArg;
use pf_probes::{Candidate, candidate_row};
use pf_values::{Arg, ArgType, Model};
use std::alloc::{AllocError, Global};

/// Neutral arguments, except for one.
#[derive(Clone, Copy, Debug, PartialEq, Eq)]
pub struct Probe {
    /// The index of that argument, counted from 0.
    pub index: usize,
    /// The argument, which is a candidate of its type.
    pub argument: OwnedArg,
    /// The number of the candidate in the row of its type, counted from 1.
    pub renderings: u8,
}

// The probe of a candidate of a type.
fn probe_of(model: Model, index: usize, wanted: ArgType, candidate_index: usize) -> Probe
    requires { (argument : Argument) × (slice_get (candidates model wanted) candidate_index ≡ Some argument) }
    ensures index { result.index ≡ index }
    ensures candidate { slice_get (candidates model wanted) candidate_index
        ≡ Some (argument_of_owned result.argument) }
    ensures arg_type { type_of_owned result.argument ≡ wanted }
    ensures renderings { result.renderings ≡ candidate_index + 1 }
{
    Probe {
        index,
        argument: OwnedArg::of(wanted, candidate_row(model, wanted)[candidate_index]),
        renderings: candidate_index as u8 + 1,
    }
}

/// Returns what two formats of equal types print for neutral arguments, if it is the same.
pub(crate) fn common_text(
    alloc: Global,
    model: Model,
    first: &[u8],
    second: &[u8],
) -> Result<Option<Vec<u8>>, AllocError>
    requires { HaveSameTypes model first.now second.now }
    ensures { IfOk result (λ found. MatchOption found (PrintUnlikeNeutral model first.now second.now)
        (λ whole. PrintOneText model first.now second.now whole.items)) }
{
    let whole = neutral_text(alloc, model, first)?;
    let other = neutral_text(alloc, model, second)?;
    if are_unlike(&whole, &other) {
        return Ok(None);
    }
    Ok(Some(whole))
}

/// Returns the arguments of a probe for an accepted format. `Err` if memory is refused.
pub fn arguments_of<T: From<OwnedArg> + Drop>(
    alloc: Global,
    model: Model,
    text: &[u8],
    probe: Probe,
) -> Result<Vec<T>, AllocError>
    requires { (items : List Item) × HasItems text.now items × (probe.index < length (types model items)) }
    ensures { IfOk result (λ args. (items : List Item) → Reads text.now items
        → AreConverted T.from_gives (AreArgumentsOf (types model items) probe) args.items) }
{
    Ok(with_candidate(neutrals_of(alloc, model, text)?, probe))
}

// The arguments of a probe, of neutral ones.
fn with_candidate<T: From<OwnedArg> + Drop>(args: Vec<T>, probe: Probe) -> Vec<T>
    requires { probe.index < length args.items }
    ensures { (ts : List ArgType) → AreConverted T.from_gives (AreNeutral ts) args.items
        → AreConverted T.from_gives (AreArgumentsOf ts probe) result.items }
{
    let mut args = args;
    args[probe.index] = T::from(probe.argument);
    args
}

/// The first probe for which two formats print different bytes. They print the same for neutral
/// arguments, so what each prints for a probe differs from that in one span alone.
pub(crate) fn first_probe(
    alloc: Global,
    model: Model,
    first: &[u8],
    second: &[u8],
    whole: &[u8],
) -> Result<Option<Probe>, AllocError>
    requires { PrintOneText model first.now second.now whole.now }
    ensures { IfOk result (λ found. (xs ys : List Item)
        → Reads first.now xs → Reads second.now ys → FindsProbe model xs ys found) }
{
    let mut first_spans = Spans::new(first);
    let mut second_spans = Spans::new(second);
    let mut index = 0;
    while let Some((one, two)) = next_spans(alloc, model, &mut first_spans, &mut second_spans)? {
        match first_candidate(alloc, model, whole, &one, &two)? {
            Some(candidate_index) => {
                let wanted = one.directive.arg_type(model);
                return Ok(Some(probe_of(model, index, wanted, candidate_index)));
            }
            None => index += 1,
        }
    }
    Ok(None)
}

// The next spans of two formats that print one text for neutral arguments, or none at the end of both.
fn next_spans(
    alloc: Global,
    model: Model,
    first: &mut Spans<'_>,
    second: &mut Spans<'_>,
) -> Result<Option<(PrintedSpan, PrintedSpan)>, AllocError>
    requires { (t u whole : Text) × (count : ℕ) × PrintOneText model t u whole
        × HaveGivenSpans model first.old t count × HaveGivenSpans model second.old u count }
    ensures { IfOk result (λ found. (t u whole : Text) (count : ℕ) (r : PrintOneText model t u whole)
        → HaveGivenSpans model first.old t count → HaveGivenSpans model second.old u count
        → AreNextSpans model t u whole r count first.new second.new found) }
{
    let Some(one) = first.next(alloc, model)? else {
        return Ok(None);
    };
    let Some(two) = second.next(alloc, model)? else {
        unreachable!();
    };
    Ok(Some((one, two)))
}

// The index of the first candidate for which the bytes of two directives, put into their spans, make
// different texts. One directive in one span makes one text for every argument.
fn first_candidate(
    alloc: Global,
    model: Model,
    whole: &[u8],
    first: &PrintedSpan,
    second: &PrintedSpan,
) -> Result<Option<usize>, AllocError>
    requires one_type { arg_type model first.now.directive ≡ arg_type model second.now.directive }
    requires neutral { ReplacementsEqual model whole.now first.now second.now
        (neutral (arg_type model first.now.directive)) }
    requires first { IsSpanIn whole.now first.now }
    requires second { IsSpanIn whole.now second.now }
    ensures { IfOk result
        (FindsUnlike model whole.now first.now second.now (arg_type model first.now.directive)) }
{
    if are_equal_spans(first, second) {
        return Ok(None);
    }
    other_candidate(
        alloc,
        model,
        whole,
        first,
        second,
        first.directive.arg_type(model),
    )
}

fn are_equal_spans(first: &PrintedSpan, second: &PrintedSpan) -> bool
    ensures { IsTrue result → first.now ≡ second.now }
{
    have_same_offsets(first, second) && are_equal(&first.directive, &second.directive)
}

fn have_same_offsets(first: &PrintedSpan, second: &PrintedSpan) -> bool
    ensures { IsTrue result
        → (first.now.start ≡ second.now.start) × (first.now.end ≡ second.now.end) }
{
    first.start == second.start && first.end == second.end
}

// The index of the first candidate of their type that makes different texts. The neutral one, which is the
// first of the row, makes equal ones.
fn other_candidate(
    alloc: Global,
    model: Model,
    whole: &[u8],
    first: &PrintedSpan,
    second: &PrintedSpan,
    wanted: ArgType,
) -> Result<Option<usize>, AllocError>
    requires first_type { arg_type model first.now.directive ≡ wanted }
    requires second_type { arg_type model second.now.directive ≡ wanted }
    requires neutral { ReplacementsEqual model whole.now first.now second.now (neutral wanted) }
    requires first { IsSpanIn whole.now first.now }
    requires second { IsSpanIn whole.now second.now }
    ensures { IfOk result (FindsUnlike model whole.now first.now second.now wanted) }
{
    let row = candidate_row(model, wanted);
    let mut index = 1;
    while index < row.len() {
        if candidate_differs(alloc, model, whole, first, second, wanted, row[index])? {
            return Ok(Some(index));
        }
        index += 1;
    }
    Ok(None)
}

// Whether the bytes of two directives for a candidate, put into their spans, make different texts.
fn candidate_differs(
    alloc: Global,
    model: Model,
    whole: &[u8],
    first: &PrintedSpan,
    second: &PrintedSpan,
    wanted: ArgType,
    candidate: Candidate,
) -> Result<bool, AllocError>
    requires first_type { arg_type model first.now.directive ≡ wanted }
    requires second_type { arg_type model second.now.directive ≡ wanted }
    requires typed { HasType model (probes.candidate_argument candidate) wanted }
    requires held { HasType Lp64 (probes.candidate_argument candidate) wanted }
    requires string { IsCandidateString candidate }
    requires first { IsSpanIn whole.now first.now }
    requires second { IsSpanIn whole.now second.now }
    ensures { IfOk result (λ told. MatchBool told
        (ReplacementsDiffer model whole.now first.now second.now (probes.candidate_argument candidate))
        (ReplacementsEqual model whole.now first.now second.now (probes.candidate_argument candidate))) }
{
    let argument = OwnedArg::of(wanted, candidate);
    printed_differ(alloc, model, whole, first, second, argument.as_arg())
}

// Whether the bytes of two directives for an argument, put into their spans, make different texts. It
// prints them. Where the spans have equal offsets, only the printed bytes are compared, and nothing
// where both directives print what they print for a neutral argument.
fn printed_differ(
    alloc: Global,
    model: Model,
    whole: &[u8],
    first: &PrintedSpan,
    second: &PrintedSpan,
    argument: Arg<'_>,
) -> Result<bool, AllocError>
    requires typed_first { HasType model (argument_of argument)
        (arg_type model first.now.directive) }
    requires typed_second { HasType model (argument_of argument)
        (arg_type model second.now.directive) }
    requires first { IsSpanIn whole.now first.now }
    requires second { IsSpanIn whole.now second.now }
    ensures { IfOk result (λ told. MatchBool told
        (ReplacementsDiffer model whole.now first.now second.now (argument_of argument.entry))
        (ReplacementsEqual model whole.now first.now second.now (argument_of argument.entry))) }
{
    let first_bytes = print(alloc, model, &first.directive, argument)?;
    let second_bytes = print(alloc, model, &second.directive, argument)?;
    if have_same_offsets(first, second) {
        return Ok(are_unlike(&first_bytes, &second_bytes));
    }
    if is_unchanged(whole, first, &first_bytes) {
        if is_unchanged(whole, second, &second_bytes) {
            return Ok(false);
        }
    }
    replaced_differ(alloc, whole, first, second, &first_bytes, &second_bytes)
}

// Whether a span holds these bytes.
fn is_unchanged(whole: &[u8], span: &PrintedSpan, printed: &[u8]) -> bool
    requires { IsSpanIn whole.now span.now }
    ensures { IsTrue result → replace_span whole.now span.now printed.now ≡ whole.now }
{
    !are_unlike(&whole[span.start..span.end], printed)
}

// Whether a text with one span replaced differs from it with another one replaced, by the part that
// the two spans lie in.
fn replaced_differ(
    alloc: Global,
    whole: &[u8],
    first: &PrintedSpan,
    second: &PrintedSpan,
    first_bytes: &[u8],
    second_bytes: &[u8],
) -> Result<bool, AllocError>
    requires first { IsSpanIn whole.now first.now }
    requires second { IsSpanIn whole.now second.now }
    ensures { IfOk result (λ told. MatchBool told
        (replace_span whole.now first.now first_bytes.now ≢ replace_span whole.now second.now second_bytes.now)
        (replace_span whole.now first.now first_bytes.now ≡ replace_span whole.now second.now second_bytes.now)) }
{
    let from = first.start.min(second.start);
    let to = first.end.max(second.end);
    let first_part = replace_span(alloc, &whole[from..to], from, first, first_bytes)?;
    let second_part = replace_span(alloc, &whole[from..to], from, second, second_bytes)?;
    Ok(are_unlike(&first_part, &second_part))
}

// A part of a text that begins at `from`, with these bytes instead of its span.
fn replace_span(
    alloc: Global,
    part: &[u8],
    from: usize,
    span: &PrintedSpan,
    printed: &[u8],
) -> Result<Vec<u8>, AllocError>
    requires ordered { span.now.start ≤ span.now.end }
    requires after { from ≤ span.now.start }
    requires before { span.now.end ≤ from + length part.now }
    ensures { IfOk result (λ bytes.
        bytes.items ≡ take (span.now.start - from) part.now ++ printed.now
        ++ drop (span.now.end - from) part.now) }
{
    let mut out = Vec::new(alloc);
    out.extend_from_slice(&part[..span.start - from])?;
    out.extend_from_slice(printed)?;
    out.extend_from_slice(&part[span.end - from..])?;
    Ok(out)
}
