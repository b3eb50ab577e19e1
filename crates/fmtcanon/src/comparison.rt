//! Two formats compared, as lines.
ghost use Rattle.std.specs.Prelude.{◌≡◌, ◌++◌, IfOk, MatchResult, codes, flat_map};
ghost use Rattle.pf_whole.specs.Comparisons.{ShowsArguments};
ghost use Rattle.fmtcanon.specs.Answers.{IsPairFault, NeedsMemory};
ghost use Rattle.fmtcanon.specs.Comparisons.{IsAlikeAnswer, IsComparisonAnswer, IsVerdictAnswer, ending_of, shown_line, verdict_lines};
ghost use Rattle.fmtcanon.specs.Lines.{line, output_bytes};
ghost use Rattle.fmtcanon.specs.declared.questions.PairQuestion.TheVariants.{Same, WholeSame};

use crate::answer::{Answer, Ending};
use crate::lines::{AnswerBytes, difference_line, line_of};
use crate::outcome::Outcome;
use pf_compare::{OwnedArg, first_difference};
use pf_values::Model;
use pf_whole::WholeVerdict;
use std::alloc::{AllocError, Global};

/// Says whether two formats are interchangeable in a data model; otherwise where their types differ,
/// or arguments for which they print different bytes, each as the word that gives it. `Err` if one
/// of them or memory is refused.
pub fn comparison_in(
    alloc: Global,
    model: Model,
    first: &[u8],
    second: &[u8],
) -> Result<Answer, Outcome>
    ensures { MatchResult result
        (λ answer. IsComparisonAnswer model first.now second.now (output_bytes answer.output)
        answer.ending)
        (IsPairFault NeedsMemory Same model first.now second.now) }
{
    let difference = first_difference(alloc, model, first, second)?;
    let verdict = WholeVerdict::of_profile(alloc, model, first, difference)?;
    Ok(verdict_answer(alloc, &verdict)?)
}

/// Says whether two formats of the whole language are interchangeable; otherwise where their types or
/// their calls differ, or arguments for which they print different bytes. `Err` if one of them or memory
/// is refused.
pub fn alike_in(alloc: Global, model: Model, first: &[u8], second: &[u8]) -> Result<Answer, Outcome>
    ensures { MatchResult result
        (λ answer. IsAlikeAnswer model first.now second.now (output_bytes answer.output)
        answer.ending)
        (IsPairFault NeedsMemory WholeSame model first.now second.now) }
{
    let verdict = pf_whole::compare(alloc, model, first, second)?;
    Ok(verdict_answer(alloc, &verdict)?)
}

// Only arguments that tell two formats apart need memory.
fn verdict_answer(alloc: Global, verdict: &WholeVerdict) -> Result<Answer, AllocError>
    ensures { MatchResult result
        (λ answer. IsVerdictAnswer verdict.now (output_bytes answer.output) answer.ending)
        (λ _. ShowsArguments verdict.now) }
{
    Ok(Answer {
        output: verdict_lines(alloc, verdict)?,
        ending: ending_of(verdict),
    })
}

fn ending_of(verdict: &WholeVerdict) -> Ending
    ensures { result ≡ ending_of verdict.now }
{
    match verdict {
        WholeVerdict::Same => Ending::Same,
        WholeVerdict::Types(_) => Ending::Different,
        WholeVerdict::Directives(_) => Ending::Different,
        WholeVerdict::Args(_) => Ending::Different,
    }
}

fn verdict_lines(alloc: Global, verdict: &WholeVerdict) -> Result<AnswerBytes, AllocError>
    ensures { MatchResult result (λ out. output_bytes out ≡ verdict_lines verdict.now)
        (λ _. ShowsArguments verdict.now) }
{
    match verdict {
        WholeVerdict::Same => Ok(AnswerBytes::Line(line_of("same"))),
        WholeVerdict::Types(index) => Ok(AnswerBytes::Line(difference_line("types", *index))),
        WholeVerdict::Directives(index) => Ok(AnswerBytes::Line(difference_line(
            "directives",
            *index,
        ))),
        WholeVerdict::Args(shown) => Ok(AnswerBytes::Bytes(shown_lines(alloc, shown)?)),
    }
}

fn shown_lines(alloc: Global, shown: &[Option<OwnedArg>]) -> Result<Vec<u8>, AllocError>
    ensures { IfOk result
        (λ out. out.items ≡ line (codes "different") ++ flat_map shown_line shown.now) }
{
    let mut out = Vec::from_slice(alloc, b"different\n")?;
    for argument in shown {
        push_shown(&mut out, argument)?;
    }
    Ok(out)
}

// Adds the line of an argument, or that it may be any.
fn push_shown(out: &mut Vec<u8>, shown: &Option<OwnedArg>) -> Result<(), AllocError>
    ensures { IfOk result (λ _. out.new.items ≡ out.old.items ++ shown_line shown.now) }
{
    match shown {
        None => out.extend_from_slice(b"any\n"),
        Some(argument) => {
            argument.push_word(out)?;
            out.push(b'\n')?;
            Ok(())
        }
    }
}
