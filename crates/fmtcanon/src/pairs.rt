//! Answers about two formats, in one data model after another.
ghost use Rattle.std.specs.Prelude.{◌≡◌, ◌++◌, IfOk, MatchOption, MatchResult};
ghost use Rattle.fmtcanon.specs.Answers.{AcceptsBoth, IsFirstPairFault, IsPairFault, IsPairFaultIn, IsRefusalOfFirst, NeedsMemory};
ghost use Rattle.pf_whole.specs.Languages.{AcceptsText, Numbered};
ghost use Rattle.fmtcanon.specs.Lines.{line, output_bytes};
ghost use Rattle.fmtcanon.specs.PairAnswers.{IsAnswerInEach, IsPairAnswer, IsPairAnswerIn, ending_with};
ghost use Rattle.fmtcanon.specs.Questions.{language_of};

use crate::answer::{Answer, Ending};
use crate::comparison::{alike_in, comparison_in};
use crate::fits::{fewer_in, fit_in};
use crate::lines::{AnswerBytes, push_line};
use crate::models::{Models, name_of};
use crate::outcome::Outcome;
use crate::questions::PairQuestion;
use pf_posix::arguments;
use pf_text::{Side, check};
use pf_values::Model;
use std::alloc::{AllocError, Global};

/// Answers a question about two formats in the data models that are asked for. In more than one, each
/// answer comes below the name of its model. `Err` with the reason if there is no answer.
pub fn pair_answer(
    alloc: Global,
    question: PairQuestion,
    models: Models,
    first: &[u8],
    second: &[u8],
) -> Result<Answer, Outcome>
    ensures { MatchResult result
        (λ answer. IsPairAnswerIn question models first.now second.now (output_bytes answer.output)
        answer.ending)
        (IsPairFaultIn question models first.now second.now) }
{
    match models {
        Models::One(model) => pair_answer_in(alloc, question, model, first, second),
        Models::Both => pair_answer_in_each(alloc, question, &Model::ALL[..2], first, second),
        Models::All => pair_answer_in_each(alloc, question, &Model::ALL, first, second),
    }
}

fn pair_answer_in_each(
    alloc: Global,
    question: PairQuestion,
    models: &[Model],
    first: &[u8],
    second: &[u8],
) -> Result<Answer, Outcome>
    ensures { MatchResult result
        (λ answer. IsAnswerInEach (λ model. IsPairAnswer question model first.now second.now)
        models.now (output_bytes answer.output) answer.ending)
        (IsFirstPairFault AcceptsBoth question models.now first.now second.now) }
{
    let mut bytes = Vec::new(alloc);
    let mut ending = Ending::Same;
    for model in models {
        let answer = pair_answer_in(alloc, question, *model, first, second)?;
        push_verdict(&mut bytes, name_of(*model), answer.output.as_bytes())?;
        ending = ending_with(ending, answer.ending);
    }
    Ok(Answer {
        output: AnswerBytes::Bytes(bytes),
        ending,
    })
}

fn pair_answer_in(
    alloc: Global,
    question: PairQuestion,
    model: Model,
    first: &[u8],
    second: &[u8],
) -> Result<Answer, Outcome>
    ensures { MatchResult result
        (λ answer. IsPairAnswer question model first.now second.now (output_bytes answer.output)
        answer.ending)
        (IsPairFault NeedsMemory question model first.now second.now) }
{
    match question {
        PairQuestion::Fits => fit_in(model, first, second),
        PairQuestion::FitsFewer => fewer_in(model, first, second),
        PairQuestion::Same => comparison_in(alloc, model, first, second),
        PairQuestion::WholeSame => alike_in(alloc, model, first, second),
    }
}

/// Returns the refusal of the bytes of the first of two formats, or `None` if it is accepted.
pub fn refusal_of_first(question: PairQuestion, model: Model, bytes: &[u8]) -> Option<Outcome>
    ensures { MatchOption result (AcceptsText (language_of question) model bytes.now)
        (IsRefusalOfFirst (language_of question) model bytes.now) }
{
    match question {
        PairQuestion::Fits => numbered_refusal(model, bytes),
        PairQuestion::FitsFewer => numbered_refusal(model, bytes),
        PairQuestion::Same => match check(bytes) {
            Ok(()) => None,
            Err(refusal) => Some(Outcome::refused(Some(Side::First), refusal)),
        },
        PairQuestion::WholeSame => match pf_whole::check(model, bytes) {
            Ok(()) => None,
            Err(refusal) => Some(Outcome::refused(Some(Side::First), refusal)),
        },
    }
}

// The refusal of a first format in the whole language with numbered arguments.
fn numbered_refusal(model: Model, bytes: &[u8]) -> Option<Outcome>
    ensures { MatchOption result (AcceptsText Numbered model bytes.now)
        (IsRefusalOfFirst Numbered model bytes.now) }
{
    match arguments(model, bytes, &mut []) {
        Ok(_) => None,
        Err(refusal) => Some(Outcome::refused(Some(Side::First), refusal)),
    }
}

// Adds the name of a data model, and the lines of the verdict in it.
fn push_verdict(out: &mut Vec<u8>, name: &str, lines: &[u8]) -> Result<(), AllocError>
    ensures { IfOk result (λ _. out.new.items ≡ out.old.items ++ line name.now ++ lines.now) }
{
    push_line(out, name)?;
    out.extend_from_slice(lines)?;
    Ok(())
}

// Returns how a run ends with one verdict more: formats are the same if they are in each data model.
fn ending_with(ending: Ending, others: Ending) -> Ending
    ensures { result ≡ ending_with ending others }
{
    match ending {
        Ending::Same => others,
        Ending::Done => Ending::Done,
        Ending::Different => Ending::Different,
    }
}
