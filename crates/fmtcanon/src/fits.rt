//! Whether one format takes the arguments of another, as a line.
ghost use Rattle.std.specs.Prelude.{◌≡◌, MatchResult};
ghost use Rattle.pf_posix.specs.Laws.{ComparesArgumentTypes, ComparesBeginning};
ghost use Rattle.fmtcanon.specs.Answers.{IsPairFault, NeedsMemory};
ghost use Rattle.fmtcanon.specs.ArgumentLines.{IsFitAnswer, fit_ending, fit_line};
ghost use Rattle.fmtcanon.specs.Lines.{output_bytes};
ghost use Rattle.fmtcanon.specs.declared.questions.PairQuestion.TheVariants.{Fits, FitsFewer};

use crate::answer::{Answer, Ending};
use crate::lines::{AnswerBytes, Line, difference_line, line_of};
use crate::outcome::Outcome;
use pf_posix::{fits, fits_fewer};
use pf_values::Model;

/// Says whether the second format takes just the arguments of the first; otherwise the first index at
/// which they differ. `Err` if one of them is rejected.
pub fn fit_in(model: Model, first: &[u8], second: &[u8]) -> Result<Answer, Outcome>
    ensures { MatchResult result
        (λ answer. IsFitAnswer (ComparesArgumentTypes model first.now second.now)
        (output_bytes answer.output) answer.ending)
        (IsPairFault NeedsMemory Fits model first.now second.now) }
{
    let index = match fits(model, first, second) {
        Ok(index) => index,
        Err((side, refusal)) => return Err(Outcome::refused(Some(side), refusal)),
    };
    Ok(fit_answer(index))
}

/// Says whether the second format takes no other arguments than the first, from which it may leave out
/// the last ones; otherwise the first index at which it takes another. `Err` if one of them is rejected.
pub fn fewer_in(model: Model, first: &[u8], second: &[u8]) -> Result<Answer, Outcome>
    ensures { MatchResult result
        (λ answer. IsFitAnswer (ComparesBeginning model first.now second.now)
        (output_bytes answer.output) answer.ending)
        (IsPairFault NeedsMemory FitsFewer model first.now second.now) }
{
    let index = match fits_fewer(model, first, second) {
        Ok(index) => index,
        Err((side, refusal)) => return Err(Outcome::refused(Some(side), refusal)),
    };
    Ok(fit_answer(index))
}

// Returns the answer of the index at which the arguments of two formats differ.
fn fit_answer(index: Option<u64>) -> Answer
    ensures output { output_bytes result.output ≡ fit_line index }
    ensures ending { result.ending ≡ fit_ending index }
{
    Answer {
        output: AnswerBytes::Line(fit_line(index)),
        ending: fit_ending(index),
    }
}

fn fit_line(index: Option<u64>) -> Line
    ensures { result.bytes ≡ fit_line index }
{
    match index {
        None => line_of("fits"),
        Some(index) => difference_line("types", index),
    }
}

fn fit_ending(index: Option<u64>) -> Ending
    ensures { result ≡ fit_ending index }
{
    match index {
        None => Ending::Same,
        Some(_) => Ending::Different,
    }
}
