//! The answer to a question.
ghost use Rattle.std.specs.Prelude.{◌≡◌, ◌≤◌, IfErr, MatchResult, IfOk, MatchOption, Some, map};
ghost use Rattle.fmtcanon.specs.Answers.{IsAnswer, IsQuestionFault, HasAnswer, HasCanonicalLine, HasOneAnswer, IsFormatFault, IsGivenFault, IsGivenPairFault, IsGivenPairFaultIn, IsFaultInTexts, IsFaultInText, IsOneFault, lacks_in, side_of};
ghost use Rattle.fmtcanon.specs.declared.answer.Ending.TheVariants.{Done};
ghost use Rattle.pf_text.specs.declared.refusals.Side.TheVariants as sides;
ghost use Rattle.pf_values.specs.meaning.Text.{Text};
ghost use Rattle.fmtcanon.specs.Faults.{of_literal};
ghost use Rattle.fmtcanon.specs.FormatArguments.{IsArgumentFault, IsPrinted};
ghost use Rattle.fmtcanon.specs.Formats.{IsFormat};
ghost use Rattle.pf_whole.specs.Languages.{AcceptsText, Profile, Unnumbered};
ghost use Rattle.pf_canon.specs.Answers.{FaultForCanonical, IsCanonicalFor};
ghost use Rattle.pf_whole.specs.Answers.{IsWholeCanonicalFor};
ghost use Rattle.pf_whole.specs.Faults.{FaultForWholeCanonical};
ghost use Rattle.fmtcanon.specs.Lines.{line, output_bytes};
ghost use Rattle.fmtcanon.specs.Outcomes.{outcome_of, status_of};
ghost use Rattle.fmtcanon.specs.PairAnswers.{IsPairAnswerIn};
ghost use Rattle.fmtcanon.specs.Questions.{language_of, language_of_format};
ghost use Rattle.fmtcanon.specs.declared.formats.GivenFormat.{GivenFormat};
ghost use Rattle.fmtcanon.specs.declared.models.Models.{Models};

use crate::arguments::arguments_for;
use crate::byte_counts::bounds_line;
use crate::formats::{FormatNotation, GivenFormat};
use crate::lines::AnswerBytes;
use crate::models::Models;
use crate::outcome::Outcome;
use crate::pairs::{pair_answer, refusal_of_first};
use crate::questions::{FormatQuestion, OneQuestion, PairQuestion, Question};
use crate::show_lines::show_lines;
use crate::type_lines::{type_lines, whole_type_lines};
use pf_canon::canonical_in;
use pf_literals::LiteralFault;
use pf_render::{RenderVecFault, render_vec};
use pf_text::{Refusal, Side, TextFault};
use pf_values::Model;
use pf_whole::Whole;
use std::alloc::{AllocError, Global};

/// How a run ends that writes all of an answer.
#[derive(Clone, Copy)]
pub enum Ending {
    /// With nothing but the answer.
    Done,
    /// The formats mean the same, or take the same arguments.
    Same,
    /// They differ, in types or in bytes.
    Different,
}

impl Ending {
    /// Returns the outcome of a run that ends so.
    pub fn outcome(self) -> Outcome
        ensures value { result ≡ outcome_of self }
        ensures digit { status_of (outcome_of self) ≤ 9 }
    {
        match self {
            Ending::Done => Outcome::Done,
            Ending::Same => Outcome::Same,
            Ending::Different => Outcome::Different,
        }
    }
}

/// What is written, and how the run ends then.
#[derive(Drop)]
pub struct Answer {
    /// What is written.
    pub output: AnswerBytes,
    /// How the run ends.
    pub ending: Ending,
}

/// Returns the answer to a question. `Err` with the reason if there is none.
pub fn answer_to(alloc: Global, question: &Question<'_>) -> Result<Answer, Outcome>
    ensures { MatchResult result
        (λ answer. IsAnswer question.now (output_bytes answer.output) answer.ending)
        (IsQuestionFault question.now) }
{
    match question {
        Question::One(asked, model, format) => answer_of_one(alloc, asked, *model, format),
        Question::Two(asked, models, first, second) => {
            answer_about_two(alloc, *asked, *models, first, second)
        }
    }
}

// Answers a question about one format that is given. A run that writes the answer ends with it.
fn answer_of_one(
    alloc: Global,
    asked: &OneQuestion<'_>,
    model: Model,
    format: &GivenFormat<'_>,
) -> Result<Answer, Outcome>
    ensures { MatchResult result (λ answer. (bytes : Text) × IsFormat format.now bytes
        × HasOneAnswer asked.now format.now.notation model bytes (output_bytes answer.output)
        × (answer.ending ≡ Done))
        (IsGivenFault (IsOneFault asked.now model) format.now) }
{
    let bytes = answer_about_one(alloc, asked, model, format)?;
    Ok(Answer {
        output: AnswerBytes::Bytes(bytes),
        ending: Ending::Done,
    })
}

/// Returns the answer to a question about one format that is given, as bytes. `Err` with the reason if
/// there is none.
pub fn answer_about_one(
    alloc: Global,
    asked: &OneQuestion<'_>,
    model: Model,
    format: &GivenFormat<'_>,
) -> Result<Vec<u8>, Outcome>
    ensures { MatchResult result (λ out. (bytes : Text) × IsFormat format.now bytes
        × HasOneAnswer asked.now format.now.notation model bytes out.items)
        (IsGivenFault (IsOneFault asked.now model) format.now) }
{
    let bytes = format.bytes(alloc)?;
    match answer_about_bytes(alloc, asked, format.notation, model, bytes.as_slice()) {
        Ok(out) => Ok(out),
        Err(fault) => Err(fault_in_text(format, fault)),
    }
}

// Answers a question about the bytes of a format.
fn answer_about_bytes(
    alloc: Global,
    asked: &OneQuestion<'_>,
    notation: FormatNotation,
    model: Model,
    bytes: &[u8],
) -> Result<Vec<u8>, Outcome>
    ensures { MatchResult result (λ out. HasOneAnswer asked.now notation model bytes.now out.items)
        (IsOneFault asked.now model bytes.now) }
{
    match asked {
        OneQuestion::Any(asked) => lines_about(alloc, *asked, notation, model, bytes),
        OneQuestion::Printed(words) => print_format(alloc, model, bytes, words),
    }
}

// Answers what may be asked about any format.
fn lines_about(
    alloc: Global,
    asked: FormatQuestion,
    notation: FormatNotation,
    model: Model,
    bytes: &[u8],
) -> Result<Vec<u8>, Outcome>
    ensures { MatchResult result (λ out. HasAnswer asked notation model bytes.now out.items)
        (IsFormatFault (language_of_format asked) model bytes.now) }
{
    match asked {
        FormatQuestion::Types => type_lines(alloc, model, bytes),
        FormatQuestion::WholeTypes => whole_type_lines(alloc, model, bytes),
        FormatQuestion::Canonical => canonical_line(alloc, notation, model, bytes),
        FormatQuestion::WholeCanonical => whole_canonical_line(alloc, notation, model, bytes),
        FormatQuestion::Parts => show_lines(alloc, model, bytes),
        FormatQuestion::Bounds => bounds_line(alloc, model, bytes),
    }
}

/// Answers a question about two formats that are given. `Err` with the reason if there is no
/// answer.
pub fn answer_about_two(
    alloc: Global,
    asked: PairQuestion,
    models: Models,
    first: &GivenFormat<'_>,
    second: &GivenFormat<'_>,
) -> Result<Answer, Outcome>
    ensures { MatchResult result (λ answer. (first_bytes second_bytes : Text)
        × IsFormat first.now first_bytes × IsFormat second.now second_bytes
        × IsPairAnswerIn asked models first_bytes second_bytes (output_bytes answer.output) answer.ending)
        (IsGivenPairFaultIn asked models first.now second.now) }
{
    let first_bytes = match first.bytes(alloc) {
        Ok(bytes) => bytes,
        Err(fault) => return Err(Outcome::of_literal(Some(Side::First), fault)),
    };
    let second_bytes = match second.bytes(alloc) {
        Ok(bytes) => bytes,
        Err(fault) => return Err(without_second(
            refused(asked, models.first(), first, first_bytes.as_slice()),
            fault,
        )),
    };
    match pair_answer(
        alloc,
        asked,
        models,
        first_bytes.as_slice(),
        second_bytes.as_slice(),
    ) {
        Ok(answer) => Ok(answer),
        Err(fault) => Err(fault_in_texts(first, second, fault)),
    }
}

// The fault where the second of two formats has no bytes: a fault of the first comes before it.
fn without_second(first_refused: Option<Outcome>, fault: LiteralFault) -> Outcome
    ensures { MatchOption first_refused (result ≡ of_literal (Some sides.Second) fault)
        (λ refused. result ≡ refused) }
{
    match first_refused {
        Some(refused) => refused,
        None => Outcome::of_literal(Some(Side::Second), fault),
    }
}

// The refusal of the first of two formats, if it is rejected.
fn refused(
    asked: PairQuestion,
    model: Model,
    first: &GivenFormat<'_>,
    bytes: &[u8],
) -> Option<Outcome>
    ensures { IsFormat first.now bytes.now
        → MatchOption result (AcceptsText (language_of asked) model bytes.now)
        (λ fault. (models : Models) (second : GivenFormat)
        → IsGivenPairFault (lacks_in models) asked model first.now second fault) }
{
    match refusal_of_first(asked, model, bytes) {
        None => None,
        Some(fault) => Some(fault_in_text(first, fault)),
    }
}

// A fault of the bytes of a format, as a fault of the format that is given.
fn fault_in_text(format: &GivenFormat<'_>, fault: Outcome) -> Outcome
    ensures { IsFaultInText format.now fault result }
{
    match fault {
        Outcome::Refused { side, refusal } => Outcome::Refused {
            side,
            refusal: Refusal {
                kind: refusal.kind,
                at: format.offset_of(refusal.at),
            },
        },
        _ => fault,
    }
}

// A fault of the bytes of two formats, as a fault of those that are given.
fn fault_in_texts(first: &GivenFormat<'_>, second: &GivenFormat<'_>, fault: Outcome) -> Outcome
    ensures { IsFaultInTexts first.now second.now (side_of fault) fault result }
{
    match side_of(&fault) {
        Some(Side::Second) => fault_in_text(second, fault),
        Some(Side::First) => fault_in_text(first, fault),
        None => fault_in_text(first, fault),
    }
}

// The side that is rejected.
fn side_of(fault: &Outcome) -> Option<Side>
    ensures { result ≡ side_of fault.now }
{
    match fault {
        Outcome::Refused { side, .. } => *side,
        _ => None,
    }
}

// What a format prints in a data model for the arguments that words give.
fn print_format(
    alloc: Global,
    model: Model,
    format: &[u8],
    words: &[&str],
) -> Result<Vec<u8>, Outcome>
    ensures ok { IfOk result
        (λ out. IsPrinted model format.now (map (λ s. s.now) words.now) out.items) }
    ensures err { IfErr result (IsArgumentFault model format.now (map (λ s. s.now) words.now)) }
{
    let args = arguments_for(alloc, model, format, words)?;
    match render_vec(alloc, model, format, &args) {
        Ok(out) => Ok(out),
        Err(fault) => match fault {
            RenderVecFault::Memory => Err(Outcome::Memory),
            // The format takes just these arguments.
            _ => unreachable!(),
        },
    }
}

// The canonical text of a format in a notation, and a newline.
fn canonical_line(
    alloc: Global,
    notation: FormatNotation,
    model: Model,
    format: &[u8],
) -> Result<Vec<u8>, Outcome>
    ensures { MatchResult result (λ out. HasCanonicalLine notation (IsCanonicalFor model format.now) out.items)
        (IsFormatFault Profile model format.now) }
{
    let canonical = canonical_text(alloc, model, format)?;
    Ok(with_newline(notation.write(alloc, canonical)?)?)
}

// The canonical text of a format, with room for a newline, so that it needs no allocation of its own.
fn canonical_text(alloc: Global, model: Model, format: &[u8]) -> Result<Vec<u8>, TextFault>
    ensures { MatchResult result (λ c. IsCanonicalFor model format.now c.items)
        (FaultForCanonical model format.now) }
{
    canonical_in::<pf_canon::Profile>(alloc, model, format, 1)
}

// The same for a format of the whole language.
fn whole_canonical_line(
    alloc: Global,
    notation: FormatNotation,
    model: Model,
    format: &[u8],
) -> Result<Vec<u8>, Outcome>
    ensures { MatchResult result (λ out. HasCanonicalLine notation (IsWholeCanonicalFor model format.now) out.items)
        (IsFormatFault Unnumbered model format.now) }
{
    let canonical = whole_canonical_text(alloc, model, format)?;
    Ok(with_newline(notation.write(alloc, canonical)?)?)
}

fn whole_canonical_text(alloc: Global, model: Model, format: &[u8]) -> Result<Vec<u8>, TextFault>
    ensures { MatchResult result (λ c. IsWholeCanonicalFor model format.now c.items)
        (FaultForWholeCanonical model format.now) }
{
    canonical_in::<Whole>(alloc, model, format, 1)
}

/// Returns a text with a newline after it. `Err` if memory is refused.
pub fn with_newline(mut text: Vec<u8>) -> Result<Vec<u8>, AllocError>
    ensures { IfOk result (λ out. out.items ≡ line text.items) }
{
    text.push(b'\n')?;
    Ok(text)
}
