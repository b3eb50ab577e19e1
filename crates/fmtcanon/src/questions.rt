//! Questions about formats: what is asked, times the formats that it is asked about.
ghost use Rattle.std.specs.Prelude.{◌≢◌, ◌∷◌, [], MatchOption, codes, length, option_map};
ghost use Rattle.fmtcanon.specs.Options.{rows_in};
ghost use Rattle.fmtcanon.specs.Questions.{IsAbout, IsAsked, IsAskedOfOne, IsAskedOfTwo, IsNoQuestionName, formats_of, formats_wanted};

use crate::formats::{FormatNotation, GivenFormat};
use crate::models::{Models, model_of, models_of};
use crate::options::{if_set, notation_of};
use clap::ArgMatches;
use pf_values::Model;

/// What may be asked about any one format, in a data model.
#[derive(Clone, Copy)]
pub enum FormatQuestion {
    /// The types of its arguments.
    Types,
    /// The types of its arguments, in the whole language.
    WholeTypes,
    /// Its canonical text.
    Canonical,
    /// Its canonical text, in the whole language without numbered arguments.
    WholeCanonical,
    /// What it is made of.
    Parts,
    /// How many bytes it prints at least and at most.
    Bounds,
}

/// What may be asked about any two formats, in one data model or several.
#[derive(Clone, Copy)]
pub enum PairQuestion {
    /// Whether the second takes just the arguments of the first, in the whole language.
    Fits,
    /// Whether the second takes no others than the first, in the whole language.
    FitsFewer,
    /// Whether they are interchangeable.
    Same,
    /// Whether they are interchangeable, in the whole language without numbered arguments.
    WholeSame,
}

/// What is asked about formats, whichever they are, and how they are given: they may be among the
/// words, or come as records.
#[derive(Clone, Copy)]
pub enum RecordQuestion {
    /// This is asked about each format.
    One(FormatNotation, FormatQuestion, Model),
    /// This is asked about each two formats.
    Two(FormatNotation, PairQuestion, Models),
}

/// What is asked about one format.
#[derive(Drop)]
pub enum OneQuestion<'a> {
    /// What may be asked about any format.
    Any(FormatQuestion),
    /// What it prints for the arguments that these words give.
    Printed(Vec<&'a str>),
}

/// A question about one format or two.
#[derive(Drop)]
pub enum Question<'a> {
    /// This is asked about a format, in a data model.
    One(OneQuestion<'a>, Model, GivenFormat<'a>),
    /// This is asked about a first format and a second, in these data models.
    Two(PairQuestion, Models, GivenFormat<'a>, GivenFormat<'a>),
}

impl RecordQuestion {
    /// Returns the question about a format, or about two; `None` if it takes another number of
    /// formats.
    pub fn about<'a>(self, first: &'a [u8], second: Option<&'a [u8]>) -> Option<Question<'a>>
        ensures { MatchOption result
            (length (formats_of first.now (option_map (λ s. s.now) second.entry)) ≢ formats_wanted self)
            (λ question. IsAbout question self
            (formats_of first.now (option_map (λ s. s.now) second.entry))) }
    {
        match second {
            None => self.about_one(first),
            Some(second) => self.about_two(first, second),
        }
    }

    fn about_one<'a>(self, text: &'a [u8]) -> Option<Question<'a>>
        ensures { MatchOption result (1 ≢ formats_wanted self)
            (λ question. IsAbout question self (text.now ∷ [])) }
    {
        match self {
            RecordQuestion::One(notation, question, model) => Some(Question::One(
                OneQuestion::Any(question),
                model,
                GivenFormat::new(notation, text),
            )),
            RecordQuestion::Two(_, _, _) => None,
        }
    }

    fn about_two<'a>(self, first: &'a [u8], second: &'a [u8]) -> Option<Question<'a>>
        ensures { MatchOption result (2 ≢ formats_wanted self)
            (λ question. IsAbout question self (first.now ∷ second.now ∷ [])) }
    {
        match self {
            RecordQuestion::One(_, _, _) => None,
            RecordQuestion::Two(notation, question, models) => Some(Question::Two(
                question,
                models,
                GivenFormat::new(notation, first),
                GivenFormat::new(notation, second),
            )),
        }
    }
}

/// Returns what a command asks about formats, whichever they are, or `None` if it asks nothing.
pub fn question_of(name: &str, inner: &ArgMatches<'_>) -> Option<RecordQuestion>
    ensures { MatchOption result (IsNoQuestionName name.now)
        (IsAsked name.now (rows_in inner.now)) }
{
    let notation = notation_of(inner);
    let model = model_of(inner);
    match name {
        "types" => Some(RecordQuestion::One(notation, about_types(inner), model)),
        "canon" => Some(RecordQuestion::One(notation, about_canonical(inner), model)),
        "show" => Some(RecordQuestion::One(notation, FormatQuestion::Parts, model)),
        "bounds" => Some(RecordQuestion::One(notation, FormatQuestion::Bounds, model)),
        "fits" => Some(RecordQuestion::Two(notation, about_fits(inner), models_of(inner))),
        "same" => Some(RecordQuestion::Two(notation, about_same(inner), models_of(inner))),
        _ => None,
    }
}

// What the command about types asks: in the profile, or in the whole language.
fn about_types(inner: &ArgMatches<'_>) -> FormatQuestion
    ensures { IsAskedOfOne (codes "types") (rows_in inner.now) result }
{
    if_set(
        inner,
        "whole",
        FormatQuestion::WholeTypes,
        FormatQuestion::Types,
    )
}

// What the command about canonical texts asks: in the profile, or in the whole language.
fn about_canonical(inner: &ArgMatches<'_>) -> FormatQuestion
    ensures { IsAskedOfOne (codes "canon") (rows_in inner.now) result }
{
    if_set(
        inner,
        "whole",
        FormatQuestion::WholeCanonical,
        FormatQuestion::Canonical,
    )
}

// The question of the command about the arguments of two formats: whether the second takes just the
// arguments of the first, or no others.
fn about_fits(inner: &ArgMatches<'_>) -> PairQuestion
    ensures { IsAskedOfTwo (codes "fits") (rows_in inner.now) result }
{
    if_set(inner, "fewer", PairQuestion::FitsFewer, PairQuestion::Fits)
}

// What the command that compares asks: in the profile, or in the whole language.
fn about_same(inner: &ArgMatches<'_>) -> PairQuestion
    ensures { IsAskedOfTwo (codes "same") (rows_in inner.now) result }
{
    if_set(inner, "whole", PairQuestion::WholeSame, PairQuestion::Same)
}
