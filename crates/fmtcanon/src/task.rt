//! What the words ask for: a question about formats, or a stream.
ghost use Rattle.std.specs.Prelude.{◌≢◌, [], MatchOption, length, option_map, ◌≡◌, IfOk, IfErr, List, Some, codes, is_some, map, true, unwrap_or};
ghost use Rattle.clap.specs.Matches.{first_value};
ghost use Rattle.clap.specs.Words.{found_of, kind_of, matched_of, raw_values};
ghost use Rattle.pf_values.specs.meaning.Text.{Text};
ghost use Rattle.fmtcanon.specs.Options.{rows_in};
ghost use Rattle.fmtcanon.specs.Questions.{IsAbout, formats_wanted};
ghost use Rattle.fmtcanon.specs.Tasks.{Asks, IsAnsweredBy, IsNoTaskOf, IsNoTaskOn, IsTaskOn, Names, formats_in};

use crate::command::definition;
use crate::formats::GivenFormat;
use crate::models::model_of;
use crate::options::{is_set, notation_of};
use crate::questions::{OneQuestion, Question, RecordQuestion, question_of};
use clap::error::ErrorKind;
use clap::{ArgMatches, Error};
use pf_values::Model;
use std::alloc::{AllocError, Global};

/// What a command does.
#[derive(Drop)]
pub enum Task<'a> {
    /// Answer a question about formats that are among the arguments.
    Answer(Question<'a>),
    /// Answer the same question about each record that the reader hands out, or each two.
    Records(RecordQuestion),
    /// It copies the canonical text of what the reader hands out, in this data model.
    Stream(Model),
}

/// Why there is no task.
#[derive(Drop)]
pub enum NoTask {
    /// What is wrong with the words, or what `clap` answers in place of a command, help included.
    Usage(String),
    /// A format is missing.
    Missing,
    /// Formats are given besides the option `--null`.
    Misplaced,
    /// Memory was refused.
    Memory,
}

/// Returns the task that the arguments ask for. `Err` if there is none.
pub fn task_of<'a>(alloc: Global, words: &'a [&'a str]) -> Result<Task<'a>, NoTask>
    ensures ok { IfOk result (Asks (map (λ s. s.now) words.now)) }
    ensures err { IfErr result (IsNoTaskOf (map (λ s. s.now) words.now)) }
{
    let Ok(command) = definition(alloc) else {
        return Err(NoTask::Memory);
    };
    let matches = match command.try_get_matches_from(words) {
        Ok(matches) => matches,
        Err(error) => return Err(no_task(alloc, &error)),
    };
    let Some((name, inner)) = matches.subcommand() else {
        unreachable!();
    };
    named_task(alloc, name, inner)
}

// The task of a subcommand.
fn named_task<'a>(alloc: Global, name: &str, inner: &ArgMatches<'a>) -> Result<Task<'a>, NoTask>
    requires { (words : List Text) × Names words name.now (rows_in inner.now) }
    ensures ok { IfOk result
        (λ task. (words : List Text) → Names words name.now (rows_in inner.now) → Asks words task) }
    ensures err { IfErr result (λ fault. (words : List Text)
        → Names words name.now (rows_in inner.now) → IsNoTaskOf words fault) }
{
    if let Some(asked) = question_of(name, inner) {
        return formats_task(inner, asked);
    }
    match name {
        "format" => match given_words(alloc, inner) {
            Ok(words) => Ok(Task::Answer(Question::One(
                OneQuestion::Printed(words),
                model_of(inner),
                GivenFormat {
                    notation: notation_of(inner),
                    text: value_of(inner, "F").as_bytes(),
                },
            ))),
            Err(AllocError) => Err(NoTask::Memory),
        },
        "stream" => Ok(Task::Stream(model_of(inner))),
        _ => unreachable!(),
    }
}

// The task of a command about formats, which are among its arguments or come as records.
fn formats_task<'a>(inner: &ArgMatches<'a>, asked: RecordQuestion) -> Result<Task<'a>, NoTask>
    ensures ok { IfOk result (IsTaskOn asked (rows_in inner.now)) }
    ensures err { IfErr result (IsNoTaskOn asked (rows_in inner.now)) }
{
    if is_set(inner, "null") {
        return match inner.get_str("F") {
            None => Ok(Task::Records(asked)),
            Some(_) => Err(NoTask::Misplaced),
        };
    }
    match question_in(inner, asked) {
        Some(question) => Ok(Task::Answer(question)),
        None => Err(NoTask::Missing),
    }
}

// Returns the question about the formats among the arguments, if it takes this number of formats.
fn question_in<'a>(inner: &ArgMatches<'a>, asked: RecordQuestion) -> Option<Question<'a>>
    ensures { MatchOption result
        (length (formats_in (rows_in inner.now)) ≢ formats_wanted asked)
        (λ question. IsAbout question asked (formats_in (rows_in inner.now))) }
{
    let Some(first) = inner.get_str("F") else {
        return None;
    };
    match inner.get_str("G") {
        None => asked.about(first.as_bytes(), None),
        Some(second) => asked.about(first.as_bytes(), Some(second.as_bytes())),
    }
}

// The value of an argument that has one.
fn value_of<'a>(inner: &ArgMatches<'a>, id: &str) -> &'a str
    requires { is_some (first_value (found_of inner.now) id.now) ≡ true }
    ensures { Some result.now ≡ first_value (found_of inner.now) id.now }
{
    match inner.get_str(id) {
        Some(word) => word,
        None => unreachable!(),
    }
}

// Returns the values of `ARG`, which may be absent.
fn given_words<'a>(alloc: Global, inner: &ArgMatches<'a>) -> Result<Vec<&'a str>, AllocError>
    ensures { IfOk result (λ given.
        map (λ s. s.now) given.items
        ≡ unwrap_or (option_map raw_values (matched_of (found_of inner.now) (codes "ARG"))) []) }
{
    match inner.get_strs("ARG") {
        Some(words) => Vec::from_slice(alloc, words),
        None => Ok(Vec::new(alloc)),
    }
}

// What clap answers in place of matches.
fn no_task(alloc: Global, error: &Error) -> NoTask
    ensures { IsAnsweredBy (kind_of error.now) result }
{
    if error.kind() == ErrorKind::OutOfMemory {
        return NoTask::Memory;
    }
    match format!(in alloc; "{error}") {
        Ok(text) => NoTask::Usage(text),
        Err(_) => NoTask::Memory,
    }
}
