//! The program: it runs the command of its words over the standard streams.
#![tactic(auto)]

ghost use Rattle.std.specs.Prelude.{◌≡◌};
ghost use Rattle.std.specs.Process.{exit_status};
ghost use Rattle.fmtcanon.specs.Outcomes.{status_of};
ghost use Rattle.fmtcanon.specs.Reports.{WritesReport, report_text};

mod answer;
mod arguments;
mod byte_counts;
mod command;
mod comparison;
mod fits;
mod formats;
mod input;
mod laws;
mod lines;
mod models;
mod options;
mod outcome;
mod pairs;
mod questions;
mod record_answers;
mod records;
mod replies;
mod run;
mod show_lines;
mod subcommands;
mod task;
#[cfg(test)]
mod tests;
mod type_lines;

use outcome::{Outcome, report};
use pf_values::Counted;
use run::run;
use std::alloc::AllocError;
use std::io::{BufReader, BufWriter, ErrorKind, Write};
use std::process::ExitCode;
use std::{env, io};

fn main(rt: HostRuntime) -> ExitCode {
    let outcome = match run_words(&rt) {
        Ok(outcome) => outcome,
        Err(AllocError) => Outcome::Memory,
    };
    end(&outcome, &mut Counted::new(rt.stderr()))
}

// Reports an outcome, and returns the status with which the process ends.
fn end<E: Write>(outcome: &Outcome, errors: &mut Counted<E>) -> ExitCode
    ensures status { exit_status result ≡ status_of outcome.now }
    ensures report { WritesReport E.contents errors.old errors.new (report_text outcome.now) }
{
    report(outcome, errors);
    ExitCode::from(outcome.status())
}

// The buffers are below the counts, so that what `run` counts as written is what the buffer took.
fn run_words(rt: &HostRuntime) -> Result<Outcome, AllocError> {
    let words = match words_of(rt) {
        Ok(words) => words,
        Err(error) if error.kind() == ErrorKind::OutOfMemory => return Err(AllocError),
        Err(_) => {
            let text = String::from_str(rt.alloc(), "error: a word is not UTF-8\n")?;
            return Ok(Outcome::Usage(text));
        }
    };
    let texts: Vec<&str> = words.iter().map(|word| word.as_str()).collect(rt.alloc())?;
    let Ok(reader) = BufReader::new(rt.alloc(), rt.stdin()) else {
        return Err(AllocError);
    };
    let Ok(writer) = BufWriter::new(rt.alloc(), rt.stdout()) else {
        return Err(AllocError);
    };
    let mut reader = Counted::new(reader);
    let mut writer = Counted::new(writer);
    Ok(run(rt.alloc(), &texts, &mut reader, &mut writer))
}

// The words without the program's name.
fn words_of(rt: &HostRuntime) -> io::Result<Vec<String>> {
    let mut words = Vec::new(rt.alloc());
    for word in env::args(rt)?.skip(1) {
        words.push(word)?;
    }
    Ok(words)
}
