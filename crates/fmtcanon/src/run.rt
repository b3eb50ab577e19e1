//! A run of the program.
ghost use Rattle.std.specs.Prelude.{◌≡◌, Ok, map};
ghost use Rattle.pf_values.specs.declared.counted.Counted.{Counted};
ghost use Rattle.fmtcanon.specs.Lines.{output_bytes};
ghost use Rattle.fmtcanon.specs.Runs.{AnswerEnds, FoundEnds, MayRead, ProgramEnds, WritingEnds};
ghost use Rattle.fmtcanon.specs.Streams.{CopyEnds};
ghost use Rattle.fmtcanon.specs.Tasks.{Asks};
ghost use Rattle.fmtcanon.specs.declared.task.Task.{Task};

use crate::answer::{Answer, answer_to};
use crate::input::Input;
use crate::outcome::Outcome;
use crate::questions::Question;
use crate::records::answer_records;
use crate::task::{NoTask, Task, task_of};
use pf_canon::CopyFault;
use pf_values::{Counted, Model, write_bytes};
use std::alloc::Global;
use std::io::{Read, Write};

/// Runs the command that the words name; the program's name isn't among them. What a command reads
/// comes from `input`, and what it writes goes to `writer`. Its last call is a flush before `Done`,
/// `Same` and `Different`, by `stream` also before `Refused` and `Read`, and over records before all
/// outcomes except `Write`. What else is rejected or invalid comes before the first call of the
/// writer. `Memory` may come for any words: they are read by calls that allocate.
///
/// It may read only as `MayRead` says: it knows the input to be ready then, and at no other time.
pub fn run<R: Read, W: Write, I: Input<R, W>>(
    alloc: Global,
    words: &[&str],
    input: &mut I,
    writer: &mut Counted<W>,
) -> Outcome
    requires ready { (task : Task) (left : I) (now : Counted W)
        → Asks (map (λ s. s.now) words.now) task
        → MayRead R.remaining W.contents (I.reader_of input.old) (I.reader_of left) writer.old now task
        → I.is_ready left now }
    ensures { ProgramEnds R.remaining W.contents (I.reader_of input.old) (I.reader_of input.new)
        writer.old writer.new (map (λ s. s.now) words.now) result }
{
    run_found(alloc, task_of(alloc, words), input, writer)
}

// Runs a task. If the words have none, the outcome is the reason as it is.
fn run_found<R: Read, W: Write, I: Input<R, W>>(
    alloc: Global,
    found: Result<Task<'_>, NoTask>,
    input: &mut I,
    writer: &mut Counted<W>,
) -> Outcome
    requires ready { (task : Task) (left : I) (now : Counted W) → found ≡ Ok task
        → MayRead R.remaining W.contents (I.reader_of input.old) (I.reader_of left) writer.old now task
        → I.is_ready left now }
    ensures { FoundEnds R.remaining W.contents (I.reader_of input.old) (I.reader_of input.new)
        writer.old writer.new found.entry result }
{
    match found {
        Ok(Task::Answer(question)) => answer(alloc, &question, writer),
        Ok(Task::Records(asked)) => answer_records(alloc, asked, input, writer),
        Ok(Task::Stream(model)) => copy(model, input, writer),
        Err(NoTask::Usage(text)) => Outcome::Usage(text),
        Err(NoTask::Missing) => Outcome::Missing,
        Err(NoTask::Misplaced) => Outcome::Misplaced,
        Err(NoTask::Memory) => Outcome::Memory,
    }
}

// Answers a question. All allocations come before the first byte goes out.
fn answer<W: Write>(alloc: Global, question: &Question<'_>, writer: &mut Counted<W>) -> Outcome
    ensures { AnswerEnds W.contents writer.old writer.new question.now result }
{
    match answer_to(alloc, question) {
        Ok(answer) => write_answer(&answer, writer),
        Err(fault) => fault,
    }
}

// Writes an answer, and flushes.
fn write_answer<W: Write>(answer: &Answer, writer: &mut Counted<W>) -> Outcome
    ensures { WritingEnds W.contents writer.old writer.new (output_bytes answer.now.output)
        answer.now.ending result }
{
    let bytes = answer.output.as_bytes();
    if let Err(short) = write_bytes(writer, bytes) {
        return Outcome::Write(short.written as u128);
    }
    match writer.flush() {
        Ok(()) => answer.ending.outcome(),
        Err(_) => Outcome::Write(bytes.len() as u128),
    }
}

/// Copies the canonical text of what the input hands out in a data model. What was written is
/// flushed at the end, at a refusal and where a read fails; these two are reported even where that
/// flush fails.
pub fn copy<R: Read, W: Write, I: Input<R, W>>(
    model: Model,
    input: &mut I,
    writer: &mut Counted<W>,
) -> Outcome
    requires ready { (left : I) (now : Counted W) → I.is_ready left now }
    ensures { CopyEnds model R.remaining W.contents (I.reader_of input.old) (I.reader_of input.new)
        writer.old writer.new result }
{
    match input.copy_all(model, writer) {
        Ok(count) => match writer.flush() {
            Ok(()) => Outcome::Done,
            Err(_) => Outcome::Write(count),
        },
        Err(CopyFault::Refused(refusal)) => {
            let _ = writer.flush();
            Outcome::Refused {
                side: None,
                refusal,
            }
        }
        Err(CopyFault::Read) => {
            let _ = writer.flush();
            Outcome::Read
        }
        Err(CopyFault::Write(written)) => Outcome::Write(written),
    }
}
