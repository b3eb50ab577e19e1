//! Formats that come as records, each with a NUL after it: the input is read and cut into them.
ghost use Rattle.std.specs.Prelude.{◌≡◌, ◌≢◌, ◌<◌, ◌++◌, ◌∷◌, [], List, MatchBool, MatchOption, MatchResult, OnOk, length, true};
ghost use Rattle.pf_values.specs.Counting.{calls_after, calls_of, is_flushed};
ghost use Rattle.pf_values.specs.meaning.Text.{Text};
ghost use Rattle.fmtcanon.specs.RecordRuns.{HasAnswered, HasFirst, HasRepliedTo, HasRepliedToText, HasReplies, HasStopped, HasStoppedAt, RecordsFinish, waiting_text};
ghost use Rattle.fmtcanon.specs.Records.{AllReplied, RecordsEnd, RepliesFirst, last_record};

use crate::input::Input;
use crate::outcome::Outcome;
use crate::questions::RecordQuestion;
use crate::record_answers::{RecordAnswers, RecordRunFault};
use memchr::memchr;
use pf_values::Counted;
use std::alloc::{AllocError, Global};
use std::io::{Read, Write};

// How many bytes are read at a time. They lie on the stack, which can't grow where memory is used up.
const READ_BLOCK: usize = 8_192;

// A run over records: the part of a record that has come, and the answers to those before it.
#[derive(Drop)]
struct RecordRun {
    part: Vec<u8>,
    answers: RecordAnswers,
}

/// Answers each record of the input, or each two of them if the question takes two formats. It may
/// read only when each complete record has its reply, written and flushed: it knows the input to be
/// ready then, and at no other time.
#[inline(never)]
pub fn answer_records<R: Read, W: Write, I: Input<R, W>>(
    alloc: Global,
    asked: RecordQuestion,
    input: &mut I,
    writer: &mut Counted<W>,
) -> Outcome
    requires ready { (left : I) (now : Counted W)
        → AllReplied asked R.remaining W.contents (I.reader_of input.old) (I.reader_of left)
        writer.old now
        → I.is_ready left now }
    ensures { RecordsEnd asked R.remaining W.contents (I.reader_of input.old)
        (I.reader_of input.new) writer.old writer.new result }
{
    let mut run = RecordRun::new(alloc, asked);
    let mut block = [0u8; READ_BLOCK];
    // The bound is never reached. It is here because every function must be proved to return.
    for _turn in 0..u64::MAX {
        if let Err(count) = run.flush(writer) {
            return Outcome::Write(count);
        }
        if let Some(outcome) = run.read_block(alloc, input, writer, &mut block) {
            return outcome;
        }
    }
    match run.flush(writer) {
        Ok(()) => Outcome::Read,
        Err(count) => Outcome::Write(count),
    }
}

impl RecordRun {
    fn new(alloc: Global, asked: RecordQuestion) -> RecordRun
        ensures part { result.part.items ≡ [] }
        ensures first { HasFirst result.answers.partial asked [] }
        ensures none { HasReplies result.answers.replies [] [] }
    {
        RecordRun {
            part: Vec::new(alloc),
            answers: RecordAnswers::new(alloc, asked),
        }
    }

    // Writes the replies that wait, and flushes.
    fn flush<W: Write>(&mut self, writer: &mut Counted<W>) -> Result<(), u128>
        ensures said { (asked : RecordQuestion) (start : Counted W) (whole : List Text)
            (rest : Text)
            → HasRepliedTo asked W.contents self.old start writer.old whole rest
            → MatchResult result
            (λ _. HasRepliedTo asked W.contents self.new start writer.new whole rest)
            (RepliesFirst asked W.contents start writer.new (whole ++ last_record rest)) }
        ensures none { OnOk result (waiting_text self.new.answers.replies ≡ []) }
        ensures flushed { OnOk result (is_flushed writer.new ≡ true) }
    {
        self.answers.replies.flush(writer)
    }

    // Reads a block and takes it, or ends the run. Requires that all replies to what was read before
    // have been written and flushed, and that the input is ready.
    fn read_block<R: Read, W: Write, I: Input<R, W>>(
        &mut self,
        alloc: Global,
        input: &mut I,
        writer: &mut Counted<W>,
        block: &mut [u8],
    ) -> Option<Outcome>
        requires none { waiting_text self.old.answers.replies ≡ [] }
        requires flushed { is_flushed writer.old ≡ true }
        requires ready { I.is_ready input.old writer.old }
        requires room { 0 < length block.old }
        ensures answered { (asked : RecordQuestion) (begin : Counted R) (start : Counted W)
            → HasAnswered asked R.remaining W.contents self.old begin (I.reader_of input.old) start
            writer.old
            → MatchOption result
            (HasAnswered asked R.remaining W.contents self.new begin (I.reader_of input.new) start
            writer.new)
            (RecordsEnd asked R.remaining W.contents begin (I.reader_of input.new) start writer.new) }
        ensures calls { calls_of (I.reader_of input.new)
            ≡ calls_after (calls_of (I.reader_of input.old)) }
    {
        match input.read_next(writer, block) {
            Ok(0) => Some(self.end(alloc, writer)),
            Ok(len) => match self.take(alloc, &block[..len], writer) {
                Ok(()) => None,
                Err(fault) => Some(self.answers.break_off(fault, writer)),
            },
            Err(_) => Some(Outcome::Read),
        }
    }

    // Takes a block of bytes that were read. A record that lies in it whole isn't copied.
    fn take<W: Write>(
        &mut self,
        alloc: Global,
        block: &[u8],
        writer: &mut Counted<W>,
    ) -> Result<(), RecordRunFault>
        ensures { (asked : RecordQuestion) (start : Counted W) (taken : Text)
            → HasRepliedToText asked W.contents self.old start writer.old taken
            → MatchResult result
            (λ _. HasRepliedToText asked W.contents self.new start writer.new (taken ++ block.now))
            (HasStoppedAt asked W.contents self.new.answers start writer.new (taken ++ block.now)) }
    {
        let mut at = 0;
        while let Some(len) = memchr(0, &block[at..]) {
            if let Err(fault) = self.take_record(alloc, &block[at..at + len], writer) {
                return Err(fault);
            }
            at += len + 1;
        }
        match self.extend(&block[at..]) {
            Ok(()) => Ok(()),
            Err(AllocError) => Err(RecordRunFault::Memory),
        }
    }

    // Takes the last bytes of a record, before its NUL.
    fn take_record<W: Write>(
        &mut self,
        alloc: Global,
        bytes: &[u8],
        writer: &mut Counted<W>,
    ) -> Result<(), RecordRunFault>
        ensures { (asked : RecordQuestion) (start : Counted W) (whole : List Text) (rest : Text)
            → HasRepliedTo asked W.contents self.old start writer.old whole rest
            → MatchResult result
            (λ _. HasRepliedTo asked W.contents self.new start writer.new
            (whole ++ (rest ++ bytes.now) ∷ []) [])
            (HasStopped asked W.contents self.new.answers start writer.new
            (whole ++ (rest ++ bytes.now) ∷ [])) }
    {
        if !self.has_part() {
            return self.answers.take(alloc, bytes, writer);
        }
        match self.extend(bytes) {
            Ok(()) => self.end_record(alloc, writer),
            Err(AllocError) => Err(RecordRunFault::Memory),
        }
    }

    // Takes bytes of a record that isn't whole.
    fn extend(&mut self, bytes: &[u8]) -> Result<(), AllocError>
        ensures part { OnOk result (self.new.part.items ≡ self.old.part.items ++ bytes.now) }
        ensures answers { self.new.answers ≡ self.old.answers }
    {
        self.part.extend_from_slice(bytes)
    }

    // The part is a whole record. Its memory is kept.
    fn end_record<W: Write>(
        &mut self,
        alloc: Global,
        writer: &mut Counted<W>,
    ) -> Result<(), RecordRunFault>
        ensures { (asked : RecordQuestion) (start : Counted W) (whole : List Text) (rest : Text)
            → HasRepliedTo asked W.contents self.old start writer.old whole rest
            → MatchResult result
            (λ _. HasRepliedTo asked W.contents self.new start writer.new (whole ++ rest ∷ []) [])
            (HasStopped asked W.contents self.new.answers start writer.new (whole ++ rest ∷ [])) }
    {
        match self.answers.take(alloc, &self.part, writer) {
            Ok(()) => {
                self.part.clear();
                Ok(())
            }
            Err(fault) => Err(fault),
        }
    }

    // The end of what was read.
    fn end<W: Write>(&mut self, alloc: Global, writer: &mut Counted<W>) -> Outcome
        ensures { (asked : RecordQuestion) (start : Counted W) (whole : List Text) (rest : Text)
            → HasRepliedTo asked W.contents self.old start writer.old whole rest
            → RecordsFinish asked W.contents start writer.new (whole ++ last_record rest) result }
    {
        match self.end_last(alloc, writer) {
            Ok(()) => self.answers.finish(writer),
            Err(fault) => self.answers.break_off(fault, writer),
        }
    }

    // A part of a record is the last one, if it isn't empty.
    fn end_last<W: Write>(
        &mut self,
        alloc: Global,
        writer: &mut Counted<W>,
    ) -> Result<(), RecordRunFault>
        ensures { (asked : RecordQuestion) (start : Counted W) (whole : List Text) (rest : Text)
            → HasRepliedTo asked W.contents self.old start writer.old whole rest
            → MatchResult result
            (λ _. HasRepliedTo asked W.contents self.new start writer.new (whole ++ last_record rest) [])
            (HasStopped asked W.contents self.new.answers start writer.new (whole ++ last_record rest)) }
    {
        if !self.has_part() {
            return Ok(());
        }
        self.end_record(alloc, writer)
    }

    // Whether a part of a record has come.
    fn has_part(&self) -> bool
        ensures { MatchBool result (self.now.part.items ≢ []) (self.now.part.items ≡ []) }
    {
        !self.part.is_empty()
    }
}
