//! The answers to records, one after another: each whole record completes a question, or is the first of two.
ghost use Rattle.std.specs.Prelude.{◌≡◌, ◌<◌, ◌++◌, ◌∷◌, [], List, MatchOption, MatchResult, OnOk, length};
ghost use Rattle.pf_values.specs.meaning.Text.{Text};
ghost use Rattle.fmtcanon.specs.Questions.{IsAbout, formats_wanted};
ghost use Rattle.fmtcanon.specs.RecordRuns.{AddsReply, HasAsked, HasFirst, HasReplies, HasSaid, HasStopped, RecordsEndEarly, RecordsFinish, WritesReplies};
ghost use Rattle.fmtcanon.specs.Records.{Reply};

use crate::outcome::Outcome;
use crate::questions::{Question, RecordQuestion};
use crate::replies::Replies;
use pf_values::Counted;
use std::alloc::{AllocError, Global};
use std::io::Write;

/// Why a run over records stops before the end.
#[derive(Clone, Copy)]
pub enum RecordRunFault {
    /// Memory was refused.
    Memory,
    /// A write failed, after this number of bytes.
    Write(u128),
}

/// What has come of the next question, and the replies to those before it.
#[derive(Drop)]
pub struct RecordAnswers {
    partial: PartialQuestion,
    /// The replies that wait, or went out.
    pub replies: Replies,
}

impl RecordAnswers {
    /// Returns those to no records.
    pub fn new(alloc: Global, asked: RecordQuestion) -> RecordAnswers
        ensures first { HasFirst result.partial asked [] }
        ensures none { HasReplies result.replies [] [] }
    {
        RecordAnswers {
            partial: PartialQuestion::new(alloc, asked),
            replies: Replies::new(alloc),
        }
    }

    /// Takes a whole record. If it completes a question, the reply to that is added. `Err` if
    /// memory is refused or a write fails.
    pub fn take<W: Write>(
        &mut self,
        alloc: Global,
        text: &[u8],
        writer: &mut Counted<W>,
    ) -> Result<(), RecordRunFault>
        ensures { (asked : RecordQuestion) (start : Counted W) (whole : List Text)
            → HasAsked asked W.contents self.old start writer.old whole
            → MatchResult result
            (λ _. HasAsked asked W.contents self.new start writer.new (whole ++ text.now ∷ []))
            (HasStopped asked W.contents self.new start writer.new (whole ++ text.now ∷ [])) }
    {
        match self.answer(alloc, text) {
            Ok(false) => match self.partial.keep_first(text) {
                Ok(()) => Ok(()),
                Err(AllocError) => Err(RecordRunFault::Memory),
            },
            Ok(true) => {
                self.partial.clear();
                self.write_block(writer)
            }
            Err(AllocError) => Err(RecordRunFault::Memory),
        }
    }

    // Returns whether a record completes a question, which is answered then.
    fn answer(&mut self, alloc: Global, text: &[u8]) -> Result<bool, AllocError>
        ensures partial { self.new.partial ≡ self.old.partial }
        ensures said { (asked : RecordQuestion) (first : List Text) (sent : Text)
            (replies : List Reply)
            → HasFirst self.old.partial asked first
            → HasReplies self.old.replies sent replies
            → AddsReply asked (first ++ text.now ∷ []) sent replies self.old.replies self.new.replies
            result }
    {
        match self.partial.question(text) {
            None => Ok(false),
            Some(question) => add_reply(alloc, question, &mut self.replies),
        }
    }

    fn write_block<W: Write>(&mut self, writer: &mut Counted<W>) -> Result<(), RecordRunFault>
        ensures partial { self.new.partial ≡ self.old.partial }
        ensures said { (start : Counted W) (replies : List Reply)
            → HasSaid W.contents self.old.replies start writer.old replies
            → WritesReplies W.contents self.new.replies start writer.new replies result }
    {
        match self.replies.write_block(writer) {
            Ok(()) => Ok(()),
            Err(count) => Err(RecordRunFault::Write(count)),
        }
    }

    /// Ends a run in which all records are whole, and have their replies.
    pub fn finish<W: Write>(&mut self, writer: &mut Counted<W>) -> Outcome
        ensures { (asked : RecordQuestion) (start : Counted W) (whole : List Text)
            → HasAsked asked W.contents self.old start writer.old whole
            → RecordsFinish asked W.contents start writer.new whole result }
    {
        if let Err(count) = self.replies.flush(writer) {
            return Outcome::Write(count);
        }
        if self.partial.has_first {
            return Outcome::NoSecond;
        }
        Outcome::Answered(self.replies.greatest())
    }

    /// Ends a run that stopped. Where memory was refused, the replies that wait still go out.
    pub fn break_off<W: Write>(&mut self, fault: RecordRunFault, writer: &mut Counted<W>) -> Outcome
        ensures { (asked : RecordQuestion) (start : Counted W) (records : List Text)
            → HasStopped asked W.contents self.old start writer.old records fault
            → RecordsEndEarly asked W.contents start writer.new records result }
    {
        match fault {
            RecordRunFault::Write(count) => Outcome::Write(count),
            RecordRunFault::Memory => match self.replies.flush(writer) {
                Ok(()) => Outcome::Memory,
                Err(count) => Outcome::Write(count),
            },
        }
    }
}

// Adds the reply to a question.
fn add_reply(
    alloc: Global,
    question: Question<'_>,
    replies: &mut Replies,
) -> Result<bool, AllocError>
    ensures { (asked : RecordQuestion) (formats : List Text) (sent : Text) (had : List Reply)
        → IsAbout question.entry asked formats → HasReplies replies.old sent had
        → AddsReply asked formats sent had replies.old replies.new result }
{
    match replies.add(alloc, &question) {
        Ok(()) => Ok(true),
        Err(AllocError) => Err(AllocError),
    }
}

// What has come of the next question, in whole records: the first format, if it takes two.
#[derive(Drop)]
struct PartialQuestion {
    asked: RecordQuestion,
    first: Vec<u8>,
    has_first: bool,
}

impl PartialQuestion {
    // Nothing has come.
    fn new(alloc: Global, asked: RecordQuestion) -> PartialQuestion
        ensures { HasFirst result asked [] }
    {
        PartialQuestion {
            asked,
            first: Vec::new(alloc),
            has_first: false,
        }
    }

    // Returns the question, if this record completes it.
    fn question<'a>(&'a self, text: &'a [u8]) -> Option<Question<'a>>
        ensures { (asked : RecordQuestion) (first : List Text)
            → HasFirst self.now asked first
            → MatchOption result (length (first ++ text.now ∷ []) < formats_wanted asked)
            (λ question. IsAbout question asked (first ++ text.now ∷ [])) }
    {
        if self.has_first {
            self.asked.about(&self.first, Some(text))
        } else {
            self.asked.about(text, None)
        }
    }

    // Keeps a record that is the first of two.
    fn keep_first(&mut self, text: &[u8]) -> Result<(), AllocError>
        ensures { (asked : RecordQuestion) (first : List Text)
            → HasFirst self.old asked first
            → length (first ++ text.now ∷ []) < formats_wanted asked
            → OnOk result (HasFirst self.new asked (first ++ text.now ∷ [])) }
    {
        self.first.clear();
        self.first.extend_from_slice(text)?;
        self.has_first = true;
        Ok(())
    }

    // The question was answered. The memory is kept.
    fn clear(&mut self)
        ensures { (asked : RecordQuestion) (first : List Text)
            → HasFirst self.old asked first → HasFirst self.new asked [] }
    {
        self.has_first = false;
    }
}
