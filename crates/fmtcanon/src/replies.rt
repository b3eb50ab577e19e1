//! The replies to records, which are gathered and written in blocks.
ghost use Rattle.std.specs.Prelude.{◌≡◌, ◌≤◌, ◌++◌, ◌∷◌, [], List, MatchResult, OnErr, OnOk, length, max, take, true};
ghost use Rattle.pf_values.specs.Counting.{is_flushed};
ghost use Rattle.pf_values.specs.meaning.Text.{Text};
ghost use Rattle.fmtcanon.specs.Answers.{IsQuestionFault};
ghost use Rattle.fmtcanon.specs.Outcomes.{status_of};
ghost use Rattle.fmtcanon.specs.Questions.{IsAbout};
ghost use Rattle.fmtcanon.specs.RecordRuns.{HasReplies, HasSaid, HasSaidFirst, waiting_text};
ghost use Rattle.fmtcanon.specs.Records.{IsReply, Reply, reply_bytes};
ghost use Rattle.fmtcanon.specs.declared.questions.Question.{Question as QuestionOf};

use crate::answer::{answer_about_one, answer_to};
use crate::outcome::{Outcome, error_line};
use crate::questions::{Question, RecordQuestion};
use pf_values::{Counted, write_bytes};
use std::alloc::{AllocError, Global};
use std::io::Write;

// Replies are written in blocks of at least this size, except where they must be flushed.
const REPLY_BLOCK: usize = 65_536;

/// Replies that wait to be written, and what is known of all that came.
#[derive(Drop)]
pub struct Replies {
    buffer: Vec<u8>,
    // The highest status.
    greatest: u8,
    // How many bytes have gone out.
    written: u128,
}

impl Replies {
    /// Returns the replies before the first one.
    pub fn new(alloc: Global) -> Replies
        ensures { HasReplies result [] [] }
    {
        Replies {
            buffer: Vec::new(alloc),
            greatest: 0,
            written: 0,
        }
    }

    /// Returns the highest status of all that came, and 0 if none did.
    pub fn greatest(&self) -> u8
        ensures { result ≡ self.now.greatest }
    {
        self.greatest
    }

    /// Adds the reply to a question. `Err` if memory is refused: then nothing is added.
    pub fn add(&mut self, alloc: Global, question: &Question<'_>) -> Result<(), AllocError>
        ensures { (asked : RecordQuestion) (formats : List Text) (sent : Text)
            (replies : List Reply)
            → IsAbout question.now asked formats → HasReplies self.old sent replies
            → MatchResult result
            (λ _. (reply : Reply) × IsReply asked reply × (reply.formats ≡ formats)
            × HasReplies self.new sent (replies ++ reply ∷ []))
            (λ _. HasReplies self.new sent replies) }
    {
        match question {
            // The bytes alone: an answer around them would be moved several times.
            Question::One(asked, model, format) => {
                match answer_about_one(alloc, asked, *model, format) {
                    Ok(bytes) => self.push(Outcome::Done.status(), &bytes),
                    Err(failed) => self.push_failed(&failed),
                }
            }
            Question::Two(_, _, _, _) => match answer_to(alloc, question) {
                Ok(answer) => self.push(answer.ending.outcome().status(), answer.output.as_bytes()),
                Err(failed) => self.push_failed(&failed),
            },
        }
    }

    // Adds the reply to a question that has no answer. `Err` if memory is refused, or was.
    fn push_failed(&mut self, failed: &Outcome) -> Result<(), AllocError>
        requires { status_of failed.now ≤ 9 }
        ensures { (question : QuestionOf) (asked : RecordQuestion) (formats : List Text) (sent : Text)
            (replies : List Reply) → IsQuestionFault question failed.now
            → IsAbout question asked formats → HasReplies self.old sent replies
            → MatchResult result
            (λ _. (reply : Reply) × IsReply asked reply × (reply.formats ≡ formats)
            × HasReplies self.new sent (replies ++ reply ∷ []))
            (λ _. HasReplies self.new sent replies) }
    {
        match failed {
            Outcome::Memory => Err(AllocError),
            _ => {
                let line = error_line(failed);
                self.push(failed.status(), line.as_str().as_bytes())
            }
        }
    }

    // Adds the reply with this status that says this.
    fn push(&mut self, status: u8, said: &[u8]) -> Result<(), AllocError>
        requires { status ≤ 9 }
        ensures bytes { OnOk result (waiting_text self.new
            ≡ waiting_text self.old ++ reply_bytes status said.now) }
        ensures greatest { OnOk result
            (self.new.greatest ≡ max self.old.greatest status) }
        ensures written { self.new.written ≡ self.old.written }
        ensures none { OnErr result (waiting_text self.new ≡ waiting_text self.old) }
        ensures same { OnErr result (self.new.greatest ≡ self.old.greatest) }
    {
        let len = self.buffer.len();
        if push_reply(&mut self.buffer, status, said).is_err() {
            self.buffer.truncate(len);
            return Err(AllocError);
        }
        self.greatest = self.greatest.max(status);
        Ok(())
    }

    /// Writes those that wait, if they are a block. `Err` if a write fails.
    pub fn write_block<W: Write>(&mut self, writer: &mut Counted<W>) -> Result<(), u128>
        ensures { (start : Counted W) (replies : List Reply)
            → HasSaid W.contents self.old start writer.old replies
            → MatchResult result
            (λ _. HasSaid W.contents self.new start writer.new replies)
            (HasSaidFirst W.contents start writer.new replies) }
    {
        if self.buffer.len() < REPLY_BLOCK {
            return Ok(());
        }
        self.write(writer)
    }

    /// Writes those that wait, and flushes. The `Err` says how many bytes have gone out by then.
    pub fn flush<W: Write>(&mut self, writer: &mut Counted<W>) -> Result<(), u128>
        ensures said { (start : Counted W) (replies : List Reply)
            → HasSaid W.contents self.old start writer.old replies
            → MatchResult result
            (λ _. HasSaid W.contents self.new start writer.new replies)
            (HasSaidFirst W.contents start writer.new replies) }
        ensures none { OnOk result (waiting_text self.new ≡ []) }
        ensures flushed { OnOk result (is_flushed writer.new ≡ true) }
    {
        self.write(writer)?;
        match writer.flush() {
            Ok(()) => Ok(()),
            Err(_) => Err(self.written),
        }
    }

    // Writes those that wait.
    fn write<W: Write>(&mut self, writer: &mut Counted<W>) -> Result<(), u128>
        ensures said { (start : Counted W) (replies : List Reply)
            → HasSaid W.contents self.old start writer.old replies
            → MatchResult result
            (λ _. HasSaid W.contents self.new start writer.new replies)
            (HasSaidFirst W.contents start writer.new replies) }
        ensures none { OnOk result (waiting_text self.new ≡ []) }
    {
        match write_bytes(writer, &self.buffer) {
            Ok(()) => {
                self.written = self.written.saturating_add(self.buffer.len() as u128);
                self.buffer.clear();
                Ok(())
            }
            Err(short) => Err(self.written.saturating_add(short.written as u128)),
        }
    }
}

// If memory is refused, a part of the reply may be left after the bytes.
fn push_reply(out: &mut Vec<u8>, status: u8, said: &[u8]) -> Result<(), AllocError>
    requires { status ≤ 9 }
    ensures ok { OnOk result (out.new.items ≡ out.old.items ++ reply_bytes status said.now) }
    ensures err { OnErr result (take (length out.old.items) out.new.items ≡ out.old.items) }
{
    let text = match said.split_last() {
        Some((_, text)) => text,
        None => said,
    };
    out.extend_from_slice(&[b'0' + status, b' '])?;
    out.extend_from_slice(text)?;
    out.push(0)?;
    Ok(())
}
