//! The canonical text of what a reader hands out, byte by byte.
ghost use Rattle.std.specs.Prelude.{◌≡◌, [], ◌++◌, ◌∷◌, ◌+◌, ◌<◌, ◌≤◌, length, take, List, MatchBool};
ghost use Rattle.std.specs.Io.KnownBytes.{Consumes, IsAtEnd};
ghost use Rattle.std.proofs.Common.{◌∙◌, refl};
ghost use Rattle.pf_values.specs.Counting.{HasFailed, Known, calls_after, calls_of, device_of, failures_of};
ghost use Rattle.pf_values.specs.meaning.Items.{Item};
ghost use Rattle.pf_values.specs.meaning.Text.{Text};
ghost use Rattle.pf_canon.specs.CanonicalBytes.{CountsByteRead, CountsDrain, FillLeaves, FillsBy, FindsByte, History, WantsByte, IsFilled, IsNoReadFault, IsReadFor, LowersAnswer, StepsBy, StreamHistory, failed_later, pending_in, reader_of, units};
ghost use Rattle.pf_canon.specs.Comparison.{DrainsTo};
ghost use Rattle.pf_canon.specs.Output.{IsFrontOf};
ghost use Rattle.pf_canon.specs.Transducer.{IsThrough};

use crate::faults::StreamFault;
use crate::output::PendingOutput;
use crate::transducer::Transducer;
use pf_values::{Counted, Model};
use std::io::Read;

/// The bytes of the canonical text, in one data model, of what a reader hands out. It asks the
/// reader for one byte at a time, and only while no settled byte is pending. Before a fault it
/// gives just the bytes that are settled, and after it nothing.
#[derive(Drop)]
pub struct CanonBytes<R> {
    reader: Counted<R>,
    transducer: ByteTransducer,
}

impl<R: Read + Drop> CanonBytes<R> {
    /// Returns the bytes before anything was read.
    pub fn new(model: Model, reader: Counted<R>) -> CanonBytes<R>
        ensures reader { reader_of result ≡ reader }
        ensures history { StreamHistory model R.remaining result
            (R.remaining (device_of reader)) [] [] }
    {
        CanonBytes {
            reader,
            transducer: ByteTransducer::new(model),
        }
    }

    /// Returns the reader, after the bytes that were taken.
    pub fn into_reader(self) -> Counted<R>
        ensures { result ≡ reader_of self }
    {
        let CanonBytes {
            reader,
            transducer: _,
        } = self;
        reader
    }
}

impl<R: Read + Drop> Iterator for CanonBytes<R> {
    ghost use Rattle.pf_canon.specs.CanonicalBytes.{Steps, bytes_to_come};

    type Item = Result<u8, StreamFault>;

    ghost next_gives = { Steps R.remaining };

    ghost remaining = { bytes_to_come };

    fn next(&mut self) -> Option<Result<u8, StreamFault>> {
        self.transducer.next(&mut self.reader)
    }
}

/// A transducer that asks for its text byte by byte: what it has settled and is still to be given,
/// and whether the text may go on.
#[derive(Drop)]
pub(crate) struct ByteTransducer {
    transducer: Transducer,
    pending: PendingOutput,
    is_open: bool,
}

impl ByteTransducer {
    /// Nothing was taken.
    pub(crate) fn new(model: Model) -> ByteTransducer
        ensures { (start : Known) → History model result start start [] [] }
    {
        ByteTransducer {
            transducer: Transducer::new(model),
            pending: PendingOutput::Nothing,
            is_open: true,
        }
    }

    /// Returns the next byte of the canonical text, or a fault. After a fault nothing comes.
    pub(crate) fn next<B: ByteSource>(&mut self, bytes: &mut B) -> Option<Result<u8, StreamFault>>
        ensures steps { StepsBy B.left B.kept B.failed self.old bytes.old
            result self.new bytes.new }
        ensures lower { LowersAnswer result self.old self.new }
    {
        if let Err(fault) = self.fill(bytes) {
            return Some(Err(fault));
        }
        let byte = self.pending.pop()?;
        Some(Ok(byte))
    }

    /// Takes from the text, until something is pending or the text is over.
    #[inline(always)]
    pub(crate) fn fill<B: ByteSource>(&mut self, bytes: &mut B) -> Result<(), StreamFault>
        ensures { FillsBy B.left B.kept B.failed self.old bytes.old result self.new bytes.new }
    {
        while self.wants_byte() {
            self.ask(bytes)?;
        }
        Ok(())
    }

    // Whether nothing is pending, and the text may go on.
    #[inline(always)]
    fn wants_byte(&self) -> bool
        ensures { MatchBool result (WantsByte self.now) (IsFilled self.now) }
    {
        if !self.is_open {
            return false;
        }
        self.front().is_empty()
    }

    /// The first bytes that are pending, some if there are any.
    #[inline(always)]
    pub(crate) fn front(&self) -> &[u8]
        ensures { IsFrontOf (pending_in self.now) result.now }
    {
        self.pending.front()
    }

    /// Gives the first `count` of the bytes that are pending, or all if there are fewer.
    pub(crate) fn skip(&mut self, count: usize)
        ensures given { (model : Model) (start left : Known) (taken given : Text)
            → History model self.old start left taken given
            → History model self.new start left taken (given ++ take count (pending_in self.old)) }
        ensures fewer { count ≤ length (pending_in self.old)
            → units self.new + count ≤ units self.old }
    {
        self.pending.skip(count);
    }

    /// Takes the rest of the text, and gives none of it.
    pub(crate) fn drain<B: ByteSource>(&mut self, bytes: &mut B) -> Result<(), StreamFault>
        ensures drained { (model : Model) (start : Known) (taken given : Text)
            → History model self.old start (B.left bytes.old) taken given → IsFilled self.old
            → DrainsTo model (pending_in self.old) start (B.left bytes.new) given result }
        ensures counts { CountsDrain B.kept B.failed result bytes.old bytes.new }
    {
        while self.is_open {
            self.pending = PendingOutput::Nothing;
            self.ask(bytes)?;
        }
        Ok(())
    }

    // Asks for the next byte of the text, or its end. What that settles is pending.
    #[inline(never)]
    fn ask<B: ByteSource>(&mut self, bytes: &mut B) -> Result<(), StreamFault>
        requires { WantsByte self.old }
        ensures next { (model : Model) (start : Known) (taken given : Text)
            → History model self.old start (B.left bytes.old) taken given
            → (more : Text)
            × FillLeaves model result self.new start (B.left bytes.new) (taken ++ more) given }
        ensures counts { CountsDrain B.kept B.failed result bytes.old bytes.new }
        ensures lower { units self.new < units self.old }
    {
        match bytes.take() {
            ByteRead::Byte(byte) => self.take(byte),
            ByteRead::End => self.end(),
            ByteRead::Failed => {
                self.is_open = false;
                Err(StreamFault::Read)
            }
        }
    }

    // Feeds a byte that was taken.
    fn take(&mut self, byte: u8) -> Result<(), StreamFault>
        requires { WantsByte self.old }
        ensures next { (model : Model) (start left : Known) (taken given : Text) (items : List Item)
            → Consumes start left (taken ++ byte ∷ []) → IsReadFor model taken given
            → IsThrough model self.old.transducer taken items given
            → (more : Text) × FillLeaves model result self.new start left (taken ++ more) given }
        ensures no_fault { IsNoReadFault result }
        ensures lower { units self.new < units self.old }
    {
        match self.transducer.feed(byte) {
            Ok(output) => {
                self.pending = PendingOutput::of_byte(output, byte);
                Ok(())
            }
            Err(refusal) => {
                self.is_open = false;
                Err(StreamFault::Refused(refusal))
            }
        }
    }

    // Feeds the end of the text.
    fn end(&mut self) -> Result<(), StreamFault>
        requires { WantsByte self.old }
        ensures next { (model : Model) (start left : Known) (taken given : Text) (items : List Item)
            → Consumes start left taken → IsAtEnd left → IsReadFor model taken given
            → IsThrough model self.old.transducer taken items given
            → (more : Text) × FillLeaves model result self.new start left (taken ++ more) given }
        ensures no_fault { IsNoReadFault result }
        ensures lower { units self.new < units self.old }
    {
        self.is_open = false;
        match self.transducer.finish() {
            Ok(output) => {
                self.pending = PendingOutput::of(output);
                Ok(())
            }
            Err(refusal) => Err(StreamFault::Refused(refusal)),
        }
    }
}

/// What was found where a byte was to be read.
#[derive(Clone, Copy, Debug)]
pub(crate) enum ByteRead {
    /// A byte.
    Byte(u8),
    /// The end.
    End,
    /// The reader failed.
    Failed,
}

/// Where a text comes from, byte by byte.
pub(crate) trait ByteSource {
    // what is left, if that is known
    ghost left: { Self → Known };

    // between two states nothing failed
    ghost kept: { Self → Self → Type 0 };

    // in between something failed
    ghost failed: { Self → Self → Type 0 };

    // in between the reader was called just once
    ghost asked_once: { Self → Self → Type 0 };

    /// Takes one byte.
    fn take(&mut self) -> ByteRead
        ensures found { FindsByte (left self.old) (left self.new) result }
        ensures counted { CountsByteRead kept failed self.old self.new result }
        ensures asked { asked_once self.old self.new };

    ghost kept_itself: { (b : Self) → kept b b };

    ghost kept_later: { (a b c : Self) → kept a b → kept b c → kept a c };

    ghost failed_later: { (a b c : Self) → kept a b → failed b c → failed a c };
}

impl<R: Read> ByteSource for Counted<R> {
    ghost left = { λ r. R.remaining (device_of r) };

    ghost kept = { λ old new. failures_of new ≡ failures_of old };

    ghost failed = { λ old new. HasFailed old new };

    ghost asked_once = { λ old new. calls_of new ≡ calls_after (calls_of old) };

    ghost kept_itself = { λ r. refl };

    ghost kept_later = { λ a b c h g. g ∙ h };

    ghost failed_later = { λ a b c h g. failed_later a b c h g };

    /// One call of the reader.
    fn take(&mut self) -> ByteRead {
        let mut byte = [0u8; 1];
        match self.read(&mut byte) {
            Ok(0) => ByteRead::End,
            Ok(_) => ByteRead::Byte(byte[0]),
            Err(_) => ByteRead::Failed,
        }
    }
}
