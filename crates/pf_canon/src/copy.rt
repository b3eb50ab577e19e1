//! The canonical text of a reader's bytes, written to a writer.
ghost use Rattle.std.specs.Prelude.{◌≢◌, ℕ, List, ◌++◌, MatchResult};
ghost use Rattle.std.specs.Io.KnownBytes.{Consumes, IsAtEnd};
ghost use Rattle.pf_values.specs.Counting.{Known, device_of};
ghost use Rattle.pf_values.specs.declared.models.Model.{Model};
ghost use Rattle.pf_values.specs.meaning.Items.{Item};
ghost use Rattle.pf_values.specs.meaning.Text.{Text};
ghost use Rattle.pf_canon.specs.declared.faults.CopyFault.TheVariants.{Read};
ghost use Rattle.pf_canon.specs.Transducer.{IsThrough, TakesBlock};
ghost use Rattle.pf_canon.specs.Copy.{CopiesAll, CopyStops, Gathers, HasGathered, IsWritten, Puts, ReadCounts, StopsIn, WriteCounts};
ghost use Rattle.pf_canon.specs.Output.{output_text};
ghost use Rattle.pf_canon.specs.SinkLaws.{gathers};

use crate::faults::CopyFault;
use crate::limits::{COPY_BLOCK, GATHERED};
use crate::output::SettledText;
use crate::sink::Sink;
use crate::transducer::Transducer;
use arrayvec::ArrayVec;
use pf_text::Refusal;
use pf_values::{Counted, Model, write_bytes};
use std::io::{Read, Write};

/// Bytes that are written together.
pub(crate) type WriteBuffer = ArrayVec<u8, GATHERED>;

/// Writes the canonical text, in this data model, of what the reader hands out up to its end. It
/// reads a block at a time, and doesn't flush. `Err` if the text is rejected, or if the reader or
/// the writer fails.
pub fn canonical_stream<R: Read, W: Write>(
    model: Model,
    r: &mut Counted<R>,
    w: &mut Counted<W>,
) -> Result<(), CopyFault>
    ensures copied { MatchResult result
        (λ _. (count : ℕ) × CopiesAll model (R.remaining (device_of r.old))
        (R.remaining (device_of r.new)) (W.contents (device_of w.old))
        (W.contents (device_of w.new)) count)
        (CopyStops model (R.remaining (device_of r.old)) (R.remaining (device_of r.new))
        (W.contents (device_of w.old)) (W.contents (device_of w.new))) }
    ensures reads { ReadCounts r.old r.new result }
    ensures writes { WriteCounts w.old w.new result }
{
    match copy_canonical(model, r, w) {
        Ok(_) => Ok(()),
        Err(fault) => Err(fault),
    }
}

/// Writes the canonical text as `canonical_stream` does, and returns how many bytes it has written.
/// `Err` as there.
pub fn copy_canonical<R: Read, W: Write>(
    model: Model,
    r: &mut Counted<R>,
    w: &mut Counted<W>,
) -> Result<u128, CopyFault>
    ensures copied { MatchResult result
        (CopiesAll model (R.remaining (device_of r.old)) (R.remaining (device_of r.new))
        (W.contents (device_of w.old)) (W.contents (device_of w.new)))
        (CopyStops model (R.remaining (device_of r.old)) (R.remaining (device_of r.new))
        (W.contents (device_of w.old)) (W.contents (device_of w.new))) }
    ensures reads { ReadCounts r.old r.new result }
    ensures writes { WriteCounts w.old w.new result }
{
    let mut transducer = Transducer::new(model);
    let mut written = 0u128;
    let mut block = [0u8; COPY_BLOCK];
    loop {
        match r.read(&mut block) {
            Ok(0) => return copy_end(&transducer, w, written),
            Ok(len) => match copy_block(&mut transducer, &block[..len], w, written) {
                Ok(now) => written = now,
                Err(fault) => return Err(fault),
            },
            Err(_) => return Err(CopyFault::Read),
        }
    }
}

// Copies a block. What it settles goes out by its end, and before a byte of it that is rejected.
#[inline(always)]
fn copy_block<W: Write>(
    transducer: &mut Transducer,
    text: &[u8],
    w: &mut Counted<W>,
    written: u128,
) -> Result<u128, CopyFault>
    ensures copied { (model : Model) (front : Text) (start : Known)
        → IsWritten model transducer.old front start (W.contents (device_of w.old)) written
        → MatchResult result
        (λ n. IsWritten model transducer.new (front ++ text.now) start
        (W.contents (device_of w.new)) n)
        (StopsIn model front text.now start (W.contents (device_of w.new))) }
    ensures counts { WriteCounts w.old w.new result }
{
    let (taken, count) = write_block(transducer, text, w, written);
    let written = match count {
        Ok(written) => written,
        Err(written) => return Err(CopyFault::Write(written)),
    };
    match taken {
        Ok(()) => Ok(written),
        Err(refusal) => Err(CopyFault::Refused(refusal)),
    }
}

// Writes what a block settles, and counts on as `put` does. Returns the refusal of the block, too.
#[inline(always)]
fn write_block<W: Write>(
    transducer: &mut Transducer,
    text: &[u8],
    w: &mut Counted<W>,
    count: u128,
) -> (Result<(), Refusal>, Result<u128, u128>)
    ensures { (more : Text) × Puts W.contents w.old w.new more count result.1
        × ((model : Model) (t out : Text) (items : List Item) → IsThrough model transducer.old t items out
        → TakesBlock model t (out ++ more) text.now result.0 transducer.new) }
{
    let mut buffer = WriteBuffer::new();
    let (taken, gathered) = gather_block(transducer, text, w, &mut buffer, count);
    match gathered {
        Ok(count) => (taken, put(w, &buffer, count)),
        Err(count) => (taken, Err(count)),
    }
}

// Copies what the end settles.
fn copy_end<W: Write>(
    transducer: &Transducer,
    w: &mut Counted<W>,
    written: u128,
) -> Result<u128, CopyFault>
    ensures copied { (model : Model) (taken : Text) (start0 left start : Known)
        → Consumes start0 left taken → IsAtEnd left
        → IsWritten model transducer.now taken start (W.contents (device_of w.old)) written
        → MatchResult result
        (CopiesAll model start0 left start (W.contents (device_of w.new)))
        (CopyStops model start0 left start (W.contents (device_of w.new))) }
    ensures counts { WriteCounts w.old w.new result }
    ensures reads { result ≢ Err Read }
{
    match transducer.finish() {
        Ok(output) => match write_output(&output, w, written) {
            Ok(written) => Ok(written),
            Err(written) => Err(CopyFault::Write(written)),
        },
        Err(refusal) => Err(CopyFault::Refused(refusal)),
    }
}

/// Writes bytes, and counts on from `count`. Where the writer fails, the count of those that went
/// out is the `Err`.
pub(crate) fn put<W: Write>(w: &mut Counted<W>, bytes: &[u8], count: u128) -> Result<u128, u128>
    ensures { Puts W.contents w.old w.new bytes.now count result }
{
    match write_bytes(w, bytes) {
        Ok(()) => Ok(count.saturating_add(bytes.len() as u128)),
        Err(short) => Err(count.saturating_add(short.written as u128)),
    }
}

/// A writer, the bytes that are still to be written, how many went out, and whether it failed.
/// After a failure nothing more is written.
#[derive(Drop)]
pub(crate) struct Gathered<'a, 'b, W> {
    writer: &'a mut Counted<W>,
    buffer: &'b mut WriteBuffer,
    count: u128,
    has_failed: bool,
}

impl<W: Write> Sink for Gathered<'_, '_, W> {
    ghost given = { HasGathered W.contents };

    ghost laws = { gathers W.contents };

    #[inline(always)]
    fn put(&mut self, bytes: &[u8]) {
        if self.has_failed {
            return;
        }
        // The count stays as it is while there is room, so it isn't read or written here.
        if self.buffer.try_extend_from_slice(bytes).is_ok() {
            return;
        }
        match put_both(self.writer, self.buffer, bytes, self.count) {
            Ok(count) => self.count = count,
            Err(count) => {
                self.count = count;
                self.has_failed = true;
            }
        }
    }
}

// Writes what is in the buffer, and then these bytes.
#[inline(never)]
fn put_both<W: Write>(
    w: &mut Counted<W>,
    buffer: &mut WriteBuffer,
    bytes: &[u8],
    count: u128,
) -> Result<u128, u128>
    ensures { Gathers W.contents w.old w.new buffer.old.items bytes.now count buffer.new.items
        result }
{
    let count = match put(w, buffer, count) {
        Ok(count) => count,
        Err(count) => return Err(count),
    };
    buffer.clear();
    put(w, bytes, count)
}

// Gathers what a block settles, and counts on as `put` does. Returns the refusal of the block, too.
#[inline(always)]
fn gather_block<W: Write>(
    transducer: &mut Transducer,
    text: &[u8],
    w: &mut Counted<W>,
    buffer: &mut WriteBuffer,
    count: u128,
) -> (Result<(), Refusal>, Result<u128, u128>)
    ensures { (more : Text)
        × Gathers W.contents w.old w.new buffer.old.items more count buffer.new.items result.1
        × ((model : Model) (t out : Text) (items : List Item) → IsThrough model transducer.old t items out
        → TakesBlock model t (out ++ more) text.now result.0 transducer.new) }
{
    let mut out = Gathered {
        writer: w,
        buffer,
        count,
        has_failed: false,
    };
    let taken = transducer.put(text, &mut out);
    if out.has_failed {
        return (taken, Err(out.count));
    }
    (taken, Ok(out.count))
}

/// Gathers an output, and counts on as `put` does.
pub(crate) fn gather_output<W: Write>(
    output: &SettledText,
    w: &mut Counted<W>,
    buffer: &mut WriteBuffer,
    count: u128,
) -> Result<u128, u128>
    ensures { Gathers W.contents w.old w.new buffer.old.items (output_text output.now) count
        buffer.new.items result }
{
    let mut out = Gathered {
        writer: w,
        buffer,
        count,
        has_failed: false,
    };
    output.put(&mut out);
    if out.has_failed {
        return Err(out.count);
    }
    Ok(out.count)
}

// Writes an output, and counts on as `put` does.
fn write_output<W: Write>(
    output: &SettledText,
    w: &mut Counted<W>,
    count: u128,
) -> Result<u128, u128>
    ensures { Puts W.contents w.old w.new (output_text output.now) count result }
{
    let mut buffer = WriteBuffer::new();
    match gather_output(output, w, &mut buffer, count) {
        Ok(count) => put(w, &buffer, count),
        Err(count) => Err(count),
    }
}
