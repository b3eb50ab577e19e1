//! What a run reads.
ghost use Rattle.std.specs.Prelude.{◌≡◌, is_err, MatchResult, ⊤};
ghost use Rattle.std.specs.Io.{ReadsAtMost};
ghost use Rattle.std.specs.Io.KnownBytes.{ReadConsumes};
ghost use Rattle.pf_values.specs.Counting.{calls_after, calls_of, device_of, failures_after, failures_of};
ghost use Rattle.pf_values.specs.declared.counted.Counted.{Counted};
ghost use Rattle.pf_canon.specs.Copy.{CopiesAll, CopyStops, ReadCounts, WriteCounts};

use pf_canon::{CopyFault, copy_canonical};
use pf_values::{Counted, Model};
use std::io;
use std::io::{Read, Write};

/// A reader that may wait for what the run writes before it hands out more. It says when it is
/// ready, and a run reads it by these calls alone.
pub trait Input<R: Read, W: Write> {
    // the reader that counts its calls
    ghost reader_of: { Self → Counted R };

    // whether it may be read while the writer is in this state
    ghost is_ready: { Self → Counted W → Type 0 };

    /// Reads a block, as `Read::read`.
    fn read_next(&mut self, writer: &Counted<W>, block: &mut [u8]) -> io::Result<usize>
        requires { is_ready self.old writer.now }
        ensures bound { ReadsAtMost result block.new }
        ensures bytes { ReadConsumes (R.remaining (device_of (reader_of self.old)))
            (R.remaining (device_of (reader_of self.new))) result block.new }
        ensures calls { calls_of (reader_of self.new)
            ≡ calls_after (calls_of (reader_of self.old)) }
        ensures failures { failures_of (reader_of self.new)
            ≡ failures_after (failures_of (reader_of self.old)) (is_err result) };

    /// Copies the canonical text of all that it hands out, as `copy_canonical`.
    fn copy_all(&mut self, model: Model, writer: &mut Counted<W>) -> Result<u128, CopyFault>
        requires { (left : Self) (now : Counted W) → is_ready left now }
        ensures copied { MatchResult result
            (CopiesAll model (R.remaining (device_of (reader_of self.old)))
            (R.remaining (device_of (reader_of self.new)))
            (W.contents (device_of writer.old)) (W.contents (device_of writer.new)))
            (CopyStops model (R.remaining (device_of (reader_of self.old)))
            (R.remaining (device_of (reader_of self.new)))
            (W.contents (device_of writer.old)) (W.contents (device_of writer.new))) }
        ensures reads { ReadCounts (reader_of self.old) (reader_of self.new) result }
        ensures writes { WriteCounts writer.old writer.new result };
}

/// It is always ready.
impl<R: Read, W: Write> Input<R, W> for Counted<R> {
    ghost reader_of = { λ reader. reader };

    ghost is_ready = { λ reader writer. ⊤ };

    fn read_next(&mut self, _writer: &Counted<W>, block: &mut [u8]) -> io::Result<usize> {
        self.read(block)
    }

    fn copy_all(&mut self, model: Model, writer: &mut Counted<W>) -> Result<u128, CopyFault> {
        copy_canonical(model, self, writer)
    }
}
