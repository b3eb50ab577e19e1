//! Whether a format is its own canonical text, whether that fits, and a copy of it.
ghost use Rattle.std.specs.Prelude.{IsTrue, ◌≤◌, length, ℕ};
ghost use Rattle.pf_values.specs.meaning.Canonical.{IsCanonicalText};
ghost use Rattle.pf_values.specs.meaning.Items.{IsAccepted};
ghost use Rattle.pf_values.specs.meaning.Text.{Text};
ghost use Rattle.pf_canon.specs.Answers.{IsCanonicalFor};
ghost use Rattle.pf_values.specs.Counting.{device_of};
ghost use Rattle.pf_canon.specs.Copy.{CopiesAll};

use pf_canon::{canonical_len, canonical_stream, is_canonical};
use pf_values::{Counted, Model};
use std::io::{Read, Write};

/// Returns whether a format is accepted, and is its own canonical text.
pub fn is_tidy(model: Model, format: &[u8]) -> bool
    ensures accepted { IsTrue result → IsAccepted format.now }
    ensures canonical { IsTrue result → IsCanonicalText model format.now }
{
    match is_canonical(model, format) {
        Ok(is) => is,
        Err(_) => false,
    }
}

/// Returns whether the canonical text of a format fits into `room` bytes. Allocates nothing.
pub fn fits(model: Model, format: &[u8], room: u128) -> bool
    ensures { IsTrue result → (c : Text) × IsCanonicalFor model format.now c × (length c ≤ room) }
{
    match canonical_len(model, format) {
        Ok(len) => len <= room,
        Err(_) => false,
    }
}

/// Copies a format in canonical spelling. True only where the reader was
/// read to its end and the whole canonical text of what it handed out was written.
pub fn copies_tidily<R: Read, W: Write>(
    model: Model,
    reader: &mut Counted<R>,
    writer: &mut Counted<W>,
) -> bool
    ensures { IsTrue result → (count : ℕ) × CopiesAll model
        (R.remaining (device_of reader.old)) (R.remaining (device_of reader.new))
        (W.contents (device_of writer.old)) (W.contents (device_of writer.new)) count }
{
    canonical_stream(model, reader, writer).is_ok()
}
