//! Writing bytes, with the exact count of those that went out.
ghost use Rattle.pf_values.specs.Counting.{Writes};

use crate::counted::Counted;
use std::io::Write;

/// A write stopped after the first bytes.
#[derive(Clone, Copy, Debug, PartialEq, Eq)]
pub struct ShortWrite {
    /// How many bytes went out.
    pub written: usize,
}

/// Writes all the bytes. `Err` if the writer fails, or takes none: then exactly the first `written`
/// of them went out, fewer than all, and a failure was counted.
pub fn write_bytes<W: Write>(writer: &mut Counted<W>, bytes: &[u8]) -> Result<(), ShortWrite>
    ensures { Writes W.contents writer.old writer.new bytes.now result }
{
    let mut written = 0;
    while written < bytes.len() {
        match writer.write(&bytes[written..]) {
            Ok(0) | Err(_) => return Err(ShortWrite { written }),
            Ok(taken) => written += taken,
        }
    }
    Ok(())
}
