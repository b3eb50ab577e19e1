//! The length of a text that isn't kept.
ghost use Rattle.std.specs.Prelude.{◌<◌, ◌^◌};

use crate::outputs::Output;
use pf_values::ShortWrite;

/// No text in memory has this many bytes.
const TOO_LONG: usize = 1 << 63;

/// How many bytes were put, and none of them kept. More than 2^63 - 1 aren't counted.
#[derive(Clone, Copy)]
pub(crate) struct TextLength {
    pub(crate) len: usize,
    ghost few: { len < 2 ^ 63 },
}

impl TextLength {
    ghost use Rattle.std.specs.Prelude.{◌≡◌};

    /// No byte.
    pub(crate) fn new() -> TextLength
        ensures { result.len ≡ 0 }
    {
        TextLength { len: 0 }
    }
}

impl Output for TextLength {
    ghost use Rattle.pf_render.specs.Buffers.{IsMeasured, IsTooLong};
    ghost use Rattle.pf_render.specs.OutputLaws.{measures};

    ghost wrote = { IsMeasured };

    ghost stopped = { IsTooLong };

    ghost laws = { measures };

    fn put(&mut self, bytes: &[u8]) -> Result<(), ShortWrite> {
        if TOO_LONG - self.len <= bytes.len() {
            return Err(ShortWrite { written: 0 });
        }
        self.len += bytes.len();
        Ok(())
    }
}
