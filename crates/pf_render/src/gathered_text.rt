//! A text in memory of fixed size.
ghost use Rattle.std.specs.Prelude.{◌≡◌, ◌≤◌, length};
ghost use Rattle.pf_render.specs.declared.gathered_text.TheConstants.{MAX_GATHERED};

use crate::outputs::Output;
use pf_values::ShortWrite;

/// The most bytes that are gathered. Most formats print less, and more room isn't cleared inline.
const MAX_GATHERED: usize = 240;

/// A text of at most 240 bytes. If there is no room for all bytes of a `put`, it takes none.
#[derive(Drop)]
pub(crate) struct GatheredText {
    bytes: [u8; MAX_GATHERED],
    len: usize,
    ghost within: { len ≤ MAX_GATHERED },
}

impl GatheredText {
    ghost use Rattle.std.specs.Prelude.{[]};
    ghost use Rattle.pf_render.specs.Gathering.{gathered_bytes};

    /// No byte.
    pub(crate) fn new() -> GatheredText
        ensures { gathered_bytes result ≡ [] }
    {
        GatheredText {
            bytes: [0; MAX_GATHERED],
            len: 0,
        }
    }

    /// Its bytes.
    pub(crate) fn as_slice(&self) -> &[u8]
        ensures bytes { result.now ≡ gathered_bytes self.now }
        ensures few { length result.now ≤ MAX_GATHERED }
    {
        &self.bytes[..self.len]
    }
}

impl Output for GatheredText {
    ghost use Rattle.pf_render.specs.Gathering.{IsKept, IsKeptInPart};
    ghost use Rattle.pf_render.specs.OutputLaws.{keeps};

    ghost wrote = { IsKept };

    ghost stopped = { IsKeptInPart };

    ghost laws = { keeps };

    fn put(&mut self, bytes: &[u8]) -> Result<(), ShortWrite> {
        let start = self.len;
        if MAX_GATHERED - start < bytes.len() {
            return Err(ShortWrite { written: 0 });
        }
        let end = start + bytes.len();
        self.bytes[start..end].copy_from_slice(bytes);
        self.len = end;
        Ok(())
    }
}
