//! Where the bytes go that a format prints.
ghost use Rattle.std.specs.Prelude.{ℕ};
ghost use Rattle.pf_values.specs.meaning.Text.{Text};
ghost use Rattle.pf_render.specs.Outputs.{IsOutput, PutsUpTo};

use pf_values::{Counted, ShortWrite, write_bytes};
use std::io::Write;

/// Where bytes are put.
pub(crate) trait Output {
    // between two states all these bytes were put
    ghost wrote: { Self → Self → Text → Type 0 };

    // between two states only the first ones were put, this many
    ghost stopped: { Self → Self → Text → ℕ → Type 0 };

    /// Puts all the bytes, or exactly the first ones, fewer than all.
    fn put(&mut self, bytes: &[u8]) -> Result<(), ShortWrite>
        ensures { PutsUpTo wrote stopped (λ short. short.written) self.old self.new bytes.now result };

    ghost laws: { IsOutput wrote stopped };
}

impl<W: Write> Output for Counted<W> {
    ghost use Rattle.pf_values.specs.Counting.{WritesAll, WritesFirst};
    ghost use Rattle.pf_render.specs.OutputLaws.{counted_writes};

    ghost wrote = { WritesAll W.contents };

    ghost stopped = { WritesFirst W.contents };

    ghost laws = { counted_writes W.contents };

    fn put(&mut self, bytes: &[u8]) -> Result<(), ShortWrite> {
        match write_bytes(self, bytes) {
            Ok(()) => Ok(()),
            Err(short) => Err(short),
        }
    }
}
