//! The front of a buffer, as it is filled.
ghost use Rattle.std.specs.Prelude.{◌≡◌, ◌+◌, ◌≤◌, ◌++◌, drop, length, take};

use crate::outputs::Output;
use pf_values::ShortWrite;

/// A buffer whose front is filled. If there is no room for all bytes of a `put`, it takes none.
#[derive(Drop)]
pub(crate) struct Filling<'a> {
    /// The buffer.
    pub(crate) buffer: &'a mut [u8],
    /// How many bytes are filled.
    pub(crate) len: usize,
    ghost within: { len ≤ length buffer.now },
}

impl<'a> Output for Filling<'a> {
    ghost use Rattle.pf_render.specs.Buffers.{HasNoRoom, HasFilled};
    ghost use Rattle.pf_render.specs.OutputLaws.{fills};

    ghost wrote = { HasFilled };

    ghost stopped = { HasNoRoom };

    ghost laws = { fills };

    fn put(&mut self, bytes: &[u8]) -> Result<(), ShortWrite> {
        let start = self.len;
        if self.buffer.len() - start < bytes.len() {
            return Err(ShortWrite { written: 0 });
        }
        put_at(self.buffer, start, bytes);
        self.len = start + bytes.len();
        Ok(())
    }
}

// Puts bytes into a buffer, from an offset on.
fn put_at(buffer: &mut [u8], at: usize, bytes: &[u8])
    requires { at + length bytes.now ≤ length buffer.old }
    ensures { buffer.new ≡ take at buffer.old
        ++ (bytes.now ++ drop (at + length bytes.now) buffer.old) }
{
    let (_, rest) = buffer.split_at_mut(at);
    let (front, _) = rest.split_at_mut(bytes.len());
    front.copy_from_slice(bytes);
}
