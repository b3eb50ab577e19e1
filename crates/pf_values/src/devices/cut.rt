//! A writer with little room.
ghost use Rattle.std.specs.Prelude.{◌≡◌, ◌≤◌, length};

use std::io;
use std::io::{Error, ErrorKind, Write};

/// A writer into a buffer. A call takes as many bytes as there is room for, and at most a
/// step of them. If the buffer is full, a write of some bytes fails.
pub struct Cut<'a> {
    buffer: &'a mut [u8],
    len: usize,
    step: usize,
    kind: ErrorKind,
    flush_fails: bool,
    ghost len_fits: { len ≤ length buffer.now },
    ghost moves: { 1 ≤ step },
}

impl<'a> Cut<'a> {
    ghost use Rattle.std.specs.Prelude.{[]};
    ghost use Rattle.pf_values.specs.Cuts.{flush_fails_of, error_kind_of, room_of, step_of, taken_of};

    /// Makes a writer that has taken nothing yet. It fails with this kind of error, and so does
    /// each flush if `flush_fails`.
    pub fn new(buf: &'a mut [u8], step: usize, kind: ErrorKind, flush_fails: bool) -> Cut<'a>
        requires moves { 1 ≤ step }
        ensures none { taken_of result ≡ [] }
        ensures room { room_of result ≡ length buf.old }
        ensures step { step_of result ≡ step }
        ensures kind { error_kind_of result ≡ kind }
        ensures flush { flush_fails_of result ≡ flush_fails }
    {
        Cut {
            buffer: buf,
            len: 0,
            step,
            kind,
            flush_fails,
        }
    }

    /// Returns the bytes that it took.
    pub fn taken(&self) -> &[u8]
        ensures { result.now ≡ taken_of self.now }
    {
        &self.buffer[..self.len]
    }
}

impl<'a> Drop for Cut<'a> {
    fn drop(self) {
        let Cut {
            buffer: _,
            len: _,
            step: _,
            kind: _,
            flush_fails: _,
        } = self;
    }
}

impl<'a> Write for Cut<'a> {
    ghost use Rattle.std.specs.Prelude.{◌==◌, ◌&&◌, Some, IfErr, IfOk, is_err, min, nat_lt};
    ghost use Rattle.std.specs.Io.{WritesAtMost};
    ghost use Rattle.std.specs.Io.KnownBytes.{Keeps, WriteAppends};
    ghost use Rattle.std.specs.IoError.{error_kind};
    ghost use Rattle.pf_values.specs.Cuts.{KeepsSettings, flush_fails_of, error_kind_of, room_of, step_of, taken_of};

    ghost contents = { λ cut. Some (taken_of cut) };

    fn write(&mut self, buf: &[u8]) -> io::Result<usize>
        ensures bound { WritesAtMost result buf.now }
        ensures bytes { WriteAppends
            (Some (taken_of self.old)) (Some (taken_of self.new)) result buf.now }
        ensures full { is_err result ≡ (room_of self.old == 0) && nat_lt 0 (length buf.now) }
        ensures count { IfOk result (λ n.
            n ≡ min (length buf.now) (min (room_of self.old) (step_of self.old))) }
        ensures kind { IfErr result (λ e. error_kind e ≡ error_kind_of self.old) }
        ensures settings { KeepsSettings self.old self.new }
    {
        let room = self.buffer.len() - self.len;
        if room == 0 && !buf.is_empty() {
            return Err(Error::from(self.kind));
        }
        let count = buf.len().min(room.min(self.step));
        let start = self.len;
        self.buffer[start..start + count].copy_from_slice(&buf[..count]);
        self.len += count;
        Ok(count)
    }

    fn flush(&mut self) -> io::Result<()>
        ensures bytes { Keeps (Some (taken_of self.old)) (Some (taken_of self.new)) }
        ensures fails { is_err result ≡ flush_fails_of self.old }
        ensures kind { IfErr result (λ e. error_kind e ≡ error_kind_of self.old) }
        ensures unchanged { self.new ≡ self.old }
    {
        if self.flush_fails {
            return Err(Error::from(self.kind));
        }
        Ok(())
    }
}
