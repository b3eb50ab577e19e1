//! A reader or a writer that counts its calls, and how often it failed.
ghost use Rattle.std.specs.Prelude.{◌≡◌, is_err, true, false};
ghost use Rattle.std.specs.Io.{ReadsAtMost, WritesAtMost};
ghost use Rattle.std.specs.Io.KnownBytes.{Keeps, ReadConsumes, WriteAppends};
ghost use Rattle.pf_values.specs.Counting.{
  calls_after,
  calls_of,
  device_of,
  failures_after,
  failures_of,
  is_flushed,
  write_failed,
};

use std::io;
use std::io::{Read, Write};

/// A reader or a writer over `T`, with how many of its calls failed.
///
/// Each `read`, `write` and `flush` makes one such call of `T`, and repeats none, also not one that
/// was interrupted. A failure is a call that returned an error, or a write of some bytes that took
/// none. A count goes no further than the largest `u64`.
#[derive(Debug, Drop)]
pub struct Counted<T> {
    device: T,
    failures: u64,
    // How many calls there were. Only contracts use it.
    calls: u64,
    // Whether the last call was a flush. Only contracts use it.
    is_flushed: bool,
}

impl<T> Counted<T> {
    /// Wraps the device, with no call and no failure yet.
    pub fn new(device: T) -> Counted<T>
        ensures device { device_of result ≡ device }
        ensures calls { calls_of result ≡ 0 }
        ensures none { failures_of result ≡ 0 }
        ensures flushed { is_flushed result ≡ false }
    {
        Counted {
            device,
            failures: 0,
            calls: 0,
            is_flushed: false,
        }
    }

    /// Returns how many calls of the device failed.
    pub fn failures(&self) -> u64
        ensures { result ≡ failures_of self.now }
    {
        self.failures
    }

    /// Returns the device.
    pub fn into_inner(self) -> T
        ensures { result ≡ device_of self }
    {
        let Counted {
            device,
            failures: _,
            calls: _,
            is_flushed: _,
        } = self;
        device
    }

    // Notes a call: whether it was a flush, and whether it failed.
    fn note(&mut self, flushed: bool, failed: bool)
        ensures device { device_of self.new ≡ device_of self.old }
        ensures calls { calls_of self.new ≡ calls_after (calls_of self.old) }
        ensures failures { failures_of self.new ≡ failures_after (failures_of self.old) failed }
        ensures flushed { is_flushed self.new ≡ flushed }
    {
        self.is_flushed = flushed;
        self.calls = self.calls.saturating_add(1);
        if failed {
            self.failures = self.failures.saturating_add(1);
        }
    }
}

impl<R: Read> Read for Counted<R> {
    ghost remaining = { λ r. R.remaining (device_of r) };

    fn read(&mut self, buf: &mut [u8]) -> io::Result<usize>
        ensures bound { ReadsAtMost result buf.new }
        ensures bytes { ReadConsumes (R.remaining (device_of self.old))
            (R.remaining (device_of self.new)) result buf.new }
        ensures calls { calls_of self.new ≡ calls_after (calls_of self.old) }
        ensures failures { failures_of self.new
            ≡ failures_after (failures_of self.old) (is_err result) }
        ensures flushed { is_flushed self.new ≡ false }
    {
        let result = self.device.read(buf);
        self.note(false, result.is_err());
        result
    }
}

impl<W: Write> Write for Counted<W> {
    ghost contents = { λ w. W.contents (device_of w) };

    fn write(&mut self, buf: &[u8]) -> io::Result<usize>
        ensures bound { WritesAtMost result buf.now }
        ensures bytes { WriteAppends (W.contents (device_of self.old))
            (W.contents (device_of self.new)) result buf.now }
        ensures calls { calls_of self.new ≡ calls_after (calls_of self.old) }
        ensures failures { failures_of self.new
            ≡ failures_after (failures_of self.old) (write_failed result buf.now) }
        ensures flushed { is_flushed self.new ≡ false }
    {
        let result = self.device.write(buf);
        let failed = match &result {
            Ok(taken) => *taken == 0 && !buf.is_empty(),
            Err(_) => true,
        };
        self.note(false, failed);
        result
    }

    fn flush(&mut self) -> io::Result<()>
        ensures bytes { Keeps (W.contents (device_of self.old)) (W.contents (device_of self.new)) }
        ensures calls { calls_of self.new ≡ calls_after (calls_of self.old) }
        ensures failures { failures_of self.new
            ≡ failures_after (failures_of self.old) (is_err result) }
        ensures flushed { is_flushed self.new ≡ true }
    {
        let result = self.device.flush();
        self.note(true, result.is_err());
        result
    }
}
