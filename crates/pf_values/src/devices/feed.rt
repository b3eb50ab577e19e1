//! A reader that fails in the middle.

ghost use Rattle.std.specs.Prelude.{◌≡◌, ◌≤◌};
ghost use Rattle.pf_values.specs.FaultPlaces.{fault_after_bytes, up_to_fault};

use std::io;
use std::io::{Error, ErrorKind, Read};

/// A reader of some bytes. A call hands out at most a step of them, and none past the offset at which
/// it is to fail. There one call fails; then it goes on.
#[derive(Debug, Drop)]
pub struct Feed<'a> {
    rest: &'a [u8],
    step: usize,
    /// How many bytes are handed out before the call that fails.
    before_fault: Option<u64>,
    kind: ErrorKind,
    ghost moves: { 1 ≤ step },
}

impl<'a> Feed<'a> {
    ghost use Rattle.pf_values.specs.Feeds.{fault_of, error_kind_of, next_count, rest_of, step_of};

    /// Makes a reader of all these bytes. One call fails with this kind, where `fail_at` of them
    /// were handed out.
    pub fn new(bytes: &'a [u8], step: usize, fail_at: Option<u64>, kind: ErrorKind) -> Feed<'a>
        requires moves { 1 ≤ step }
        ensures rest { rest_of result ≡ bytes.now }
        ensures step { step_of result ≡ step }
        ensures fault { fault_of result ≡ fail_at }
        ensures kind { error_kind_of result ≡ kind }
    {
        Feed {
            rest: bytes,
            step,
            before_fault: fail_at,
            kind,
        }
    }

    // How many bytes the next call hands out, with so much room.
    fn next_count(&self, room: usize) -> usize
        ensures { result ≡ next_count self.now room }
    {
        up_to_fault(self.before_fault, self.rest.len().min(self.step).min(room))
    }
}

// At most `count` bytes, up to the fault.
fn up_to_fault(fault: Option<u64>, count: usize) -> usize
    ensures { result ≡ up_to_fault fault count }
{
    match fault {
        Some(before) => before.min(count as u64) as usize,
        None => count,
    }
}

// Where the reader is to fail, counted from `count` bytes further on.
fn fault_after_bytes(fault: Option<u64>, count: usize) -> Option<u64>
    ensures { result ≡ fault_after_bytes fault count }
{
    match fault {
        Some(before) => Some(before.saturating_sub(count as u64)),
        None => None,
    }
}

impl Read for Feed<'_> {
    ghost use Rattle.std.specs.Prelude.{Some, IfErr, IfOk, is_err, length};
    ghost use Rattle.std.specs.Io.{ReadsAtMost};
    ghost use Rattle.std.specs.Io.KnownBytes.{ReadConsumes};
    ghost use Rattle.std.specs.IoError.{error_kind};
    ghost use Rattle.pf_values.specs.FaultPlaces.{fault_after_call, is_due};
    ghost use Rattle.pf_values.specs.Feeds.{fault_of, error_kind_of, next_count, rest_of, step_of};

    ghost remaining = { λ feed. Some (rest_of feed) };

    fn read(&mut self, buf: &mut [u8]) -> io::Result<usize>
        ensures bound { ReadsAtMost result buf.new }
        ensures bytes { ReadConsumes
            (Some (rest_of self.old)) (Some (rest_of self.new)) result buf.new }
        ensures fails { is_err result ≡ is_due (fault_of self.old) }
        ensures count { IfOk result (λ n. n ≡ next_count self.old (length buf.new)) }
        ensures fault { fault_of self.new ≡ fault_after_call (fault_of self.old) result }
        ensures kind { IfErr result (λ e. error_kind e ≡ error_kind_of self.old) }
        ensures step { step_of self.new ≡ step_of self.old }
        ensures same_kind { error_kind_of self.new ≡ error_kind_of self.old }
    {
        if self.before_fault == Some(0) {
            self.before_fault = None;
            return Err(Error::from(self.kind));
        }
        let count = self.next_count(buf.len());
        buf[..count].copy_from_slice(&self.rest[..count]);
        self.rest = &self.rest[count..];
        self.before_fault = fault_after_bytes(self.before_fault, count);
        Ok(count)
    }
}
