//! Where bytes are put, one text after another.
ghost use Rattle.std.specs.Prelude.{◌≡◌, ◌<◌, ◌^◌, ℕ, flat_map, length, replicate, ◌++◌, IfOk, OnErr};
ghost use Rattle.pf_values.specs.meaning.Canonical.{item_spelling};
ghost use Rattle.pf_values.specs.meaning.Text.{Text};
ghost use Rattle.pf_text.specs.CanonicalRuns.{silents};
ghost use Rattle.pf_values.specs.declared.padding.TheConstants.{MAX_RUN};
ghost use Rattle.pf_canon.specs.Sink.{IsSink, IsBuilt, given_len, IsStripped, IsFrontStripped, IsLeft};
ghost use Rattle.pf_canon.specs.SinkLaws.{builds, strips};

use crate::limits::BLOCK;
use arrayvec::ArrayVec;
use std::alloc::{AllocError, Allocator};

/// What is given bytes, one text after another. Where it stops taking them, it remembers that, and
/// ignores all that follows.
pub(crate) trait Sink {
    // between two states it was given these bytes
    ghost given: { Self → Self → Text → Type 0 };

    /// Takes bytes.
    fn put(&mut self, bytes: &[u8])
        ensures { given self.old self.new bytes.now };

    ghost laws: { IsSink given };
}

/// Puts one byte `times` times; `block` is a run of it.
#[inline(always)]
pub(crate) fn put_repeated<S: Sink>(sink: &mut S, block: &[u8], times: u16)
    requires { length block.now ≡ MAX_RUN }
    ensures { (byte : ℕ) → block.now ≡ replicate MAX_RUN byte
        → S.given sink.old sink.new (replicate times byte) }
{
    if times == 0 {
        return;
    }
    // As many puts of one length as there are, which a sink that counts adds up in one step.
    let mut left = times / BLOCK;
    while left > 0 {
        sink.put(&block[..usize::from(BLOCK)]);
        left -= 1;
    }
    sink.put(&block[..usize::from(times % BLOCK)]);
}

/// Puts `times` silent directives.
#[inline(always)]
pub(crate) fn put_silents<S: Sink>(sink: &mut S, times: u64)
    ensures { S.given sink.old sink.new (flat_map item_spelling (silents times)) }
{
    let mut left = times;
    while left >= 4 {
        sink.put(b"%.0s%.0s%.0s%.0s");
        left -= 4;
    }
    while left > 0 {
        sink.put(b"%.0s");
        left -= 1;
    }
}

/// Bytes in memory, to which others are appended while there is room for them.
pub(crate) trait TextBuffer {
    // the bytes
    ghost bytes_of: { Self → Text };

    /// The bytes.
    fn bytes(&self) -> &[u8]
        ensures { result.now ≡ bytes_of self.now };

    /// Appends bytes, or none of them.
    fn append(&mut self, bytes: &[u8]) -> Result<(), AllocError>
        ensures all { IfOk result (λ _. bytes_of self.new ≡ bytes_of self.old ++ bytes.now) }
        ensures none { OnErr result (bytes_of self.new ≡ bytes_of self.old) };
}

/// There is room until memory is refused.
impl<A: Allocator> TextBuffer for Vec<u8, A> {
    ghost bytes_of = { λ v. v.items };

    #[inline(always)]
    fn bytes(&self) -> &[u8] {
        self.as_slice()
    }

    // No bytes need no allocation.
    fn append(&mut self, bytes: &[u8]) -> Result<(), AllocError> {
        if bytes.is_empty() {
            return Ok(());
        }
        self.extend_from_slice(bytes)
    }
}

/// There is room for `N` bytes, and an allocator is never asked for more.
impl<const N: usize> TextBuffer for ArrayVec<u8, N> {
    ghost bytes_of = { λ v. v.items };

    #[inline(always)]
    fn bytes(&self) -> &[u8] {
        self.as_slice()
    }

    fn append(&mut self, bytes: &[u8]) -> Result<(), AllocError> {
        match self.try_extend_from_slice(bytes) {
            Ok(()) => Ok(()),
            Err(_) => Err(AllocError),
        }
    }
}

/// A text that is being put together, and how many of its bytes found no room.
#[derive(Drop)]
pub(crate) struct TextBuilder<R> {
    pub(crate) buffer: R,
    pub(crate) lost: u128,
}

impl<R: TextBuffer> TextBuilder<R> {
    /// How many bytes were given, with those that found no room.
    pub(crate) fn len(&self) -> u128
        ensures { given_len R.bytes_of self.now < 2 ^ 128 → result ≡ given_len R.bytes_of self.now }
    {
        self.lost.saturating_add(self.buffer.bytes().len() as u128)
    }
}

impl<R: TextBuffer> Sink for TextBuilder<R> {
    ghost given = { IsBuilt R.bytes_of };

    ghost laws = { builds R.bytes_of };

    #[inline(always)]
    fn put(&mut self, bytes: &[u8]) {
        match self.buffer.append(bytes) {
            Ok(()) => {}
            Err(_) => self.lost = self.lost.saturating_add(bytes.len() as u128),
        }
    }

    // A shorter text may still find room.
}

/// How many bytes were given.
#[derive(Clone, Copy, Debug)]
pub(crate) struct ByteCount {
    pub(crate) len: u128,
}

impl Sink for ByteCount {
    ghost use Rattle.pf_canon.specs.Sink.{IsCounted};
    ghost use Rattle.pf_canon.specs.SinkLaws.{counts};

    ghost given = { IsCounted };

    ghost laws = { counts };

    #[inline(always)]
    fn put(&mut self, bytes: &[u8]) {
        self.len = self.len.wrapping_add(bytes.len() as u128);
    }
}

/// What is left of a text that is expected, as long as nothing else was given.
#[derive(Clone, Copy, Debug)]
pub(crate) struct Expected<'a> {
    pub(crate) left: Option<&'a [u8]>,
}

impl<'a> Expected<'a> {
    /// All of a text is expected.
    #[inline(always)]
    pub(crate) fn new(text: &'a [u8]) -> Expected<'a>
        ensures { IsLeft result.left text.now }
    {
        Expected { left: Some(text) }
    }
}

impl Sink for Expected<'_> {
    ghost given = { IsStripped };

    ghost laws = { strips };

    #[inline(always)]
    fn put(&mut self, bytes: &[u8]) {
        self.left = strip_front(bytes, self.left);
    }
}

// What is left after these bytes, if it begins with them.
#[inline(always)]
fn strip_front<'a>(front: &[u8], left: Option<&'a [u8]>) -> Option<&'a [u8]>
    ensures { IsFrontStripped left.entry front.now result }
{
    match left {
        Some(left) => left.strip_prefix(front),
        None => None,
    }
}
