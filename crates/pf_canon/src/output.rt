//! The output that one item settles, to be put into a sink whole, or to be given in slices or byte
//! by byte.
ghost use Rattle.std.specs.Prelude.{◌≡◌, ◌*◌, ◌++◌, ◌<◌, ◌≤◌, ℕ, List, drop, flat_map, length, replicate, ◌+◌, ◌^◌};
ghost use Rattle.pf_values.specs.meaning.Canonical.{item_spelling};
ghost use Rattle.pf_values.specs.meaning.Items.{Item};
ghost use Rattle.pf_values.specs.meaning.Text.{Text};
ghost use Rattle.pf_text.specs.CanonicalRuns.{silents};
ghost use Rattle.pf_values.specs.declared.padding.TheConstants.{MAX_RUN};
ghost use Rattle.pf_canon.specs.Output.{IsFrontOf, text_after_zeros, output_text, silent_bytes, Pops, pending_text};
ghost use Rattle.pf_canon.specs.Transducer.{SettlesDirective, byte_output_text};
ghost use Rattle.pf_canon.specs.declared.limits.TheConstants.{MAX_DIRECTIVE_LEN};

use crate::sink::{Sink, put_repeated, put_silents};
use pf_reduce::{Core, Reduced, reduce};
use pf_text::{Spelling, spell};
use pf_values::padding::MAX_RUN;
use pf_values::{Directive, Model, padding};
use std::slice;

/// What a step of the scanner settles.
#[derive(Drop)]
pub(crate) enum StepOutput {
    /// Nothing.
    Nothing,
    /// The byte itself, a literal one.
    Literal,
    /// These bytes.
    Output(SettledText),
}

/// Spaces, zeros, silent directives `%.0s`, a spelling or nothing, and spaces.
#[derive(Drop)]
pub(crate) struct SettledText {
    pub(crate) spaces: u16,
    pub(crate) zeros: u16,
    pub(crate) silents: u64,
    pub(crate) spelling: Spelling,
    pub(crate) trail: u16,
}

impl SettledText {
    /// Silent directives, and a spelling.
    #[inline(always)]
    pub(crate) fn spelled(count: u64, spelling: Spelling) -> SettledText
        ensures { output_text result ≡ flat_map item_spelling (silents count) ++ spelling.items }
    {
        SettledText {
            spaces: 0,
            zeros: 0,
            silents: count,
            spelling,
            trail: 0,
        }
    }

    /// Puts these bytes into a sink.
    #[inline(always)]
    pub(crate) fn put<S: Sink>(&self, sink: &mut S)
        ensures { S.given sink.old sink.new (output_text self.now) }
    {
        put_repeated(sink, padding::spaces(MAX_RUN), self.spaces);
        put_repeated(sink, padding::zeros(MAX_RUN), self.zeros);
        put_silents(sink, self.silents);
        sink.put(&self.spelling);
        put_repeated(sink, padding::spaces(MAX_RUN), self.trail);
    }

    /// The first bytes from an offset on, some if there are any.
    pub(crate) fn front(&self, at: u128) -> &[u8]
        ensures { IsFrontOf (drop at (output_text self.now)) result.now }
    {
        let spaces = u128::from(self.spaces);
        if at < spaces {
            return repeated(padding::spaces(MAX_RUN), spaces - at);
        }
        let behind = at - spaces;
        let zeros = u128::from(self.zeros);
        if behind < zeros {
            return repeated(padding::zeros(MAX_RUN), zeros - behind);
        }
        self.front_after_zeros(behind - zeros)
    }

    // The first bytes, from an offset on, of what comes after the zeros.
    fn front_after_zeros(&self, at: u128) -> &[u8]
        ensures { IsFrontOf (drop at (text_after_zeros self.now)) result.now }
    {
        let silents = 4 * u128::from(self.silents);
        if at < silents {
            return silent_front(b"%.0s", at);
        }
        let behind = at - silents;
        let spelling = self.spelling.as_slice();
        let spelled = spelling.len() as u128;
        if behind < spelled {
            return &spelling[behind as usize..];
        }
        repeated(
            padding::spaces(MAX_RUN),
            u128::from(self.trail).saturating_sub(behind - spelled),
        )
    }

    /// How many bytes these are.
    pub(crate) fn len(&self) -> u128
        ensures total { result ≡ length (output_text self.now) }
        ensures few { result < 2 ^ 100 }
    {
        whole_len(
            self.spaces,
            self.zeros,
            self.silents,
            self.spelling.len(),
            self.trail,
        )
    }
}

/// Returns what a directive settles: its padding and, unless it is silent, the silent directives that were
/// held, and its spelling. They are held no longer then, and a silent one is held with them.
#[inline(always)]
pub(crate) fn settle(model: Model, directive: &Directive, held: &mut u64) -> SettledText
    ensures settles { (out : Text) (items rest : List Item)
        → SettlesDirective model directive.now items rest out held.old result held.new }
    ensures few { length (output_text result) + 4 * held.new ≤ 4 * held.old + MAX_DIRECTIVE_LEN }
    ensures one { held.new ≤ held.old + 1 }
{
    let Reduced {
        spaces,
        zeros,
        core,
        trail,
    } = reduce(model, directive);
    match core {
        Core::Silent => {
            *held = held.saturating_add(1);
            SettledText {
                spaces,
                zeros,
                silents: 0,
                spelling: Spelling::new(),
                trail,
            }
        }
        Core::Normal(normal) => {
            let silents = *held;
            *held = 0;
            SettledText {
                spaces,
                zeros,
                silents,
                spelling: spell(&normal.directive()),
                trail,
            }
        }
    }
}

// The first of `count` equal bytes, at most a block of them.
fn repeated(block: &[u8], count: u128) -> &[u8]
    requires { length block.now ≡ MAX_RUN }
    ensures { (byte : ℕ) → block.now ≡ replicate MAX_RUN byte
        → IsFrontOf (replicate count byte) result.now }
{
    if count < MAX_RUN as u128 {
        return &block[..count as usize];
    }
    block
}

// The first bytes, from an offset on, of some silent directives; `silent` is one of them.
fn silent_front(silent: &[u8], at: u128) -> &[u8]
    requires { silent.now ≡ silent_bytes }
    ensures { (count : ℕ) → at < 4 * count
        → IsFrontOf (drop at (flat_map item_spelling (silents count))) result.now }
{
    &silent[(at % 4) as usize..]
}

// How many bytes some padding, silent directives of four bytes, and a spelling of `spelling` bytes
// are.
fn whole_len(spaces: u16, zeros: u16, silents: u64, spelling: usize, trail: u16) -> u128
    ensures total { result ≡ spaces + (zeros + (4 * silents + (spelling + trail))) }
    ensures few { result < 2 ^ 100 }
{
    let padding = u128::from(spaces) + u128::from(zeros) + u128::from(trail);
    padding + u128::from(silents) * 4 + spelling as u128
}

/// What was settled, without the bytes that were given.
#[derive(Drop)]
pub(crate) enum PendingOutput {
    /// Nothing.
    Nothing,
    /// A literal byte.
    Literal(u8),
    /// An output, and how many of its bytes were given.
    Output(SettledText, u128),
}

impl PendingOutput {
    /// All of an output is pending.
    #[inline(always)]
    pub(crate) fn of(output: SettledText) -> PendingOutput
        ensures { pending_text result ≡ output_text output }
    {
        PendingOutput::Output(output, 0)
    }

    /// All that a byte settles is pending.
    #[inline(always)]
    pub(crate) fn of_byte(output: StepOutput, byte: u8) -> PendingOutput
        ensures { pending_text result ≡ byte_output_text output byte }
    {
        match output {
            StepOutput::Nothing => PendingOutput::Nothing,
            StepOutput::Literal => PendingOutput::Literal(byte),
            StepOutput::Output(output) => PendingOutput::of(output),
        }
    }

    /// The first bytes that are pending, some if there are any.
    #[inline(always)]
    pub(crate) fn front(&self) -> &[u8]
        ensures { IsFrontOf (pending_text self.now) result.now }
    {
        match self {
            PendingOutput::Nothing => &[],
            PendingOutput::Literal(byte) => slice::from_ref(byte),
            PendingOutput::Output(output, given) => output.front(*given),
        }
    }

    /// Gives the first `count` of the bytes that are pending, or all if there are fewer.
    pub(crate) fn skip(&mut self, count: usize)
        ensures { pending_text self.new ≡ drop count (pending_text self.old) }
    {
        if count == 0 {
            return;
        }
        if let PendingOutput::Output(output, given) = self {
            let past = given.saturating_add(count as u128);
            if past < output.len() {
                *given = past;
                return;
            }
        }
        *self = PendingOutput::Nothing;
    }

    /// Gives the next byte, and returns it.
    pub(crate) fn pop(&mut self) -> Option<u8>
        ensures { Pops (pending_text self.old) result (pending_text self.new) }
    {
        let byte = *self.front().first()?;
        self.skip(1);
        Some(byte)
    }
}
