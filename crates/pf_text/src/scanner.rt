//! A reader of a format, byte by byte.
ghost use Rattle.std.specs.Prelude.{◌≡◌, ◌+◌, ◌≤◌, ◌<◌, false, length, List, [], ◌++◌, IsTrue, MatchBool, MatchResult, OnOk, Ok, Err};
ghost use Rattle.pf_values.specs.declared.limits.TheConstants.{MAX_TEXT_LEN};
ghost use Rattle.pf_values.specs.meaning.Items.{Item, Reads};
ghost use Rattle.pf_values.specs.meaning.Text.{Text};
ghost use Rattle.pf_text.specs.Stages.{state_of};
ghost use Rattle.pf_text.specs.States.{next};
ghost use Rattle.pf_text.specs.History.{IsAfter, HasRefused, Feeds, Finishes, offset_of, refusal_by, refused_by, refusing};

use crate::refusals::Refusal;
use crate::state::{Automaton, Move};
use pf_values::limits::MAX_TEXT_LEN;
use pf_values::{Directive, RefusalKind};

/// What one more byte ends (C11 7.21.6.1, paragraphs 3 and 4).
#[derive(Clone, Copy, Debug, PartialEq, Eq)]
pub enum Step {
    /// Nothing: the byte is inside a specification.
    More,
    /// A literal byte, which prints itself.
    Byte(u8),
    /// The end of `%%`.
    Percent,
    /// The end of a specification.
    Directive(Directive),
}

/// A reader of one text, which may come in any cuts. It is of fixed size.
#[derive(Clone, Copy, Debug)]
pub struct Scanner {
    automaton: Automaton,
    offset: u64,
    refused: Option<Refusal>,
}

impl Scanner {
    /// Returns a reader that has taken nothing.
    pub fn new() -> Scanner
        ensures { IsAfter result [] [] }
    {
        Scanner {
            automaton: Automaton::new(),
            offset: 0,
            refused: None,
        }
    }

    /// Returns a reader that has taken a text of whole items, of `len` bytes.
    pub fn after_items(len: usize) -> Scanner
        ensures { (t : Text) (items : List Item) → Reads t items → length t ≡ len
            → len ≤ MAX_TEXT_LEN → IsAfter result t items }
    {
        let mut scanner = Scanner::new();
        scanner.offset = len as u64;
        scanner
    }

    /// Takes one more byte, and returns the item that it ends, if it ends one. `Err` if the byte is
    /// rejected: it isn't taken, and from then on every call returns that refusal.
    #[inline(always)]
    pub fn feed(&mut self, byte: u8) -> Result<Step, Refusal>
        // One more byte of a text is taken, or is rejected however the text goes on.
        ensures fed { (t : Text) (items : List Item) → IsAfter self.old t items
            → Feeds t items byte result self.new }
        // A refusal is kept.
        ensures kept { MatchResult result (λ _. offset_of self.new ≡ offset_of self.old + 1)
            (λ refusal. HasRefused self.new refusal × (offset_of self.new ≡ offset_of self.old)) }
        // No byte is taken past the limit.
        ensures below { OnOk result (offset_of self.old < MAX_TEXT_LEN) }
        // After a refusal the answer stays the same.
        ensures stays { (refusal : Refusal) → HasRefused self.old refusal
            → (result ≡ Err refusal) × (self.new ≡ self.old) }
    {
        if let Some(refusal) = self.refused {
            return Err(refusal);
        }
        match self.take(byte) {
            Ok(step) => Ok(step),
            Err(kind) => self.refuse(kind),
        }
    }

    /// Takes one more byte, as `feed`, if nothing was rejected before. It returns why a byte is
    /// rejected, and doesn't keep that.
    #[inline(always)]
    pub(crate) fn take(&mut self, byte: u8) -> Result<Step, RefusalKind>
        ensures fed { (t : Text) (items : List Item) → IsAfter self.old t items
            → Feeds t items byte (refused_by self.new result) self.new }
        ensures kept { MatchResult result (λ _. offset_of self.new ≡ offset_of self.old + 1)
            (λ _. offset_of self.new ≡ offset_of self.old) }
        ensures below { OnOk result (offset_of self.old < MAX_TEXT_LEN) }
    {
        if self.offset >= MAX_TEXT_LEN {
            return Err(RefusalKind::TooLong);
        }
        match self.step(byte) {
            Ok(step) => {
                self.offset += 1;
                Ok(step)
            }
            Err(kind) => Err(kind),
        }
    }

    // Gives the automaton one more byte, and returns the item that it ends, if it ends one.
    #[inline(always)]
    fn step(&mut self, byte: u8) -> Result<Step, RefusalKind>
        ensures made { MatchResult result (λ step. next (state_of self.old.automaton) byte
            ≡ Ok (state_of self.new.automaton, step))
            (λ kind. next (state_of self.old.automaton) byte ≡ Err kind) }
        ensures offset { self.new.offset ≡ self.old.offset }
        ensures refused { self.new.refused ≡ self.old.refused }
    {
        match self.automaton.step(byte) {
            Ok(Move::More) => Ok(Step::More),
            Ok(Move::Byte) => Ok(Step::Byte(byte)),
            Ok(Move::Percent) => Ok(Step::Percent),
            Ok(Move::Ended) => match self.automaton.directive() {
                Ok(directive) => Ok(Step::Directive(directive)),
                Err(kind) => Err(kind),
            },
            Err(kind) => Err(kind),
        }
    }

    // Whether the text so far is whole.
    #[inline(always)]
    fn is_between(&self) -> bool
        ensures read { (t : Text) (items : List Item) → IsAfter self.now t items
            → MatchBool result (Reads t items) (Reads t items → ⊥) }
        ensures stays { (refusal : Refusal) → HasRefused self.now refusal → result ≡ false }
    {
        if self.refused.is_some() {
            return false;
        }
        self.automaton.is_between()
    }

    /// Returns whether whole items of up to `most` bytes may be taken by `pass_items`: not inside an item,
    /// after a refusal, and where the text could become too long.
    #[inline(always)]
    pub fn may_pass(&self, most: usize) -> bool
        ensures { (t : Text) (items : List Item) → IsAfter self.now t items → IsTrue result
            → Reads t items × (self.now.offset + most ≤ MAX_TEXT_LEN) }
    {
        // The offset is never above the limit, so nothing wraps.
        if most as u64 > MAX_TEXT_LEN.wrapping_sub(self.offset) {
            return false;
        }
        self.is_between()
    }

    /// Takes whole items of `len` bytes, which the caller has read.
    #[inline(always)]
    pub fn pass_items(&mut self, len: usize)
        ensures { (t text : Text) (items more : List Item) → IsAfter self.old t items → Reads t items
            → Reads text more → length text ≡ len → self.old.offset + len ≤ MAX_TEXT_LEN
            → IsAfter self.new (t ++ text) (items ++ more) }
    {
        self.offset = self.offset.wrapping_add(len as u64);
    }

    fn refuse(&mut self, kind: RefusalKind) -> Result<Step, Refusal>
        ensures { (result ≡ Err (refusal_by self.old kind)) × (self.new ≡ refusing self.old kind) }
    {
        let refusal = self.refusal(kind);
        self.refused = Some(refusal);
        Err(refusal)
    }

    /// A refusal of the next byte, or of the end.
    #[inline(always)]
    pub(crate) fn refusal(&self, kind: RefusalKind) -> Refusal
        ensures { result ≡ refusal_by self.now kind }
    {
        refusal_at(kind, self.offset)
    }

    /// Checks whether the text so far is whole. `Err` if not: it is rejected as truncated, unless a
    /// byte of it was rejected.
    pub fn finish(&self) -> Result<(), Refusal>
        ensures finished { (t : Text) (items : List Item) → IsAfter self.now t items
            → Finishes t items result }
        ensures stays { (refusal : Refusal) → HasRefused self.now refusal → result ≡ Err refusal }
    {
        if let Some(refusal) = self.refused {
            return Err(refusal);
        }
        if self.automaton.is_between() {
            return Ok(());
        }
        Err(self.refusal(RefusalKind::Truncated))
    }

    /// Returns how many bytes were taken.
    pub fn offset(&self) -> u64
        ensures { result ≡ offset_of self.now }
    {
        self.offset
    }
}

// Never inlined: so the offset of a reader is never part of an answer, and stays whole in its
// register.
#[inline(never)]
fn refusal_at(kind: RefusalKind, at: u64) -> Refusal
    ensures { result ≡ record { kind = kind; at = at } }
{
    Refusal { kind, at }
}
