//! A cursor over a source, which gives its parts one after another.
ghost use Rattle.std.specs.Prelude.{◌≡◌, ◌<◌, ◌≤◌, length, MatchOption};
ghost use Rattle.pf_literals.specs.declared.cursor.Cursor.{Cursor};
ghost use Rattle.pf_literals.specs.Elements.{Bytes};
ghost use Rattle.pf_literals.specs.Walks.{AdvancesCursor, IsNextPart, reading_left};
ghost use Rattle.pf_literals.specs.Readings.{Fault, HasNoFault, source_reading};

use crate::faults::{LiteralKind, LiteralRefusal};
use crate::search::verbatim_len;
use crate::tokens::{Context, Token, token_at};

/// A part of a source that denotes bytes.
#[derive(Clone, Copy, Debug)]
pub(crate) enum SourcePart<'a> {
    /// Verbatim bytes, and where the first one is.
    Verbatim(&'a [u8], usize),
    /// The byte that an element denotes, and where the element begins.
    Byte(u8, usize),
}

/// What comes next in a source.
#[derive(Clone, Copy, Debug)]
pub(crate) enum NextPart<'a> {
    /// A part.
    Given(SourcePart<'a>),
    /// The end, and where the last literal closes.
    End(usize),
    /// The text is not a source.
    Refused(LiteralRefusal),
}

/// The offset up to which a source was read, and what is there.
#[derive(Clone, Copy, Debug)]
pub(crate) struct Cursor {
    at: usize,
    context: Context,
}

impl Cursor {
    /// A cursor before the first byte.
    pub(crate) fn new() -> Cursor
        ensures { (t : Bytes) → reading_left t result ≡ source_reading t }
    {
        Cursor {
            at: 0,
            context: Context::Before,
        }
    }

    /// The next part, the end, or the fault. After the end and after a fault the cursor is of no use.
    pub(crate) fn next_part<'a>(&mut self, source: &'a [u8]) -> NextPart<'a>
        ensures next { IsNextPart source.now self.old result self.new }
        ensures further { AdvancesCursor source.now self.old result self.new }
    {
        while self.at < source.len() {
            if let Some(next) = self.step(source) {
                return next;
            }
        }
        self.end()
    }

    /// Why the rest of a source is rejected, if it is.
    pub(crate) fn refusal(self, source: &[u8]) -> Option<LiteralRefusal>
        ensures { MatchOption result (HasNoFault (reading_left source.now self))
            (λ refusal. reading_left source.now self ≡ Fault refusal.kind refusal.at) }
    {
        let mut cursor = self;
        loop {
            match cursor.next_part(source) {
                NextPart::Given(_) => {}
                NextPart::End(_) => return None,
                NextPart::Refused(refusal) => return Some(refusal),
            }
        }
    }

    // Takes verbatim bytes or a token; `None` where that gives no bytes.
    fn step<'a>(&mut self, source: &'a [u8]) -> Option<NextPart<'a>>
        requires { self.old.at < length source.now }
        ensures next { MatchOption result (reading_left source.now self.old ≡ reading_left source.now self.new)
            (λ next. IsNextPart source.now self.old next self.new) }
        ensures further { MatchOption result (self.old.at < self.new.at)
            (λ next. AdvancesCursor source.now self.old next self.new) }
    {
        if let Some(verbatim) = self.verbatim_part(source) {
            return Some(NextPart::Given(verbatim));
        }
        self.take_token(source)
    }

    // A run of verbatim bytes, if one comes next.
    fn verbatim_part<'a>(&mut self, source: &'a [u8]) -> Option<SourcePart<'a>>
        requires { self.old.at < length source.now }
        ensures next { MatchOption result (self.new ≡ self.old)
            (λ part. IsNextPart source.now self.old (NextPart.Given part) self.new) }
        ensures further { MatchOption result (self.new ≡ self.old)
            (λ part. AdvancesCursor source.now self.old (NextPart.Given part) self.new) }
    {
        match self.context {
            Context::Inside => {}
            Context::Before => return None,
            Context::Behind(_) => return None,
        }
        let at = self.at;
        let rest = &source[at..];
        let len = verbatim_len(rest);
        if len == 0 {
            return None;
        }
        self.at += len;
        Some(SourcePart::Verbatim(&rest[..len], at))
    }

    // Takes one token; `None` where it gives no byte.
    fn take_token<'a>(&mut self, source: &'a [u8]) -> Option<NextPart<'a>>
        requires { self.old.at < length source.now }
        ensures next { MatchOption result (reading_left source.now self.old ≡ reading_left source.now self.new)
            (λ next. IsNextPart source.now self.old next self.new) }
        ensures further { MatchOption result (self.old.at < self.new.at)
            (λ next. AdvancesCursor source.now self.old next self.new) }
    {
        let at = self.at;
        match token_at(self.context, &source[at..]) {
            Token::White => {
                self.at += 1;
                None
            }
            Token::OpenQuote => {
                self.context = Context::Inside;
                self.at += 1;
                None
            }
            Token::CloseQuote => {
                self.context = Context::Behind(at);
                self.at += 1;
                None
            }
            Token::Character(value, len) => {
                self.at += len;
                Some(NextPart::Given(SourcePart::Byte(value, at)))
            }
            Token::Invalid(kind, on) => Some(refused(kind, at + on)),
        }
    }

    // The answer at the end of the text.
    fn end<'a>(&mut self) -> NextPart<'a>
        ensures next { (t : Bytes) → length t ≤ self.old.at → IsNextPart t self.old result self.new }
        ensures further { (t : Bytes) (from : Cursor) → AdvancesCursor t from result self.new }
    {
        match self.context {
            Context::Before => refused(LiteralKind::NoLiteral, self.at),
            Context::Inside => refused(LiteralKind::Unterminated, self.at),
            Context::Behind(close) => NextPart::End(close),
        }
    }
}

fn refused<'a>(kind: LiteralKind, at: usize) -> NextPart<'a>
    ensures { result ≡ NextPart.Refused (record { kind = kind; at = at }) }
{
    NextPart::Refused(LiteralRefusal {
        kind,
        at: at as u64,
    })
}
