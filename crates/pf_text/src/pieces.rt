//! The pieces of a format in memory: runs of literal bytes, `%%`, and directives.
ghost use Rattle.std.specs.Prelude.{◌≡◌, ◌≢◌, ◌<◌, [], drop, get_or, length, MatchOption};
ghost use Rattle.pf_values.specs.meaning.Text.{percent};
ghost use Rattle.pf_text.specs.FoundDirectives.{BeginsNoItem};
ghost use Rattle.pf_text.specs.PieceHistory.{IsPieceAt};

use crate::checking::refusal_at;
use crate::refusals::Refusal;
use crate::search::literal_len;
use crate::specification::directive_at_percent;
use crate::walk::within_limit;
use pf_values::{ArgType, Directive, Model};

/// A piece of a format.
#[derive(Clone, Copy, Debug, PartialEq, Eq)]
pub enum Piece<'a> {
    /// A longest run of literal bytes, never empty.
    Literal(&'a [u8]),
    /// `%%`
    Percent,
    /// A conversion specification.
    Directive(Directive),
}

impl Piece<'_> {
    ghost use Rattle.std.specs.Option.{option_to_list};
    ghost use Rattle.pf_values.specs.meaning.Items.{types};
    ghost use Rattle.pf_text.specs.PieceHistory.{items_of};

    /// Returns the type of the argument that the piece takes in this data model, or `None` if it
    /// takes none.
    #[inline]
    pub fn arg_type(&self, model: Model) -> Option<ArgType>
        ensures { option_to_list result ≡ types model (items_of self.now) }
    {
        match self {
            Piece::Directive(directive) => Some(directive.arg_type(model)),
            Piece::Percent => None,
            Piece::Literal(_) => None,
        }
    }
}

/// The pieces of a text, in order, up to its end or to where it is rejected. Then the refusal is
/// given once.
#[derive(Debug, Drop)]
pub struct Pieces<'a> {
    text: &'a [u8],
    at: usize,
    is_over: bool,
}

impl<'a> Pieces<'a> {
    ghost use Rattle.pf_text.specs.PieceHistory.{HasGiven};

    /// Returns all the pieces of a text.
    pub fn new(text: &'a [u8]) -> Pieces<'a>
        ensures { HasGiven result text.now [] [] }
    {
        Pieces {
            text,
            at: 0,
            is_over: false,
        }
    }
}

// The piece at an offset, and where it ends. None at the end, and where no item begins.
#[inline(always)]
fn piece_at(text: &[u8], at: usize) -> Option<(Piece<'_>, usize)>
    ensures { MatchOption result (BeginsNoItem (drop at text.now))
        (λ next. IsPieceAt text.now at next.0 next.1) }
{
    if at >= text.len() {
        return None;
    }
    if text[at] != b'%' {
        return literal_at(text, at);
    }
    if at + 1 >= text.len() {
        return None;
    }
    if text[at + 1] == b'%' {
        return Some((Piece::Percent, at + 2));
    }
    let found = directive_at_percent(text, at)?;
    Some((Piece::Directive(found.directive), found.stop))
}

// The run of literal bytes at an offset, and where it ends.
#[inline(always)]
fn literal_at(text: &[u8], at: usize) -> Option<(Piece<'_>, usize)>
    requires within { at < length text.now }
    requires other { get_or text.now at 0 ≢ percent }
    ensures { MatchOption result (BeginsNoItem (drop at text.now))
        (λ next. IsPieceAt text.now at next.0 next.1) }
{
    let stop = at + literal_len(&text[at..]);
    if stop == at {
        return None;
    }
    Some((Piece::Literal(&text[at..stop]), stop))
}

impl<'a> Iterator for Pieces<'a> {
    ghost use Rattle.pf_text.specs.PieceHistory.{NextReturns, pieces_to_come};

    type Item = Result<Piece<'a>, Refusal>;

    ghost next_gives = { NextReturns };

    ghost remaining = { pieces_to_come };

    #[inline(always)]
    fn next(&mut self) -> Option<Result<Piece<'a>, Refusal>> {
        if self.is_over {
            return None;
        }
        if let Some((piece, stop)) = piece_at(within_limit(self.text), self.at) {
            self.at = stop;
            return Some(Ok(piece));
        }
        self.is_over = true;
        if self.at == self.text.len() {
            return None;
        }
        match refusal_at(self.text, self.at) {
            Some(refusal) => Some(Err(refusal)),
            None => None,
        }
    }
}
