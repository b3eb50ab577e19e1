//! A walk over the conversion specifications of a format.
ghost use Rattle.std.specs.Prelude.{◌≡◌, ◌++◌, ◌<◌, ◌≤◌, ◌∷◌, [], ℕ, IfSome, List, MatchOption, MatchResult, drop, length};
ghost use Rattle.pf_values.specs.declared.models.Model.{Model as ModelOf};
ghost use Rattle.pf_values.specs.meaning.Text.{Text};
ghost use Rattle.pf_posix.specs.declared.directive_spans.DirectiveSpan.{DirectiveSpan as DirectiveSpanOf};
ghost use Rattle.pf_posix.specs.declared.specification_spans.SpecificationSpan.{SpecificationSpan as SpecificationSpanOf};
ghost use Rattle.pf_posix.specs.Directives.{directives_from};
ghost use Rattle.pf_posix.specs.DirectivesInText.{IsBehindItem, IsListedBehind, IsListedTo};
ghost use Rattle.pf_posix.specs.Halts.{offsets_read};
ghost use Rattle.pf_posix.specs.Items.{WholeItem, ReadsWhole};
ghost use Rattle.pf_posix.specs.PartsInText.{specification_read};
ghost use Rattle.pf_posix.specs.Refusals.{IsWholeRefusedAt};
ghost use Rattle.pf_posix.specs.SpecificationSpans.{AreWholePartsAt, HasItsParts};
ghost use Rattle.pf_posix.specs.SpecificationWalks.{AreTheRest, IsAhead, IsBefore, IsReadable};

use crate::argument_types::arguments;
use crate::directive_spans::fetch_count;
use crate::specification_spans::{SpecificationSpan, span_of};
use crate::specifications::{Numbering, Specification, has_byte, has_errno, specification_at};
use pf_text::{Percents, Refusal, Walk};
use pf_values::Model;

/// A walk over the conversion specifications of a format of the whole language in a data model, in the order of
/// the text (C11 7.21.6.1, paragraphs 3 to 5; POSIX fprintf on numbered arguments). `%%` and `%m` do not count as
/// one.
#[derive(Clone, Copy, Debug)]
pub struct SpecificationWalk<'a> {
    model: Model,
    text: &'a [u8],
    walk: Walk<'a>,
    fetched: u64,
}

impl<'a> SpecificationWalk<'a> {
    /// Returns a walk before the first specification of a format. `Err` for the formats that `arguments` rejects.
    pub fn over(model: Model, text: &'a [u8]) -> Result<SpecificationWalk<'a>, Refusal>
        ensures { MatchResult result (λ walk. IsBefore model text.now walk)
            (λ refusal. IsWholeRefusedAt model text.now refusal.kind refusal.at) }
    {
        match arguments(model, text, &mut []) {
            Ok(_) => Ok(SpecificationWalk::of(model, text)),
            Err(refusal) => Err(refusal),
        }
    }

    /// The walk over a text that is read as items.
    #[inline(always)]
    pub(crate) fn of(model: Model, text: &'a [u8]) -> SpecificationWalk<'a>
        requires { IsReadable text.now }
        ensures { (items : List WholeItem) (reads : ReadsWhole text.now items)
            → IsAhead text.now result (directives_from model 0 0 text.now items reads) [] }
    {
        SpecificationWalk {
            model,
            text,
            walk: Walk::new(text),
            fetched: 0,
        }
    }

    /// Returns the next specification, or `None` at the end of the text.
    #[inline(always)]
    pub fn next(&mut self) -> Option<SpecificationSpan>
        requires { (t : Text) × (all : List DirectiveSpanOf) × (done : List DirectiveSpanOf)
            × IsAhead t self.old all done }
        ensures next { (t : Text) (all done : List DirectiveSpanOf) → IsAhead t self.old all done
            → MatchOption result (done ≡ all)
            (λ span. IsAhead t self.new all (done ++ span.directive ∷ []) × HasItsParts t span) }
        ensures further { IfSome result (λ _. self.old.walk.at < self.new.walk.at) }
    {
        while self.walk.at < self.text.len() {
            let begin = self.walk.at;
            match item_at(self.text, begin) {
                (None, end) => {
                    self.walk.at = end;
                    self.walk.find::<Percents>();
                }
                (Some(read), end) => {
                    let span = span_of(self.model, begin, end, self.fetched, &read);
                    self.walk.at = end;
                    self.fetched += fetch_count(&read);
                    return Some(span);
                }
            }
        }
        None
    }

    /// Returns how many specifications are ahead.
    pub fn count(&self) -> u64
        requires { (t : Text) × (all : List DirectiveSpanOf) × (done : List DirectiveSpanOf)
            × IsAhead t self.now all done }
        ensures { (t : Text) (all done : List DirectiveSpanOf) → IsAhead t self.now all done
            → (spans : List SpecificationSpanOf) × AreTheRest t all done spans × (result ≡ length spans) }
    {
        let mut walk = *self;
        let mut count = 0;
        while let Some(_) = walk.next() {
            count += 1;
        }
        count
    }

    /// Returns a number that isn't less than that of the specifications of the format.
    pub fn most(&self) -> u64
        ensures { (t : Text) (all done : List DirectiveSpanOf) → IsAhead t self.now all done → length all ≤ result }
    {
        (self.text.len() / 2) as u64
    }
}

/// The item at an offset of an accepted format, if it is a specification; and where it ends.
#[inline(always)]
pub(crate) fn item_at(text: &[u8], at: usize) -> (Option<Specification>, usize)
    requires within { at < length text.now }
    requires reads { (items : List WholeItem) × ReadsWhole (drop at text.now) items }
    ensures further { at < result.1 }
    ensures item { (items : List WholeItem) → ReadsWhole (drop at text.now) items
        → IsBehindItem text.now items result.0 result.1 }
    ensures listed { (model : ModelOf) (all done : List DirectiveSpanOf) (next : ℕ)
        → IsListedTo model text.now all at next done
        → IsListedBehind model text.now all at next done result.0 result.1 }
    ensures parts { IfSome result.0 (λ read. AreWholePartsAt text.now at result.1 (offsets_read read) (specification_read read)) }
{
    if text[at] != b'%' {
        return (None, at + 1);
    }
    if has_byte(text, at + 1, b'%') {
        return (None, at + 2);
    }
    if has_errno(text, at) {
        return (None, at + 2);
    }
    let Ok((read, end)) = specification_at(text, at, Numbering::Undecided) else {
        unreachable!();
    };
    (Some(read), end)
}
