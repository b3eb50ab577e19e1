//! The bytes at the front of a format that need no change.
ghost use Rattle.std.specs.Prelude.{IsTrue, MatchResult, ◌≡◌};
ghost use Rattle.pf_values.specs.meaning.Text.{Text};
ghost use Rattle.pf_canon.specs.Languages.{HasCanonicalIn};
ghost use Rattle.pf_canon.specs.VerbatimFronts.{IsVerbatimFront, front_model};

use crate::items::{put_stretch, run_end};
use crate::languages::{Language, put_others};
use crate::sink::Sink;
use pf_text::{Canonical, Refusal, Walk};
use pf_values::Model;

/// The bytes at the front of a format that are verbatim, that is, their own canonical text in a data
/// model.
#[derive(Clone, Copy, Debug)]
pub struct VerbatimFront<'a> {
    model: Model,
    // Where it ends.
    walk: Walk<'a>,
}

impl<'a> VerbatimFront<'a> {
    /// Returns verbatim bytes at the front of a format, in a language. No clause says how many: there may be none.
    #[inline(always)]
    pub fn of<L: Language>(model: Model, text: &'a [u8]) -> VerbatimFront<'a>
        ensures model { front_model result ≡ model }
        ensures front { IsVerbatimFront L.has_front text.now result }
    {
        let mut walk = Walk::new(text);
        walk.at = run_end::<(Canonical, L)>(walk, 0);
        VerbatimFront { model, walk }
    }

    /// Returns whether all bytes of the format are verbatim, as they are in most. Then it is accepted,
    /// and its own canonical text. False for a rejected text, and for some formats that are canonical,
    /// too.
    #[inline(always)]
    pub fn is_all<L: Language>(&self, text: &[u8]) -> bool
        requires { IsVerbatimFront L.has_front text.now self.now }
        ensures { IsTrue result → HasCanonicalIn L.has_front (front_model self.now) text.now text.now }
    {
        self.walk.at == text.len()
    }

    /// Puts all of the canonical text of the format, in a language.
    #[inline(always)]
    pub(crate) fn put<L: Language, S: Sink>(&self, text: &[u8], sink: &mut S) -> Result<(), Refusal>
        requires { IsVerbatimFront L.has_front text.now self.now }
        ensures { MatchResult result (λ _. (c : Text) × S.given sink.old sink.new c
            × HasCanonicalIn L.has_front (front_model self.now) text.now c)
            (λ refusal. L.refuses (front_model self.now) text.now refusal.kind refusal.at) }
    {
        let stop = put_stretch::<L, _>(self.model, self.walk, 0, sink);
        if stop == text.len() {
            return Ok(());
        }
        put_others::<L, S>(self.model, self.walk, text, stop, sink)
    }
}
