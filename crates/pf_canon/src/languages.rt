//! The languages of formats: what each has that the profile lacks.
ghost use Rattle.std.specs.Prelude.{◌≡◌, ◌<◌, ◌≤◌, ◌++◌, [], drop, length, take, refl, IfOk, IfSome, MatchOption, MatchResult, ⊤};
ghost use Rattle.arrayvec.specs.ArrayVec.{array_vec_len};
ghost use Rattle.pf_values.specs.declared.limits.TheConstants.{MAX_TEXT_LEN};
ghost use Rattle.pf_values.specs.declared.models.Model.{Model};
ghost use Rattle.pf_values.specs.meaning.Refusals.{IsRefusedAt};
ghost use Rattle.pf_values.specs.meaning.Text.{Text};
ghost use Rattle.pf_text.specs.FoundDirectives.{BeginsNoItem};
ghost use Rattle.pf_text.specs.Walks.{AreRead, Either, IsMadeOf, IsWalkOver};
ghost use Rattle.pf_canon.specs.Languages.{ComesVerbatim, Front, GoesOnIn, HasCanonicalIn, IsAcceptedIn, Refuses};

use crate::items::{put_stretch, run_end};
use crate::sink::Sink;
use pf_text::{Canonical, Passed, Refusal, Spelling, Walk, items_end_from, refusal_at};
use pf_values::Model;

/// An item that the profile lacks.
#[derive(Drop)]
pub struct OtherItem {
    /// How a canonical text spells it.
    pub spelling: Spelling,
    /// The offset at which it ends.
    pub stop: usize,
}

/// A language of formats: the profile, and items of its own. Those that it passes are their own canonical text.
pub trait Language: Passed {
    // a front of a text that is empty or ends with an item of its own has this canonical text
    ghost has_front: { Front };

    // where and why a text is rejected
    ghost refuses: { Refuses };

    /// Returns the item of its own at an offset of a text. What comes before it is accepted, and no item of the
    /// profile begins there that ends within the limit. `None` at the end of the text. `Err` if the text is
    /// rejected there.
    fn other_at(model: Model, text: &[u8], at: usize) -> Result<Option<OtherItem>, Refusal>
        requires within { at ≤ length text.now }
        requires front { IsAcceptedIn has_front model (take at text.now) }
        requires none { BeginsNoItem (drop at (take MAX_TEXT_LEN text.now)) }
        ensures next { (c : Text) → HasCanonicalIn has_front model (take at text.now) c
            → MatchResult result (λ found. MatchOption found (at ≡ length text.now)
            (λ other. has_front model (take other.stop text.now) (c ++ other.spelling.items)))
            (λ refusal. refuses model text.now refusal.kind refusal.at) }
        ensures placed { IfOk result (λ found. IfSome found (λ other. (at < other.stop)
            × (other.stop ≤ length text.now) × (other.stop ≤ MAX_TEXT_LEN)
            × (array_vec_len other.spelling ≤ 20))) };

    ghost has_none: { (model : Model) → has_front model [] [] };

    // its verbatim items are its own, and are copied unchanged
    ghost has_passed: { (model : Model) → ComesVerbatim has_front Self.passes model };
}

/// Puts the canonical text of what comes after the first stretch of a text.
#[inline(never)]
pub(crate) fn put_others<L: Language, S: Sink>(
    model: Model,
    walk: Walk<'_>,
    text: &[u8],
    first: usize,
    sink: &mut S,
) -> Result<(), Refusal>
    requires over { IsWalkOver text.now walk }
    requires within { first ≤ length walk.text.now }
    requires none { BeginsNoItem (drop first walk.text.now) }
    requires front { IsAcceptedIn L.has_front model (take first text.now) }
    ensures { (c : Text) → HasCanonicalIn L.has_front model (take first text.now) c
        → MatchResult result (λ _. (more : Text) × S.given sink.old sink.new more
        × HasCanonicalIn L.has_front model text.now (c ++ more))
        (λ refusal. L.refuses model text.now refusal.kind refusal.at) }
{
    let mut at = first;
    while let Some(other) = L::other_at(model, text, at)? {
        sink.put(&other.spelling);
        let mut rest = walk;
        rest.at = run_end::<(Canonical, L)>(walk, other.stop);
        at = put_stretch::<L, _>(model, rest, other.stop, sink);
    }
    Ok(())
}

/// Checks whether a text is accepted in a language. `Err` if it is rejected. Allocates nothing.
pub fn check_in<L: Language>(model: Model, text: &[u8]) -> Result<(), Refusal>
    ensures { MatchResult result (λ _. IsAcceptedIn L.has_front model text.now)
        (λ refusal. L.refuses model text.now refusal.kind refusal.at) }
{
    check_from::<L>(model, text, Walk::new(text))
}

/// Checks whether a text is accepted whose first `front` bytes are whole items.
#[inline(always)]
pub(crate) fn check_after<L: Language>(
    model: Model,
    text: &[u8],
    front: usize,
) -> Result<(), Refusal>
    requires within { (front ≤ length text.now) × (front ≤ MAX_TEXT_LEN) }
    requires read { IsMadeOf (Either AreRead L.passes) (take front text.now) }
    ensures { MatchResult result (λ _. IsAcceptedIn L.has_front model text.now)
        (λ refusal. L.refuses model text.now refusal.kind refusal.at) }
{
    check_from::<L>(model, text, Walk::from(text, front))
}

/// Checks whether a text is accepted. What comes before a walk over it is.
pub(crate) fn check_from<L: Language>(
    model: Model,
    text: &[u8],
    walk: Walk<'_>,
) -> Result<(), Refusal>
    requires over { IsWalkOver text.now walk }
    requires within { walk.at ≤ length walk.text.now }
    requires front { (out : Text) × GoesOnIn L.has_front L.passes model (take walk.at text.now) out }
    ensures { (out : Text) → GoesOnIn L.has_front L.passes model (take walk.entry.at text.now) out
        → MatchResult result (λ _. (more : Text) × HasCanonicalIn L.has_front model text.now (out ++ more))
        (λ refusal. L.refuses model text.now refusal.kind refusal.at) }
{
    let mut at = items_end_from::<L>(walk);
    while let Some(other) = L::other_at(model, text, at)? {
        let mut rest = walk;
        rest.at = other.stop;
        at = items_end_from::<L>(rest);
    }
    Ok(())
}

/// The profile alone.
#[derive(Clone, Copy, Debug)]
pub struct Profile;

impl Passed for Profile {
    ghost passes = { λ item. ⊥ };

    ghost leaves = { λ byte. ⊤ };

    #[inline(always)]
    fn len(_: &[u8], _: usize) -> usize {
        0
    }
}

impl Language for Profile {
    ghost has_front = { λ model front out. (front ≡ []) × (out ≡ []) };

    ghost refuses = { λ model. IsRefusedAt };

    ghost has_none = { λ model. (refl, refl) };

    ghost has_passed = { λ model front out last own passed items begins reads is none. absurd none };

    #[inline(always)]
    fn other_at(_: Model, text: &[u8], at: usize) -> Result<Option<OtherItem>, Refusal> {
        if at == text.len() {
            return Ok(None);
        }
        match refusal_at(text, at) {
            Some(refusal) => Err(refusal),
            None => Ok(None),
        }
    }
}
