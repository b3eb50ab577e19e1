//! The canonical text of a format in memory, slice by slice.
ghost use Rattle.std.specs.Prelude.{◌≡◌, ◌≢◌, MatchBool, ◌++◌, ◌+◌, ◌≤◌, ◌<◌, [], None, drop, length, take, MatchResult};
ghost use Rattle.pf_values.specs.declared.models.Model.{Model as ModelOf};
ghost use Rattle.pf_values.specs.meaning.Text.{Text};
ghost use Rattle.pf_text.specs.FoundDirectives.{BeginsNoItem, IsFoundAt};
ghost use Rattle.pf_text.specs.Walks.{IsWalk};
ghost use Rattle.pf_canon.specs.Making.{IsBetweenRuns, IsVerbatimAfter};
ghost use Rattle.pf_canon.specs.ChangedDirectives.{between};
ghost use Rattle.pf_canon.specs.Languages.{IsWrittenIn};
ghost use Rattle.pf_canon.specs.Output.{IsFrontOf};
ghost use Rattle.pf_canon.specs.CanonicalSlices.{AreSlices, IsPlaceIn, IsTakenWhole, SlicesHaveGiven, to_come, to_take, pending_of};

use crate::items::{put_items, run_end};
use crate::languages::{Language, check_from};
use crate::output::{PendingOutput, SettledText, settle};
use crate::sink::ByteCount;
use pf_text::{Canonical, FoundDirective, Percents, Refusal, Spelling, Walk, directive_at};
use pf_values::Model;

/// A place up to which a text is read: before this offset it is whole items, and this number of silent
/// directives isn't written yet.
#[derive(Clone, Copy, Debug)]
pub(crate) struct Place {
    at: usize,
    held: u64,
}

/// The place up to which a text is whole items. What begins there may end after the text, which may be a
/// part of a longer one.
#[inline(always)]
pub(crate) fn place_in<L: Language>(model: Model, text: &[u8]) -> Place
    ensures { (out : Text) × IsPlaceIn L.has_front model text.now result out }
{
    let mut count = ByteCount { len: 0 };
    let walk = Walk::new(text);
    let mut from = 0;
    loop {
        let mut rest = walk;
        rest.at = run_end::<(Canonical, L)>(walk, from);
        let (at, held) = put_items::<L, _>(model, rest, from, &mut count);
        match L::other_at(model, text, at) {
            Ok(Some(other)) => from = other.stop,
            Ok(None) => return Place { at, held },
            Err(_) => return Place { at, held },
        }
    }
}

/// The canonical text of a format in memory, given slice by slice. Of what is settled the last
/// bytes are pending: bytes of the format as they are, and then an output.
#[derive(Drop)]
pub(crate) struct CanonicalSlices<'a> {
    model: Model,
    text: &'a [u8],
    walk: Walk<'a>,
    held: u64,
    bytes: &'a [u8],
    output: PendingOutput,
    end: Option<Result<(), Refusal>>,
}

impl<'a> CanonicalSlices<'a> {
    /// The slices after a place, up to which all that was settled was given.
    #[inline(always)]
    pub(crate) fn new<L: Language>(
        model: Model,
        text: &'a [u8],
        place: Place,
    ) -> CanonicalSlices<'a>
        ensures { (given : Text) → IsPlaceIn L.has_front model text.now place given
            → SlicesHaveGiven L.has_front L.refuses model result text.now given }
    {
        let mut walk = Walk::new(text);
        walk.at = place.at;
        CanonicalSlices {
            model,
            text,
            walk,
            held: place.held,
            bytes: &[],
            output: PendingOutput::Nothing,
            end: None,
        }
    }

    /// Takes more, until something is pending or the text is at its end or rejected.
    pub(crate) fn fill<L: Language>(&mut self)
        requires { AreSlices L.has_front L.refuses self.old }
        ensures given { (model : ModelOf) (text given : Text)
            → SlicesHaveGiven L.has_front L.refuses model self.old text given
            → SlicesHaveGiven L.has_front L.refuses model self.new text given }
        ensures some { pending_of self.new ≡ [] → self.new.end ≢ None }
        ensures fewer { to_come self.new ≤ to_come self.old }
    {
        while self.front().is_empty() {
            if self.end.is_some() {
                return;
            }
            self.take::<L>();
        }
    }

    /// The first bytes that are pending, some if there are any.
    pub(crate) fn front(&self) -> &[u8]
        ensures { IsFrontOf (pending_of self.now) result.now }
    {
        if !self.bytes.is_empty() {
            return self.bytes;
        }
        self.output.front()
    }

    /// Gives the first `count` of the bytes that are pending, or all if there are fewer.
    pub(crate) fn skip<L: Language>(&mut self, count: usize)
        ensures given { (model : ModelOf) (text given : Text)
            → SlicesHaveGiven L.has_front L.refuses model self.old text given
            → SlicesHaveGiven L.has_front L.refuses model self.new text (given ++ take count (pending_of self.old)) }
        ensures fewer { count ≤ length (pending_of self.old)
            → to_come self.new + count ≤ to_come self.old }
    {
        let bytes = self.bytes;
        let first = count.min(bytes.len());
        self.bytes = &bytes[first..];
        self.output.skip(count - first);
    }

    /// Reads the text to its end, and returns its refusal if it has one.
    pub(crate) fn finish<L: Language>(&self) -> Result<(), Refusal>
        requires { AreSlices L.has_front L.refuses self.now }
        ensures { (model : ModelOf) (text given : Text)
            → SlicesHaveGiven L.has_front L.refuses model self.now text given
            → MatchResult result (λ _. IsTakenWhole L.has_front model self.now text given)
            (λ refusal. L.refuses model text refusal.kind refusal.at) }
    {
        match self.end {
            Some(end) => end,
            None => check_from::<L>(self.model, self.text, self.walk),
        }
    }

    // Takes a run of verbatim bytes, if one begins here. Otherwise it takes an item, or the end.
    fn take<L: Language>(&mut self)
        requires slices { AreSlices L.has_front L.refuses self.old }
        requires open { self.old.end ≡ None }
        requires none { pending_of self.old ≡ [] }
        ensures given { (model : ModelOf) (text given : Text)
            → SlicesHaveGiven L.has_front L.refuses model self.old text given
            → SlicesHaveGiven L.has_front L.refuses model self.new text given }
        ensures less { to_take self.new < to_take self.old }
        ensures fewer { to_come self.new ≤ to_come self.old }
    {
        if self.take_verbatim::<L>() {
            return;
        }
        match directive_at(self.walk.text(), self.walk.at) {
            Some(found) => self.take_directive::<L>(&found),
            None => self.take_other::<L>(),
        }
    }

    // Takes a run of verbatim bytes, if one begins here, and returns whether it did.
    #[inline(always)]
    fn take_verbatim<L: Language>(&mut self) -> bool
        requires slices { AreSlices L.has_front L.refuses self.old }
        requires open { self.old.end ≡ None }
        requires none { pending_of self.old ≡ [] }
        ensures given { (model : ModelOf) (text given : Text)
            → SlicesHaveGiven L.has_front L.refuses model self.old text given
            → SlicesHaveGiven L.has_front L.refuses model self.new text given }
        ensures taken { MatchBool result (to_take self.new < to_take self.old)
            ((self.new ≡ self.old) × IsBetweenRuns self.old.walk.text.now self.old.walk.at) }
        ensures fewer { to_come self.new ≤ to_come self.old }
    {
        let from = self.walk.at;
        let stop = self.verbatim_end::<L>();
        if stop == from {
            return false;
        }
        let text = self.walk.text();
        self.bytes = &text[from..stop];
        self.walk.at = stop;
        true
    }

    // Returns where the next verbatim bytes end: after silent directives that are held these are literal bytes
    // and `%%` alone.
    #[inline(always)]
    fn verbatim_end<L: Language>(&self) -> usize
        requires walk { IsWalk self.now.walk }
        requires within { self.now.walk.at ≤ length self.now.walk.text.now }
        ensures within { (self.now.walk.at ≤ result) × (result ≤ length self.now.walk.text.now) }
        ensures next { IsBetweenRuns self.now.walk.text.now result }
        ensures written { IsVerbatimAfter (IsWrittenIn L.has_front self.now.model) self.now.held (between self.now.walk.at result self.now.walk.text.now) }
    {
        if self.held > 0 {
            return run_end::<Percents>(self.walk, self.walk.at);
        }
        run_end::<(Canonical, L)>(self.walk, self.walk.at)
    }

    // Takes a directive of the profile.
    #[inline(always)]
    fn take_directive<L: Language>(&mut self, found: &FoundDirective)
        requires slices { AreSlices L.has_front L.refuses self.old }
        requires open { self.old.end ≡ None }
        requires none { pending_of self.old ≡ [] }
        requires found { IsFoundAt self.old.walk.text.now self.old.walk.at found.now }
        ensures given { (model : ModelOf) (text given : Text)
            → SlicesHaveGiven L.has_front L.refuses model self.old text given
            → SlicesHaveGiven L.has_front L.refuses model self.new text given }
        ensures less { to_take self.new < to_take self.old }
        ensures fewer { to_come self.new ≤ to_come self.old }
    {
        let output = settle(self.model, &found.directive, &mut self.held);
        self.output = PendingOutput::of(output);
        self.walk.at = found.stop;
    }

    // Takes an item that the profile lacks, or the end.
    #[inline(always)]
    fn take_other<L: Language>(&mut self)
        requires slices { AreSlices L.has_front L.refuses self.old }
        requires open { self.old.end ≡ None }
        requires none { pending_of self.old ≡ [] }
        requires stops { BeginsNoItem (drop self.old.walk.at self.old.walk.text.now) }
        ensures given { (model : ModelOf) (text given : Text)
            → SlicesHaveGiven L.has_front L.refuses model self.old text given
            → SlicesHaveGiven L.has_front L.refuses model self.new text given }
        ensures less { to_take self.new < to_take self.old }
        ensures fewer { to_come self.new ≤ to_come self.old }
    {
        match L::other_at(self.model, self.text, self.walk.at) {
            Ok(Some(other)) => {
                self.output = PendingOutput::of(SettledText::spelled(self.held, other.spelling));
                self.held = 0;
                self.walk.at = other.stop;
            }
            Ok(None) => {
                self.output = PendingOutput::of(SettledText::spelled(self.held, Spelling::new()));
                self.end = Some(Ok(()));
            }
            Err(refusal) => self.end = Some(Err(refusal)),
        }
    }
}
