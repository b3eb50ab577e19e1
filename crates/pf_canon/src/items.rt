//! The canonical text of items: it is put together from runs that need no change and from reduced directives of
//! the profile.
ghost use Rattle.std.specs.Prelude.{◌≡◌, ◌⊎◌, ◌+◌, ◌<◌, ◌≤◌, [], ◌∷◌, ◌++◌, decimal, drop, get_or, length};
ghost use Rattle.pf_text.specs.FoundDirectives.{BeginsNoItem, IsSpelledAt};
ghost use Rattle.pf_text.specs.Walks.{HasPercent, IsMadeOf, IsWalk};
ghost use Rattle.pf_reduce.specs.Changes.{IsChange};
ghost use Rattle.pf_reduce.specs.declared.changes.Change.TheVariants.{Filled, Padded};
ghost use Rattle.pf_values.specs.meaning.Text.{Text};
ghost use Rattle.pf_canon.specs.ChangedDirectives.{IsChangedAt, PutsFront, between, letters_kept};
ghost use Rattle.pf_canon.specs.Languages.{CompletesIn, IsWrittenIn};
ghost use Rattle.pf_canon.specs.Making.{IsBetweenRuns, IsVerbatimAfter, IsWritten, PutsItems};

use crate::changed_directives::{ChangedDirective, keeps_letters};
use crate::languages::Language;
use crate::output::settle;
use crate::sink::{Sink, put_repeated, put_silents};
use pf_reduce::Change;
use pf_text::{Canonical, FoundDirective, Passed, Percents, Walk, directive_at};
use pf_values::padding::MAX_RUN;
use pf_values::{Directive, Flag, Model, padding};
use std::slice;

/// Puts the canonical text of a stretch, that is, of the items from an offset on which are of the profile or
/// which the language passes. Those up to the offset of a walk are verbatim. Returns where it ends: mostly at
/// the end, and earlier where the text is rejected or has another item that the profile lacks.
#[inline(always)]
pub(crate) fn put_stretch<L: Language, S: Sink>(
    model: Model,
    walk: Walk<'_>,
    from: usize,
    sink: &mut S,
) -> usize
    requires walk { IsWalk walk }
    requires within { (from ≤ walk.at) × (walk.at ≤ length walk.text.now) }
    requires verbatim { IsVerbatimAfter (IsWrittenIn L.has_front model) 0 (between from walk.at walk.text.now) }
    requires next { IsBetweenRuns walk.text.now walk.at }
    ensures within { (walk.entry.at ≤ result) × (result ≤ length walk.entry.text.now) }
    ensures stopped { BeginsNoItem (drop result walk.entry.text.now) }
    ensures put { (more : Text) × S.given sink.old sink.new more
        × CompletesIn L.has_front model (between from result walk.entry.text.now) more }
{
    let (stop, held) = put_items::<L, _>(model, walk, from, sink);
    put_silents(sink, held);
    stop
}

/// Puts the canonical text of such items from the one on at which a walk is, and of the bytes before it from
/// `from` on, which are verbatim. Returns where the items end, and how many silent
/// directives `%.0s` are not yet put.
#[inline(always)]
pub(crate) fn put_items<L: Language, S: Sink>(
    model: Model,
    walk: Walk<'_>,
    from: usize,
    sink: &mut S,
) -> (usize, u64)
    requires walk { IsWalk walk }
    requires within { (from ≤ walk.at) × (walk.at ≤ length walk.text.now) }
    requires verbatim { IsVerbatimAfter (IsWrittenIn L.has_front model) 0 (between from walk.at walk.text.now) }
    requires next { IsBetweenRuns walk.text.now walk.at }
    ensures within { (walk.entry.at ≤ result.0) × (result.0 ≤ length walk.entry.text.now) }
    ensures stopped { BeginsNoItem (drop result.0 walk.entry.text.now) }
    ensures put { PutsItems S.given (IsWrittenIn L.has_front model) sink.old sink.new
        (between from result.0 walk.entry.text.now) 0 result.1 }
{
    let text = walk.text();
    let mut from = from;
    let mut at = walk.at;
    while at < text.len() {
        match ChangedDirective::at(model, text, at) {
            Some(directive) => {
                from = put_changed(model, text, from, at, &directive, sink);
                at = run_end::<(Canonical, L)>(walk, directive.found.stop);
            }
            None => {
                sink.put(&text[from..at]);
                let (stop, held) = put_reduced(model, walk, at, sink);
                if stop == at {
                    return (at, held);
                }
                if held > 0 {
                    return (stop, held);
                }
                from = stop;
                at = run_end::<(Canonical, L)>(walk, stop);
            }
        }
    }
    sink.put(&text[from..]);
    (text.len(), 0)
}

// Puts the canonical text of the directive at an offset; and of the items after it while a silent one is
// held, up to one after which none is. Literal bytes and `%%` come before those that are held. Returns
// where the items end, and how many are held. Never inlined, since few directives come here.
#[inline(never)]
fn put_reduced<S: Sink>(model: Model, walk: Walk<'_>, from: usize, sink: &mut S) -> (usize, u64)
    requires walk { IsWalk walk }
    requires within { from ≤ length walk.text.now }
    requires next { IsBetweenRuns walk.text.now from }
    ensures within { (from ≤ result.0) × (result.0 ≤ length walk.entry.text.now) }
    ensures none { result.0 ≡ from → BeginsNoItem (drop result.0 walk.entry.text.now) }
    ensures held { 0 < result.1 → BeginsNoItem (drop result.0 walk.entry.text.now) }
    ensures put { PutsItems S.given (IsWritten model) sink.old sink.new
        (between from result.0 walk.entry.text.now) 0 result.1 }
{
    let text = walk.text();
    let mut at = from;
    let mut held = 0;
    while let Some(found) = directive_at(text, at) {
        settle(model, &found.directive, &mut held).put(sink);
        if held == 0 {
            return (found.stop, 0);
        }
        at = run_end::<Percents>(walk, found.stop);
        sink.put(&text[found.stop..at]);
    }
    (at, held)
}

/// Returns where the literal bytes and items of `P` end that begin at an offset of a walk's text.
#[inline(always)]
pub(crate) fn run_end<P: Passed>(walk: Walk<'_>, from: usize) -> usize
    requires walk { IsWalk walk }
    requires within { from ≤ length walk.text.now }
    ensures within { (from ≤ result) × (result ≤ length walk.entry.text.now) }
    ensures passed { IsMadeOf P.passes (between from result walk.entry.text.now) }
    ensures next { BeginsNoItem (drop result walk.entry.text.now) ⊎ (HasPercent walk.entry.text.now result
        × P.leaves (get_or walk.entry.text.now (result + 1) 0)) }
{
    let mut walk = walk;
    walk.at = from;
    walk.find::<P>();
    walk.at
}

// Puts the canonical text of the directive at an offset and of the bytes before it from `from` on, which
// are verbatim; but the last bytes, if they stay as they are, are left to the next call. Returns the offset
// from which on they are left.
#[inline(always)]
fn put_changed<S: Sink>(
    model: Model,
    text: &[u8],
    from: usize,
    at: usize,
    directive: &ChangedDirective,
    sink: &mut S,
) -> usize
    requires within { (from ≤ at) × (at ≤ length text.now) }
    requires front { IsChangedAt model text.now at directive.now }
    ensures within { result ≤ directive.now.found.stop }
    ensures written { PutsFront S.given model text.now from at sink.old sink.new result
        directive.now.found.stop }
{
    if directive.is_kept(model) {
        return from;
    }
    let found = &directive.found;
    match directive.change {
        Change::Letters => {
            put_letters(model, text, from, found, sink);
            found.stop
        }
        Change::Filled => put_filled(model, text, from, at, found, sink),
        Change::Padded(width) => {
            put_padded(model, text, from, at, found, width, sink);
            found.stop
        }
    }
}

// Puts the bytes from an offset on up to the length modifier of a directive, and then the letters that a normal
// directive has for its own.
#[inline(always)]
fn put_letters<S: Sink>(
    model: Model,
    text: &[u8],
    from: usize,
    found: &FoundDirective,
    sink: &mut S,
)
    requires within { (from ≤ found.now.modifier_at) × (found.now.modifier_at ≤ length text.now) }
    ensures { S.given sink.old sink.new
        (between from found.now.modifier_at text.now ++ letters_kept model found.now.directive) }
{
    sink.put(&text[from..found.modifier_at]);
    put_kept_letters(model, &found.directive, sink);
}

// Puts the letters that a normal directive has for those of a directive.
#[inline(always)]
fn put_kept_letters<S: Sink>(model: Model, directive: &Directive, sink: &mut S)
    ensures { S.given sink.old sink.new (letters_kept model directive.now) }
{
    let letter = directive.conv().representative().letter();
    put_some(sink, directive.length().representative(model).letters());
    sink.put(slice::from_ref(&letter));
}

// Puts bytes, if there are any: a call for none takes time.
#[inline(always)]
fn put_some<S: Sink>(sink: &mut S, bytes: &[u8])
    ensures { S.given sink.old sink.new bytes.now }
{
    if bytes.is_empty() {
        return;
    }
    sink.put(bytes);
}

// As `put_changed`, for a directive whose flag `0` becomes a point.
#[inline(always)]
fn put_filled<S: Sink>(
    model: Model,
    text: &[u8],
    from: usize,
    at: usize,
    found: &FoundDirective,
    sink: &mut S,
) -> usize
    requires within { (from ≤ at) × (at ≤ length text.now) }
    requires front { IsSpelledAt text.now at found.now }
    requires change { IsChange model found.now.directive Filled }
    ensures within { result ≤ found.now.stop }
    ensures written { PutsFront S.given model text.now from at sink.old sink.new result found.now.stop }
{
    sink.put(&text[from..at + 1]);
    sink.put(b".");
    if keeps_letters(model, &found.directive) {
        return at + 2;
    }
    put_letters(model, text, at + 2, found, sink);
    found.stop
}

// Puts the bytes from an offset on up to a directive, and then the directive with this width, within spaces.
#[inline(always)]
fn put_padded<S: Sink>(
    model: Model,
    text: &[u8],
    from: usize,
    at: usize,
    found: &FoundDirective,
    width: u16,
    sink: &mut S,
)
    requires within { (from ≤ at) × (at ≤ length text.now) }
    requires front { IsSpelledAt text.now at found.now }
    requires change { IsChange model found.now.directive (Padded width) }
    ensures { PutsFront S.given model text.now from at sink.old sink.new found.now.stop found.now.stop }
{
    let directive = found.directive;
    let beyond = directive.width().unwrap_or(0) - width;
    if directive.flags().has(Flag::Minus) {
        sink.put(&text[from..at + 2]);
        put_core(model, &directive, width, sink);
        put_repeated(sink, padding::spaces(MAX_RUN), beyond);
        return;
    }
    sink.put(&text[from..at]);
    put_repeated(sink, padding::spaces(MAX_RUN), beyond);
    sink.put(b"%");
    put_core(model, &directive, width, sink);
}

// Puts a field width, and then the letters that a normal directive has for those of a directive.
#[inline(always)]
fn put_core<S: Sink>(model: Model, directive: &Directive, width: u16, sink: &mut S)
    requires { width < 100 }
    ensures { S.given sink.old sink.new (decimal width ++ letters_kept model directive.now) }
{
    if width < 10 {
        sink.put(slice::from_ref(&digit(width)));
        put_kept_letters(model, directive, sink);
        return;
    }
    let tens = digit(width / 10);
    let ones = digit(width % 10);
    if !directive
        .length()
        .representative(model)
        .letters()
        .is_empty()
    {
        sink.put(&[tens, ones]);
        put_kept_letters(model, directive, sink);
        return;
    }
    sink.put(&[tens, ones, directive.conv().representative().letter()]);
}

// The byte of a decimal digit.
#[inline(always)]
fn digit(value: u16) -> u8
    requires { value < 10 }
    ensures { decimal value ≡ result ∷ [] }
{
    b'0' + value as u8
}
