//! Directives whose canonical text is nearly their own bytes.
ghost use Rattle.std.specs.Prelude.{◌≡◌, ◌≢◌, false, IfSome, MatchBool};
ghost use Rattle.pf_values.specs.meaning.Normal.{silent};
ghost use Rattle.pf_reduce.specs.Changes.{kept_letters};
ghost use Rattle.pf_reduce.specs.declared.changes.Change.TheVariants.{Letters};
ghost use Rattle.pf_canon.specs.ChangedDirectives.{IsChangedAt, IsKnownAt};

use crate::comparison::are_equal;
use pf_reduce::{Change, change_of, is_normal};
use pf_text::{FoundDirective, directive_at, spell, spelled_at};
use pf_values::{Conv, Directive, Model};

/// A directive at an offset of a text, and what changes in its spelling.
#[derive(Clone, Copy, Debug)]
pub(crate) struct ChangedDirective {
    pub(crate) found: FoundDirective,
    pub(crate) change: Change,
}

impl ChangedDirective {
    /// The directive at an offset of a text, if it is known what changes.
    #[inline(always)]
    pub(crate) fn at(model: Model, text: &[u8], start: usize) -> Option<ChangedDirective>
        ensures { IfSome result (IsChangedAt model text.now start) }
    {
        let found = spelled_at(text, start)?;
        let change = change_of(model, &found.directive)?;
        Some(ChangedDirective { found, change })
    }

    /// Whether nothing changes in this data model.
    #[inline(always)]
    pub(crate) fn is_kept(&self, model: Model) -> bool
        ensures { MatchBool result
            ((self.now.change ≡ Letters)
            × (kept_letters model self.now.found.directive ≡ self.now.found.directive))
            (self.now.change ≡ Letters
            → kept_letters model self.now.found.directive ≢ self.now.found.directive) }
    {
        match self.change {
            Change::Letters => keeps_letters(model, &self.found.directive),
            Change::Filled | Change::Padded(_) => false,
        }
    }
}

/// Whether the length modifier and the conversion are those of a normal directive.
#[inline(always)]
pub(crate) fn keeps_letters(model: Model, directive: &Directive) -> bool
    ensures { MatchBool result (kept_letters model directive.now ≡ directive.now)
        (kept_letters model directive.now ≢ directive.now) }
{
    let length = directive.length();
    let conv = directive.conv();
    length.representative(model) == length && conv.representative() == conv
}

/// Whether the directive at an offset of a text is a canonical item, and where it ends. `None` if that
/// isn't known.
#[inline(always)]
pub(crate) fn known_at(model: Model, text: &[u8], start: usize) -> Option<(bool, usize)>
    ensures { IfSome result (λ known. IsKnownAt model text.now start known.0 known.1) }
{
    match ChangedDirective::at(model, text, start) {
        Some(directive) => Some((directive.is_kept(model), directive.found.stop)),
        None => normal_at(model, text, start),
    }
}

// `known_at` of a directive whose changes aren't known.
#[inline(never)]
fn normal_at(model: Model, text: &[u8], start: usize) -> Option<(bool, usize)>
    ensures { IfSome result (λ known. IsKnownAt model text.now start known.0 known.1) }
{
    let found = directive_at(text, start)?;
    if may_be_silent(&found.directive) {
        return None;
    }
    if !is_normal(model, &found.directive) {
        return Some((false, found.stop));
    }
    if !are_equal(&spell(&found.directive), &text[start..found.stop]) {
        return None;
    }
    Some((true, found.stop))
}

// Whether a directive may be `%.0s`, which a canonical text may have though it isn't normal.
#[inline(always)]
fn may_be_silent(directive: &Directive) -> bool
    ensures { result ≡ false → directive.now ≢ silent }
{
    matches!(directive.conv(), Conv::S) && directive.precision() == Some(0)
}
