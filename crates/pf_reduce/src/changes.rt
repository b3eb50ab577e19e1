//! Directives whose canonical text is nearly their own spelling.
ghost use Rattle.std.specs.Prelude.{◌≡◌, ◌≤◌, IfSome, IsTrue, None, false};
ghost use Rattle.pf_values.specs.declared.conversions.Kind.TheVariants.{Signed, String};
ghost use Rattle.pf_values.specs.declared.flags.Flag.TheVariants.{Zero};
ghost use Rattle.pf_values.specs.meaning.Conversions.{is_signed, is_text, kind_of};
ghost use Rattle.pf_values.specs.meaning.Flags.{has, no_flags, with_flag};
ghost use Rattle.pf_values.specs.meaning.Normal.{digits_at_most};
ghost use Rattle.pf_values.specs.meaning.Specification.{width_of};
ghost use Rattle.pf_reduce.specs.Changes.{HasPlainParts, IsChange, IsMostPrinted};
ghost use Rattle.pf_reduce.specs.declared.changes.Change.TheVariants.{Filled};

use crate::normality::{has_signed_form, is_normal_string, is_normal_unprefixed};
use crate::numbers::{max_digits, width};
use pf_values::{Directive, Flag, FlagSet, Kind, Model};

/// What changes in the spelling of a directive.
#[derive(Clone, Copy, Debug, PartialEq, Eq)]
pub enum Change {
    /// At most the letters: the length modifier and the conversion become those of the normal directive.
    Letters,
    /// The flag `0` becomes a point, so that the width is a precision, and the letters as above.
    Filled,
    /// The width becomes this one, of at most two digits, within constant spaces, and the letters as above.
    Padded(u16),
}

/// Returns what changes in the spelling of a directive. `None` if that is something else, or isn't known
/// yet: then call `reduce`.
#[inline(always)]
pub fn change_of(model: Model, directive: &Directive) -> Option<Change>
    ensures { IfSome result (IsChange model directive.now) }
{
    if !has_plain_parts(directive) {
        return None;
    }
    match directive.conv().kind() {
        Kind::Signed => signed_change(model, directive),
        Kind::Unsigned(_, _) => unsigned_change(model, directive),
        Kind::Char => None,
        Kind::String => string_change(model, directive),
    }
}

// The change of a number with a sign. Each kind asks for its own form: one test of the form over all kinds made
// the others slower.
#[inline(always)]
fn signed_change(model: Model, directive: &Directive) -> Option<Change>
    requires parts { HasPlainParts directive.now }
    requires kind { kind_of directive.now.conv ≡ Signed }
    ensures { IfSome result (IsChange model directive.now) }
{
    if directive.flags().has(Flag::Zero) {
        return signed_form_change(model, directive);
    }
    if directive.precision().is_some() {
        return signed_form_change(model, directive);
    }
    field_change(model, directive)
}

// `Letters` for a number with a sign whose form is that of a normal directive.
#[inline(always)]
fn signed_form_change(model: Model, directive: &Directive) -> Option<Change>
    requires parts { HasPlainParts directive.now }
    requires kind { kind_of directive.now.conv ≡ Signed }
    ensures { IfSome result (IsChange model directive.now) }
{
    if has_signed_form(model, directive) {
        return Some(Change::Letters);
    }
    None
}

// The change of a number without a sign.
#[inline(always)]
fn unsigned_change(model: Model, directive: &Directive) -> Option<Change>
    requires parts { HasPlainParts directive.now }
    requires number { is_text directive.now.conv ≡ false }
    requires unsigned { is_signed directive.now.conv ≡ false }
    ensures { IfSome result (IsChange model directive.now) }
{
    if directive.flags().has(Flag::Zero) {
        return filled_change(model, directive);
    }
    if directive.precision().is_some() {
        return unsigned_form_change(model, directive);
    }
    field_change(model, directive)
}

// `Letters` for a number without a sign whose form is that of a normal directive without `#`.
#[inline(always)]
fn unsigned_form_change(model: Model, directive: &Directive) -> Option<Change>
    requires parts { HasPlainParts directive.now }
    requires number { is_text directive.now.conv ≡ false }
    requires unsigned { is_signed directive.now.conv ≡ false }
    ensures { IfSome result (IsChange model directive.now) }
{
    if is_normal_unprefixed(model, directive) {
        return Some(Change::Letters);
    }
    None
}

// `Filled` for a number without a sign that has the flag `0`, if its digits can reach the width.
#[inline(always)]
fn filled_change(model: Model, directive: &Directive) -> Option<Change>
    requires parts { HasPlainParts directive.now }
    requires number { is_text directive.now.conv ≡ false }
    requires unsigned { is_signed directive.now.conv ≡ false }
    ensures { IfSome result (IsChange model directive.now) }
{
    if is_filled_unsigned(model, directive) {
        return Some(Change::Filled);
    }
    None
}

// Whether the flag `0` alone fills the field of a number without a sign, which the digits can reach.
#[inline(always)]
fn is_filled_unsigned(model: Model, directive: &Directive) -> bool
    requires parts { HasPlainParts directive.now }
    requires number { is_text directive.now.conv ≡ false }
    requires unsigned { is_signed directive.now.conv ≡ false }
    ensures { IsTrue result → IsChange model directive.now Filled }
{
    is_filled(model, directive)
}

// Whether the flag `0` alone fills a field that the digits can reach.
#[inline(always)]
fn is_filled(model: Model, directive: &Directive) -> bool
    ensures flags { IsTrue result → directive.now.flags ≡ with_flag no_flags Zero }
    ensures precision { IsTrue result → directive.now.precision ≡ None }
    ensures some { IsTrue result → 2 ≤ width_of directive.now }
    ensures most { IsTrue result → width_of directive.now ≤ digits_at_most model directive.now }
{
    if directive.flags() != FlagSet::empty().with(Flag::Zero) {
        return false;
    }
    if directive.precision().is_some() {
        return false;
    }
    2 <= width(directive) && width(directive) <= max_digits(model, directive)
}

// The change of a number with a width and a side at most. Its digits are asked for once, since that takes time, and
// not at all where no width above 1 is given.
#[inline(always)]
fn field_change(model: Model, directive: &Directive) -> Option<Change>
    requires parts { HasPlainParts directive.now }
    requires number { is_text directive.now.conv ≡ false }
    requires unfilled { has directive.now.flags Zero ≡ false }
    requires precision { directive.now.precision ≡ None }
    ensures { IfSome result (IsChange model directive.now) }
{
    let width = width(directive);
    if width <= 1 {
        return narrow_change(model, directive);
    }
    let most = most_printed(model, directive);
    if width <= most {
        return Some(Change::Letters);
    }
    if most >= 100 {
        return None;
    }
    Some(Change::Padded(most))
}

// `field_change` for a width of 1 or none.
#[inline(always)]
fn narrow_change(model: Model, directive: &Directive) -> Option<Change>
    requires parts { HasPlainParts directive.now }
    requires number { is_text directive.now.conv ≡ false }
    requires unfilled { has directive.now.flags Zero ≡ false }
    requires precision { directive.now.precision ≡ None }
    ensures { IfSome result (IsChange model directive.now) }
{
    if width(directive) > 0 {
        return None;
    }
    if directive.flags().has(Flag::Minus) {
        return None;
    }
    Some(Change::Letters)
}

// The most bytes that a number without flags and precision prints: its digits, and a sign if it can have one.
#[inline(always)]
fn most_printed(model: Model, directive: &Directive) -> u16
    requires { is_text directive.now.conv ≡ false }
    ensures { IsMostPrinted model directive.now result }
{
    match directive.conv().kind() {
        Kind::Signed => 1 + max_digits(model, directive),
        Kind::Unsigned(_, _) | Kind::Char | Kind::String => max_digits(model, directive),
    }
}

// `Letters` for a string whose form is that of a normal directive.
#[inline(always)]
fn string_change(model: Model, directive: &Directive) -> Option<Change>
    requires parts { HasPlainParts directive.now }
    requires kind { kind_of directive.now.conv ≡ String }
    ensures { IfSome result (IsChange model directive.now) }
{
    if is_normal_string(directive) {
        return Some(Change::Letters);
    }
    None
}

// Whether there are no flags but `-` and `0`, and no precision of 1 for a number.
#[inline(always)]
fn has_plain_parts(directive: &Directive) -> bool
    ensures { IsTrue result → HasPlainParts directive.now }
{
    let flags = directive.flags();
    if flags.has(Flag::Plus) || flags.has(Flag::Space) {
        return false;
    }
    if flags.has(Flag::Alt) || flags.has(Flag::Group) {
        return false;
    }
    if directive.precision() != Some(1) {
        return true;
    }
    matches!(directive.conv().kind(), Kind::String)
}
