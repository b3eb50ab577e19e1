//! Integers.
ghost use Rattle.std.specs.Prelude.{◌≡◌, ◌≢◌, ◌≤◌, ◌<◌, ◌+◌, max, ◌++◌, ◌⊎◌, Bool, false, true, length};
ghost use Rattle.pf_values.specs.declared.flags.Flag.TheVariants.{Alt};
ghost use Rattle.pf_values.specs.declared.limits.TheConstants.{MAX_NUMBER};
ghost use Rattle.pf_values.specs.meaning.Conversions.{
  alternative_under,
  is_octal,
  is_signed,
  is_text,
  kind_of,
};
ghost use Rattle.pf_reduce.specs.Prefixes.{is_prefixed};
ghost use Rattle.pf_values.specs.meaning.Flags.{has};
ghost use Rattle.pf_values.specs.meaning.Normal.{IsNormal};
ghost use Rattle.pf_values.specs.meaning.Printing.{is_zero_filled};
ghost use Rattle.pf_values.specs.meaning.Specification.{width_of};
ghost use Rattle.pf_values.specs.meaning.Text.{Text};
ghost use Rattle.pf_reduce.specs.declared.signs.Sign.TheVariants as signs;
ghost use Rattle.pf_reduce.specs.Padded.{with_padding};
ghost use Rattle.pf_reduce.specs.Reducing.{IsReducedTo, itself};
ghost use Rattle.pf_reduce.specs.Signs.{sign_text, unseen_signed_width, unseen_width};

use crate::normal_directives::{kept_precision, reduced_core};
use crate::numbers::{max_digits, width};
use crate::padding::Padding;
use crate::results::Reduced;
use crate::signs::Sign;
use pf_values::{Alternative, Directive, Flag, FlagSet, Model};

/// `u o x X b`, by what the flag `#` does.
pub(crate) fn reduce_unsigned(
    model: Model,
    directive: &Directive,
    alternative: Alternative,
) -> Reduced
    requires text { is_text directive.now.conv ≡ false }
    requires sign { is_signed directive.now.conv ≡ false }
    requires alternative { alternative ≡ alternative_under (kind_of directive.now.conv) }
    ensures same { IsReducedTo model directive.now result }
    ensures kept { IsNormal model directive.now → result ≡ itself model directive.now }
{
    let alt = directive.flags().has(Flag::Alt);
    match alternative {
        Alternative::Raised if alt => reduce_octal(model, directive),
        Alternative::Prefixed if alt => reduce_prefixed(model, directive),
        Alternative::Undefined | Alternative::Raised | Alternative::Prefixed => {
            reduce_unprefixed(model, directive)
        }
    }
}

// `u`, and `o x X b` without `#`: digits alone.
fn reduce_unprefixed(model: Model, directive: &Directive) -> Reduced
    requires text { is_text directive.now.conv ≡ false }
    requires sign { is_signed directive.now.conv ≡ false }
    requires alt { has directive.now.flags Alt ≡ false }
    ensures same { IsReducedTo model directive.now result }
    ensures kept { IsNormal model directive.now → result ≡ itself model directive.now }
{
    let digits = max_digits(model, directive);
    let precision = directive.effective_precision(0);
    let zeros = precision.saturating_sub(digits);
    let padding = Padding::of(directive)
        .with_width_at_most(precision.max(digits))
        .without_idle_width(precision)
        .hoist_zeros(zeros)
        .right_justify_if_unseen(1);
    let kept = kept_precision(precision - zeros);
    reduced_core(model, padding, directive, FlagSet::empty(), kept)
}

// `o` with `#`: digits that begin with 0.
fn reduce_octal(model: Model, directive: &Directive) -> Reduced
    requires octal { is_octal directive.now.conv ≡ true }
    requires alt { has directive.now.flags Alt ≡ true }
    ensures same { IsReducedTo model directive.now result }
    ensures kept { IsNormal model directive.now → result ≡ itself model directive.now }
{
    let digits = max_digits(model, directive);
    let precision = directive.effective_precision(0).max(1);
    let padding = Padding::of(directive)
        .with_width_at_most(precision.max(digits + 1))
        .without_idle_width(precision);
    if padding.has_spaces_before() {
        // These come before the first 0, which the core has to print.
        let alt = FlagSet::empty().with(Flag::Alt);
        return reduced_core(model, padding, directive, alt, kept_precision(precision));
    }
    let zeros = 1 + (precision - 1).saturating_sub(digits);
    let padding = padding.hoist_zeros(zeros).right_justify_if_unseen(1);
    let kept = kept_precision(precision - zeros);
    reduced_core(model, padding, directive, FlagSet::empty(), kept)
}

// `x X b` with `#`: digits after a prefix of two letters.
fn reduce_prefixed(model: Model, directive: &Directive) -> Reduced
    requires prefixed { is_prefixed directive.now.conv ≡ true }
    requires alt { has directive.now.flags Alt ≡ true }
    ensures same { IsReducedTo model directive.now result }
    ensures kept { IsNormal model directive.now → result ≡ itself model directive.now }
{
    if keeps_zeros(directive, 0) {
        let flags = FlagSet::empty().with(Flag::Alt).with(Flag::Zero);
        return reduced_core(model, Padding::of(directive), directive, flags, None);
    }
    let precision = directive.effective_precision(0);
    let padding = Padding::of(directive)
        .with_width_at_most(2 + precision.max(max_digits(model, directive)))
        .without_idle_width(precision)
        .right_justify_if_unseen(unseen_width(precision, 3));
    let alt = FlagSet::empty().with(Flag::Alt);
    reduced_core(model, padding, directive, alt, kept_precision(precision))
}

/// `d i`: digits after a sign.
pub(crate) fn reduce_signed(model: Model, directive: &Directive) -> Reduced
    requires { is_signed directive.now.conv ≡ true }
    ensures same { IsReducedTo model directive.now result }
    ensures kept { IsNormal model directive.now → result ≡ itself model directive.now }
{
    let sign = Sign::of(directive.flags());
    if keeps_zeros(directive, sign.len()) {
        let flags = FlagSet::empty().with(Flag::Zero);
        return reduced_core(model, Padding::of(directive), directive, flags, None);
    }
    let digits = max_digits(model, directive);
    let precision = directive.effective_precision(sign.len());
    let padding = Padding::of(directive)
        .with_width_at_most(1 + precision.max(digits))
        .without_idle_width(sign.len() + precision);
    let sign = sign_in_field(sign, padding, precision, digits);
    let padding = padding
        .without_idle_width(sign.len() + precision)
        .right_justify_if_unseen(unseen_signed_width(precision, sign));
    reduced_core(
        model,
        padding,
        directive,
        sign.flags(),
        kept_precision(precision),
    )
}

// Whether the flag `0` fills the core's width. With a sign, which each number then has, a precision
// gives the same zeros.
fn keeps_zeros(directive: &Directive, sign: u16) -> bool
    ensures kept { result ≡ true
        → (is_zero_filled directive.now ≡ true) × (sign ≡ 0) × (2 ≤ width_of directive.now) }
    ensures idle { result ≡ false → is_zero_filled directive.now ≡ true
        → (1 ≤ sign) ⊎ (width_of directive.now ≤ 1) }
{
    directive.is_zero_filled() && sign == 0 && width(directive) >= 2
}

// On the right, in a field for the most digits and a sign, a space comes before each number that is
// not below zero, with the flag space or without. If all numbers have as many digits, the flag needs
// no field; otherwise the field needs no flag.
fn sign_in_field(sign: Sign, padding: Padding, precision: u16, digits: u16) -> Sign
    requires { max precision digits ≤ MAX_NUMBER }
    ensures same { (negative : Bool) (number : Text) → length number ≤ max precision digits
        → with_padding padding (sign_text sign negative ++ number)
        ≡ with_padding padding (sign_text result negative ++ number) }
    ensures space { padding.left ≡ false → padding.width ≡ 1 + max precision digits
        → result ≡ signs.Space → digits ≤ precision }
    ensures none { padding.left ≡ false → padding.width ≡ 1 + max precision digits
        → result ≡ signs.None → precision < digits }
    ensures kept { (padding.left ≡ false → sign ≡ signs.Space
        → padding.width ≢ 1 + max precision digits)
        → (padding.left ≡ false → sign ≡ signs.None → digits ≤ precision
        → padding.width ≢ 1 + max precision digits)
        → result ≡ sign }
{
    if padding.left || padding.width != 1 + precision.max(digits) {
        return sign;
    }
    match sign {
        Sign::Plus => Sign::Plus,
        Sign::Space | Sign::None if precision >= digits => Sign::Space,
        Sign::Space | Sign::None => Sign::None,
    }
}

// The largest width at which the side makes no visible difference: with precision 0 the value 0
// prints only spaces, and any other value at least `least` bytes.
fn unseen_width(precision: u16, least: u16) -> u16
    ensures { result ≡ unseen_width precision least }
{
    match precision {
        0 => least,
        _ => 0,
    }
}

// The largest width at which the side of a signed number makes no visible difference. The value 0
// prints its `+`, if it has one.
fn unseen_signed_width(precision: u16, sign: Sign) -> u16
    ensures { result ≡ unseen_signed_width precision sign }
{
    match sign {
        Sign::None => unseen_width(precision, 1),
        Sign::Plus => 0,
        Sign::Space => unseen_width(precision, 2),
    }
}
