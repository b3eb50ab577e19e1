//! The parts of the normal spelling of an opaque directive.
ghost use Rattle.std.specs.Prelude.{◌≡◌, ◌&&◌, if◌then◌else◌};
ghost use Rattle.pf_values.specs.declared.flags.Flag.TheVariants.{Zero};
ghost use Rattle.pf_values.specs.meaning.Flags.{has, with_flag};
ghost use Rattle.pf_whole.specs.meaning.NormalSpellings.{floating_modifier, given_precision, integer_modifier, is_amount, is_general, is_given, is_integer, keeps_sign, keeps_zero, kept_conversion, kept_flags, kept_modifier, normal_precision, meant_precision, normal_parts};
ghost use Rattle.pf_posix.specs.OpaqueParts.{amount_of, parts_of_opaque};

use pf_posix::{Floating, OpaqueAmount, OpaqueDirective, WholeConv, WholeLength};
use pf_values::{Conv, Flag, FlagSet, Kind, Length, Model};

/// Returns the directive with the parts of its normal spelling in a data model.
pub fn normal_directive(model: Model, directive: OpaqueDirective) -> OpaqueDirective
    ensures { parts_of_opaque result ≡ normal_parts model (parts_of_opaque directive) }
{
    OpaqueDirective {
        flags: kept_flags(directive),
        width: directive.width,
        precision: normal_precision(directive.conversion, directive.precision),
        modifier: kept_modifier(model, directive.conversion, directive.modifier),
        conversion: kept_conversion(directive.conversion),
    }
}

fn kept_conversion(conversion: WholeConv) -> WholeConv
    ensures { result ≡ kept_conversion conversion }
{
    match conversion {
        WholeConv::Profile(conv) => WholeConv::Profile(conv.representative()),
        WholeConv::Float(floating) => WholeConv::Float(floating),
        WholeConv::UpperC => WholeConv::Profile(Conv::C),
        WholeConv::UpperS => WholeConv::Profile(Conv::S),
        WholeConv::Pointer => WholeConv::Pointer,
        WholeConv::Count => WholeConv::Count,
    }
}

fn is_integer(conversion: WholeConv) -> bool
    ensures { result ≡ is_integer conversion }
{
    match conversion {
        WholeConv::Profile(conv) => !conv.kind().is_text(),
        _ => false,
    }
}

fn keeps_sign(conversion: WholeConv) -> bool
    ensures { result ≡ keeps_sign conversion }
{
    match conversion {
        WholeConv::Profile(conv) => matches!(conv.kind(), Kind::Signed),
        WholeConv::Float(_) | WholeConv::Pointer => true,
        WholeConv::UpperC | WholeConv::UpperS | WholeConv::Count => false,
    }
}

fn kept_modifier(model: Model, conversion: WholeConv, modifier: WholeLength) -> WholeLength
    ensures { result ≡ kept_modifier model conversion modifier }
{
    match conversion {
        WholeConv::Profile(conv) => {
            if conv.kind().is_text() {
                return modifier;
            }
            integer_modifier(model, modifier)
        }
        WholeConv::Float(_) => floating_modifier(modifier),
        WholeConv::UpperC | WholeConv::UpperS => WholeLength::Integer(Length::L),
        WholeConv::Pointer => modifier,
        WholeConv::Count => integer_modifier(model, modifier),
    }
}

fn integer_modifier(model: Model, modifier: WholeLength) -> WholeLength
    ensures { result ≡ integer_modifier model modifier }
{
    match modifier {
        WholeLength::Integer(length) => WholeLength::Integer(length.representative(model)),
        WholeLength::LongDouble => WholeLength::LongDouble,
    }
}

fn floating_modifier(modifier: WholeLength) -> WholeLength
    ensures { result ≡ floating_modifier modifier }
{
    match modifier {
        WholeLength::Integer(_) => WholeLength::Integer(Length::None),
        WholeLength::LongDouble => WholeLength::LongDouble,
    }
}

fn normal_precision(conversion: WholeConv, precision: Option<OpaqueAmount>) -> Option<OpaqueAmount>
    ensures { amount_of result ≡ normal_precision conversion (amount_of precision) }
{
    match precision {
        None => None,
        Some(OpaqueAmount::Star) => Some(OpaqueAmount::Star),
        Some(OpaqueAmount::Number(n)) => given_precision(conversion, n),
    }
}

fn given_precision(conversion: WholeConv, n: u16) -> Option<OpaqueAmount>
    ensures { amount_of result ≡ given_precision conversion n }
{
    if is_meant(conversion, n) {
        return None;
    }
    if n == 0 && is_general(conversion) {
        return Some(OpaqueAmount::Number(1));
    }
    Some(OpaqueAmount::Number(n))
}

/// Whether the conversion is `g` or `G`, which take a precision of 0 as 1.
pub(crate) fn is_general(conversion: WholeConv) -> bool
    ensures { result ≡ is_general conversion }
{
    matches!(conversion, WholeConv::Float(Floating::G | Floating::UpperG))
}

/// Whether a precision is the default one of the conversion.
pub(crate) fn is_meant(conversion: WholeConv, n: u16) -> bool
    ensures { result ≡ is_amount (meant_precision conversion) n }
{
    match conversion {
        WholeConv::Profile(conv) => !conv.kind().is_text() && n == 1,
        WholeConv::Float(Floating::A | Floating::UpperA) => false,
        WholeConv::Float(_) => n == 6,
        _ => false,
    }
}

fn is_given(precision: Option<OpaqueAmount>) -> bool
    ensures { result ≡ is_given (amount_of precision) }
{
    match precision {
        Some(OpaqueAmount::Number(_)) => true,
        _ => false,
    }
}

fn kept_flags(directive: OpaqueDirective) -> FlagSet
    ensures { result ≡ kept_flags (parts_of_opaque directive) }
{
    let kept = with_kept(FlagSet::empty(), directive, Flag::Minus);
    let kept = with_kept(kept, directive, Flag::Plus);
    let kept = with_kept(kept, directive, Flag::Space);
    let kept = with_kept(kept, directive, Flag::Alt);
    with_kept(kept, directive, Flag::Zero)
}

// Adds the flag if the directive has it and keeps it.
fn with_kept(kept: FlagSet, directive: OpaqueDirective, flag: Flag) -> FlagSet
    ensures { result ≡ (if has (kept_flags (parts_of_opaque directive)) flag then with_flag kept flag else kept) }
{
    if directive.flags.has(flag) && keeps(directive, flag) {
        return kept.with(flag);
    }
    kept
}

// Whether a flag of the directive is kept.
fn keeps(directive: OpaqueDirective, flag: Flag) -> bool
    ensures { (has directive.flags flag && result) ≡ has (kept_flags (parts_of_opaque directive)) flag }
{
    match flag {
        Flag::Minus => directive.width.is_some(),
        Flag::Plus => keeps_sign(directive.conversion),
        Flag::Space => !directive.flags.has(Flag::Plus) && keeps_sign(directive.conversion),
        Flag::Alt => true,
        Flag::Zero => keeps_zero(directive),
        Flag::Group => false,
    }
}

// Whether the flag `0` pads to the width.
fn keeps_zero(directive: OpaqueDirective) -> bool
    ensures { (has directive.flags Zero && result) ≡ keeps_zero (parts_of_opaque directive) }
{
    if directive.width.is_none() || directive.flags.has(Flag::Minus) {
        return false;
    }
    !(is_integer(directive.conversion) && is_given(directive.precision))
}
