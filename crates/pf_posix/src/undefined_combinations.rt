//! Which specifications the standards leave undefined (C11 7.21.6.1, paragraphs 4 to 9).
ghost use Rattle.std.specs.Prelude.{◌≡◌};
ghost use Rattle.pf_posix.specs.declared.conversions.WholeLength.TheVariants.{Integer};
ghost use Rattle.pf_posix.specs.OpaqueParts.{parts_of_opaque};
ghost use Rattle.pf_posix.specs.Defined.{has_any_flag, takes_alt, takes_group, takes_modifier, takes_precision, takes_zero, undefined_of, is_count};

use crate::conversions::{Floating, WholeConv, WholeLength};
use crate::opaque_directives::OpaqueDirective;
use pf_values::{Conv, Flag, FlagSet, Length, RefusalKind};

/// Returns the first kind, in the order of numbers, for which a specification is undefined. `None` if the standards
/// define it.
#[inline(always)]
pub fn undefined_as(parts: &OpaqueDirective) -> Option<RefusalKind>
    ensures { result ≡ undefined_of (parts_of_opaque parts.now) }
{
    let flags = parts.flags;
    let conversion = parts.conversion;
    if flags.has(Flag::Alt) && !takes_alt(conversion) {
        return Some(RefusalKind::AltUndefined);
    }
    if flags.has(Flag::Zero) && !takes_zero(conversion) {
        return Some(RefusalKind::ZeroUndefined);
    }
    if flags.has(Flag::Group) && !takes_group(conversion) {
        return Some(RefusalKind::GroupUndefined);
    }
    if parts.precision.is_some() && !takes_precision(conversion) {
        return Some(RefusalKind::PrecisionUndefined);
    }
    if !takes_modifier(conversion, parts.modifier) {
        return Some(RefusalKind::LengthUndefined);
    }
    if is_count(conversion)
        && (has_any_flag(flags) || parts.width.is_some() || parts.precision.is_some())
    {
        return Some(RefusalKind::CountUndefined);
    }
    None
}

#[inline(always)]
fn takes_alt(conversion: WholeConv) -> bool
    ensures { result ≡ takes_alt conversion }
{
    match conversion {
        WholeConv::Profile(conv) => conv.kind().has_alternative_form(),
        WholeConv::Float(_) => true,
        _ => false,
    }
}

#[inline(always)]
fn takes_zero(conversion: WholeConv) -> bool
    ensures { result ≡ takes_zero conversion }
{
    match conversion {
        WholeConv::Profile(conv) => !conv.kind().is_text(),
        WholeConv::Float(_) => true,
        _ => false,
    }
}

#[inline(always)]
fn takes_group(conversion: WholeConv) -> bool
    ensures { result ≡ takes_group conversion }
{
    match conversion {
        WholeConv::Profile(conv) => conv.kind().is_grouped(),
        WholeConv::Float(floating) => matches!(
            floating,
            Floating::F | Floating::UpperF | Floating::G | Floating::UpperG
        ),
        _ => false,
    }
}

#[inline(always)]
fn takes_precision(conversion: WholeConv) -> bool
    ensures { result ≡ takes_precision conversion }
{
    match conversion {
        WholeConv::Profile(conv) => !conv.kind().is_char(),
        WholeConv::Float(_) => true,
        WholeConv::UpperS => true,
        _ => false,
    }
}

#[inline(always)]
fn takes_modifier(conversion: WholeConv, modifier: WholeLength) -> bool
    ensures { result ≡ takes_modifier conversion modifier }
{
    match modifier {
        WholeLength::LongDouble => matches!(conversion, WholeConv::Float(_)),
        WholeLength::Integer(length) => takes_length(conversion, length),
    }
}

#[inline(always)]
fn takes_length(conversion: WholeConv, length: Length) -> bool
    ensures { result ≡ takes_modifier conversion (Integer length) }
{
    match conversion {
        WholeConv::Profile(Conv::C | Conv::S) => matches!(length, Length::None | Length::L),
        WholeConv::Profile(_) => true,
        WholeConv::Float(_) => matches!(length, Length::None | Length::L),
        WholeConv::Count => true,
        _ => matches!(length, Length::None),
    }
}

#[inline(always)]
fn is_count(conversion: WholeConv) -> bool
    ensures { result ≡ is_count conversion }
{
    matches!(conversion, WholeConv::Count)
}

#[inline(always)]
fn has_any_flag(set: FlagSet) -> bool
    ensures { result ≡ has_any_flag set }
{
    set.has(Flag::Minus)
        || set.has(Flag::Plus)
        || set.has(Flag::Space)
        || set.has(Flag::Alt)
        || set.has(Flag::Zero)
        || set.has(Flag::Group)
}
