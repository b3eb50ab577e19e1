//! Normal directives made of their parts.
ghost use Rattle.std.specs.Prelude.{◌≡◌};
ghost use Rattle.pf_values.specs.meaning.Normal.{IsNormal};
ghost use Rattle.pf_reduce.specs.Cores.{IsReducedAs, padded_core, core_of_parts, kept_precision};
ghost use Rattle.pf_reduce.specs.Reducing.{IsNormalCore, IsReducedTo, itself};

use crate::padding::Padding;
use crate::results::{Core, Normal, Reduced};
use pf_values::{Directive, Flag, FlagSet, Model};

/// The directive with these flags and this precision, in this padding.
pub(crate) fn padded_core(
    model: Model,
    padding: Padding,
    directive: &Directive,
    flags: FlagSet,
    precision: Option<u16>,
) -> Reduced
    requires { IsNormal model (core_of_parts model directive.now padding flags precision) }
    ensures value { result ≡ padded_core model directive.now padding flags precision }
    ensures normal { IsNormalCore model result.core }
{
    let flags = if padding.left {
        flags.with(Flag::Minus)
    } else {
        flags
    };
    let length = directive.length().representative(model);
    let conv = directive.conv().representative();
    let core = Directive::of_defined(flags, Some(padding.width), precision, length, conv);
    Reduced {
        spaces: padding.spaces,
        zeros: padding.zeros,
        core: Core::Normal(Normal::new(model, core)),
        trail: padding.trail,
    }
}

/// Returns what `padded_core` returns, for parts to which the directive is reduced.
pub(crate) fn reduced_core(
    model: Model,
    padding: Padding,
    directive: &Directive,
    flags: FlagSet,
    precision: Option<u16>,
) -> Reduced
    requires { IsReducedAs model directive.now padding flags precision }
    ensures value { result ≡ padded_core model directive.now padding flags precision }
    ensures same { IsReducedTo model directive.now result }
    ensures kept { IsNormal model directive.now → result ≡ itself model directive.now }
{
    padded_core(model, padding, directive, flags, precision)
}

/// Returns the precision, or `None` for 1, which is the default.
pub(crate) fn kept_precision(precision: u16) -> Option<u16>
    ensures { result ≡ kept_precision precision }
{
    match precision {
        1 => None,
        other => Some(other),
    }
}
