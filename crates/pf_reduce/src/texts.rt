//! Characters and strings.
ghost use Rattle.std.specs.Prelude.{◌≡◌, ◌≤◌, IfSome, Some};
ghost use Rattle.pf_values.specs.declared.conversions.Conv.TheVariants.{C, S};
ghost use Rattle.pf_values.specs.meaning.Normal.{IsNormal};
ghost use Rattle.pf_values.specs.meaning.Printing.{printed_front};
ghost use Rattle.pf_values.specs.meaning.Specification.{width_of};
ghost use Rattle.pf_values.specs.meaning.Text.{Text};
ghost use Rattle.pf_reduce.specs.Padded.{constants, with_padding};
ghost use Rattle.pf_reduce.specs.Reducing.{IsReducedTo, itself};

use crate::normal_directives::padded_core;
use crate::numbers::width;
use crate::padding::Padding;
use crate::results::{Core, Reduced};
use pf_values::{Directive, FlagSet, Model};

/// `c`: one byte.
pub(crate) fn reduce_char(model: Model, directive: &Directive) -> Reduced
    requires { directive.now.conv ≡ C }
    ensures same { IsReducedTo model directive.now result }
    ensures kept { IsNormal model directive.now → result ≡ itself model directive.now }
{
    let padding = Padding::of(directive)
        .with_width_at_most(1)
        .without_idle_width(1)
        .right_justify_if_unseen(0);
    padded_core(model, padding, directive, FlagSet::empty(), None)
}

/// `s`: bytes, no more than the precision says.
pub(crate) fn reduce_string(model: Model, directive: &Directive) -> Reduced
    requires { directive.now.conv ≡ S }
    ensures same { IsReducedTo model directive.now result }
    ensures kept { IsNormal model directive.now → result ≡ itself model directive.now }
    ensures silent { directive.now.precision ≡ Some 0
        → result ≡ record {
          spaces = width_of directive.now;
          zeros = 0;
          core = Core.Silent;
          trail = 0;
        } }
{
    let precision = directive.precision();
    if precision == Some(0) {
        return Reduced {
            spaces: width(directive),
            zeros: 0,
            core: Core::Silent,
            trail: 0,
        };
    }
    let padding = string_padding(Padding::of(directive), precision).right_justify_if_unseen(1);
    padded_core(model, padding, directive, FlagSet::empty(), precision)
}

// The padding of a string, with a width that is at most the precision.
fn string_padding(padding: Padding, precision: Option<u16>) -> Padding
    requires { (padding.spaces ≡ 0) × (padding.zeros ≡ 0) × (padding.trail ≡ 0) }
    ensures same { (bytes : Text)
        → with_padding padding (printed_front precision bytes)
        ≡ with_padding result (printed_front precision bytes) }
    ensures constant { constants result ≤ padding.width }
    ensures narrower { result.width ≤ padding.width }
    ensures width { IfSome precision (λ most. result.width ≤ most) }
    ensures kept { IfSome precision (λ most. padding.width ≤ most)
        → (constants result ≡ 0) × (result.width ≡ padding.width)
        × (result.left ≡ padding.left) }
{
    match precision {
        Some(most) => padding.with_width_at_most(most),
        None => padding,
    }
}
