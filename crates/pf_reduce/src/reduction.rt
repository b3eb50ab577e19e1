//! Reduction of a directive.
ghost use Rattle.std.specs.Prelude.{◌≡◌};
ghost use Rattle.pf_values.specs.meaning.Normal.{IsNormal, silent};
ghost use Rattle.pf_reduce.specs.Reducing.{IsReducedTo};

use crate::integers::{reduce_signed, reduce_unsigned};
use crate::results::{Core, Reduced};
use crate::texts::{reduce_char, reduce_string};
use pf_values::{Directive, Kind, Model};

/// Returns the padding and the normal core that print what the directive prints (C11 7.21.6.1,
/// paragraphs 4 to 8), for each argument of its type in this data model. A normal directive is its
/// own core, and `%.0s` is `Silent`.
pub fn reduce(model: Model, directive: &Directive) -> Reduced
    ensures same { IsReducedTo model directive.now result }
    ensures kept { IsNormal model directive.now
        → result ≡ record {
          spaces = 0;
          zeros = 0;
          core = Core.Normal (record { model = model; specification = directive.now });
          trail = 0;
        } }
    ensures silent { directive.now ≡ silent
        → result ≡ record { spaces = 0; zeros = 0; core = Core.Silent; trail = 0 } }
{
    match directive.conv().kind() {
        Kind::Signed => reduce_signed(model, directive),
        Kind::Unsigned(base, _) => reduce_unsigned(model, directive, base.alternative()),
        Kind::Char => reduce_char(model, directive),
        Kind::String => reduce_string(model, directive),
    }
}
