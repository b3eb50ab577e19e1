//! Whether two directives print the same, by what they are reduced to.
ghost use Rattle.std.specs.Prelude.{◌≡◌, ◌≢◌, ◌↔◌, ◌∷◌, [], IsFalse, IsTrue};
ghost use Rattle.pf_values.specs.declared.models.Model.{Model};
ghost use Rattle.pf_values.specs.meaning.Items.{Directive as item_of};
ghost use Rattle.pf_values.specs.meaning.Normal.{IsNormal, silent};
ghost use Rattle.pf_values.specs.meaning.Printing.{PrintAlike};
ghost use Rattle.pf_reduce.specs.Reducing.{core_of};
ghost use Rattle.pf_compare.specs.Reductions.{HaveSameParts};

use crate::differences::are_equal;
use pf_reduce::{Core, Reduced, reduce};
use pf_values::{Directive, Model};

/// Returns whether two directives take an argument of one type, and print the same for each such argument.
pub fn print_alike(model: Model, first: &Directive, second: &Directive) -> bool
    ensures { IsTrue result ↔ PrintAlike model (item_of first.now ∷ []) (item_of second.now ∷ []) }
{
    let first_reduced = reduce(model, first);
    let second_reduced = reduce(model, second);
    have_same_parts(&first_reduced, &second_reduced)
}

fn have_same_parts(first: &Reduced, second: &Reduced) -> bool
    ensures yes { IsTrue result → HaveSameParts first.now second.now }
    ensures other { IsFalse result → ¬ HaveSameParts first.now second.now }
{
    first.spaces == second.spaces
        && first.zeros == second.zeros
        && first.trail == second.trail
        && are_equal_cores(first.core, second.core)
}

fn are_equal_cores(first: Core, second: Core) -> bool
    ensures yes { IsTrue result → core_of first ≡ core_of second }
    ensures other { IsFalse result → core_of first ≢ core_of second }
{
    match first {
        Core::Normal(normal) => is_normal_core(second, &normal.directive()),
        Core::Silent => is_silent(second),
    }
}

// Whether a core is this normal directive.
fn is_normal_core(core: Core, wanted: &Directive) -> bool
    requires { (model : Model) × IsNormal model wanted.now }
    ensures yes { IsTrue result → wanted.now ≡ core_of core }
    ensures other { IsFalse result → wanted.now ≢ core_of core }
{
    match core {
        Core::Normal(normal) => are_equal(wanted, &normal.directive()),
        Core::Silent => false,
    }
}

fn is_silent(core: Core) -> bool
    ensures yes { IsTrue result → silent ≡ core_of core }
    ensures other { IsFalse result → silent ≢ core_of core }
{
    match core {
        Core::Normal(normal) => {
            let _ = normal.directive();
            false
        }
        Core::Silent => true,
    }
}
