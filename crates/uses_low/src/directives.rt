//! A directive that is put together, and what one prints in any case.
ghost use Rattle.std.specs.Prelude.{◌≡◌, IfSome, IsTrue, ℤ, None, Some};
ghost use Rattle.pf_values.specs.declared.conversions.Conv.TheVariants as conversions;
ghost use Rattle.pf_values.specs.declared.flags.Flag.TheVariants as flags;
ghost use Rattle.pf_values.specs.declared.lengths.Length.TheVariants as lengths;
ghost use Rattle.pf_values.specs.declared.types.ArgType.TheVariants.{Int};
ghost use Rattle.pf_values.specs.Laws.{PrintsOnly};
ghost use Rattle.pf_values.specs.meaning.Arguments.{HasType, Number};
ghost use Rattle.pf_values.specs.meaning.Flags.{no_flags, with_flag};
ghost use Rattle.pf_values.specs.meaning.Text.{Text};
ghost use Rattle.pf_values.specs.Directives.{specification_of};
ghost use Rattle.pf_reduce.specs.declared.results.Reduced.{Reduced};
ghost use Rattle.pf_reduce.specs.Reducing.{IsReducedTo};

use pf_reduce::reduce;
use pf_values::laws::prints_once;
use pf_values::{ArgType, Conv, Directive, Flag, FlagSet, Length, Model};

/// Returns the directive of a column that holds strings, as `%-20s`, or `None` for a width above
/// the limit.
pub fn column(width: u16) -> Option<Directive>
    ensures { IfSome result (λ d.
        d ≡ specification_of (with_flag no_flags flags.Minus) (Some width) None lengths.None
        conversions.S) }
{
    let flags = FlagSet::empty().with(Flag::Minus);
    match Directive::new(flags, Some(width), None, Length::None, Conv::S) {
        Ok(directive) => Some(directive),
        Err(_) => None,
    }
}

/// Returns with how many spaces a directive prints first, whatever its argument is.
pub fn spaces_in_front(model: Model, directive: &Directive) -> u16
    ensures { (reduced : Reduced) × IsReducedTo model directive.now reduced
        × (result ≡ reduced.spaces) }
{
    reduce(model, directive).spaces
}

/// Returns whether a directive takes an int. If so, it prints one text for each, and no other.
pub fn prints_ints(model: Model, directive: &Directive) -> bool
    ensures { IsTrue result → (number : ℤ) → HasType model (Number number) Int
        → (out : Text) × PrintsOnly model directive.now (Number number) out }
{
    prints_once();
    matches!(directive.arg_type(model), ArgType::Int)
}
