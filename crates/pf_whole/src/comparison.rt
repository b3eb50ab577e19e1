//! Whether two formats of the whole language are alike.
ghost use Rattle.std.specs.Prelude.{◌≡◌, ◌↔◌, IsTrue, MatchResult};
ghost use Rattle.pf_whole.specs.Faults.{AreWholeSame, FaultForWholeSame};
ghost use Rattle.pf_posix.specs.OpaqueParts.{item_of_opaque};
ghost use Rattle.pf_posix.specs.declared.opaque_directives.Opaque.TheVariants.{Directive, Errno};
ghost use Rattle.pf_whole.specs.meaning.NormalSpellings.{normal_spelling};

use crate::languages::Whole;
use crate::spelling::normal_spelling;
use pf_canon::same_text_in;
use pf_posix::{Opaque, OpaqueAmount, OpaqueDirective, WholeConv, WholeLength};
use pf_text::{Refusal, Side};
use pf_values::{FlagSet, Model};

/// Returns whether two formats have equal argument types, print equal bytes for all arguments, and make
/// the same calls. `Err` if a text is rejected: with the first text's refusal if it has one. Allocates
/// nothing.
pub fn same_text(model: Model, first: &[u8], second: &[u8]) -> Result<bool, (Side, Refusal)>
    ensures { MatchResult result (AreWholeSame model first.now second.now)
        (FaultForWholeSame model first.now second.now) }
{
    same_text_in::<Whole>(model, first, second)
}

/// Returns whether two calls have the same normal spelling.
#[inline(always)]
pub(crate) fn make_one_call(model: Model, first: Opaque, second: Opaque) -> bool
    ensures { IsTrue result ↔ (normal_spelling model (item_of_opaque first)
        ≡ normal_spelling model (item_of_opaque second)) }
{
    if are_equal(first, second) {
        return true;
    }
    normal_spelling(model, first).as_slice() == normal_spelling(model, second).as_slice()
}

#[inline(always)]
fn are_equal(first: Opaque, second: Opaque) -> bool
    ensures { IsTrue result → first ≡ second }
{
    match first {
        Opaque::Directive(directive) => is_directive(second, &directive),
        Opaque::Errno => is_errno(second),
    }
}

fn is_errno(opaque: Opaque) -> bool
    ensures { IsTrue result → opaque ≡ Errno }
{
    match opaque {
        Opaque::Directive(_) => false,
        Opaque::Errno => true,
    }
}

fn is_directive(opaque: Opaque, wanted: &OpaqueDirective) -> bool
    ensures { IsTrue result → opaque ≡ Directive wanted.now }
{
    match opaque {
        Opaque::Directive(directive) => have_same_parts(&directive, wanted),
        Opaque::Errno => false,
    }
}

fn have_same_parts(first: &OpaqueDirective, second: &OpaqueDirective) -> bool
    ensures { IsTrue result → first.now ≡ second.now }
{
    same_conversion(first.conversion, second.conversion)
        && same_modifier(first.modifier, second.modifier)
        && same_flags(first.flags, second.flags)
        && same_amount(first.width, second.width)
        && same_amount(first.precision, second.precision)
}

fn same_conversion(first: WholeConv, second: WholeConv) -> bool
    ensures { IsTrue result → first ≡ second }
{
    first == second
}

fn same_modifier(first: WholeLength, second: WholeLength) -> bool
    ensures { IsTrue result → first ≡ second }
{
    first == second
}

fn same_flags(first: FlagSet, second: FlagSet) -> bool
    ensures { IsTrue result → first ≡ second }
{
    first == second
}

fn same_amount(first: Option<OpaqueAmount>, second: Option<OpaqueAmount>) -> bool
    ensures { IsTrue result → first ≡ second }
{
    first == second
}
