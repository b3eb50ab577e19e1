//! The argument types of a text, in a slice, if they are known.
ghost use Rattle.std.specs.Prelude.{◌≡◌, ◌+◌, ◌-◌, ◌<◌, ◌≤◌, [], ◌∷◌, ◌++◌, drop, length, take, None, MatchOption, ⊤};
ghost use Rattle.pf_values.specs.Directives.{specification_of};
ghost use Rattle.pf_values.specs.declared.lengths.Length.TheVariants as lengths;
ghost use Rattle.pf_values.specs.meaning.DataModel.{arg_type};
ghost use Rattle.pf_values.specs.meaning.Flags.{no_flags};
ghost use Rattle.pf_text.specs.FoundDirectives.{BeginsNoDirective};
ghost use Rattle.pf_text.specs.Signatures.{ReadsTyped, TakesTypes};
ghost use Rattle.pf_text.specs.Walks.{HasPercent};

use crate::letters::conv_of;
use crate::passed::Percents;
use crate::specification::directive_at_percent;
use crate::walk::Walk;
use pf_values::{ArgType, Conv, Length, Model};

/// Puts the types of the arguments that a text takes at the front of `types`, leaves the rest as it was, and
/// returns how many there are. `None` if they aren't known or have no room: then `types` may have been written,
/// and `signature` says them.
pub fn known_types(model: Model, text: &[u8], types: &mut [ArgType]) -> Option<usize>
    ensures { MatchOption result ⊤ (λ count. (count ≤ length types.new)
        × TakesTypes model text.now (take count types.new)
        × (drop count types.new ≡ drop count types.old)) }
{
    let mut walk = Walk::new(text);
    let mut count = 0;
    while walk.find::<Percents>() {
        let (arg_type, stop) = type_at(model, walk.text(), walk.at)?;
        count = put_type(types, count, arg_type)?;
        walk.at = stop;
    }
    if walk.at == text.len() {
        return Some(count);
    }
    None
}

// Puts a type after the others, and returns how many there are now. None if it has no room.
#[inline(always)]
fn put_type(types: &mut [ArgType], count: usize, arg_type: ArgType) -> Option<usize>
    requires { count ≤ length types.old }
    ensures { MatchOption result ⊤ (λ more. (more ≡ count + 1) × (more ≤ length types.new)
        × (take more types.new ≡ take count types.old ++ arg_type ∷ [])
        × (drop more types.new ≡ drop more types.old)) }
{
    if count >= types.len() {
        return None;
    }
    types[count] = arg_type;
    Some(count + 1)
}

// The type of the argument that the directive at an offset takes, and where it ends. None if none begins
// there.
#[inline(always)]
fn type_at(model: Model, text: &[u8], at: usize) -> Option<(ArgType, usize)>
    requires { HasPercent text.now at }
    ensures { MatchOption result (BeginsNoDirective (drop at text.now)) (λ found. (at < found.1)
        × (found.1 ≤ length text.now) × ReadsTyped model (take (found.1 - at) (drop at text.now)) (found.0 ∷ [])) }
{
    match conv_of(text[at + 1]) {
        Some(conv) => Some((bare_type(model, conv), at + 2)),
        None => parts_type_at(model, text, at),
    }
}

// The type of the argument that a directive of this conversion alone takes.
#[inline(always)]
fn bare_type(model: Model, conv: Conv) -> ArgType
    ensures { result ≡ arg_type model (specification_of no_flags None None lengths.None conv) }
{
    conv.arg_type(model, Length::None)
}

// `type_at` of a directive with more than a conversion. Never inlined: that keeps the loop of the others
// short.
#[inline(never)]
fn parts_type_at(model: Model, text: &[u8], at: usize) -> Option<(ArgType, usize)>
    requires { HasPercent text.now at }
    ensures { MatchOption result (BeginsNoDirective (drop at text.now)) (λ found. (at < found.1)
        × (found.1 ≤ length text.now) × ReadsTyped model (take (found.1 - at) (drop at text.now)) (found.0 ∷ [])) }
{
    let found = directive_at_percent(text, at)?;
    Some((found.directive.arg_type(model), found.stop))
}
