//! The bounds of a text that isn't long, if they are known.
ghost use Rattle.std.specs.Prelude.{◌≡◌, ◌-◌, ◌<◌, ◌≤◌, drop, length, take, true, None, IfSome, MatchOption, ⊤};
ghost use Rattle.pf_values.specs.Directives.{specification_of};
ghost use Rattle.pf_values.specs.declared.lengths.Length.TheVariants as lengths;
ghost use Rattle.pf_values.specs.meaning.Flags.{no_flags};
ghost use Rattle.pf_text.specs.Walks.{HasPercent};
ghost use Rattle.pf_bounds.specs.Bounds.{AreBounds, AreBoundsOf, AreWithin, CanPrint};
ghost use Rattle.pf_bounds.specs.FieldLengths.{item_limit};
ghost use Rattle.pf_bounds.specs.Tallies.{IsTallied, largest_of};

use crate::directives::directive_bounds;
use crate::sums::Bounds;
use crate::tallies::Tally;
use pf_text::{Nothing, Walk, conv_of, directive_at};
use pf_values::{Conv, Model};

// The most bytes of a text whose bounds are summed in 64 bits.
const MAX_TALLIED: u64 = 1 << 32;

/// Returns the bounds of a text, or `None` if they aren't known.
#[inline(always)]
pub(crate) fn known_bounds(model: Model, text: &[u8]) -> Option<Tally>
    ensures { IfSome result (λ tally. AreBounds model text.now tally.least (largest_of tally)) }
{
    if text.len() as u64 > MAX_TALLIED {
        return None;
    }
    let mut walk = Walk::new(text);
    let mut sum = Tally::exactly(0);
    let mut from = 0;
    while walk.find::<Nothing>() {
        let (item, stop) = item_at(model, walk.text(), walk.at)?;
        sum = sum.plus(Tally::exactly((walk.at - from) as u64)).plus(item);
        from = stop;
        walk.at = stop;
    }
    if walk.at != text.len() {
        return None;
    }
    Some(sum.plus(Tally::exactly((walk.at - from) as u64)))
}

// The bounds of the `%%` or the directive at an offset, and where it ends. None if none begins there.
#[inline(always)]
fn item_at(model: Model, text: &[u8], at: usize) -> Option<(Tally, usize)>
    requires { HasPercent text.now at }
    ensures { MatchOption result ⊤ (λ item. (at < item.1) × (item.1 ≤ length text.now)
        × IsTallied model (take (item.1 - at) (drop at text.now)) item.0) }
{
    if text[at + 1] == b'%' {
        return Some((Tally::exactly(1), at + 2));
    }
    match conv_of(text[at + 1]) {
        Some(conv) => Some((bare_tally(model, conv), at + 2)),
        None => parts_tally_at(model, text, at),
    }
}

// The bounds of the directive at an offset, and where it ends. None if none begins there. Never inlined,
// which keeps the loop short.
#[inline(never)]
fn parts_tally_at(model: Model, text: &[u8], at: usize) -> Option<(Tally, usize)>
    ensures { MatchOption result ⊤ (λ item. (at < item.1) × (item.1 ≤ length text.now)
        × IsTallied model (take (item.1 - at) (drop at text.now)) item.0) }
{
    let found = directive_at(text, at)?;
    Some((
        tally_of(directive_bounds(model, &found.directive)),
        found.stop,
    ))
}

// The bounds of a directive of this conversion alone: the numbers of an `int` in each data model.
#[inline(always)]
fn bare_tally(model: Model, conv: Conv) -> Tally
    ensures value { AreBoundsOf (CanPrint model (specification_of no_flags None None lengths.None conv))
        result.least (largest_of result) }
    ensures few { (result.least ≤ item_limit) × (result.spread ≤ item_limit) }
{
    match conv {
        Conv::D | Conv::I | Conv::O => up_to(11),
        Conv::U => up_to(10),
        Conv::X | Conv::UpperX => up_to(8),
        Conv::B => up_to(32),
        Conv::C => Tally::exactly(1),
        Conv::S => Tally {
            least: 0,
            spread: 0,
            is_bounded: false,
        },
    }
}

// The bounds of what prints one byte at least, and this number at most.
#[inline(always)]
fn up_to(greatest: u64) -> Tally
    requires some { 1 ≤ greatest }
    ensures least { result.least ≡ 1 }
    ensures spread { result.spread ≡ greatest - 1 }
    ensures bounded { result.is_bounded ≡ true }
{
    Tally {
        least: 1,
        spread: greatest - 1,
        is_bounded: true,
    }
}

// These bounds in 64 bits.
#[inline(always)]
fn tally_of(bounds: Bounds) -> Tally
    requires few { AreWithin bounds.least bounds.greatest item_limit }
    requires ordered { IfSome bounds.greatest (λ greatest. bounds.least ≤ greatest) }
    ensures least { result.least ≡ bounds.least }
    ensures greatest { largest_of result ≡ bounds.greatest }
    ensures few { result.spread ≤ item_limit }
{
    let least = bounds.least as u64;
    match bounds.greatest {
        Some(greatest) => Tally {
            least,
            spread: greatest as u64 - least,
            is_bounded: true,
        },
        None => Tally {
            least,
            spread: 0,
            is_bounded: false,
        },
    }
}
