//! The parts that a conversion specification can be without (C11 7.21.6.1, paragraph 4).
ghost use Rattle.std.specs.Prelude.{◌≡◌, IsTrue, if◌then◌else◌};
ghost use Rattle.pf_values.specs.meaning.Flags.{has, no_flags, with_flag};
ghost use Rattle.pf_values.specs.declared.lengths.Length.TheVariants as lengths;
ghost use Rattle.pf_posix.specs.declared.conversions.WholeLength.TheVariants.{Integer};
ghost use Rattle.pf_posix.specs.OpaqueParts.{amount_of, parts_of_opaque};
ghost use Rattle.pf_whole.specs.Parts.{given_parts, has_part, is_modifier, left_out, no_parts, with_part, without, without_flags};

use pf_posix::{OpaqueAmount, OpaqueDirective, WholeLength};
use pf_values::{Flag, FlagSet, Length};

/// A part that a conversion specification can be without.
#[derive(Clone, Copy, Debug, PartialEq, Eq)]
pub enum Part {
    /// A flag: all of its copies.
    Flag(Flag),
    /// The field width.
    Width,
    /// The precision, with its point.
    Precision,
    /// The length modifier.
    Modifier,
}

/// A set of parts.
#[derive(Clone, Copy, Debug, PartialEq, Eq)]
pub struct PartSet {
    /// Its flags.
    pub flags: FlagSet,
    /// Whether it has the width.
    pub width: bool,
    /// Whether it has the precision.
    pub precision: bool,
    /// Whether it has the length modifier.
    pub modifier: bool,
}

impl PartSet {
    /// Returns the set without parts.
    pub fn empty() -> PartSet
        ensures { result ≡ no_parts }
    {
        PartSet {
            flags: FlagSet::empty(),
            width: false,
            precision: false,
            modifier: false,
        }
    }

    /// Returns the set with one part more.
    pub fn with(self, part: Part) -> PartSet
        ensures { result ≡ with_part self part }
    {
        let mut set = self;
        match part {
            Part::Flag(flag) => set.flags = set.flags.with(flag),
            Part::Width => set.width = true,
            Part::Precision => set.precision = true,
            Part::Modifier => set.modifier = true,
        }
        set
    }

    /// Whether the set is known to have no part.
    pub(crate) fn is_empty(self) -> bool
        ensures { IsTrue result → self ≡ no_parts }
    {
        if self.width || self.precision || self.modifier {
            return false;
        }
        has_none(self.flags)
    }

    /// Returns whether the part is in the set.
    pub fn has(self, part: Part) -> bool
        ensures { result ≡ has_part self part }
    {
        match part {
            Part::Flag(flag) => self.flags.has(flag),
            Part::Width => self.width,
            Part::Precision => self.precision,
            Part::Modifier => self.modifier,
        }
    }
}

fn has_none(flags: FlagSet) -> bool
    ensures { IsTrue result → flags ≡ no_flags }
{
    !flags.has(Flag::Minus)
        && !flags.has(Flag::Plus)
        && !flags.has(Flag::Space)
        && !flags.has(Flag::Alt)
        && !flags.has(Flag::Zero)
        && !flags.has(Flag::Group)
}

/// The parts that a directive has.
pub(crate) fn given_parts(directive: OpaqueDirective) -> PartSet
    ensures { result ≡ given_parts (parts_of_opaque directive) }
{
    PartSet {
        flags: directive.flags,
        width: directive.width.is_some(),
        precision: directive.precision.is_some(),
        modifier: is_modifier(directive.modifier),
    }
}

fn is_modifier(modifier: WholeLength) -> bool
    ensures { result ≡ is_modifier modifier }
{
    match modifier {
        WholeLength::Integer(Length::None) => false,
        WholeLength::Integer(_) => true,
        WholeLength::LongDouble => true,
    }
}

/// The directive without these parts.
pub(crate) fn without(directive: OpaqueDirective, set: PartSet) -> OpaqueDirective
    ensures { parts_of_opaque result ≡ without (parts_of_opaque directive) set }
{
    OpaqueDirective {
        flags: without_flags(directive.flags, set.flags),
        width: left_out(set.width, directive.width),
        precision: left_out(set.precision, directive.precision),
        modifier: modifier_left(set.modifier, directive.modifier),
        conversion: directive.conversion,
    }
}

fn left_out(is_out: bool, amount: Option<OpaqueAmount>) -> Option<OpaqueAmount>
    ensures { amount_of result ≡ left_out is_out (amount_of amount) }
{
    if is_out {
        return None;
    }
    amount
}

fn modifier_left(is_out: bool, modifier: WholeLength) -> WholeLength
    ensures { result ≡ (if is_out then Integer lengths.None else modifier) }
{
    if is_out {
        return WholeLength::Integer(Length::None);
    }
    modifier
}

fn without_flags(flags: FlagSet, others: FlagSet) -> FlagSet
    ensures { result ≡ without_flags flags others }
{
    let left = with_left(FlagSet::empty(), flags, others, Flag::Minus);
    let left = with_left(left, flags, others, Flag::Plus);
    let left = with_left(left, flags, others, Flag::Space);
    let left = with_left(left, flags, others, Flag::Alt);
    let left = with_left(left, flags, others, Flag::Zero);
    with_left(left, flags, others, Flag::Group)
}

// Adds the flag if it is in the first set alone.
fn with_left(left: FlagSet, flags: FlagSet, others: FlagSet, flag: Flag) -> FlagSet
    ensures { result ≡ (if has (without_flags flags others) flag then with_flag left flag else left) }
{
    if flags.has(flag) && !others.has(flag) {
        return left.with(flag);
    }
    left
}
