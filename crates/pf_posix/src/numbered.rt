//! The arguments of a numbered format, in a table (POSIX fprintf on numbered arguments).
ghost use Rattle.std.specs.Prelude.{◌≡◌, ◌≢◌, ◌<◌, ◌≤◌, ◌++◌, ◌+◌, ◌∷◌, [], ℕ, Some, get_or, max, length, List, MatchBool, MatchResult, true, false};
ghost use Rattle.pf_values.specs.declared.refusals.RefusalKind.TheVariants.{MissingArgument};
ghost use Rattle.pf_values.specs.meaning.Text.{percent};
ghost use Rattle.pf_text.specs.Walks.{HasPercent, IsWalk};
ghost use Rattle.pf_posix.specs.declared.fetches.Fetch.{Fetch as FetchOf};
ghost use Rattle.pf_posix.specs.Items.{errno_letter};
ghost use Rattle.pf_posix.specs.Laws.{HasCount, filled};
ghost use Rattle.pf_posix.specs.Readings.{conflicts, listed};
ghost use Rattle.pf_posix.specs.Refusals.{HasGap, IsWholeRefusedAt};
ghost use Rattle.pf_posix.specs.Tables.{ArePlaced, IsNumberedFirst, IsPlacedNumber, Keeps, KeepsSpecification, KeepsStars, TableHolds};
ghost use Rattle.pf_posix.specs.Types.{IsFetched, fetch};

use crate::argument_types::put;
use crate::fetches::conversion_type;
use crate::long_texts::refusal_at;
use crate::specifications::{Numbering, Specification, Stars, defined_at, has_errno, refusal};
use crate::types::WholeArgType;
use pf_text::{Percents, Refusal, Walk};
use pf_values::{ArgType, Model, RefusalKind};

/// As many arguments as a numbered format can have.
pub(crate) const ROOM: usize = 4095;

/// The type of each fetched argument, at its index, and the largest number of them.
#[derive(Drop)]
pub(crate) struct Table {
    types: [Option<WholeArgType>; ROOM],
    count: usize,
}

/// Puts the types of the arguments of a numbered format at the front of a slice, as many as it has room for, and
/// returns how many there are. A walk is at the first specification.
#[inline(never)]
pub(crate) fn numbered_arguments(
    model: Model,
    at_first: Walk<'_>,
    out: &mut [WholeArgType],
) -> Result<u64, Refusal>
    requires walk { IsWalk at_first }
    requires percent { HasPercent at_first.text.now at_first.at }
    requires other { get_or at_first.text.now (at_first.at + 1) 0 ≢ percent }
    requires errno { get_or at_first.text.now (at_first.at + 1) 0 ≢ errno_letter }
    requires first { IsNumberedFirst model at_first.text.now at_first.at }
    ensures types { MatchResult result
        (λ count. HasCount model at_first.entry.text.now out.old out.new count)
        (λ refusal. IsWholeRefusedAt model at_first.entry.text.now refusal.kind refusal.at) }
    ensures length { length out.new ≡ length out.old }
{
    let mut table = Table::new();
    let mut walk = at_first;
    match defined_at(walk.text(), walk.at, Numbering::Undecided) {
        Ok((read, stop)) => {
            table.add(model, &read, stop)?;
            walk.at = stop;
        }
        Err(refused) => return Err(refused.refusal),
    }
    while walk.find::<Percents>() {
        if has_errno(walk.text(), walk.at) {
            walk.at += 2;
            continue;
        }
        match defined_at(walk.text(), walk.at, Numbering::Numbered) {
            Ok((read, stop)) => {
                table.add(model, &read, stop)?;
                walk.at = stop;
            }
            Err(refused) => {
                table.add_stars(&refused.stars)?;
                return Err(refused.refusal);
            }
        }
    }
    if walk.at < walk.text().len() {
        return Err(refusal_at(walk.text(), walk.at));
    }
    table.finish(walk.at)?;
    table.copy_front(out);
    Ok(table.count as u64)
}

impl Table {
    /// A table of no argument.
    fn new() -> Table
        ensures { TableHolds result [] }
    {
        Table {
            types: [None; ROOM],
            count: 0,
        }
    }

    // Adds the arguments of a specification that ends at an offset.
    fn add(&mut self, model: Model, read: &Specification, stop: usize) -> Result<(), Refusal>
        requires stars { ArePlaced read.now.stars }
        requires position { IsPlacedNumber read.now.position stop }
        ensures { KeepsSpecification model self.old read.now stop result self.new }
    {
        self.add_stars(&read.stars)?;
        self.add_one(
            read.position,
            conversion_type(model, read.parts.modifier, read.parts.conversion),
            stop,
        )
    }

    // Adds the arguments of the `*`s of a specification.
    fn add_stars(&mut self, stars: &Stars) -> Result<(), Refusal>
        requires { ArePlaced stars.now }
        ensures { KeepsStars self.old stars.now result self.new }
    {
        let int = WholeArgType::Profile(ArgType::Int);
        self.add_one(stars.width, int, stars.width_stop)?;
        self.add_one(stars.precision, int, stars.precision_stop)
    }

    // Adds the argument of a number, if there is one, that a text fetches before an offset. `Err` if it is there with
    // another type.
    fn add_one(
        &mut self,
        number: Option<u16>,
        wanted: WholeArgType,
        stop: usize,
    ) -> Result<(), Refusal>
        requires { IsPlacedNumber number stop }
        ensures { Keeps self.old number wanted stop result self.new }
    {
        let Some(number) = number else {
            return Ok(());
        };
        if self.add_fetch(usize::from(number) - 1, wanted) {
            return Ok(());
        }
        Err(refusal(RefusalKind::TwoTypes, stop - 1))
    }

    // Adds an argument; `false` where it is there with another type.
    fn add_fetch(&mut self, index: usize, wanted: WholeArgType) -> bool
        requires { index < ROOM }
        ensures { (seen : List FetchOf) → TableHolds self.old seen
            → MatchBool result
            ((conflicts seen (fetch (Some (index + 1)) wanted) ≡ false)
            × TableHolds self.new (seen ++ fetch (Some (index + 1)) wanted ∷ []))
            (conflicts seen (fetch (Some (index + 1)) wanted) ≡ true) }
    {
        self.count = larger(self.count, index + 1);
        match self.types[index] {
            Some(there) => there.number() == wanted.number(),
            None => {
                self.types[index] = Some(wanted);
                true
            }
        }
    }

    // Rejects a text at its end where an argument is missing.
    fn finish(&self, at: usize) -> Result<(), Refusal>
        requires room { self.now.count ≤ ROOM }
        ensures { (seen : List FetchOf) → TableHolds self.now seen → MatchResult result
            (λ _. (index : ℕ) → index < self.now.count → IsFetched index seen)
            (λ refusal. (refusal ≡ record { kind = MissingArgument; at = at }) × HasGap seen) }
    {
        let mut index = 0;
        while index < self.count {
            if self.types[index].is_none() {
                return Err(refusal(RefusalKind::MissingArgument, at));
            }
            index += 1;
        }
        Ok(())
    }

    // Copies the types to the front of a slice, as many as it has room for.
    fn copy_front(&self, out: &mut [WholeArgType])
        requires room { self.now.count ≤ ROOM }
        ensures types { (seen : List FetchOf) → TableHolds self.now seen
            → out.new ≡ filled out.old (listed seen 0 self.now.count) }
        ensures length { length out.new ≡ length out.old }
    {
        let mut index = 0;
        while index < self.count {
            put(
                out,
                index,
                self.types[index].unwrap_or(WholeArgType::Profile(ArgType::Int)),
            );
            index += 1;
        }
    }
}

fn larger(one: usize, other: usize) -> usize
    ensures { result ≡ max one other }
{
    if one < other {
        return other;
    }
    one
}
