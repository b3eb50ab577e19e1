//! Two texts, compared in step.
ghost use Rattle.std.specs.Prelude.{◌≡◌, ◌≤◌, take, Some, Err, IfErr, IfOk, MatchResult, ◌≢◌, [], IsTrue, MatchBool};
ghost use Rattle.pf_values.specs.Counting.{HasFailed, Known, device_of, failures_of};
ghost use Rattle.pf_text.specs.Walks.{AreRead, Either, IsMadeOf};
ghost use Rattle.pf_values.specs.declared.limits.TheConstants.{MAX_TEXT_LEN};
ghost use Rattle.pf_values.specs.declared.models.Model.{Model as ModelOf};
ghost use Rattle.pf_values.specs.meaning.Text.{Text};
ghost use Rattle.pf_canon.specs.Comparison.{AreCommon, AreTextsSame, CountsBehind, CountsSides, EndsBoth, HaveCommon, IsFilledInStep, IsInStep, StopsSide, TextStops};
ghost use Rattle.pf_canon.specs.CanonicalBytes.{AnswerLeaves, History, IsFilled, pending_in, units};
ghost use Rattle.pf_canon.specs.CanonicalSlices.{AreApart, GoInStep, SlicesHaveGiven};
ghost use Rattle.pf_canon.specs.Languages.{AreSameIn, StopsIn};

use crate::canonical_bytes::{ByteSource, ByteTransducer};
use crate::canonical_slices::{CanonicalSlices, place_in};
use crate::common_prefix::common_prefix_len;
use crate::early_difference::{differ_after, items_before, seem_rejected};
use crate::faults::{SideFault, StreamFault};
use crate::languages::{Language, Profile, check_after, check_in};
use pf_text::{Refusal, Side, Walk, items_end_from};
use pf_values::{Counted, Model};
use std::io::Read;

/// Returns whether the formats that two readers hand out up to their ends have equal types in this
/// data model, and print equal bytes for all arguments. A difference doesn't stop the reading.
/// `Err` if a text is rejected or its reader fails: then the first text's fault is returned if it
/// has one, and the second text is not read further. Allocates nothing.
pub fn same_stream<R: Read, S: Read>(
    model: Model,
    first: &mut Counted<R>,
    second: &mut Counted<S>,
) -> Result<bool, SideFault>
    ensures compared { MatchResult result
        (EndsBoth model (R.remaining (device_of first.old)) (R.remaining (device_of first.new))
        (S.remaining (device_of second.old)) (S.remaining (device_of second.new)))
        (StopsSide model (R.remaining (device_of first.old)) (R.remaining (device_of first.new))
        (S.remaining (device_of second.old)) (S.remaining (device_of second.new))) }
    ensures counts { CountsSides (λ old new. failures_of new ≡ failures_of old) HasFailed
        (λ old new. failures_of new ≡ failures_of old) HasFailed result first.old first.new second.old second.new }
{
    same_bytes(model, first, second)
}

/// Returns whether two formats have equal types in this data model, and print equal bytes for all
/// arguments. `Err` if a text is rejected: with the first text's refusal if it has one. Allocates
/// nothing.
pub fn same_text(model: Model, first: &[u8], second: &[u8]) -> Result<bool, (Side, Refusal)>
    ensures { MatchResult result (AreTextsSame model first.now second.now) (TextStops first.now second.now) }
{
    same_text_in::<Profile>(model, first, second)
}

/// Returns whether two formats have one canonical text in a language. `Err` if a text is rejected: with the
/// first text's refusal if it has one. Allocates nothing.
pub fn same_text_in<L: Language>(
    model: Model,
    first: &[u8],
    second: &[u8],
) -> Result<bool, (Side, Refusal)>
    ensures { MatchResult result (AreSameIn L.has_front model first.now second.now)
        (StopsIn L.has_front L.refuses model first.now second.now) }
{
    let common = common_prefix_len(first, second);
    if are_all(first, second, common) {
        return same_itself::<L>(model, first);
    }
    let front = items_before::<L>(first, common);
    if front < common {
        return same_inside_directive::<L>(model, first, second, common, front);
    }
    if differ_after::<L>(model, first, second, common) {
        return Ok(false);
    }
    same_after_common::<L>(model, first, second, common)
}

// Compares two texts whose first `front` bytes are equal whole items, and that seem to differ inside the directive
// after these. If one seems to be rejected there, the rests of both are checked first: so a rejected text is read once,
// and not three times.
#[inline(never)]
fn same_inside_directive<L: Language>(
    model: Model,
    first: &[u8],
    second: &[u8],
    common: usize,
    front: usize,
) -> Result<bool, (Side, Refusal)>
    requires common { AreCommon first.now second.now common }
    requires within { (front ≤ common) × (front ≤ MAX_TEXT_LEN) }
    requires read { IsMadeOf (Either AreRead L.passes) (take front first.now) }
    ensures { MatchResult result (AreSameIn L.has_front model first.now second.now)
        (StopsIn L.has_front L.refuses model first.now second.now) }
{
    if seem_rejected(first, second, common) {
        check_both::<L>(model, first, second, front)?;
    }
    same_after_common::<L>(model, first, second, common)
}

// Checks two texts whose first `front` bytes are equal whole items, the first before the second.
#[inline(always)]
fn check_both<L: Language>(
    model: Model,
    first: &[u8],
    second: &[u8],
    front: usize,
) -> Result<(), (Side, Refusal)>
    requires common { AreCommon first.now second.now front }
    requires few { front ≤ MAX_TEXT_LEN }
    requires read { IsMadeOf (Either AreRead L.passes) (take front first.now) }
    ensures { IfErr result (StopsIn L.has_front L.refuses model first.now second.now) }
{
    if let Err(refusal) = check_after::<L>(model, first, front) {
        return Err((Side::First, refusal));
    }
    match check_after::<L>(model, second, front) {
        Ok(()) => Ok(()),
        Err(refusal) => Err((Side::Second, refusal)),
    }
}

// Whether the first `common` bytes of two texts, which are equal, are all of both.
#[inline(always)]
fn are_all(first: &[u8], second: &[u8], common: usize) -> bool
    requires { AreCommon first.now second.now common }
    ensures { IsTrue result → first.now ≡ second.now }
{
    common == first.len() && common == second.len()
}

// Compares a text with itself: it is accepted, or rejected.
#[inline(always)]
fn same_itself<L: Language>(model: Model, text: &[u8]) -> Result<bool, (Side, Refusal)>
    ensures { MatchResult result (AreSameIn L.has_front model text.now text.now)
        (StopsIn L.has_front L.refuses model text.now text.now) }
{
    if items_end_from::<L>(Walk::new(text)) == text.len() {
        return Ok(true);
    }
    same_if_accepted::<L>(model, text)
}

// Compares a text that isn't known to be accepted with itself. Never inlined, since few texts come here.
#[inline(never)]
fn same_if_accepted<L: Language>(model: Model, text: &[u8]) -> Result<bool, (Side, Refusal)>
    ensures { MatchResult result (AreSameIn L.has_front model text.now text.now)
        (StopsIn L.has_front L.refuses model text.now text.now) }
{
    match check_in::<L>(model, text) {
        Ok(()) => Ok(true),
        Err(refusal) => Err((Side::First, refusal)),
    }
}

// Compares two texts whose first `common` bytes are equal. These are read once.
#[inline(never)]
fn same_after_common<L: Language>(
    model: Model,
    first: &[u8],
    second: &[u8],
    common: usize,
) -> Result<bool, (Side, Refusal)>
    requires { AreCommon first.now second.now common }
    ensures { MatchResult result (AreSameIn L.has_front model first.now second.now)
        (StopsIn L.has_front L.refuses model first.now second.now) }
{
    let place = place_in::<L>(model, &first[..common]);
    let mut first_slices = CanonicalSlices::new::<L>(model, first, place);
    let mut second_slices = CanonicalSlices::new::<L>(model, second, place);
    let same = go_in_step::<L>(&mut first_slices, &mut second_slices);
    if let Err(refusal) = first_slices.finish::<L>() {
        return Err((Side::First, refusal));
    }
    if let Err(refusal) = second_slices.finish::<L>() {
        return Err((Side::Second, refusal));
    }
    Ok(same)
}

// Gives the bytes that two canonical texts have in common, and returns whether both ended there.
fn go_in_step<L: Language>(
    first: &mut CanonicalSlices<'_>,
    second: &mut CanonicalSlices<'_>,
) -> bool
    requires { (model : ModelOf) × (f g given : Text) × SlicesHaveGiven L.has_front L.refuses model first.old f given
        × SlicesHaveGiven L.has_front L.refuses model second.old g given }
    ensures { (model : ModelOf) (f g given : Text) → SlicesHaveGiven L.has_front L.refuses model first.old f given
        → SlicesHaveGiven L.has_front L.refuses model second.old g given
        → GoInStep L.has_front L.refuses model first.new f second.new g result }
{
    loop {
        first.fill::<L>();
        second.fill::<L>();
        match common_front(first.front(), second.front()) {
            Some(0) => return true,
            Some(count) => {
                first.skip::<L>(count);
                second.skip::<L>(count);
            }
            None => return false,
        }
    }
}

// Compares two texts that come byte by byte. What is pending of them is compared slice by slice.
fn same_bytes<A: ByteSource, B: ByteSource>(
    model: Model,
    a: &mut A,
    b: &mut B,
) -> Result<bool, SideFault>
    ensures compared { MatchResult result
        (EndsBoth model (A.left a.old) (A.left a.new) (B.left b.old) (B.left b.new))
        (StopsSide model (A.left a.old) (A.left a.new) (B.left b.old) (B.left b.new)) }
    ensures counts { CountsSides A.kept A.failed B.kept B.failed result a.old a.new b.old b.new }
{
    let mut first = ByteTransducer::new(model);
    let mut second = ByteTransducer::new(model);
    loop {
        fill_both(&mut first, a, &mut second, b)?;
        match common_front(first.front(), second.front()) {
            Some(0) => return Ok(true),
            Some(count) => {
                first.skip(count);
                second.skip(count);
            }
            None => return drain_both(&mut first, a, &mut second, b),
        }
    }
}

// Takes from each text, until something of it is pending or it is over.
fn fill_both<A: ByteSource, B: ByteSource>(
    first: &mut ByteTransducer,
    a: &mut A,
    second: &mut ByteTransducer,
    b: &mut B,
) -> Result<(), SideFault>
    ensures in_step { (model : Model) (f g : Known)
        → IsInStep model first.old (A.left a.old) second.old (B.left b.old) f g
        → MatchResult result
        (λ _. IsFilledInStep model first.new (A.left a.new) second.new (B.left b.new) f g)
        (StopsSide model f (A.left a.new) g (B.left b.new)) }
    ensures counts { CountsSides A.kept A.failed B.kept B.failed result a.old a.new b.old b.new }
    ensures lower { IfOk result (λ _. units first.new ≤ units first.old) }
{
    match first.fill(a) {
        Ok(()) => fill_second(first, a, second, b),
        Err(fault) => Err(SideFault {
            side: Side::First,
            fault,
        }),
    }
}

// Takes from the second text as `fill_both` does, when the first is filled.
fn fill_second<A: ByteSource, B: ByteSource>(
    first: &mut ByteTransducer,
    a: &mut A,
    second: &mut ByteTransducer,
    b: &mut B,
) -> Result<(), SideFault>
    ensures in_step { (model : Model) (f g : Known) (t u given : Text)
        → History model first.old f (A.left a.old) t given → IsFilled first.old
        → History model second.old g (B.left b.old) u given
        → MatchResult result
        (λ _. IsFilledInStep model first.new (A.left a.new) second.new (B.left b.new) f g)
        (StopsSide model f (A.left a.new) g (B.left b.new)) }
    ensures counts { CountsSides A.kept A.failed B.kept B.failed result a.old a.new b.old b.new }
    ensures first { IfOk result (λ _. first.new ≡ first.old) }
{
    match second.fill(b) {
        Ok(()) => Ok(()),
        Err(fault) => Err(earlier_fault(first, a, fault)),
    }
}

// The fault of a comparison whose second text has this fault: that of the first, if it has one.
fn earlier_fault<A: ByteSource>(
    first: &mut ByteTransducer,
    a: &mut A,
    fault: StreamFault,
) -> SideFault
    ensures stopped { (model : Model) (second : ByteTransducer) (f g b : Known) (t u given : Text)
        → History model first.old f (A.left a.old) t given → IsFilled first.old
        → AnswerLeaves model (Some (Err fault)) second g b u given
        → StopsSide model f (A.left a.new) g b result }
    ensures counts { CountsBehind A.kept A.failed fault result.side result.fault a.old a.new }
{
    match first.drain(a) {
        Ok(()) => SideFault {
            side: Side::Second,
            fault,
        },
        Err(fault) => SideFault {
            side: Side::First,
            fault,
        },
    }
}

// The texts differ. Each may still have a fault.
fn drain_both<A: ByteSource, B: ByteSource>(
    first: &mut ByteTransducer,
    a: &mut A,
    second: &mut ByteTransducer,
    b: &mut B,
) -> Result<bool, SideFault>
    ensures compared { (model : Model) (f g : Known)
        → IsFilledInStep model first.old (A.left a.old) second.old (B.left b.old) f g
        → AreApart (pending_in first.old) (pending_in second.old)
        → MatchResult result (EndsBoth model f (A.left a.new) g (B.left b.new))
        (StopsSide model f (A.left a.new) g (B.left b.new)) }
    ensures counts { CountsSides A.kept A.failed B.kept B.failed result a.old a.new b.old b.new }
{
    match first.drain(a) {
        Ok(()) => match second.drain(b) {
            Ok(()) => Ok(false),
            Err(fault) => Err(SideFault {
                side: Side::Second,
                fault,
            }),
        },
        Err(fault) => Err(SideFault {
            side: Side::First,
            fault,
        }),
    }
}

/// How many bytes both begin with: as many as the shorter one has, or none.
pub(crate) fn common_front(x: &[u8], y: &[u8]) -> Option<usize>
    ensures { HaveCommon x.now y.now result }
{
    if x.is_empty() {
        return both_empty(y);
    }
    let count = x.len().min(y.len());
    if count == 0 {
        return None;
    }
    if are_equal(&x[..count], &y[..count]) {
        return Some(count);
    }
    None
}

fn both_empty(y: &[u8]) -> Option<usize>
    ensures { HaveCommon [] y.now result }
{
    if y.is_empty() {
        return Some(0);
    }
    None
}

/// Whether two texts are equal.
pub(crate) fn are_equal(x: &[u8], y: &[u8]) -> bool
    ensures { MatchBool result (x.now ≡ y.now) (x.now ≢ y.now) }
{
    x == y
}
