//! The conversion specifications of a format with their parts, as records.
ghost use Rattle.std.specs.Prelude.{◌≡◌, ◌≤◌, [], List, length};
ghost use Rattle.pf_values.specs.meaning.Text.{Text};
ghost use Rattle.pf_posix.specs.declared.directive_spans.DirectiveSpan.{DirectiveSpan};
ghost use Rattle.pf_posix.specs.OpaqueParts.{amount_of};
ghost use Rattle.pf_posix.specs.SpecificationSpans.{HasItsParts};
ghost use Rattle.pf_posix.specs.SpecificationWalks.{IsAhead, IsBefore};
ghost use Rattle.fmtcanon_c.specs.Models.{InModel};
ghost use Rattle.fmtcanon_c.specs.Specifications.{HasPut, IsRecordOf, PutsSpecifications, bit_of, number_or_none, part_bits};

use crate::directives::NO_ARGUMENT;
use crate::interface::{CError, NO_MODEL, model_of, put_refusal};
use pf_posix::{OpaqueAmount, SpecificationSpan, SpecificationWalk};
use pf_text::Side;
use pf_values::{Flag, Model};
use pf_whole::{Part, PartSet, needless_parts};

/// `FMTCANON_NONE`
pub(crate) const NONE: u64 = u64::MAX;

/// `fmtcanon_specification`: a conversion specification with its parts.
#[repr(C)]
#[derive(Clone, Copy)]
pub struct CSpecification {
    /// The offset of its `%`.
    pub begin: u64,
    /// The offset of its flags.
    pub flags_at: u64,
    /// The offset of its width.
    pub width_at: u64,
    /// The offset of its precision.
    pub precision_at: u64,
    /// The offset of its length modifier.
    pub modifier_at: u64,
    /// The offset after its conversion.
    pub end: u64,
    /// The argument that it converts, counted from 0.
    pub argument: u64,
    /// The argument of a `*` as its width, or `NO_ARGUMENT`.
    pub width_argument: u64,
    /// The argument of a `*` as its precision, or `NO_ARGUMENT`.
    pub precision_argument: u64,
    /// The width, or `NONE`.
    pub width: u64,
    /// The precision, or `NONE`.
    pub precision: u64,
    /// The number of the type of the argument that it converts.
    pub kind: u32,
    /// The bits of its parts.
    pub parts: u32,
    /// The bits of the parts that have no effect, each by itself.
    pub needless: u32,
    /// The bits of some needless parts that have no effect together, either.
    pub together: u32,
}

/// Puts a record for each conversion specification of a format into `out`, if it has room for all. Returns the
/// number of specifications, or the code of an error.
#[unsafe(no_mangle)]
pub extern "C" fn fmtcanon_specifications(
    model: i32,
    text: &[u8],
    out: &mut [CSpecification],
    error: &mut CError,
) -> i64
    ensures { InModel model
        (λ m. PutsSpecifications m text.now out.old error.old result out.new error.new)
        result ((out.new ≡ out.old) × (error.new ≡ error.old)) }
{
    let Some(model) = model_of(model) else {
        return NO_MODEL;
    };
    match SpecificationWalk::over(model, text) {
        Ok(walk) => put_records(model, &walk, out),
        Err(refusal) => put_refusal(error, Side::First, refusal),
    }
}

// Puts a record for each specification of a format into a buffer that has room for all, and leaves any other as
// it is. Returns how many there are.
fn put_records(model: Model, walk: &SpecificationWalk, out: &mut [CSpecification]) -> i64
    requires { (t : Text) × IsBefore model t walk.now }
    ensures { (t : Text) → IsBefore model t walk.now → HasPut model t out.old result out.new }
{
    if walk.most() > out.len() as u64 {
        let count = walk.count();
        if count > out.len() as u64 {
            return count as i64;
        }
    }
    put_each(model, walk, out)
}

fn put_each(model: Model, walk: &SpecificationWalk, out: &mut [CSpecification]) -> i64
    requires before { (t : Text) × IsBefore model t walk.now }
    requires room { (t : Text) (all : List DirectiveSpan) → IsAhead t walk.now all [] → length all ≤ length out.old }
    ensures { (t : Text) → IsBefore model t walk.now → HasPut model t out.old result out.new }
{
    let mut walk = *walk;
    let mut count = 0;
    while let Some(span) = walk.next() {
        out[count] = record_of(model, &span);
        count += 1;
    }
    count as i64
}

// The record of a specification.
fn record_of(model: Model, span: &SpecificationSpan) -> CSpecification
    requires { (t : Text) × HasItsParts t span.now }
    ensures { IsRecordOf model span.now result }
{
    let found = needless_parts(model, span.parts);
    CSpecification {
        begin: span.directive.begin,
        flags_at: span.offsets.flags,
        width_at: span.offsets.width,
        precision_at: span.offsets.precision,
        modifier_at: span.offsets.modifier,
        end: span.directive.end,
        argument: span.directive.argument,
        width_argument: span.directive.width_argument.unwrap_or(NO_ARGUMENT),
        precision_argument: span.directive.precision_argument.unwrap_or(NO_ARGUMENT),
        width: number_or_none(span.parts.width),
        precision: number_or_none(span.parts.precision),
        kind: u32::from(span.directive.kind.number()),
        parts: part_bits(found.given),
        needless: part_bits(found.each),
        together: part_bits(found.together),
    }
}

fn number_or_none(amount: Option<OpaqueAmount>) -> u64
    ensures { result ≡ number_or_none (amount_of amount) }
{
    match amount {
        Some(OpaqueAmount::Number(n)) => u64::from(n),
        Some(OpaqueAmount::Star) => NONE,
        None => NONE,
    }
}

// The bits of a set of parts.
fn part_bits(set: PartSet) -> u32
    ensures { result ≡ part_bits set }
{
    bit_of(set, Part::Flag(Flag::Minus), 1)
        + bit_of(set, Part::Flag(Flag::Plus), 2)
        + bit_of(set, Part::Flag(Flag::Space), 4)
        + bit_of(set, Part::Flag(Flag::Alt), 8)
        + bit_of(set, Part::Flag(Flag::Zero), 16)
        + bit_of(set, Part::Flag(Flag::Group), 32)
        + bit_of(set, Part::Width, 64)
        + bit_of(set, Part::Precision, 128)
        + bit_of(set, Part::Modifier, 256)
}

// The bit of a part that is in a set.
fn bit_of(set: PartSet, part: Part, bit: u32) -> u32
    ensures is { result ≡ bit_of set part bit }
    ensures most { result ≤ bit }
{
    if set.has(part) {
        return bit;
    }
    0
}
