//! A conversion specification of a format, with the offset and the value of each part.
ghost use Rattle.std.specs.Prelude.{◌≡◌, ◌≤◌, ◌*◌};
ghost use Rattle.pf_values.specs.declared.limits.TheConstants.{MAX_TEXT_LEN as LIMIT};
ghost use Rattle.pf_posix.specs.Directives.{directive_between};
ghost use Rattle.pf_posix.specs.Halts.{offsets_read};
ghost use Rattle.pf_posix.specs.PartsInText.{specification_read};

use crate::directive_spans::{DirectiveSpan, span_between};
use crate::opaque_directives::OpaqueDirective;
use crate::specifications::Specification;
use pf_values::Model;

/// The offsets of the parts of a conversion specification (C11 7.21.6.1, paragraph 4). Each part ends at the next
/// offset, and is empty if the specification doesn't have it. The conversion is the last byte.
#[derive(Clone, Copy, Debug, Default, PartialEq, Eq)]
pub struct PartOffsets {
    /// The offset of its flags: after `%`, or after the `$` of its argument's number.
    pub flags: u64,
    /// The offset of its field width.
    pub width: u64,
    /// The offset of its precision, which is that of a point.
    pub precision: u64,
    /// The offset of its length modifier.
    pub modifier: u64,
}

/// A conversion specification in a format, with its parts.
#[derive(Clone, Copy, Debug, PartialEq, Eq)]
pub struct SpecificationSpan {
    /// Its bytes, and the arguments that it takes.
    pub directive: DirectiveSpan,
    /// Its parts, without the numbers of its arguments.
    pub parts: OpaqueDirective,
    /// The offsets of these parts.
    pub offsets: PartOffsets,
}

/// The specification between two offsets, after `next` arguments were fetched.
#[inline(always)]
pub(crate) fn span_of(
    model: Model,
    begin: usize,
    end: usize,
    next: u64,
    read: &Specification,
) -> SpecificationSpan
    requires { next ≤ 3 * LIMIT }
    ensures directive { result.directive ≡ directive_between model begin end next (specification_read read.now) }
    ensures parts { result.parts ≡ read.now.parts }
    ensures offsets { result.offsets ≡ offsets_read read.now }
{
    SpecificationSpan {
        directive: span_between(model, begin, end, next, read),
        parts: read.parts,
        offsets: offsets_of(read),
    }
}

/// The offsets of the parts of a specification that was read.
#[inline(always)]
pub(crate) fn offsets_of(read: &Specification) -> PartOffsets
    ensures { result ≡ offsets_read read.now }
{
    PartOffsets {
        flags: read.flags_start as u64,
        width: read.flags_stop as u64,
        precision: read.stars.width_stop as u64,
        modifier: read.stars.precision_stop as u64,
    }
}
