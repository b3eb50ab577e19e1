//! What the calls share: errors with their codes and the names of their kinds, data models by their
//! numbers, and buffers of the caller; and the version.
ghost use Rattle.std.specs.Prelude.{◌≡◌, ◌≤◌, ◌<◌, ◌^◌, neg_ℤ, option_map, pos, ◌∷◌, [], ◌++◌, length, drop, map};
ghost use Rattle.pf_posix.specs.TypeNumbers.{number_of_type};
ghost use Rattle.pf_values.specs.TypeNumbers.{type_number};
ghost use Rattle.pf_values.specs.RefusalKinds.{number};
ghost use Rattle.fmtcanon_c.specs.Calls.{PutsName};
ghost use Rattle.fmtcanon_c.specs.Errors.{IsKindOf, IsLiteralKindOf, IsLiteralNameOf, IsNameOf, side_number};
ghost use Rattle.fmtcanon_c.specs.Models.{model_of};
ghost use Rattle.fmtcanon_c.specs.Buffers.{put};

use pf_literals::LiteralKind;
use pf_posix::WholeArgType;
use pf_text::{Refusal, Side};
use pf_values::{ArgType, Model, RefusalKind};

/// `FMTCANON_ERROR_NOMEMORY`
pub(crate) const NO_MEMORY: i64 = -100;

/// `FMTCANON_ERROR_MODEL`
pub(crate) const NO_MODEL: i64 = -101;

/// `FMTCANON_ERROR_NOPLACE`
pub(crate) const NO_PLACE: i64 = -102;

/// The kind of `FMTCANON_ERROR_COUNT`
pub(crate) const WRONG_COUNT: u32 = 103;

/// The kind of `FMTCANON_ERROR_TYPE`
pub(crate) const WRONG_TYPE: u32 = 104;

/// Added to the number of a literal kind, to keep it apart from the kinds of refusals.
pub(crate) const LITERAL_KINDS: u32 = 200;

/// `fmtcanon_error`: where and why a text is rejected.
#[repr(C)]
#[derive(Clone, Copy)]
pub struct CError {
    /// The byte, counted from 0.
    pub at: u64,
    /// The number of the kind: from 1 to 22 of a format, from 201 to 206 of literals.
    pub kind: u32,
    /// Which text: 0 for the first or only one, 1 for the second.
    pub side: u32,
}

/// Leaves a refusal there, and gives its code.
pub(crate) fn put_refusal(error: &mut CError, side: Side, refusal: Refusal) -> i64
    ensures code { result ≡ neg_ℤ (pos (number refusal.kind)) }
    ensures at { error.new.at ≡ refusal.at }
    ensures kind { error.new.kind ≡ number refusal.kind }
    ensures side { error.new.side ≡ side_number side }
{
    let number = refusal.kind.number();
    *error = CError {
        at: refusal.at,
        kind: u32::from(number),
        side: side_number(side),
    };
    -i64::from(number)
}

/// Which text it is.
pub(crate) fn side_number(side: Side) -> u32
    ensures { result ≡ side_number side }
{
    match side {
        Side::First => 0,
        Side::Second => 1,
    }
}

/// Puts the name of a kind of refusals into a buffer, terminated by NUL, if it has room. Returns
/// the length of the name, or 0 for a number without a kind.
#[unsafe(no_mangle)]
pub extern "C" fn fmtcanon_kind_name(kind: u32, out: &mut [u8]) -> u64
    ensures { PutsName kind out.old result out.new }
{
    match name_of(kind) {
        Some(name) => {
            put_string(out, name.as_bytes());
            name.len() as u64
        }
        None => 0,
    }
}

// The name of the kind with a number.
fn name_of(number: u32) -> Option<&'static str>
    ensures { IsNameOf number (option_map (λ s. s.now) result) }
{
    match kind_of(number) {
        Some(kind) => Some(kind.name()),
        None => literal_name_of(number),
    }
}

fn literal_name_of(number: u32) -> Option<&'static str>
    ensures { IsLiteralNameOf number (option_map (λ s. s.now) result) }
{
    if number < LITERAL_KINDS {
        return None;
    }
    match literal_kind_of(number - LITERAL_KINDS) {
        Some(kind) => Some(kind.name()),
        None => None,
    }
}

// The kind of faults of literals with a number.
fn literal_kind_of(number: u32) -> Option<LiteralKind>
    ensures { IsLiteralKindOf number result }
{
    match number {
        1 => Some(LiteralKind::NoLiteral),
        2 => Some(LiteralKind::Unterminated),
        3 => Some(LiteralKind::BadEscape),
        4 => Some(LiteralKind::EscapeTooLarge),
        5 => Some(LiteralKind::ZeroByte),
        6 => Some(LiteralKind::Trigraph),
        _ => None,
    }
}

// The kind with a number.
fn kind_of(number: u32) -> Option<RefusalKind>
    ensures { IsKindOf number result }
{
    match number {
        1 => Some(RefusalKind::NulByte),
        2 => Some(RefusalKind::Truncated),
        3 => Some(RefusalKind::Unexpected),
        4 => Some(RefusalKind::BadPercent),
        5 => Some(RefusalKind::Star),
        6 => Some(RefusalKind::Numbered),
        7 => Some(RefusalKind::WidthTooLarge),
        8 => Some(RefusalKind::PrecisionTooLarge),
        9 => Some(RefusalKind::Float),
        10 => Some(RefusalKind::Pointer),
        11 => Some(RefusalKind::Count),
        12 => Some(RefusalKind::Wide),
        13 => Some(RefusalKind::AltUndefined),
        14 => Some(RefusalKind::ZeroUndefined),
        15 => Some(RefusalKind::GroupUndefined),
        16 => Some(RefusalKind::PrecisionUndefined),
        17 => Some(RefusalKind::LengthUndefined),
        18 => Some(RefusalKind::TooLong),
        19 => Some(RefusalKind::CountUndefined),
        20 => Some(RefusalKind::Mixed),
        21 => Some(RefusalKind::MissingArgument),
        22 => Some(RefusalKind::TwoTypes),
        _ => None,
    }
}

/// The data model with a number, as `FMTCANON_LP64`: its place in the list of all.
pub(crate) fn model_of(number: i32) -> Option<Model>
    ensures { result ≡ model_of number }
{
    let place = usize::try_from(number).ok()?;
    Model::ALL.get(place).copied()
}

/// Puts bytes and a NUL after them at the front of a buffer that has room for them, and leaves any other
/// as it is.
pub(crate) fn put_string(out: &mut [u8], bytes: &[u8])
    ensures { out.new ≡ put (bytes.now ++ 0 ∷ []) out.old }
{
    if bytes.len() < out.len() {
        let (front, rest) = out.split_at_mut(bytes.len());
        front.copy_from_slice(bytes);
        rest[0] = 0;
    }
}

/// A value that is a code or a record in C.
pub(crate) trait Coded<C> {
    ghost code_of: { Self → C };

    /// Returns the code or the record.
    fn code(&self) -> C
        ensures { result ≡ code_of self.now };
}

impl Coded<u8> for ArgType {
    ghost code_of = { type_number };

    fn code(&self) -> u8 {
        self.number()
    }
}

impl Coded<u8> for WholeArgType {
    ghost code_of = { number_of_type };

    fn code(&self) -> u8 {
        self.number()
    }
}

/// Puts the codes of values at the front of a buffer that has room for all, and leaves any other as it is.
/// Returns how many values there are.
pub(crate) fn put_codes<C: Copy, V: Coded<C>>(out: &mut [C], values: &[V]) -> i64
    requires { length values.now < 2 ^ 63 }
    ensures count { result ≡ pos (length values.now) }
    ensures put { out.new ≡ put (map V.code_of values.now) out.old }
{
    if values.len() <= out.len() {
        put_each(out, values);
    }
    values.len() as i64
}

fn put_each<C: Copy, V: Coded<C>>(out: &mut [C], values: &[V])
    requires { length values.now ≤ length out.old }
    ensures { out.new ≡ map V.code_of values.now ++ drop (length values.now) out.old }
{
    let mut at = 0;
    while at < values.len() {
        out[at] = values[at].code();
        at += 1;
    }
}

/// Returns the version: 65,536 for each major one, 256 for each minor one, and the patch.
#[unsafe(no_mangle)]
pub extern "C" fn fmtcanon_version() -> u32
    ensures { result ≡ 65792 }
{
    0x1_0100
}
