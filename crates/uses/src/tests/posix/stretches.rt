//! Formats without numbered arguments: whether one is accepted, and its stretches.
ghost use Rattle.std.specs.Prelude.{IsTrue, List};
ghost use Rattle.pf_values.specs.meaning.Items.{Item, Reads};
ghost use Rattle.pf_posix.specs.Stretches.{IsUnnumberedAccepted};

use pf_posix::{
    Floating, Opaque, OpaqueAmount, OpaqueDirective, Stretch, WholeConv, WholeLength,
    conversion_at, modifier_at, next_stretch, undefined_as,
};
use pf_text::Refusal;
use pf_values::{Flag, FlagSet, Length, Model, RefusalKind};
use pf_whole::check;

/// Whether a format is known to be accepted without numbered arguments.
fn has_stretches(model: Model, format: &[u8]) -> bool
    ensures { IsTrue result → IsUnnumberedAccepted format.now }
{
    match check(model, format) {
        Ok(()) => true,
        Err(_) => false,
    }
}

/// Whether a format has nothing that the profile lacks. This is known of each one that is read in
/// the profile.
fn is_one_stretch(format: &[u8]) -> bool
    ensures { (items : List Item) → Reads format.now items → IsTrue result }
{
    match next_stretch(format, 0) {
        Some(stretch) => stretch.opaque.is_none(),
        None => false,
    }
}

// The length modifier and the conversion at the front of a text.
fn letters(text: &[u8]) -> (WholeLength, Result<WholeConv, Refusal>) {
    let (modifier, stop) = modifier_at(text, 0);
    (modifier, conversion_at(text, stop))
}

#[test]
fn letters_of_a_specification(rt: HostRuntime) {
    let stray = Refusal {
        kind: RefusalKind::Unexpected,
        at: 1,
    };
    let directive = OpaqueDirective {
        flags: FlagSet::empty().with(Flag::Alt),
        width: None,
        precision: None,
        modifier: WholeLength::LongDouble,
        conversion: WholeConv::Pointer,
    };
    assert!(rt;
        letters(b"lln") == (WholeLength::Integer(Length::Ll), Ok(WholeConv::Count))
            && letters(b"p") == (WholeLength::Integer(Length::None), Ok(WholeConv::Pointer))
            && letters(b"Lk") == (WholeLength::LongDouble, Err(stray))
            && undefined_as(&directive) == Some(RefusalKind::AltUndefined)
    );
}

fn is_refused(format: &[u8], kind: RefusalKind, at: u64) -> bool {
    check(Model::Lp64, format) == Err(Refusal { kind, at })
}

#[test]
fn formats_without_numbers(rt: HostRuntime) {
    assert!(rt;
        is_one_stretch(b"%d of %-8.3s%%")
            && !is_one_stretch(b"%d of %-8.*s%%")
            && has_stretches(Model::Llp64, b"%*.*f%% %2s%zn")
            && !has_stretches(Model::Lp64, b"%1$d")
            && is_refused(b"%1$d", RefusalKind::Numbered, 2)
            && is_refused(b"%d%f%12$", RefusalKind::Numbered, 7)
            && is_refused(b"%*1$d", RefusalKind::Mixed, 2)
            && is_refused(b"%-*.3i%0*.3d%+*u%lC", RefusalKind::LengthUndefined, 18)
            && is_refused(b"%d%-1$d", RefusalKind::Unexpected, 5)
    );
}

fn is_first_stretch(format: &[u8], from: usize, wanted: Stretch) -> bool {
    if from > format.len() {
        return false;
    }
    next_stretch(format, from) == Some(wanted)
}

#[test]
fn stretches_and_directives(rt: HostRuntime) {
    let format = b"a%%%5i%-08.*lf%%%hhn!";
    let floating = OpaqueDirective {
        flags: FlagSet::empty().with(Flag::Minus).with(Flag::Zero),
        width: Some(OpaqueAmount::Number(8)),
        precision: Some(OpaqueAmount::Star),
        modifier: WholeLength::Integer(Length::L),
        conversion: WholeConv::Float(Floating::F),
    };
    let count = OpaqueDirective {
        flags: FlagSet::empty(),
        width: None,
        precision: None,
        modifier: WholeLength::Integer(Length::Hh),
        conversion: WholeConv::Count,
    };
    assert!(rt;
        is_first_stretch(
            format,
            0,
            Stretch {
                end: 6,
                opaque: Some(Opaque::Directive(floating)),
                after: 14
            }
        ) && is_first_stretch(
            format,
            14,
            Stretch {
                end: 16,
                opaque: Some(Opaque::Directive(count)),
                after: 20
            }
        ) && is_first_stretch(
            format,
            20,
            Stretch {
                end: 21,
                opaque: None,
                after: 21
            }
        ) && is_first_stretch(
            format,
            21,
            Stretch {
                end: 21,
                opaque: None,
                after: 21
            }
        )
    );
}

#[test]
fn message_of_errno(rt: HostRuntime) {
    let format = b"%d: %m%%m";
    assert!(rt;
        is_first_stretch(
            format,
            0,
            Stretch {
                end: 4,
                opaque: Some(Opaque::Errno),
                after: 6
            }
        ) && is_first_stretch(
            format,
            6,
            Stretch {
                end: 9,
                opaque: None,
                after: 9
            }
        ) && is_refused(b"%5m", RefusalKind::Unexpected, 2)
            && is_refused(b"%m%1$d", RefusalKind::Numbered, 4)
    );
}
