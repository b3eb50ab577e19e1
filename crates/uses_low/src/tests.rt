//! Each use, with both of its answers; and the tests of the libraries up to `pf_canon`, which call public functions. They
//! are proved while the crates above are.
use crate::canonical_texts::{copies_tidily, fits, is_tidy};
use crate::directives::{column, spaces_in_front};
use crate::formats::{fault_at, print_count};
use pf_reduce::{Core, is_normal, reduce};
use pf_render::RenderFault;
use pf_values::{Conv, Counted, Directive, FlagSet, Length, Model, RefusalKind};

mod canonical;
mod printing;
mod reading;
mod values;

#[test]
fn a_fault_has_a_place(rt: HostRuntime) {
    assert!(rt; [fault_at(b"100%, ok"), fault_at(b"100%%, ok")] == [Some(4), None]);
}

// Whether the line goes out so into a place, which is filled with zeros before.
fn is_printed(place: &mut [u8], answer: Result<(), RenderFault>, wanted: &[u8]) -> bool {
    let mut writer = Counted::new(&mut *place);
    let found = print_count(-42, &mut writer);
    found == answer && *place == *wanted
}

#[test]
fn a_count_is_printed(rt: HostRuntime) {
    assert!(rt;
        [
            is_printed(&mut [0u8; 11], Ok(()), b"-42 files\0\0"),
            is_printed(&mut [0u8; 4], Err(RenderFault::Write(4)), b"-42 "),
        ] == [true; 2]
    );
}

#[test]
fn a_canonical_format_is_tidy(rt: HostRuntime) {
    let model = Model::Lp64;
    assert!(rt;
        [
            is_tidy(model, b"%d%%"),
            is_tidy(model, b"%i%%"),
            is_tidy(model, b"%f")
        ] == [true, false, false]
    );
}

#[test]
fn a_canonical_string_fits(rt: HostRuntime) {
    let model = Model::Lp64;
    assert!(rt;
        [
            fits(model, b"%5c", 6),
            fits(model, b"%5c", 5),
            fits(model, b"%", 5)
        ] == [true, false, false]
    );
}

// The width of a column, where there is one.
fn width_of_column(width: u16) -> Option<Option<u16>> {
    match column(width) {
        Some(directive) => Some(directive.width()),
        None => None,
    }
}

#[test]
fn a_column_has_a_width(rt: HostRuntime) {
    assert!(rt; [width_of_column(20), width_of_column(4096)] == [Some(Some(20)), None]);
}

// How many spaces are before an int in a field, if there is such a field.
fn spaces_before_int(width: u16) -> Option<u16> {
    match Directive::new(FlagSet::empty(), Some(width), None, Length::None, Conv::D) {
        Ok(field) => Some(spaces_in_front(Model::Lp64, &field)),
        Err(_) => None,
    }
}

// An int has a sign and at most ten digits.
#[test]
fn spaces_stand_in_front(rt: HostRuntime) {
    assert!(rt; spaces_before_int(20) == Some(9));
}

// Whether a format is copied, and what comes into eight bytes.
fn copied(format: &[u8]) -> (bool, [u8; 8]) {
    let mut copy = [0u8; 8];
    let mut writer = Counted::new(copy.as_mut_slice());
    let is_whole = copies_tidily(Model::Lp64, &mut Counted::new(format), &mut writer);
    (is_whole, copy)
}

fn is_copied(format: &[u8], wanted: &[u8]) -> bool {
    let (is_whole, copy) = copied(format);
    is_whole && copy.as_slice() == wanted
}

#[test]
fn a_format_is_copied(rt: HostRuntime) {
    assert!(rt; is_copied(b"%5c%i", b"    %c%d") && !copied(b"%i%f").0);
}

// The caller in `pf_reduce`'s CALLING.md that promises nothing.
fn directive_of(core: Core) -> Option<Directive> {
    match core {
        Core::Normal(normal) => Some(normal.directive()),
        Core::Silent => None,
    }
}

fn reduced_char(width: u16) -> Result<(u16, Option<Directive>), RefusalKind> {
    let directive = Directive::new(FlagSet::empty(), Some(width), None, Length::None, Conv::C)?;
    let reduced = reduce(Model::Lp64, &directive);
    Ok((reduced.spaces, directive_of(reduced.core)))
}

fn plain_char(width: Option<u16>) -> Result<Directive, RefusalKind> {
    Directive::new(FlagSet::empty(), width, None, Length::None, Conv::C)
}

#[test]
fn a_char_leaves_its_spaces_and_its_core(rt: HostRuntime) {
    assert!(rt;
        [reduced_char(5), reduced_char(4096)]
            == [
                Ok((4, plain_char(None).ok())),
                Err(RefusalKind::WidthTooLarge)
            ]
    );
}

fn is_normal_char(width: Option<u16>) -> Option<bool> {
    match plain_char(width) {
        Ok(directive) => Some(is_normal(Model::Lp64, &directive)),
        Err(_) => None,
    }
}

#[test]
fn a_char_with_a_width_is_not_normal(rt: HostRuntime) {
    assert!(rt; [is_normal_char(None), is_normal_char(Some(5))] == [Some(true), Some(false)]);
}
