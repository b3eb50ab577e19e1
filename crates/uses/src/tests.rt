//! Each use, with both of its answers; and the tests of the libraries, which call public functions. A crate with tests is
//! proved twice, so all tests are in this crate and in `uses_low`.
use crate::argument_types::{other_type_at, takes_one_int};
use crate::meaning::{are_equivalent, may_replace, shows_difference};
use pf_values::Model;

mod comparisons;
mod equality;
mod faults;
mod literals;
mod memory;
mod posix;
mod whole;

#[test]
fn a_format_may_replace_another(rt: HostRuntime) {
    let (alloc, model) = (rt.alloc(), Model::Lp64);
    assert!(rt;
        [
            may_replace(alloc, model, b"%5c", b"    %c"),
            may_replace(alloc, model, b"%05d", b"%.5d"),
            may_replace(alloc, model, b"%f", b"%f"),
        ] == [true, false, false]
    );
}

#[test]
fn two_formats_are_equivalent(rt: HostRuntime) {
    assert!(rt;
        [
            are_equivalent(Model::Lp64, b"%5c", b"    %c"),
            are_equivalent(Model::Lp64, b"%05d", b"%.5d"),
            are_equivalent(Model::Lp64, b"%d", b"%f"),
        ] == [Some(true), Some(false), None]
    );
}

#[test]
fn one_int_is_taken(rt: HostRuntime) {
    let alloc = rt.alloc();
    assert!(rt;
        [
            takes_one_int(alloc, b"%hhx bytes"),
            takes_one_int(alloc, b"%u bytes"),
            takes_one_int(alloc, b"%d of %d"),
            takes_one_int(alloc, b"100%"),
        ] == [true, false, false, false]
    );
}

#[test]
fn a_number_shows_a_difference(rt: HostRuntime) {
    let (alloc, model) = (rt.alloc(), Model::Lp64);
    assert!(rt;
        [
            shows_difference(alloc, model, b"%05d", b"%.5d", -1),
            shows_difference(alloc, model, b"%05d", b"%.5d", 1),
            shows_difference(alloc, model, b"%ld", b"%d", -1),
        ] == [true, false, false]
    );
}

#[test]
fn a_translation_takes_another_type(rt: HostRuntime) {
    let (alloc, model) = (rt.alloc(), Model::Lp64);
    let original = b"%s: %u files".as_slice();
    assert!(rt;
        [
            other_type_at(alloc, model, original, b"%u Dateien: %s"),
            other_type_at(alloc, model, original, b"%s: Dateien"),
            other_type_at(alloc, model, original, b"%s: %u Dateien"),
        ] == [Some(0), Some(1), None]
    );
}
