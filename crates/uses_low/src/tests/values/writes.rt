//! Writing into a device with little room.
use pf_values::devices::Cut;
use pf_values::{Counted, ShortWrite, write_bytes};
use std::io::ErrorKind;

const TEXT: &[u8] = b"abcdefg";

// The answer, and how many calls fail, if `room` of seven bytes fit.
fn expected(room: usize) -> (Result<(), ShortWrite>, u64) {
    if room == 7 {
        (Ok(()), 0)
    } else {
        (Err(ShortWrite { written: room }), 1)
    }
}

fn is_cut(room: usize, step: usize, kind: ErrorKind) -> bool {
    let mut place = [0u8; 7];
    let Some(place) = place.get_mut(..room) else {
        return false;
    };
    let mut writer = Counted::new(Cut::new(place, step.max(1), kind, false));
    let answer = write_bytes(&mut writer, TEXT);
    (answer, writer.failures()) == expected(room)
        && Some(writer.into_inner().taken()) == TEXT.get(..room)
}

// An interruption is an error as others are.
fn cuts_at(room: usize, step: usize) -> bool {
    is_cut(room, step, ErrorKind::Other) && is_cut(room, step, ErrorKind::Interrupted)
}

#[test]
fn what_fits_goes_out(rt: HostRuntime) {
    for room in 0..8usize {
        for step in [1usize, 2, 3, 7] {
            assert!(rt; cuts_at(room, step), "{room} {step}");
        }
    }
}

// A slice takes nothing where it is full.
fn fills(room: usize) -> bool {
    let mut bytes = [0u8; 7];
    let Some(place) = bytes.get_mut(..room) else {
        return false;
    };
    let mut writer = Counted::new(place);
    let answer = write_bytes(&mut writer, TEXT);
    (answer, writer.failures()) == expected(room) && bytes.get(..room) == TEXT.get(..room)
}

#[test]
fn nothing_taken_is_a_failure(rt: HostRuntime) {
    for room in 0..8usize {
        assert!(rt; fills(room), "{room}");
    }
}
