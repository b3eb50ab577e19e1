//! `pf_text`: what no run of the program and no call of the C library shows.
use pf_text::{Canonical, Walk};
use pf_values::limits::MAX_TEXT_LEN;

mod callers;
mod fast_answers;
mod readers;
mod signatures;
mod spellings;

// No text comes near the limit: the clauses of `Scanner` say what happens there.
#[test]
fn the_limit(rt: HostRuntime) {
    assert!(rt; MAX_TEXT_LEN == 4611686018427387904);
}

// How many bytes a walk passes of `%` and a letter.
fn passed_with(letter: u8) -> usize {
    let text = [b'%', letter];
    let mut walk = Walk::new(&text);
    walk.find::<Canonical>();
    walk.at
}

#[test]
fn each_letter_after_percent(rt: HostRuntime) {
    for letter in 0..=u8::MAX {
        let wanted = if b"%douxXbcs".contains(&letter) { 2 } else { 0 };
        assert!(rt; passed_with(letter) == wanted, "letter {letter}");
    }
}
