//! The words of numbers; rows of `same` have those of strings.
use pf_compare::OwnedArg;
use std::alloc::Global;

static NUMBERS: [(i64, &str); 4] = [
    (0, "n:0"),
    (-1, "n:-1"),
    (i64::MAX, "n:9223372036854775807"),
    (i64::MIN, "n:-9223372036854775808"),
];

// Whether the word of an argument is put after what is there.
fn has_word(alloc: Global, arg: &OwnedArg, word: &str) -> bool {
    let mut out = Vec::new(alloc);
    let is_put = out.push(b'b').is_ok() && arg.push_word(&mut out).is_ok();
    is_put && out.starts_with(b"b") && out.get(1..) == Some(word.as_bytes())
}

#[test]
fn a_number_is_given_in_decimal(rt: HostRuntime) {
    for (number, word) in &NUMBERS {
        assert!(rt;
            has_word(rt.alloc(), &OwnedArg::LongLong(*number), word),
            "{word}"
        );
    }
    let greatest = "n:18446744073709551615";
    assert!(rt; has_word(rt.alloc(), &OwnedArg::ULongLong(u64::MAX), greatest));
}
