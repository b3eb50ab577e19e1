//! `pf_literals`: the lengths of literals, the texts of faults, and each law once.
use pf_literals::laws::{
    bytes_once, encoded_is_read, encoded_once, end_goes_on, kinds_in_order, never_both,
    offsets_once, offsets_there, read_or_refused, refused_for_good, refused_once,
};
use pf_literals::{LiteralFault, LiteralKind, LiteralRefusal, encoded_len};
use std::alloc::{AllocError, Global};

mod callers;

// A text, and how long its literal is.
static LENGTHS: [(&[u8], u128); 12] = [
    (b"", 2),
    (b"Total:\t%d\n", 14),
    (b"\x01%.0o", 10),
    (b"\x010%.0o", 11),
    (b"\x012", 7),
    (b"\x7f1", 7),
    (b"??=?", 7),
    (b"????", 9),
    (b"'\"\\", 7),
    (b"\x07\x08\t\n\x0b\x0c\r\x0e\x1f", 24),
    (b"\xc3\xa9\xe6\xbc\xa2", 7),
    (b"a\01", 8),
];

#[test]
fn each_literal_has_its_length(rt: HostRuntime) {
    for (text, len) in &LENGTHS {
        assert!(rt; encoded_len(text) == *len);
    }
    bytes_once();
    never_both();
    read_or_refused();
    refused_once();
    refused_for_good();
    end_goes_on();
    encoded_is_read();
    encoded_once();
    offsets_once();
    offsets_there();
    kinds_in_order();
}

fn has_texts(alloc: Global) -> Result<bool, AllocError> {
    let refused = LiteralFault::Refused(LiteralRefusal {
        kind: LiteralKind::BadEscape,
        at: 4,
    });
    let text = format!(in alloc; "{refused}; {}", LiteralFault::Memory)?;
    Ok(text.as_str() == "no source (BadEscape) at byte 4; out of memory")
}

#[test]
fn what_faults_say(rt: HostRuntime) {
    assert!(rt; has_texts(rt.alloc()) == Ok(true));
}
