//! A caller of `Pieces` and `spell`, as CALLING.md of `pf_text` has it.
use pf_text::{Piece, Pieces, Refusal, Spelling, spell};
use pf_values::RefusalKind;

/// The first directive of a format in its one spelling.
fn first_directive(format: &[u8]) -> Result<Option<Spelling>, Refusal> {
    for piece in Pieces::new(format) {
        let piece = match piece {
            Ok(piece) => piece,
            Err(refusal) => return Err(refusal),
        };
        if let Piece::Directive(directive) = piece {
            return Ok(Some(spell(&directive)));
        }
    }
    Ok(None)
}

// Whether the first directive is spelled like this, if there is one.
fn is_spelled(format: &[u8], wanted: &[u8]) -> Result<Option<bool>, Refusal> {
    match first_directive(format)? {
        Some(spelling) => Ok(Some(spelling.as_slice() == wanted)),
        None => Ok(None),
    }
}

#[test]
fn the_first_directive(rt: HostRuntime) {
    let refusal = Refusal {
        kind: RefusalKind::Truncated,
        at: 4,
    };
    assert!(rt;
        [
            is_spelled(b"100%% %0000005d", b"%05d"),
            is_spelled(b"%'0+ -ld", b"%-+ 0'ld"),
            is_spelled(b"%#10.0070hhX%d", b"%#10.70hhX"),
            is_spelled(b"%.d", b"%.0d"),
            is_spelled(b"100%%", b""),
            is_spelled(b"100%", b""),
        ] == [
            Ok(Some(true)),
            Ok(Some(true)),
            Ok(Some(true)),
            Ok(Some(true)),
            Ok(None),
            Err(refusal),
        ]
    );
}
