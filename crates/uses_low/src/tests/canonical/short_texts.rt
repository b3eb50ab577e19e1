//! What the C library calls instead of `canonical`: verbatim fronts, canonical texts on the stack, and
//! reductions where they are called.
use pf_canon::{Profile, Room, ShortText, VerbatimFront, check_in};
use pf_reduce::{Change, Core, Reduced, change_of, reduce};
use pf_text::{Refusal, directive_at, spell};
use pf_values::{Model, RefusalKind};

fn is_verbatim(format: &[u8]) -> bool {
    VerbatimFront::of::<Profile>(Model::Lp64, format).is_all::<Profile>(format)
}

// Whether all of a format's canonical text has room, and is this.
fn is_put(format: &[u8], wanted: &[u8]) -> Result<bool, Refusal> {
    let front = VerbatimFront::of::<Profile>(Model::Lp64, format);
    let mut text = ShortText::new();
    let room = text.put::<Profile>(&front, format)?;
    Ok(room == Room::Enough && text.as_slice() == wanted)
}

#[test]
fn short_canonical_texts(rt: HostRuntime) {
    let refusal = Refusal {
        kind: RefusalKind::BadPercent,
        at: 5,
    };
    assert!(rt;
        [
            is_put(b"a%i%5c%%", b"a%d    %c%%"),
            is_put(b"%d%.0s!", b"%d!%.0s"),
            is_put(b"%200d", b""),
            is_put(b"a%i%5%", b""),
        ] == [Ok(true), Ok(true), Ok(false), Err(refusal)]
            && is_verbatim(b"a%d%%")
            && !is_verbatim(b"a%i%%")
            && check_in::<Profile>(Model::Lp64, b"a%i%5c") == Ok(())
            && check_in::<Profile>(Model::Lp64, b"a%i%5%") == Err(refusal)
    );
}

// What a directive is reduced to: its spaces, its zeros, and whether its core is spelled like this.
fn reduced(directive: &[u8], wanted: &[u8]) -> Option<(u16, u16, bool, u16)> {
    let found = directive_at(directive, 0)?;
    let Reduced {
        spaces,
        zeros,
        core,
        trail,
    } = reduce(Model::Lp64, &found.directive);
    match core {
        Core::Normal(normal) => {
            let is_core = spell(&normal.directive()).as_slice() == wanted;
            Some((spaces, zeros, is_core, trail))
        }
        Core::Silent => None,
    }
}

#[test]
fn reductions_in_place(rt: HostRuntime) {
    assert!(rt;
        [
            reduced(b"%zu", b"%lu"),
            reduced(b"%08x", b"%.8x"),
            reduced(b"%020x", b"%.8x"),
            reduced(b"%-20d", b"%-11d"),
            reduced(b"%.0s", b""),
        ] == [
            Some((0, 0, true, 0)),
            Some((0, 0, true, 0)),
            Some((0, 12, true, 0)),
            Some((0, 0, true, 9)),
            None,
        ]
    );
}

// What changes in the spelling of a directive: 0 if it isn't known, 1 for the letters, 2 for the flag `0`, and for
// spaces the width that is left.
fn change(directive: &[u8]) -> Option<u16> {
    let found = directive_at(directive, 0)?;
    match change_of(Model::Lp64, &found.directive) {
        None => Some(0),
        Some(Change::Letters) => Some(1),
        Some(Change::Filled) => Some(2),
        Some(Change::Padded(width)) => Some(width),
    }
}

#[test]
fn changes_in_place(rt: HostRuntime) {
    assert!(rt;
        [
            change(b"%zu"),
            change(b"%5d"),
            change(b"%08lx"),
            change(b"%-20d"),
            change(b"%20u"),
            change(b"%020x"),
            change(b"%+d"),
            change(b"%.0s"),
            change(b"%5c"),
        ] == [
            Some(1),
            Some(1),
            Some(2),
            Some(11),
            Some(10),
            Some(0),
            Some(0),
            Some(0),
            Some(0)
        ]
    );
}
