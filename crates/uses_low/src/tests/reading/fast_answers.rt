//! Texts in memory: where a walk stops, directives and their parts at offsets, and types.
use pf_text::{
    Bare, Canonical, Nothing, Passed, Percents, Refusal, Scanner, Walk, digits_at, directive_at,
    flags_at, items_end, items_end_from, known_types, literal_len, modifier_at, number_at,
    refusal_at, spell, spelled_at,
};
use pf_values::{ArgType, Flag, Length, Model, RefusalKind};

// Where a walk stops, and whether at a `%` that begins something else.
fn stop<P: Passed>(text: &[u8]) -> (usize, bool) {
    let mut walk = Walk::new(text);
    let is_found = walk.find::<P>();
    (walk.at, is_found)
}

#[test]
fn a_walk_stops(rt: HostRuntime) {
    assert!(rt;
        [
            stop::<Nothing>(b"100%% of %d"),
            stop::<Percents>(b"100%% of %d"),
            stop::<Bare>(b"100%% of %d"),
            stop::<Bare>(b"%d%i%s%5d"),
            stop::<Canonical>(b"%d%#lx%lu%i"),
            stop::<Canonical>(b"%hhd%zu"),
            stop::<Canonical>(b"ab\0"),
            stop::<Bare>(b"%"),
            stop::<(Canonical, Nothing)>(b"%d%%%lu%i"),
            stop::<(Nothing, Percents)>(b"100%% of %d"),
        ] == [
            (3, true),
            (9, true),
            (11, false),
            (6, true),
            (9, true),
            (4, true),
            (2, false),
            (0, false),
            (7, true),
            (9, true)
        ]
    );
}

// Whether the directive at an offset is spelled like this, and where it ends.
fn found(text: &[u8], start: usize, wanted: &[u8]) -> Option<(bool, usize)> {
    let found = directive_at(text, start)?;
    Some((spell(&found.directive).as_slice() == wanted, found.stop))
}

#[test]
fn directives_at_offsets(rt: HostRuntime) {
    assert!(rt;
        [
            found(b"%0000005d%", 0, b"%05d"),
            found(b"ab%-8.3ld", 2, b"%-8.3ld"),
            found(b"%d%#+ 'd", 2, b""),
            found(b"%'+ d", 0, b"%+ 'd"),
            found(b"a%d", 0, b""),
            found(b"%%", 0, b""),
            found(b"%-", 0, b""),
            found(b"%y", 0, b""),
            found(b"%5000d", 0, b""),
            found(b"%d", 9, b""),
        ] == [
            Some((true, 9)),
            Some((true, 9)),
            None,
            Some((true, 5)),
            None,
            None,
            None,
            None,
            None,
            None
        ]
    );
}

// The offset of the length modifier, and where the directive ends, if it is spelled as `spell` spells it.
fn spelled(text: &[u8], start: usize) -> Option<(usize, usize)> {
    let found = spelled_at(text, start)?;
    Some((found.modifier_at, found.stop))
}

#[test]
fn spelled_directives_at_offsets(rt: HostRuntime) {
    assert!(rt;
        [
            spelled(b"%08lx!", 0),
            spelled(b"%%%-8.3ld", 2),
            spelled(b"%zu", 0),
            spelled(b"%005d", 0),
            spelled(b"%.05d", 0),
            spelled(b"%+d", 0),
            spelled(b"%05c", 0),
            spelled(b"%5", 0),
        ] == [
            Some((3, 5)),
            Some((7, 9)),
            Some((1, 3)),
            None,
            None,
            None,
            None,
            None
        ]
    );
}

#[test]
fn parts_at_offsets(rt: HostRuntime) {
    let (flags, flags_stop) = flags_at(b"%#0-5d", 1);
    assert!(rt;
        flags.has(Flag::Alt)
            && flags.has(Flag::Zero)
            && flags.has(Flag::Minus)
            && !flags.has(Flag::Plus)
            && flags_stop == 4
            && [
                number_at(b"%05d", 1),
                number_at(b"%50d", 1),
                number_at(b"%40960", 1),
            ] == [(None, 1), (Some(50), 3), (Some(409), 4)]
            && [digits_at(b"007", 0, 1), digits_at(b"x", 0, 12)] == [(1007, 3), (12, 0)]
            && [
                modifier_at(b"%lld", 1),
                modifier_at(b"%hd", 1),
                modifier_at(b"%d", 1)
            ] == [(Length::Ll, 3), (Length::H, 2), (Length::None, 1)]
    );
}

#[test]
fn items_end_where_a_text_is_refused(rt: HostRuntime) {
    let refusal = Refusal {
        kind: RefusalKind::Float,
        at: 7,
    };
    assert!(rt;
        [
            items_end(b"%d of %5.3ld%%"),
            items_end(b"%d of %f"),
            items_end(b"a\0b"),
        ] == [14, 6, 1]
            && [refusal_at(b"%d of %f", 6), refusal_at(b"%d", 2)] == [Some(refusal), None]
            && [literal_len(b"ab%c"), literal_len(b"abc\0")] == [2, 3]
    );
}

// Seven bytes are passed between items, but none inside one or beyond the limit.
#[test]
fn a_reader_passes_items(rt: HostRuntime) {
    let mut scanner = Scanner::new();
    let may_pass = [scanner.may_pass(7), scanner.may_pass(usize::MAX)];
    scanner.pass_items(7);
    let is_taken = scanner.feed(b'%').is_ok();
    assert!(rt;
        may_pass == [true, false] && is_taken && scanner.offset() == 8 && !scanner.may_pass(1)
    );
}

// How a text ends after seven bytes of whole items and `%`.
#[test]
fn a_reader_goes_on_after_items(rt: HostRuntime) {
    let mut scanner = Scanner::after_items(7);
    let is_taken = scanner.feed(b'%').is_ok();
    let refusal = Refusal {
        kind: RefusalKind::Truncated,
        at: 8,
    };
    assert!(rt; is_taken && scanner.offset() == 8 && scanner.finish() == Err(refusal));
}

// Whether the types of a format's arguments are known to be these.
fn are_known(text: &[u8], wanted: &[ArgType]) -> bool {
    let mut types = [ArgType::Int; 3];
    match known_types(Model::Lp64, text, &mut types) {
        Some(count) => &types[..count] == wanted,
        None => false,
    }
}

#[test]
fn most_formats_are_known(rt: HostRuntime) {
    assert!(rt;
        [
            are_known(b"%u", &[ArgType::UInt]),
            are_known(
                b"%s: %zd of %hhu",
                &[ArgType::Str, ArgType::Long, ArgType::Int]
            ),
            are_known(b"%s: %f of %hhu", &[]),
        ] == [true, true, false]
    );
}
