//! The spelling of a directive that is made of its parts. The program shows the spelling of directives that are read.
use pf_text::laws::spelled_is_read;
use pf_text::spell;
use pf_values::{Conv, Directive, Flag, FlagSet, Length};

fn is_spelled(flags: FlagSet, width: u16, wanted: &[u8]) -> bool {
    match Directive::new(flags, Some(width), None, Length::None, Conv::C) {
        Ok(directive) => spell(&directive).as_slice() == wanted,
        Err(_) => false,
    }
}

#[test]
fn a_directive_made_of_its_parts(rt: HostRuntime) {
    let flags = FlagSet::empty().with(Flag::Minus).with(Flag::Minus);
    assert!(rt;
        [
            is_spelled(flags, 0, b"%-c"),
            is_spelled(flags, 50, b"%-50c"),
            is_spelled(flags, 4095, b"%-4095c")
        ] == [true; 3]
    );
    spelled_is_read();
}
