//! A caller of `render`, as CALLING.md of `pf_render` has it.
use pf_render::{RenderFault, render};
use pf_values::{Arg, CBytes, Counted, Model};
use std::io::Write;

/// Writes a name and a count as a line.
fn write_line<W: Write>(
    name: CBytes<'_>,
    count: u64,
    writer: &mut Counted<W>,
) -> Result<(), RenderFault> {
    let args = [Arg::Str(name), Arg::ULong(count)];
    render(Model::Lp64, b"%-8s%5lu\n", &args, writer)
}

// Whether the call ends like this and leaves this text in the place.
fn is_line(place: &mut [u8], wanted: &[u8], end: Result<(), RenderFault>) -> bool {
    let Some(name) = CBytes::new(b"bolts") else {
        return false;
    };
    let mut writer = Counted::new(&mut *place);
    write_line(name, 42, &mut writer) == end && place.starts_with(wanted)
}

#[test]
fn a_line(rt: HostRuntime) {
    let is_right = is_line(&mut [0u8; 16], b"bolts      42\n", Ok(()))
        && is_line(&mut [0u8; 4], b"bolt", Err(RenderFault::Write(4)));
    assert!(rt; is_right);
}
