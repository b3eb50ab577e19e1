//! Faults that are found before any byte is written, and the texts of faults.
use pf_render::{RenderFault, RenderVecFault, render, render_vec};
use pf_text::Refusal;
use pf_values::{Arg, CBytes, Counted, Model, RefusalKind};
use std::alloc::{AllocError, Global};

// The fault of `render_vec` for a fault of `render`.
fn of_vector(fault: RenderFault) -> RenderVecFault {
    match fault {
        RenderFault::Refused(refusal) => RenderVecFault::Refused(refusal),
        RenderFault::WrongCount { wanted, given } => RenderVecFault::WrongCount { wanted, given },
        RenderFault::WrongType(at) => RenderVecFault::WrongType(at),
        RenderFault::Write(_) => RenderVecFault::Memory,
    }
}

// Whether both calls return this fault, and `render` wrote nothing.
fn has_fault(
    alloc: Global,
    model: Model,
    format: &[u8],
    args: &[Arg<'_>],
    fault: RenderFault,
) -> bool {
    let mut writer = Counted::new(Vec::new(alloc));
    render(model, format, args, &mut writer) == Err(fault)
        && writer.failures() == 0
        && writer.into_inner().is_empty()
        && render_vec(alloc, model, format, args).err() == Some(of_vector(fault))
}

fn string() -> Arg<'static> {
    match CBytes::new(b"x") {
        Some(string) => Arg::Str(string),
        None => Arg::Int(0),
    }
}

fn argument_of(letter: u8) -> Arg<'static> {
    match letter {
        b's' => string(),
        b'l' => Arg::Long(1),
        b'w' => Arg::Long(2147483648),
        b'q' => Arg::LongLong(1),
        b'U' => Arg::ULong(1),
        b'u' => Arg::UInt(1),
        b'0' => Arg::Int(0),
        _ => Arg::Int(1),
    }
}

// A data model, a format, a letter for each argument, and the fault of the call: refusals come first, and counts before
// types. In ILP32 a long of 2^31 is out of range, and the types of `z` and `j` are different.
type Row = (Model, &'static [u8], &'static [u8], RenderFault);

#[rattlefmt::skip]
static ROWS: [Row; 29] = [
    (Model::Lp64, b"%5%", b"1", RenderFault::Refused(Refusal { kind: RefusalKind::BadPercent, at: 2 })),
    (Model::Lp64, b"a%d%s%", b"", RenderFault::Refused(Refusal { kind: RefusalKind::Truncated, at: 6 })),
    (Model::Lp64, b"%d%d%y", b"sss", RenderFault::Refused(Refusal { kind: RefusalKind::Unexpected, at: 5 })),
    (Model::Lp64, b"%d\0", b"1", RenderFault::Refused(Refusal { kind: RefusalKind::NulByte, at: 2 })),
    (Model::Lp64, b"%d%d", b"1", RenderFault::WrongCount { wanted: 2, given: 1 }),
    (Model::Lp64, b"%d%d", b"s", RenderFault::WrongCount { wanted: 2, given: 1 }),
    (Model::Lp64, b"%d%d", b"", RenderFault::WrongCount { wanted: 2, given: 0 }),
    (Model::Lp64, b"-", b"l", RenderFault::WrongCount { wanted: 0, given: 1 }),
    (Model::Lp64, b"", b"s", RenderFault::WrongCount { wanted: 0, given: 1 }),
    (Model::Lp64, b"%%", b"s", RenderFault::WrongCount { wanted: 0, given: 1 }),
    (Model::Lp64, b"%%%-hd", b"10", RenderFault::WrongCount { wanted: 1, given: 2 }),
    (Model::Lp64, b"%s", b"10", RenderFault::WrongCount { wanted: 1, given: 2 }),
    (Model::Lp64, b"%d%d", b"1s", RenderFault::WrongType(1)),
    (Model::Lp64, b"%s%d", b"1s", RenderFault::WrongType(0)),
    (Model::Lp64, b"%s", b"1", RenderFault::WrongType(0)),
    (Model::Lp64, b"%c", b"s", RenderFault::WrongType(0)),
    (Model::Lp64, b"%d", b"w", RenderFault::WrongType(0)),
    (Model::Lp64, b"%ld", b"1", RenderFault::WrongType(0)),
    (Model::Lp64, b"%ld", b"q", RenderFault::WrongType(0)),
    (Model::Lp64, b"%llu", b"U", RenderFault::WrongType(0)),
    (Model::Lp64, b"%u", b"1", RenderFault::WrongType(0)),
    (Model::Lp64, b"%hhu", b"u", RenderFault::WrongType(0)),
    (Model::Lp64, b"a%db%sc%dd%se%d", b"1sl1s", RenderFault::WrongType(2)),
    (Model::Ilp32, b"%ld", b"w", RenderFault::WrongType(0)),
    (Model::Ilp32, b"%d%ld%ld", b"1lw", RenderFault::WrongType(2)),
    (Model::Ilp32, b"%ld%d", b"ws", RenderFault::WrongType(0)),
    (Model::Ilp32, b"%zd", b"l", RenderFault::WrongType(0)),
    (Model::Ilp32, b"%zd%jd", b"1l", RenderFault::WrongType(1)),
    (Model::Ilp32, b"%ld", b"ww", RenderFault::WrongCount { wanted: 1, given: 2 }),
];

fn arguments_of(alloc: Global, letters: &[u8]) -> Result<Vec<Arg<'static>>, AllocError> {
    let mut args = Vec::new(alloc);
    for letter in letters {
        args.push(argument_of(*letter))?;
    }
    Ok(args)
}

fn is_found(alloc: Global, row: &Row) -> bool {
    match arguments_of(alloc, row.2) {
        Ok(args) => has_fault(alloc, row.0, row.1, args.as_slice(), row.3),
        Err(_) => false,
    }
}

#[test]
fn what_is_found_before_writing(rt: HostRuntime) {
    for (at, row) in ROWS.iter().enumerate() {
        assert!(rt; is_found(rt.alloc(), row), "row {at}");
    }
}

// Whether the faults have these texts.
fn has_texts(alloc: Global) -> Result<bool, AllocError> {
    let refusal = Refusal {
        kind: RefusalKind::Unexpected,
        at: 3,
    };
    let texts = format!(in alloc;
        "{}, {}, {}, {}",
        RenderFault::Refused(refusal),
        RenderVecFault::Refused(refusal),
        RenderFault::Write(7),
        RenderVecFault::Memory
    )?;
    Ok(
        texts.as_str()
            == "refused (Unexpected) at byte 3, refused (Unexpected) at byte 3, write failed after 7 bytes, out of memory",
    )
}

#[test]
fn texts_of_faults(rt: HostRuntime) {
    assert!(rt; matches!(has_texts(rt.alloc()), Ok(true)));
}
