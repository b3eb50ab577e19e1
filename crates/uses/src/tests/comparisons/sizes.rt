//! With ample memory `confirms` answers, at sizes on either side of each power of two and for any number of arguments.
use pf_compare::confirms;
use pf_values::{Arg, Model};
use std::alloc::{AllocError, Global};

// `len` bytes and an end.
fn text_that_ends(alloc: Global, len: usize, end: &[u8]) -> Result<Vec<u8>, AllocError> {
    let mut text = Vec::new(alloc);
    text.resize(len, b'a')?;
    text.extend_from_slice(end)?;
    Ok(text)
}

// Whether `compare` finds, after `len` bytes, that `%d` prints 1 otherwise than `%5d`, and as `%i` does.
fn confirms_after(alloc: Global, len: usize) -> Result<bool, AllocError> {
    let plain = text_that_ends(alloc, len, b"%d")?;
    let wide = text_that_ends(alloc, len, b"%5d")?;
    let alike = text_that_ends(alloc, len, b"%i")?;
    let one = [Arg::Int(1)];
    Ok(
        confirms(alloc, Model::Lp64, &plain, &wide, &one)?
            && !confirms(alloc, Model::Lp64, &plain, &alike, &one)?,
    )
}

#[test]
fn texts_of_any_size(rt: HostRuntime) -> Result<(), AllocError> {
    let mut len = 1usize;
    for _ in 0..21u32 {
        assert!(rt; confirms_after(rt.alloc(), len)?, "{len}");
        assert!(rt;
            confirms_after(rt.alloc(), len.saturating_sub(1))?,
            "one less than {len}"
        );
        len = len.saturating_mul(2);
    }
    Ok(())
}

#[test]
fn any_number_of_arguments(rt: HostRuntime) -> Result<(), AllocError> {
    let alloc = rt.alloc();
    let mut args = Vec::new(alloc);
    let mut first = Vec::new(alloc);
    let mut last = Vec::new(alloc);
    for count in 0..41u32 {
        last.extend_from_slice(b"%5d")?;
        first.extend_from_slice(b"%d")?;
        // One argument is missing, and then there are as many as directives.
        assert!(rt;
            !confirms(alloc, Model::Lp64, &first, &last, &args)?,
            "{count} of more"
        );
        args.push(Arg::Int(1))?;
        assert!(rt;
            confirms(alloc, Model::Lp64, &first, &last, &args)?,
            "{count}"
        );
        assert!(rt;
            !confirms(alloc, Model::Lp64, &first, &first, &args)?,
            "{count} alike"
        );
    }
    Ok(())
}
