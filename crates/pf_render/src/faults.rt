//! Why not all was printed.
ghost use Rattle.std.specs.Prelude.{◌≡◌};
ghost use Rattle.pf_render.specs.declared.faults.RenderFault.TheVariants as faults;

use pf_text::Refusal;
use pf_values::ShortWrite;
use thiserror::Error;

/// The writer failed, or took none of some bytes.
#[derive(Clone, Copy, Debug, PartialEq, Eq, Error)]
#[error("write failed after {written} bytes")]
pub struct WriteFault {
    /// How many bytes went out.
    pub written: u128,
}

impl From<ShortWrite> for WriteFault {
    ghost from_gives = { λ short fault. fault.written ≡ short.written };

    fn from(short: ShortWrite) -> WriteFault {
        WriteFault {
            written: short.written as u128,
        }
    }
}

/// Why a format is not rendered into a writer, or not to its end.
#[derive(Clone, Copy, Debug, PartialEq, Eq, Error)]
pub enum RenderFault {
    /// The text is rejected.
    #[error("{0}")]
    Refused(Refusal),
    /// The format takes another number of arguments.
    #[error("wanted {wanted} arguments, given {given}")]
    WrongCount {
        /// How many it takes.
        wanted: u64,
        /// How many were given.
        given: u64,
    },
    /// The argument with this number, counted from 0, is the first one of another type, or out of
    /// the range of its type.
    #[error("argument {0} has the wrong type")]
    WrongType(u64),
    /// The writer failed, or took none of some bytes, after this number of bytes.
    #[error("write failed after {0} bytes")]
    Write(u128),
}

impl From<WriteFault> for RenderFault {
    ghost from_gives = { λ fault wider. wider ≡ faults.Write fault.written };

    fn from(fault: WriteFault) -> RenderFault {
        RenderFault::Write(fault.written)
    }
}

/// Why a format is not rendered into memory.
#[derive(Clone, Copy, Debug, PartialEq, Eq, Error)]
pub enum RenderVecFault {
    /// The text is rejected.
    #[error("{0}")]
    Refused(Refusal),
    /// The format takes another number of arguments.
    #[error("wanted {wanted} arguments, given {given}")]
    WrongCount {
        /// How many it takes.
        wanted: u64,
        /// How many were given.
        given: u64,
    },
    /// The argument with this number, counted from 0, is the first one of another type, or out of
    /// the range of its type.
    #[error("argument {0} has the wrong type")]
    WrongType(u64),
    /// An allocation failed.
    #[error("out of memory")]
    Memory,
}
