//! Why and where a format is rejected.
ghost use Rattle.std.specs.Prelude.{◌≡◌};
ghost use Rattle.pf_text.specs.declared.refusals.TextFault.TheVariants.{Memory};

use pf_values::RefusalKind;
use std::alloc::AllocError;
use thiserror::Error;

/// The kind, and the byte at which the text is rejected, counted from 0.
#[derive(Clone, Copy, Debug, PartialEq, Eq, Error)]
#[error("refused ({kind:?}) at byte {at}")]
pub struct Refusal {
    /// Why it is rejected.
    pub kind: RefusalKind,
    /// Where it is rejected.
    pub at: u64,
}

/// Why there is no answer about a text.
#[derive(Clone, Copy, Debug, PartialEq, Eq, Error)]
pub enum TextFault {
    /// The text is rejected.
    #[error("{0}")]
    Refused(Refusal),
    /// Memory was refused.
    #[error("out of memory")]
    Memory,
}

impl From<AllocError> for TextFault {
    ghost from_gives = { λ _ fault. fault ≡ Memory };

    fn from(_error: AllocError) -> TextFault {
        TextFault::Memory
    }
}

/// One of two texts that are compared.
#[derive(Clone, Copy, Debug, PartialEq, Eq)]
pub enum Side {
    /// The first text.
    First,
    /// The second text.
    Second,
}
