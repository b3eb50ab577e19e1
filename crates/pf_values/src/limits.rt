//! The limits of this project.

/// The largest field width and the largest precision.
pub const MAX_NUMBER: u16 = 4095;

/// The most bytes of a format: 2^62.
pub const MAX_TEXT_LEN: u64 = 1 << 62;
