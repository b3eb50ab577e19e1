//! Data models.
ghost use Rattle.std.specs.Prelude.{◌≡◌};
ghost use Rattle.pf_values.specs.meaning.DataModel.{bit_count, greatest_rank, long_bits, size_rank};

/// How many bits the integer types have, and which types the length modifiers name.
#[derive(Clone, Copy, Debug, PartialEq, Eq)]
pub enum Model {
    /// `long`, `size_t`, `ptrdiff_t` and `intmax_t` have 64 bits.
    Lp64,
    /// `long`, `size_t` and `ptrdiff_t` have 32 bits, and `intmax_t` is `long long`.
    Ilp32,
    /// `long` has 32 bits; `long long`, `size_t`, `ptrdiff_t` and `intmax_t` have 64.
    Llp64,
}

/// `int`, `long` and `long long`, each with its unsigned type, by their rank (C11 6.3.1.1,
/// paragraph 1).
#[derive(Clone, Copy, Debug, PartialEq, Eq)]
pub(crate) enum Rank {
    Int,
    Long,
    LongLong,
}

impl Model {
    /// All data models.
    pub const ALL: [Model; 3] = [Model::Lp64, Model::Ilp32, Model::Llp64];

    /// Returns the bits of a long.
    #[inline(always)]
    pub fn long_bits(self) -> u8
        ensures { result ≡ bit_count (long_bits self) }
    {
        match self {
            Model::Lp64 => 64,
            Model::Ilp32 | Model::Llp64 => 32,
        }
    }

    // The rank of `size_t` with its signed type, and of `ptrdiff_t` with its unsigned one.
    #[inline(always)]
    pub(crate) fn size_rank(self) -> Rank
        ensures { result ≡ size_rank self }
    {
        match self {
            Model::Lp64 => Rank::Long,
            Model::Ilp32 => Rank::Int,
            Model::Llp64 => Rank::LongLong,
        }
    }

    // The rank of `intmax_t` and `uintmax_t`.
    #[inline(always)]
    pub(crate) fn greatest_rank(self) -> Rank
        ensures { result ≡ greatest_rank self }
    {
        match self {
            Model::Lp64 => Rank::Long,
            Model::Ilp32 | Model::Llp64 => Rank::LongLong,
        }
    }
}
