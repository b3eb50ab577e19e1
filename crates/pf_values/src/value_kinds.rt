//! The values that directives print for numbers, by their width and sign.
ghost use Rattle.std.specs.Prelude.{◌≡◌, ℤ, Bool, true, false, pos, nat_abs};
ghost use Rattle.pf_values.specs.meaning.Arguments.{IsConverted};
ghost use Rattle.pf_values.specs.meaning.DataModel.{Bits, B8, B16, B32, B64, bit_count};
ghost use Rattle.pf_values.specs.meaning.Printing.{is_negative};

/// The type to which a length modifier converts a number before it is printed (C11 7.21.6.1,
/// paragraph 7).
pub trait ValueKind: Copy {
    ghost is_signed: { Bool };

    ghost bits: { Bits };

    /// The number.
    ghost number: { Self → ℤ };

    /// The number in the type's range that differs from the argument by a multiple of 2^bits.
    fn of(argument: i128) -> Self
        ensures { IsConverted is_signed (bit_count bits) argument (number result) };

    /// Whether the number is below 0.
    fn is_negative(self) -> bool
        ensures { result ≡ is_negative (number self) };

    /// The number without its sign.
    fn unsigned_abs(self) -> u64
        ensures { result ≡ nat_abs (number self) };
}

impl ValueKind for u8 {
    ghost is_signed = { false };

    ghost bits = { B8 };

    ghost number = { pos };

    #[tactic(auto, using(crate::proofs::ValueKindLemmas::converted_within))]
    fn of(argument: i128) -> u8 {
        argument.rem_euclid(1 << 8) as u8
    }

    fn is_negative(self) -> bool {
        false
    }

    fn unsigned_abs(self) -> u64 {
        u64::from(self)
    }
}

impl ValueKind for u16 {
    ghost is_signed = { false };

    ghost bits = { B16 };

    ghost number = { pos };

    #[tactic(auto, using(crate::proofs::ValueKindLemmas::converted_within))]
    fn of(argument: i128) -> u16 {
        argument.rem_euclid(1 << 16) as u16
    }

    fn is_negative(self) -> bool {
        false
    }

    fn unsigned_abs(self) -> u64 {
        u64::from(self)
    }
}

impl ValueKind for u32 {
    ghost is_signed = { false };

    ghost bits = { B32 };

    ghost number = { pos };

    #[tactic(auto, using(crate::proofs::ValueKindLemmas::converted_within))]
    fn of(argument: i128) -> u32 {
        argument.rem_euclid(1 << 32) as u32
    }

    fn is_negative(self) -> bool {
        false
    }

    fn unsigned_abs(self) -> u64 {
        u64::from(self)
    }
}

impl ValueKind for u64 {
    ghost is_signed = { false };

    ghost bits = { B64 };

    ghost number = { pos };

    #[tactic(auto, using(crate::proofs::ValueKindLemmas::converted_within))]
    fn of(argument: i128) -> u64 {
        argument.rem_euclid(1 << 64) as u64
    }

    fn is_negative(self) -> bool {
        false
    }

    fn unsigned_abs(self) -> u64 {
        self
    }
}

impl ValueKind for i8 {
    ghost is_signed = { true };

    ghost bits = { B8 };

    ghost number = { λ n. n };

    #[tactic(auto, using(crate::proofs::ValueKindLemmas::converted_within))]
    fn of(argument: i128) -> i8 {
        u8::of(argument).cast_signed()
    }

    fn is_negative(self) -> bool {
        self < 0
    }

    fn unsigned_abs(self) -> u64 {
        u64::from(i8::unsigned_abs(self))
    }
}

impl ValueKind for i16 {
    ghost is_signed = { true };

    ghost bits = { B16 };

    ghost number = { λ n. n };

    #[tactic(auto, using(crate::proofs::ValueKindLemmas::converted_within))]
    fn of(argument: i128) -> i16 {
        u16::of(argument).cast_signed()
    }

    fn is_negative(self) -> bool {
        self < 0
    }

    fn unsigned_abs(self) -> u64 {
        u64::from(i16::unsigned_abs(self))
    }
}

impl ValueKind for i32 {
    ghost is_signed = { true };

    ghost bits = { B32 };

    ghost number = { λ n. n };

    #[tactic(auto, using(crate::proofs::ValueKindLemmas::converted_within))]
    fn of(argument: i128) -> i32 {
        u32::of(argument).cast_signed()
    }

    fn is_negative(self) -> bool {
        self < 0
    }

    fn unsigned_abs(self) -> u64 {
        u64::from(i32::unsigned_abs(self))
    }
}

impl ValueKind for i64 {
    ghost is_signed = { true };

    ghost bits = { B64 };

    ghost number = { λ n. n };

    #[tactic(auto, using(crate::proofs::ValueKindLemmas::converted_within))]
    fn of(argument: i128) -> i64 {
        u64::of(argument).cast_signed()
    }

    fn is_negative(self) -> bool {
        self < 0
    }

    fn unsigned_abs(self) -> u64 {
        i64::unsigned_abs(self)
    }
}
