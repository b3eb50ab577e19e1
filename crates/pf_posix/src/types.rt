//! Argument types.
ghost use Rattle.std.specs.Prelude.{◌≡◌};
ghost use Rattle.pf_posix.specs.TypeNumbers.{number_of_type};
ghost use Rattle.pf_posix.specs.Types.{int_type};

use pf_values::ArgType;

/// The type of an argument (C11 7.21.6.1, paragraphs 5, 7 and 8).
#[derive(Clone, Copy, Debug, PartialEq, Eq)]
pub enum WholeArgType {
    /// One that the profile has.
    Profile(ArgType),
    /// `double`
    Double,
    /// `long double`
    LongDouble,
    /// `wint_t`
    WideChar,
    /// A pointer to wide characters that end in a null.
    WideString,
    /// `void *`
    Pointer,
    /// `signed char *`
    PointerToSChar,
    /// `short *`
    PointerToShort,
    /// `int *`
    PointerToInt,
    /// `long *`
    PointerToLong,
    /// `long long *`
    PointerToLongLong,
}

impl Default for WholeArgType {
    ghost is_default = { λ type. type ≡ int_type };

    fn default() -> WholeArgType {
        WholeArgType::Profile(ArgType::Int)
    }
}

impl WholeArgType {
    /// All types, in the order of their numbers.
    pub const ALL: [WholeArgType; 17] = [
        WholeArgType::Profile(ArgType::Int),
        WholeArgType::Profile(ArgType::UInt),
        WholeArgType::Profile(ArgType::Long),
        WholeArgType::Profile(ArgType::ULong),
        WholeArgType::Profile(ArgType::LongLong),
        WholeArgType::Profile(ArgType::ULongLong),
        WholeArgType::Profile(ArgType::Str),
        WholeArgType::Double,
        WholeArgType::LongDouble,
        WholeArgType::WideChar,
        WholeArgType::WideString,
        WholeArgType::Pointer,
        WholeArgType::PointerToSChar,
        WholeArgType::PointerToShort,
        WholeArgType::PointerToInt,
        WholeArgType::PointerToLong,
        WholeArgType::PointerToLongLong,
    ];

    /// Returns the number of the type, from 1 to 17.
    #[inline(always)]
    pub fn number(self) -> u8
        ensures { result ≡ number_of_type self }
    {
        match self {
            WholeArgType::Profile(arg_type) => arg_type.number(),
            _ => self.number_by_row(),
        }
    }

    // The number of the type, by a jump that those of the profile do without.
    #[inline(never)]
    fn number_by_row(self) -> u8
        ensures { result ≡ number_of_type self }
    {
        match self {
            WholeArgType::Profile(arg_type) => arg_type.number(),
            WholeArgType::Double => 8,
            WholeArgType::LongDouble => 9,
            WholeArgType::WideChar => 10,
            WholeArgType::WideString => 11,
            WholeArgType::Pointer => 12,
            WholeArgType::PointerToSChar => 13,
            WholeArgType::PointerToShort => 14,
            WholeArgType::PointerToInt => 15,
            WholeArgType::PointerToLong => 16,
            WholeArgType::PointerToLongLong => 17,
        }
    }
}
