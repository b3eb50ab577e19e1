//! Why a format is rejected.
ghost use Rattle.std.specs.Prelude.{◌≡◌};
ghost use Rattle.pf_values.specs.RefusalKinds.{name, number};

/// Why a format is rejected: one of the profile for the kinds up to `TooLong`, and one of the whole
/// language for those that don't say that the profile lacks something. Each kind has a number and a
/// name of its own.
#[derive(Clone, Copy, Debug, PartialEq, Eq)]
pub enum RefusalKind {
    /// A NUL, which a C string can't hold.
    NulByte,
    /// The text ends inside a conversion specification.
    Truncated,
    /// A byte that can't continue the specification, for no other reason below.
    Unexpected,
    /// `%` inside a specification, other than the second byte of `%%`.
    BadPercent,
    /// `*` as the field width or the precision, which the profile lacks.
    Star,
    /// The number of an argument, if the format may have none.
    Numbered,
    /// A field width, or the number of an argument or of one for the width, above the limit.
    WidthTooLarge,
    /// A precision, or the number of an argument for it, above the limit.
    PrecisionTooLarge,
    /// A floating conversion, or the modifier `L`, which the profile lacks.
    Float,
    /// The conversion `p`, which the profile lacks.
    Pointer,
    /// The conversion `n`, which the profile lacks.
    Count,
    /// A wide conversion: `C`, `S`, `lc` or `ls`, which the profile lacks.
    Wide,
    /// `#` with `d i u c C s S p n`, which the standard leaves undefined.
    AltUndefined,
    /// `0` with `c C s S p n`, which the standard leaves undefined.
    ZeroUndefined,
    /// `'` with `o x X b e E a A c C s S p n`, which POSIX leaves undefined.
    GroupUndefined,
    /// A precision with `c C p n`, which the standard leaves undefined.
    PrecisionUndefined,
    /// A length modifier that the standard doesn't define for the conversion.
    LengthUndefined,
    /// A byte past the largest length of a format.
    TooLong,
    /// `n` with `-`, `+`, a space or a field width, which the standard leaves undefined.
    CountUndefined,
    /// Numbered specifications and others in one format.
    Mixed,
    /// A numbered format that doesn't use each argument up to its highest.
    MissingArgument,
    /// An argument that is used with two types.
    TwoTypes,
}

impl RefusalKind {
    /// All kinds, in the order of their numbers.
    pub const ALL: [RefusalKind; 22] = [
        RefusalKind::NulByte,
        RefusalKind::Truncated,
        RefusalKind::Unexpected,
        RefusalKind::BadPercent,
        RefusalKind::Star,
        RefusalKind::Numbered,
        RefusalKind::WidthTooLarge,
        RefusalKind::PrecisionTooLarge,
        RefusalKind::Float,
        RefusalKind::Pointer,
        RefusalKind::Count,
        RefusalKind::Wide,
        RefusalKind::AltUndefined,
        RefusalKind::ZeroUndefined,
        RefusalKind::GroupUndefined,
        RefusalKind::PrecisionUndefined,
        RefusalKind::LengthUndefined,
        RefusalKind::TooLong,
        RefusalKind::CountUndefined,
        RefusalKind::Mixed,
        RefusalKind::MissingArgument,
        RefusalKind::TwoTypes,
    ];

    /// Returns the number of the kind, from 1 to 22.
    pub fn number(self) -> u8
        ensures { result ≡ number self }
    {
        match self {
            RefusalKind::NulByte => 1,
            RefusalKind::Truncated => 2,
            RefusalKind::Unexpected => 3,
            RefusalKind::BadPercent => 4,
            RefusalKind::Star => 5,
            RefusalKind::Numbered => 6,
            RefusalKind::WidthTooLarge => 7,
            RefusalKind::PrecisionTooLarge => 8,
            RefusalKind::Float => 9,
            RefusalKind::Pointer => 10,
            RefusalKind::Count => 11,
            RefusalKind::Wide => 12,
            RefusalKind::AltUndefined => 13,
            RefusalKind::ZeroUndefined => 14,
            RefusalKind::GroupUndefined => 15,
            RefusalKind::PrecisionUndefined => 16,
            RefusalKind::LengthUndefined => 17,
            RefusalKind::TooLong => 18,
            RefusalKind::CountUndefined => 19,
            RefusalKind::Mixed => 20,
            RefusalKind::MissingArgument => 21,
            RefusalKind::TwoTypes => 22,
        }
    }

    /// Returns the name of the kind, in ASCII.
    pub fn name(self) -> &'static str
        ensures { result.now ≡ name self }
    {
        match self {
            RefusalKind::NulByte => "NulByte",
            RefusalKind::Truncated => "Truncated",
            RefusalKind::Unexpected => "Unexpected",
            RefusalKind::BadPercent => "BadPercent",
            RefusalKind::Star => "Star",
            RefusalKind::Numbered => "Numbered",
            RefusalKind::WidthTooLarge => "WidthTooLarge",
            RefusalKind::PrecisionTooLarge => "PrecisionTooLarge",
            RefusalKind::Float => "Float",
            RefusalKind::Pointer => "Pointer",
            RefusalKind::Count => "Count",
            RefusalKind::Wide => "Wide",
            RefusalKind::AltUndefined => "AltUndefined",
            RefusalKind::ZeroUndefined => "ZeroUndefined",
            RefusalKind::GroupUndefined => "GroupUndefined",
            RefusalKind::PrecisionUndefined => "PrecisionUndefined",
            RefusalKind::LengthUndefined => "LengthUndefined",
            RefusalKind::TooLong => "TooLong",
            RefusalKind::CountUndefined => "CountUndefined",
            RefusalKind::Mixed => "Mixed",
            RefusalKind::MissingArgument => "MissingArgument",
            RefusalKind::TwoTypes => "TwoTypes",
        }
    }
}
