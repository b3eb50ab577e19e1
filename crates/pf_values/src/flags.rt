//! The flags of a conversion specification, and sets of them.
ghost use Rattle.std.specs.Prelude.{◌≡◌};
ghost use Rattle.pf_values.specs.meaning.Flags.{flag_byte, has, no_flags, with_flag};

/// A flag (C11 7.21.6.1, paragraph 6; the apostrophe is POSIX's).
#[derive(Clone, Copy, Debug, PartialEq, Eq)]
pub enum Flag {
    /// `-`: to the left of the field.
    Minus,
    /// `+`: always a sign.
    Plus,
    /// A space instead of a missing sign.
    Space,
    /// `#`: the alternative form.
    Alt,
    /// `0`: zeros up to the field width.
    Zero,
    /// `'`: groups of thousands. The POSIX locale has none.
    Group,
}

impl Flag {
    /// All flags, in the order in which `spell` writes them.
    pub const ALL: [Flag; 6] = [
        Flag::Minus,
        Flag::Plus,
        Flag::Space,
        Flag::Alt,
        Flag::Zero,
        Flag::Group,
    ];

    /// Returns the byte that spells the flag.
    pub fn byte(self) -> u8
        ensures { result ≡ flag_byte self }
    {
        match self {
            Flag::Minus => b'-',
            Flag::Plus => b'+',
            Flag::Space => b' ',
            Flag::Alt => b'#',
            Flag::Zero => b'0',
            Flag::Group => b'\'',
        }
    }
}

/// A set of flags. A flag that is given twice means the same as once.
#[derive(Clone, Copy, Debug, PartialEq, Eq)]
pub struct FlagSet {
    minus: bool,
    plus: bool,
    space: bool,
    alt: bool,
    zero: bool,
    group: bool,
}

impl FlagSet {
    /// Returns the set without flags.
    pub fn empty() -> FlagSet
        ensures { result ≡ no_flags }
    {
        FlagSet {
            minus: false,
            plus: false,
            space: false,
            alt: false,
            zero: false,
            group: false,
        }
    }

    /// Returns the set with one flag more.
    pub fn with(self, flag: Flag) -> FlagSet
        ensures { result ≡ with_flag self flag }
    {
        let mut flags = self;
        match flag {
            Flag::Minus => flags.minus = true,
            Flag::Plus => flags.plus = true,
            Flag::Space => flags.space = true,
            Flag::Alt => flags.alt = true,
            Flag::Zero => flags.zero = true,
            Flag::Group => flags.group = true,
        }
        flags
    }

    /// Returns whether the flag is in the set.
    pub fn has(self, flag: Flag) -> bool
        ensures { result ≡ has self flag }
    {
        match flag {
            Flag::Minus => self.minus,
            Flag::Plus => self.plus,
            Flag::Space => self.space,
            Flag::Alt => self.alt,
            Flag::Zero => self.zero,
            Flag::Group => self.group,
        }
    }
}
