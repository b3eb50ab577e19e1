//! How a byte is written in a literal.
ghost use Rattle.std.specs.Prelude.{◌≡◌, false, None};
ghost use Rattle.pf_literals.specs.Elements.{written};
ghost use Rattle.pf_literals.specs.Encoding.{element_by, element_for, is_printed, simple_letter};
ghost use Rattle.pf_literals.specs.Spellings.{spelling_bytes};

/// How a byte is written in a literal.
#[derive(Clone, Copy, Debug, PartialEq, Eq)]
pub(crate) enum Spelling {
    /// As itself.
    Plain([u8; 1]),
    /// By a simple escape sequence.
    Simple([u8; 2]),
    /// By an octal escape sequence of three digits.
    Octal([u8; 4]),
}

impl Spelling {
    /// How a byte is written, after a `?` or not.
    pub(crate) fn of(after: bool, byte: u8) -> Spelling
        ensures { spelling_bytes result ≡ written (element_for after byte) }
    {
        if !after {
            return of_byte(byte);
        }
        if byte == b'?' {
            return Spelling::Simple([b'\\', b'?']);
        }
        of_byte(byte)
    }

    pub(crate) fn as_slice(&self) -> &[u8]
        ensures { result.now ≡ spelling_bytes self.now }
    {
        match self {
            Spelling::Plain(bytes) => bytes,
            Spelling::Simple(bytes) => bytes,
            Spelling::Octal(bytes) => bytes,
        }
    }
}

// How a byte is written that doesn't follow a `?`.
fn of_byte(byte: u8) -> Spelling
    ensures { spelling_bytes result ≡ written (element_for false byte) }
{
    match simple_letter(byte) {
        Some(letter) => Spelling::Simple([b'\\', letter]),
        None => of_other(byte),
    }
}

fn of_other(byte: u8) -> Spelling
    ensures { spelling_bytes result ≡ written (element_by None byte) }
{
    if is_printed(byte) {
        return Spelling::Plain([byte]);
    }
    Spelling::Octal([
        b'\\',
        byte / 64 + b'0',
        byte / 8 % 8 + b'0',
        byte % 8 + b'0',
    ])
}

// The letter of a byte that has a simple escape sequence, except for `'` and `?`.
fn simple_letter(byte: u8) -> Option<u8>
    ensures { result ≡ simple_letter byte }
{
    match byte {
        b'"' => Some(b'"'),
        b'\\' => Some(b'\\'),
        7 => Some(b'a'),
        8 => Some(b'b'),
        b'\t' => Some(b't'),
        b'\n' => Some(b'n'),
        11 => Some(b'v'),
        12 => Some(b'f'),
        b'\r' => Some(b'r'),
        _ => None,
    }
}

fn is_printed(byte: u8) -> bool
    ensures { result ≡ is_printed byte }
{
    matches!(byte, b' '..=b'~' | 128..)
}
