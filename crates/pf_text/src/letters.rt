//! What single bytes of specifications mean (C11 7.21.6.1, paragraphs 4 to 8).
ghost use Rattle.std.specs.Prelude.{◌≡◌};
ghost use Rattle.pf_text.specs.Letters.{flag_of, modifier_of, conv_of, refused_letter};

use pf_values::{Conv, Flag, Length, RefusalKind};

/// Returns the flag that a byte spells, or `None` if it spells none.
pub fn flag_of(byte: u8) -> Option<Flag>
    ensures { result ≡ flag_of byte }
{
    match byte {
        b'-' => Some(Flag::Minus),
        b'+' => Some(Flag::Plus),
        b' ' => Some(Flag::Space),
        b'#' => Some(Flag::Alt),
        b'0' => Some(Flag::Zero),
        b'\'' => Some(Flag::Group),
        _ => None,
    }
}

/// Returns the length modifier of integers that a letter is or begins, or `None` if there is none.
pub fn modifier_of(byte: u8) -> Option<Length>
    ensures { result ≡ modifier_of byte }
{
    match byte {
        b'h' => Some(Length::H),
        b'l' => Some(Length::L),
        b'j' => Some(Length::J),
        b'z' => Some(Length::Z),
        b't' => Some(Length::T),
        _ => None,
    }
}

/// Returns the conversion of the profile that a letter is, or `None` if it isn't one.
pub fn conv_of(byte: u8) -> Option<Conv>
    ensures { result ≡ conv_of byte }
{
    match byte {
        b'd' => Some(Conv::D),
        b'i' => Some(Conv::I),
        b'u' => Some(Conv::U),
        b'o' => Some(Conv::O),
        b'x' => Some(Conv::X),
        b'X' => Some(Conv::UpperX),
        b'b' => Some(Conv::B),
        b'c' => Some(Conv::C),
        b's' => Some(Conv::S),
        _ => None,
    }
}

/// Why a byte is rejected that can't continue a specification, wherever it comes.
pub(crate) fn refused_letter(byte: u8) -> RefusalKind
    ensures { result ≡ refused_letter byte }
{
    match byte {
        0 => RefusalKind::NulByte,
        b'%' => RefusalKind::BadPercent,
        b'a' | b'A' | b'e' | b'E' | b'f' | b'F' | b'g' | b'G' => RefusalKind::Float,
        b'p' => RefusalKind::Pointer,
        b'n' => RefusalKind::Count,
        b'C' | b'S' => RefusalKind::Wide,
        _ => RefusalKind::Unexpected,
    }
}
