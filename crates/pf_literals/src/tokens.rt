//! The token at the front of a text, outside of a literal or in one.
ghost use Rattle.std.specs.Prelude.{◌≡◌, ◌≤◌, ◌<◌, ◌∷◌, [], ◌+◌, not};
ghost use Rattle.pf_literals.specs.Elements.{begins_no_trigraph, ends_trigraph, is_third, simple_byte};
ghost use Rattle.pf_literals.specs.Sources.{is_white};
ghost use Rattle.pf_literals.specs.Tokens.{numeric_at_end, escape_by_letter, escape_token, token_inside, numeric_token, token_outside, finished_numeric, token_at};

use crate::faults::LiteralKind;
use crate::notations::Notation;

/// Where in a source the rest of a text begins.
#[derive(Clone, Copy, Debug, PartialEq, Eq)]
pub(crate) enum Context {
    /// Before the first literal.
    Before,
    /// In a literal.
    Inside,
    /// After a literal, which closed at this byte.
    Behind(usize),
}

/// The token at the front of a text.
#[derive(Clone, Copy, Debug, PartialEq, Eq)]
pub(crate) enum Token {
    /// A byte of white space.
    White,
    /// The quote that opens a literal.
    OpenQuote,
    /// The quote that closes it.
    CloseQuote,
    /// An element of a literal: the byte that it denotes, and how many bytes it has.
    Character(u8, usize),
    /// No token: the kind of the fault, and how many bytes on it is reported.
    Invalid(LiteralKind, usize),
}

/// The token at the front of a text, which has a byte at least.
pub(crate) fn token_at(context: Context, text: &[u8]) -> Token
    ensures { result ≡ token_at context text.now }
{
    match context {
        Context::Before => token_outside(text),
        Context::Inside => token_inside(text),
        Context::Behind(_) => token_outside(text),
    }
}

fn token_outside(text: &[u8]) -> Token
    ensures { result ≡ token_outside text.now }
{
    match text {
        [] => Token::Invalid(LiteralKind::NoLiteral, 0),
        [byte, ..] => outside_byte(*byte),
    }
}

// A byte outside of a literal.
fn outside_byte(byte: u8) -> Token
    ensures { result ≡ token_outside (byte ∷ []) }
{
    if byte == b'"' {
        return Token::OpenQuote;
    }
    if is_white(byte) {
        return Token::White;
    }
    Token::Invalid(LiteralKind::NoLiteral, 0)
}

fn is_white(byte: u8) -> bool
    ensures { result ≡ is_white byte }
{
    matches!(byte, b' ' | b'\t' | b'\n' | 11 | 12 | b'\r')
}

fn token_inside(text: &[u8]) -> Token
    ensures { result ≡ token_inside text.now }
{
    match text {
        [] => Token::Invalid(LiteralKind::Unterminated, 0),
        [byte, rest @ ..] => inside_byte(*byte, rest),
    }
}

// A byte in a literal, and what follows it.
fn inside_byte(byte: u8, rest: &[u8]) -> Token
    ensures { result ≡ token_inside (byte ∷ rest.now) }
{
    match byte {
        b'"' => Token::CloseQuote,
        b'\\' => escape_token(rest),
        b'\n' | b'\r' => Token::Invalid(LiteralKind::Unterminated, 0),
        0 => Token::Invalid(LiteralKind::ZeroByte, 0),
        b'?' => inside_question_mark(rest),
        _ => Token::Character(byte, 1),
    }
}

// A question mark in a literal.
fn inside_question_mark(rest: &[u8]) -> Token
    ensures { result ≡ token_inside (63 ∷ rest.now) }
{
    if ends_trigraph(rest) {
        return Token::Invalid(LiteralKind::Trigraph, 0);
    }
    Token::Character(b'?', 1)
}

// Whether a text makes a trigraph with the `?` before it.
fn ends_trigraph(text: &[u8]) -> bool
    ensures { result ≡ ends_trigraph text.now }
{
    match text {
        [second, third, ..] => *second == b'?' && is_third(*third),
        _ => false,
    }
}

fn is_third(byte: u8) -> bool
    ensures { result ≡ is_third byte }
{
    matches!(
        byte,
        b'=' | b'/' | b'\'' | b'(' | b')' | b'!' | b'<' | b'>' | b'-'
    )
}

// An escape sequence, by what follows its `\`.
fn escape_token(text: &[u8]) -> Token
    ensures { result ≡ escape_token text.now }
{
    match text {
        [] => Token::Invalid(LiteralKind::Unterminated, 1),
        [byte, rest @ ..] => match simple_byte(*byte) {
            Some(value) => simple_escape(*byte, value, rest),
            None => numeric_escape(*byte, text, rest),
        },
    }
}

// A simple escape sequence, by its letter, the byte that it denotes, and what follows it.
fn simple_escape(letter: u8, value: u8, rest: &[u8]) -> Token
    ensures { result ≡ escape_by_letter (Some value) letter rest.now }
{
    if begins_trigraph(letter, rest) {
        return Token::Invalid(LiteralKind::Trigraph, 1);
    }
    Token::Character(value, 2)
}

// Whether a byte begins a trigraph with the text after it.
fn begins_trigraph(byte: u8, rest: &[u8]) -> bool
    ensures { result ≡ not (begins_no_trigraph byte rest.now) }
{
    byte == b'?' && ends_trigraph(rest)
}

// A numeric escape sequence, or one that is invalid, by the byte after the backslash.
fn numeric_escape(byte: u8, text: &[u8], rest: &[u8]) -> Token
    requires { text.now ≡ byte ∷ rest.now }
    ensures { result ≡ escape_by_letter None byte rest.now }
{
    if byte == b'x' {
        return numeric_token(Notation::Hexadecimal, rest);
    }
    numeric_token(Notation::Octal, text)
}

// The byte that a simple escape sequence with this letter denotes.
fn simple_byte(letter: u8) -> Option<u8>
    ensures { result ≡ simple_byte letter }
{
    match letter {
        b'"' => Some(b'"'),
        b'\\' => Some(b'\\'),
        b'\'' => Some(b'\''),
        b'?' => Some(b'?'),
        b'a' => Some(7),
        b'b' => Some(8),
        b't' => Some(9),
        b'n' => Some(10),
        b'v' => Some(11),
        b'f' => Some(12),
        b'r' => Some(13),
        _ => None,
    }
}

// A numeric escape sequence, by its digits and what follows them.
fn numeric_token(notation: Notation, text: &[u8]) -> Token
    ensures { result ≡ numeric_token notation 0 0 text.now }
{
    let mut number: u16 = 0;
    let mut count = 0;
    while count < text.len() {
        if notation.is_full(count) {
            return finished_numeric(notation, count, number);
        }
        match notation.digit(text[count]) {
            None => return finished_numeric(notation, count, number),
            Some(digit) => {
                number = notation.base() * number + digit;
                if number > 255 {
                    return Token::Invalid(LiteralKind::EscapeTooLarge, 0);
                }
                count += 1;
            }
        }
    }
    numeric_at_end(notation, count, number)
}

// A numeric escape sequence with all its digits.
fn finished_numeric(notation: Notation, count: usize, number: u16) -> Token
    requires few { number ≤ 255 }
    requires within { count + 2 < usize.MAX }
    ensures { result ≡ finished_numeric notation count number }
{
    if count == 0 {
        return Token::Invalid(LiteralKind::BadEscape, 0);
    }
    if number == 0 {
        return Token::Invalid(LiteralKind::ZeroByte, 0);
    }
    Token::Character(number as u8, notation.before_digits() + count)
}

// A numeric escape sequence where the text ends after its digits: more could follow.
fn numeric_at_end(notation: Notation, count: usize, number: u16) -> Token
    requires few { number ≤ 255 }
    requires within { count + 2 < usize.MAX }
    ensures { result ≡ numeric_at_end notation count number }
{
    if number != 0 {
        return finished_numeric(notation, count, number);
    }
    if notation.is_full(count) {
        return finished_numeric(notation, count, number);
    }
    Token::Invalid(LiteralKind::Unterminated, notation.before_digits() + count)
}
