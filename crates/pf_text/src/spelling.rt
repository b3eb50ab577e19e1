//! How directives are spelled.
ghost use Rattle.std.specs.Prelude.{◌≡◌, ◌≤◌, ◌<◌, ◌+◌, ◌++◌, ◌∷◌, [], false, decimal, length};
ghost use Rattle.arrayvec.specs.ArrayVec.{array_vec_len};
ghost use Rattle.pf_values.specs.meaning.Defined.{is_above_limit};
ghost use Rattle.pf_values.specs.meaning.Lengths.{length_letters};
ghost use Rattle.pf_values.specs.meaning.Spelling.{flags_spelled, precision_spelled, spelling_of, width_spelled};
ghost use Rattle.pf_text.specs.Letters.{flags_kept};

use arrayvec::ArrayVec;
use pf_values::{Directive, Flag, FlagSet, Length};

/// The bytes of a spelling.
pub type Spelling = ArrayVec<u8, 20>;

/// Returns the spelling of a directive: each flag once, in the order `-`, `+`, space, `#`, `0`,
/// `'`, and numbers without zeros in front. A precision of 0 is `.0`. One of the longest is `%-+
/// 0'4095.4095lld`.
pub fn spell(directive: &Directive) -> Spelling
    ensures bytes { result.items ≡ spelling_of directive.now }
    ensures short { array_vec_len result ≤ 18 }
{
    let mut out = ArrayVec::new();
    out.push(b'%');
    push_flags(&mut out, directive.flags());
    push_width(&mut out, directive.width());
    push_precision(&mut out, directive.precision());
    push_letters(&mut out, directive.length());
    out.push(directive.conv().letter());
    out
}

/// Appends the bytes that spell flags, each once and in the order of `spell`.
pub fn push_flags<const N: usize>(out: &mut ArrayVec<u8, N>, flags: FlagSet)
    requires { array_vec_len out.old + 6 ≤ N }
    ensures bytes { out.new.items ≡ out.old.items ++ flags_spelled flags }
    ensures len { array_vec_len out.new ≤ array_vec_len out.old + 6 }
{
    for flag in Flag::ALL {
        push_flag(out, flags, flag);
    }
}

fn push_flag<const N: usize>(out: &mut ArrayVec<u8, N>, flags: FlagSet, flag: Flag)
    requires { array_vec_len out.old < N }
    ensures { out.new.items ≡ out.old.items ++ flags_kept flags (flag ∷ []) }
{
    if flags.has(flag) {
        out.push(flag.byte());
    }
}

fn push_width(out: &mut Spelling, width: Option<u16>)
    requires small { is_above_limit width ≡ false }
    requires room { array_vec_len out.old + 4 ≤ 20 }
    ensures bytes { out.new.items ≡ out.old.items ++ width_spelled width }
    ensures len { array_vec_len out.new ≤ array_vec_len out.old + 4 }
{
    if let Some(width) = width {
        push_number(out, width);
    }
}

fn push_precision(out: &mut Spelling, precision: Option<u16>)
    requires small { is_above_limit precision ≡ false }
    requires room { array_vec_len out.old + 5 ≤ 20 }
    ensures bytes { out.new.items ≡ out.old.items ++ precision_spelled precision }
    ensures len { array_vec_len out.new ≤ array_vec_len out.old + 5 }
{
    if let Some(precision) = precision {
        out.push(b'.');
        push_number(out, precision);
    }
}

/// Appends the digits of a number in base ten, without zeros in front.
pub fn push_number(out: &mut Spelling, number: u16)
    requires { array_vec_len out.old + length (decimal number) ≤ 20 }
    ensures { out.new.items ≡ out.old.items ++ decimal number }
{
    if number < 10 {
        out.push(b'0' + number as u8);
        return;
    }
    push_number(out, number / 10);
    out.push(b'0' + (number % 10) as u8);
}

fn push_letters(out: &mut Spelling, length: Length)
    requires { array_vec_len out.old + 2 ≤ 20 }
    ensures bytes { out.new.items ≡ out.old.items ++ length_letters length }
    ensures len { array_vec_len out.new ≤ array_vec_len out.old + 2 }
{
    let letters = length.letters();
    if letters.is_empty() {
        return;
    }
    out.push(letters[0]);
    if letters.len() > 1 {
        out.push(letters[1]);
    }
}
