//! Lines on the stack, and what an answer is made of.
ghost use Rattle.std.specs.Prelude.{◌≡◌, ◌≤◌, ◌+◌, ◌++◌, IfOk, codes, decimal, length};
ghost use Rattle.arrayvec.specs.ArrayString.{array_string_len};
ghost use Rattle.fmtcanon.specs.Lines.{line, output_bytes};

use arrayvec::ArrayString;
use itoa::Buffer;
use std::alloc::AllocError;

/// A line. One of the longest is `second: refused 16 PrecisionUndefined at byte
/// 18446744073709551615`.
pub type Line = ArrayString<96>;

/// The bytes of an answer.
#[derive(Drop)]
pub enum AnswerBytes {
    /// A line on the stack, so that memory can't be refused for it.
    Line(Line),
    /// Bytes in memory.
    Bytes(Vec<u8>),
}

impl AnswerBytes {
    /// Returns the bytes.
    pub fn as_bytes(&self) -> &[u8]
        ensures { result.now ≡ output_bytes self.now }
    {
        match self {
            AnswerBytes::Line(line) => line.as_str().as_bytes(),
            AnswerBytes::Bytes(bytes) => bytes.as_slice(),
        }
    }
}

/// Adds the decimal digits of a number.
pub(crate) fn push_number(line: &mut Line, number: u64)
    requires { array_string_len line.old + 20 ≤ 96 }
    ensures bytes { line.new.bytes ≡ line.old.bytes ++ decimal number }
    ensures len { array_string_len line.new ≤ array_string_len line.old + 20 }
{
    let mut digits = Buffer::new();
    line.push_str(digits.format(number));
}

/// Returns the line of the first argument at which types differ, or with which a call begins that only one
/// of the formats makes: `what` differs there.
pub fn difference_line(what: &str, index: u64) -> Line
    requires { length what.now ≤ 10 }
    ensures { result.bytes ≡ line (what.now ++ codes " differ at argument " ++ decimal index) }
{
    let mut line = Line::new();
    line.push_str(what);
    line.push_str(" differ at argument ");
    push_number(&mut line, index);
    line.push_str("\n");
    line
}

/// Returns a text as a line.
pub fn line_of(text: &str) -> Line
    requires { length text.now ≤ 30 }
    ensures { result.bytes ≡ line text.now }
{
    let mut line = Line::new();
    line.push_str(text);
    line.push_str("\n");
    line
}

/// Adds the decimal digits of a number to bytes in memory.
pub(crate) fn push_decimal(out: &mut Vec<u8>, number: u128) -> Result<(), AllocError>
    ensures { IfOk result (λ _. out.new.items ≡ out.old.items ++ decimal number) }
{
    let mut digits = Buffer::new();
    out.extend_from_slice(digits.format(number).as_bytes())
}

/// Adds a text as a line.
#[inline(always)]
pub(crate) fn push_line(out: &mut Vec<u8>, text: &str) -> Result<(), AllocError>
    ensures { IfOk result (λ _. out.new.items ≡ out.old.items ++ line text.now) }
{
    out.extend_from_slice(text.as_bytes())?;
    out.push(b'\n')?;
    Ok(())
}
