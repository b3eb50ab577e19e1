//! How much of an item has been read, and what one more byte adds.
ghost use Rattle.std.specs.Prelude.{◌≡◌, ◌<◌, ◌↔◌, ℕ, IsTrue, MatchResult, Ok, Err};
ghost use Rattle.pf_text.specs.declared.scanner.Step.TheVariants as steps;
ghost use Rattle.pf_text.specs.Moves.{judged_parts, next_by};
ghost use Rattle.pf_text.specs.Stages.{Between, state_of};
ghost use Rattle.pf_text.specs.States.{next, after_flags, after_modifier, after_number, end_at, width_with, precision_with};

use crate::letters::{conv_of, flag_of, modifier_of, refused_letter};
use pf_values::limits::MAX_NUMBER;
use pf_values::{Conv, Directive, FlagSet, Length, RefusalKind};

/// How much of an item has been read.
#[derive(Clone, Copy, Debug)]
pub(crate) enum Phase {
    /// Nothing.
    Between,
    /// The opening `%`.
    Opened,
    /// `%` and at least one flag.
    Flags,
    /// `%`, flags and digits of a width.
    Width,
    /// All up to the `.` of a precision.
    Point,
    /// All up to digits of a precision.
    Precision,
    /// All up to letters of a modifier.
    Modifier,
}

/// What one more byte is, as in `Step`. It holds no directive, so that it fits into a register.
#[derive(Clone, Copy, Debug)]
pub(crate) enum Move {
    /// The byte is inside a specification.
    More,
    /// The byte is a literal one.
    Byte,
    /// The end of `%%`.
    Percent,
    /// The conversion of a specification, whose directive is still to be made.
    Ended,
}

/// What has been read of an item, in fields that are changed in place. In each phase only some of
/// them count.
#[derive(Clone, Copy, Debug)]
pub(crate) struct Automaton {
    phase: Phase,
    flags: FlagSet,
    /// The digits so far of a width or of a precision.
    number: u16,
    width: Option<u16>,
    precision: Option<u16>,
    modifier: Length,
    conv: Conv,
}

impl Automaton {
    /// Nothing has been read.
    pub(crate) fn new() -> Automaton
        ensures { state_of result ≡ Between }
    {
        Automaton {
            phase: Phase::Between,
            flags: FlagSet::empty(),
            number: 0,
            width: None,
            precision: None,
            modifier: Length::None,
            conv: Conv::D,
        }
    }

    /// Whether nothing of an item has been read.
    pub(crate) fn is_between(&self) -> bool
        ensures { IsTrue result ↔ (state_of self.now ≡ Between) }
    {
        matches!(self.phase, Phase::Between)
    }

    /// Takes one more byte. After a refusal the state means nothing.
    #[inline(always)]
    pub(crate) fn step(&mut self, byte: u8) -> Result<Move, RefusalKind>
        ensures { next_by result byte self.new ≡ next (state_of self.old) byte }
    {
        match self.phase {
            Phase::Between => match byte {
                0 => Err(RefusalKind::NulByte),
                b'%' => {
                    self.phase = Phase::Opened;
                    Ok(Move::More)
                }
                _ => Ok(Move::Byte),
            },
            Phase::Opened => match byte {
                b'%' => {
                    self.phase = Phase::Between;
                    Ok(Move::Percent)
                }
                _ => {
                    self.flags = FlagSet::empty();
                    self.after_flags(byte)
                }
            },
            Phase::Flags => self.after_flags(byte),
            Phase::Width => match byte {
                b'0'..=b'9' => self.width_with(byte - b'0'),
                b'.' => {
                    self.width = Some(self.number);
                    self.phase = Phase::Point;
                    Ok(Move::More)
                }
                b'$' => Err(RefusalKind::Numbered),
                _ => {
                    self.width = Some(self.number);
                    self.precision = None;
                    self.after_number(byte)
                }
            },
            Phase::Point => match byte {
                b'0'..=b'9' => {
                    self.number = 0;
                    self.precision_with(byte - b'0')
                }
                b'*' => Err(RefusalKind::Star),
                _ => {
                    self.precision = Some(0);
                    self.after_number(byte)
                }
            },
            Phase::Precision => match byte {
                b'0'..=b'9' => self.precision_with(byte - b'0'),
                _ => {
                    self.precision = Some(self.number);
                    self.after_number(byte)
                }
            },
            Phase::Modifier => self.after_modifier(byte),
        }
    }

    #[inline(always)]
    fn after_flags(&mut self, byte: u8) -> Result<Move, RefusalKind>
        ensures { next_by result byte self.new ≡ after_flags self.old.flags byte }
    {
        if let Some(flag) = flag_of(byte) {
            self.flags = self.flags.with(flag);
            self.phase = Phase::Flags;
            return Ok(Move::More);
        }
        match byte {
            b'1'..=b'9' => {
                self.number = u16::from(byte - b'0');
                self.phase = Phase::Width;
                Ok(Move::More)
            }
            b'.' => {
                self.width = None;
                self.phase = Phase::Point;
                Ok(Move::More)
            }
            b'*' => Err(RefusalKind::Star),
            _ => {
                self.width = None;
                self.precision = None;
                self.after_number(byte)
            }
        }
    }

    #[inline(always)]
    fn width_with(&mut self, digit: u8) -> Result<Move, RefusalKind>
        requires { digit < 10 }
        ensures { (byte : ℕ)
            → next_by result byte self.new ≡ width_with self.old.flags self.old.number digit }
    {
        let wider = 10 * u32::from(self.number) + u32::from(digit);
        if wider > u32::from(MAX_NUMBER) {
            return Err(RefusalKind::WidthTooLarge);
        }
        self.number = wider as u16;
        self.phase = Phase::Width;
        Ok(Move::More)
    }

    #[inline(always)]
    fn precision_with(&mut self, digit: u8) -> Result<Move, RefusalKind>
        requires { digit < 10 }
        ensures { (byte : ℕ) → next_by result byte self.new
            ≡ precision_with self.old.flags self.old.width self.old.number digit }
    {
        let wider = 10 * u32::from(self.number) + u32::from(digit);
        if wider > u32::from(MAX_NUMBER) {
            return Err(RefusalKind::PrecisionTooLarge);
        }
        self.number = wider as u16;
        self.phase = Phase::Precision;
        Ok(Move::More)
    }

    /// After the numbers a modifier may begin, or the specification ends.
    #[inline(always)]
    fn after_number(&mut self, byte: u8) -> Result<Move, RefusalKind>
        ensures { next_by result byte self.new
            ≡ after_number self.old.flags self.old.width self.old.precision byte }
    {
        if let Some(modifier) = modifier_of(byte) {
            self.modifier = modifier;
            self.phase = Phase::Modifier;
            return Ok(Move::More);
        }
        if byte == b'L' {
            return Err(RefusalKind::Float);
        }
        self.modifier = Length::None;
        self.end_at(byte)
    }

    /// A second letter of a modifier, or the end.
    #[inline(always)]
    fn after_modifier(&mut self, byte: u8) -> Result<Move, RefusalKind>
        ensures { next_by result byte self.new ≡ after_modifier
            self.old.flags self.old.width self.old.precision self.old.modifier byte }
    {
        match (self.modifier, byte) {
            (Length::H, b'h') => {
                self.modifier = Length::Hh;
                self.phase = Phase::Modifier;
                Ok(Move::More)
            }
            (Length::L, b'l') => {
                self.modifier = Length::Ll;
                self.phase = Phase::Modifier;
                Ok(Move::More)
            }
            _ => self.end_at(byte),
        }
    }

    /// The specification ends, or the byte is rejected.
    #[inline(always)]
    fn end_at(&mut self, byte: u8) -> Result<Move, RefusalKind>
        ensures { next_by result byte self.new
            ≡ end_at self.old.flags self.old.width self.old.precision self.old.modifier byte }
    {
        match conv_of(byte) {
            Some(conv) => {
                self.conv = conv;
                Ok(Move::Ended)
            }
            None => Err(refused_letter(byte)),
        }
    }

    /// The directive that has ended. The next byte begins another item.
    #[inline(always)]
    pub(crate) fn directive(&mut self) -> Result<Directive, RefusalKind>
        ensures { MatchResult result
            (λ d. judged_parts self.old ≡ Ok (state_of self.new, steps.Directive d))
            (λ kind. judged_parts self.old ≡ Err kind) }
    {
        self.phase = Phase::Between;
        Directive::new(
            self.flags,
            self.width,
            self.precision,
            self.modifier,
            self.conv,
        )
    }
}
