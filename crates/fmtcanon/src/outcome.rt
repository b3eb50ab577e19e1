//! How a run ended: its exit status, and its line on standard error.
ghost use Rattle.std.specs.Prelude.{◌≡◌, ◌≤◌, ◌++◌, None, codes, decimal, length};
ghost use Rattle.pf_values.specs.Counting.{Writes};
ghost use Rattle.pf_literals.specs.Kinds as literals;
ghost use Rattle.pf_values.specs.RefusalKinds.{name};
ghost use Rattle.fmtcanon.specs.Faults.{of_comparison, of_literal, of_text};
ghost use Rattle.fmtcanon.specs.Lines.{line};
ghost use Rattle.fmtcanon.specs.Outcomes.{status_of};
ghost use Rattle.fmtcanon.specs.Reports.{WritesReport, fault_words, line_text, literal_words, refusal_words, side_words, report_text};
ghost use Rattle.fmtcanon.specs.declared.outcome.Outcome.TheVariants.{Memory, Refused};

use crate::lines::{Line, line_of, push_number};
use pf_compare::CompareFault;
use pf_literals::{LiteralFault, LiteralKind, LiteralRefusal};
use pf_text::{Refusal, Side, TextFault};
use pf_values::{Counted, RefusalKind, ShortWrite, write_bytes};
use std::alloc::AllocError;
use std::io::Write;

/// How a run ended, or why a question has no answer.
///
/// If something is rejected, invalid or wrong, or memory is out, nothing was written, except the text that `stream`
/// had settled before, and the replies to earlier records.
#[derive(Drop)]
pub enum Outcome {
    /// All was written.
    Done,
    /// All was written; the formats mean the same, or take the same arguments.
    Same,
    /// All was written; the formats differ, in types or in bytes.
    Different,
    /// All records were answered; the highest status of their answers.
    Answered(u8),
    /// A format is rejected.
    Refused {
        /// Which one, where there are two.
        side: Option<Side>,
        /// Why, and where.
        refusal: Refusal,
    },
    /// The literals that give a format are wrong.
    BadLiteral {
        /// Which format, where there are two.
        side: Option<Side>,
        /// What is wrong, and where.
        refusal: LiteralRefusal,
    },
    /// The word with this index gives no argument.
    BadWord(u64),
    /// There are more or fewer arguments than the format takes.
    WrongCount {
        /// How many it takes.
        wanted: u64,
        /// How many there are.
        given: u64,
    },
    /// The argument with this index is not of its type.
    WrongType(u64),
    /// A record is left over that needs a second one, and all before it were answered.
    NoSecond,
    /// The arguments are not a command, or ask for help; this is the text of `clap`.
    Usage(String),
    /// A format is missing, and nothing was written.
    Missing,
    /// Formats are given besides the option `--null`, and nothing was written.
    Misplaced,
    /// A read failed.
    Read,
    /// A write or the flush failed, after this number of bytes.
    Write(u128),
    /// Memory was refused.
    Memory,
}

impl Outcome {
    /// Returns the exit status: 0 if all was written, 1 if formats differ, 2 if a format is rejected or
    /// literals are wrong, 3 for a usage error, an invalid argument or an unpaired record, and 4 if a
    /// device failed or memory was refused. Of records that were answered it is the highest of theirs.
    pub fn status(&self) -> u8
        ensures { result ≡ status_of self.now }
    {
        match self {
            Outcome::Done | Outcome::Same => 0,
            Outcome::Different => 1,
            Outcome::Answered(status) => *status,
            Outcome::Refused { .. } | Outcome::BadLiteral { .. } => 2,
            Outcome::BadWord(_) | Outcome::WrongCount { .. } | Outcome::WrongType(_) => 3,
            Outcome::NoSecond | Outcome::Usage(_) | Outcome::Missing | Outcome::Misplaced => 3,
            Outcome::Read | Outcome::Write(_) | Outcome::Memory => 4,
        }
    }

    /// Returns the refusal of a format, the only one or this one of two.
    pub fn refused(side: Option<Side>, refusal: Refusal) -> Outcome
        ensures { result ≡ Refused side refusal }
    {
        Outcome::Refused { side, refusal }
    }

    /// Returns the fault of literals that give a format, the only one or this one of two.
    pub fn of_literal(side: Option<Side>, fault: LiteralFault) -> Outcome
        ensures { result ≡ of_literal side fault }
    {
        match fault {
            LiteralFault::Refused(refusal) => Outcome::BadLiteral { side, refusal },
            LiteralFault::Memory => Outcome::Memory,
        }
    }
}

impl From<AllocError> for Outcome {
    ghost from_gives = { λ _ outcome. outcome ≡ Memory };

    fn from(_error: AllocError) -> Outcome {
        Outcome::Memory
    }
}

impl From<Refusal> for Outcome {
    ghost from_gives = { λ refusal outcome. outcome ≡ Refused None refusal };

    fn from(refusal: Refusal) -> Outcome {
        Outcome::refused(None, refusal)
    }
}

impl From<TextFault> for Outcome {
    ghost from_gives = { λ error outcome. outcome ≡ of_text error };

    fn from(error: TextFault) -> Outcome {
        match error {
            TextFault::Refused(refusal) => Outcome::refused(None, refusal),
            TextFault::Memory => Outcome::Memory,
        }
    }
}

impl From<CompareFault> for Outcome {
    ghost from_gives = { λ error outcome. outcome ≡ of_comparison error };

    fn from(error: CompareFault) -> Outcome {
        match error {
            CompareFault::Refused(side, refusal) => Outcome::refused(Some(side), refusal),
            CompareFault::Memory => Outcome::Memory,
        }
    }
}

impl From<LiteralFault> for Outcome {
    ghost from_gives = { λ error outcome. outcome ≡ of_literal None error };

    fn from(error: LiteralFault) -> Outcome {
        Outcome::of_literal(None, error)
    }
}

/// Writes the line of an outcome that has one, or a text on the words as it is. A write that fails
/// ends it.
pub fn report<E: Write>(outcome: &Outcome, errors: &mut Counted<E>)
    ensures { WritesReport E.contents errors.old errors.new (report_text outcome.now) }
{
    let _ = write_report(outcome, errors);
}

fn write_report<E: Write>(outcome: &Outcome, errors: &mut Counted<E>) -> Result<(), ShortWrite>
    ensures { Writes E.contents errors.old errors.new (report_text outcome.now) result }
{
    match outcome {
        Outcome::Usage(text) => write_bytes(errors, text.as_bytes()),
        Outcome::Missing => write_bytes(
            errors,
            b"error: a format is missing; give it as an argument, or use '--null'\n\nFor more information, try '--help'.\n",
        ),
        Outcome::Misplaced => write_bytes(
            errors,
            b"error: '--null' takes no formats as arguments\n\nFor more information, try '--help'.\n",
        ),
        _ => write_line(errors, &error_line(outcome)),
    }
}

fn write_line<E: Write>(errors: &mut Counted<E>, line: &Line) -> Result<(), ShortWrite>
    ensures { Writes E.contents errors.old errors.new line.now.bytes result }
{
    write_bytes(errors, line.as_str().as_bytes())
}

/// Returns the line about what failed; no bytes for outcomes that have no line.
pub fn error_line(outcome: &Outcome) -> Line
    ensures { result.bytes ≡ line_text outcome.now }
{
    match outcome {
        Outcome::Refused { side, refusal } => refusal_line(*side, refusal),
        Outcome::BadLiteral { side, refusal } => literal_line(*side, refusal),
        Outcome::BadWord(index) => bad_argument_line(*index, "not an argument"),
        Outcome::WrongCount { wanted, given } => count_line(*wanted, *given),
        Outcome::WrongType(index) => bad_argument_line(*index, "wrong type"),
        Outcome::NoSecond => line_of("a second format is wanted"),
        Outcome::Read => line_of("read failed"),
        Outcome::Write(_) => line_of("write failed"),
        Outcome::Memory => line_of("out of memory"),
        Outcome::Done
        | Outcome::Same
        | Outcome::Different
        | Outcome::Answered(_)
        | Outcome::Usage(_)
        | Outcome::Missing
        | Outcome::Misplaced => Line::new(),
    }
}

fn refusal_line(side: Option<Side>, refusal: &Refusal) -> Line
    ensures { result.bytes ≡ line (refusal_words side refusal.now) }
{
    let number = refusal.kind.number();
    fault_line_of(
        side,
        "refused ",
        number,
        kind_name(refusal.kind),
        refusal.at,
    )
}

fn literal_line(side: Option<Side>, refusal: &LiteralRefusal) -> Line
    ensures { result.bytes ≡ line (literal_words side refusal.now) }
{
    let number = refusal.kind.number();
    fault_line_of(
        side,
        "literal ",
        number,
        literal_name(refusal.kind),
        refusal.at,
    )
}

// The line of what is wrong with a format, or with the literals that give it.
fn fault_line_of(side: Option<Side>, what: &str, number: u8, name: &str, at: u64) -> Line
    requires what { length what.now ≤ 8 }
    requires name { length name.now ≤ 18 }
    ensures { result.bytes ≡ line (fault_words side what.now number name.now at) }
{
    let mut line = Line::new();
    line.push_str(side_name(side));
    line.push_str(what);
    push_number(&mut line, u64::from(number));
    line.push_str(" ");
    line.push_str(name);
    line.push_str(" at byte ");
    push_number(&mut line, at);
    line.push_str("\n");
    line
}

// The line of an argument, with what is wrong with it.
fn bad_argument_line(index: u64, fault: &str) -> Line
    requires { length fault.now ≤ 20 }
    ensures { result.bytes
        ≡ line (codes "argument " ++ decimal index ++ codes ": " ++ fault.now) }
{
    let mut line = Line::new();
    line.push_str("argument ");
    push_number(&mut line, index);
    line.push_str(": ");
    line.push_str(fault);
    line.push_str("\n");
    line
}

fn count_line(wanted: u64, given: u64) -> Line
    ensures { result.bytes
        ≡ line (codes "argument count: wanted " ++ decimal wanted ++ codes ", given "
        ++ decimal given) }
{
    let mut line = Line::new();
    line.push_str("argument count: wanted ");
    push_number(&mut line, wanted);
    line.push_str(", given ");
    push_number(&mut line, given);
    line.push_str("\n");
    line
}

// The words before a refusal, where there are two formats.
fn side_name(side: Option<Side>) -> &'static str
    ensures name { result.now ≡ side_words side }
    ensures short { length result.now ≤ 8 }
{
    match side {
        None => "",
        Some(Side::First) => "first: ",
        Some(Side::Second) => "second: ",
    }
}

fn kind_name(kind: RefusalKind) -> &'static str
    ensures name { result.now ≡ name kind }
    ensures short { length result.now ≤ 18 }
{
    kind.name()
}

fn literal_name(kind: LiteralKind) -> &'static str
    ensures name { result.now ≡ literals.literal_kind_name kind }
    ensures short { length result.now ≤ 18 }
{
    kind.name()
}
