//! What formats print for neutral arguments, and the span of each directive in that.
ghost use Rattle.std.specs.Prelude.{◌≡◌, [], ◌++◌, IfOk, List, length, ℕ};
ghost use Rattle.pf_values.specs.Arg.{argument_of, bytes_of, type_of};
ghost use Rattle.pf_values.specs.meaning.Arguments.{HasType};
ghost use Rattle.pf_values.specs.Candidates.{neutral};
ghost use Rattle.pf_values.specs.meaning.DataModel.{arg_type};
ghost use Rattle.pf_values.specs.meaning.Items.{IsAccepted, Item, Reads, types};
ghost use Rattle.pf_values.specs.meaning.Printing.{Prints};
ghost use Rattle.pf_values.specs.meaning.Text.{Text};
ghost use Rattle.pf_text.specs.PieceHistory.{items_of};
ghost use Rattle.pf_compare.specs.Spans.{HaveGivenSpans, IsNextSpan, PrintsNeutral};
ghost use Rattle.pf_compare.specs.Witnesses.{AddsConverted, AreConverted, AreNeutral, BeginsWith};

use crate::owned_args::OwnedArg;
use pf_render::render_one;
use pf_text::{Piece, Pieces};
use pf_values::{Arg, ArgType, CBytes, Counted, Directive, Model};
use std::alloc::{AllocError, Global};

// Most directives print no more bytes.
const USUAL_WIDTH: usize = 24;

/// What an accepted format prints for neutral arguments.
pub(crate) fn neutral_text(alloc: Global, model: Model, text: &[u8]) -> Result<Vec<u8>, AllocError>
    requires { IsAccepted text.now }
    ensures { IfOk result (λ bytes. (items : List Item) → Reads text.now items
        → PrintsNeutral model items bytes.items) }
{
    let mut bytes = Vec::with_capacity(alloc, text.len().saturating_add(USUAL_WIDTH))?;
    for piece in Pieces::new(text) {
        match piece {
            Ok(piece) => bytes = print_piece(bytes, model, &piece)?,
            Err(_) => unreachable!(),
        }
    }
    Ok(bytes)
}

// Some bytes, and after them what a piece prints for a neutral argument.
fn print_piece(bytes: Vec<u8>, model: Model, piece: &Piece<'_>) -> Result<Vec<u8>, AllocError>
    ensures { IfOk result (λ all. (printed : Text)
        × PrintsNeutral model (items_of piece.now) printed
        × (all.items ≡ bytes.items ++ printed)) }
{
    match piece {
        Piece::Literal(literal) => with_bytes(bytes, literal),
        Piece::Percent => with_bytes(bytes, b"%"),
        Piece::Directive(directive) => {
            print_after(
                bytes,
                model,
                directive,
                neutral_arg(directive.arg_type(model)),
            )
        }
    }
}

fn with_bytes(bytes: Vec<u8>, more: &[u8]) -> Result<Vec<u8>, AllocError>
    ensures { IfOk result (λ all. all.items ≡ bytes.items ++ more.now) }
{
    let mut bytes = bytes;
    bytes.extend_from_slice(more)?;
    Ok(bytes)
}

/// A directive, and the span of bytes that it prints: from `start` up to `end`.
#[derive(Clone, Copy)]
pub(crate) struct PrintedSpan {
    pub(crate) directive: Directive,
    pub(crate) start: usize,
    pub(crate) end: usize,
}

/// The spans of the directives of a format in what it prints for neutral arguments, in order.
#[derive(Drop)]
pub(crate) struct Spans<'a> {
    pieces: Pieces<'a>,
    // How many bytes the pieces so far print.
    end: usize,
}

impl<'a> Spans<'a> {
    /// All spans of a format.
    pub(crate) fn new(text: &'a [u8]) -> Spans<'a>
        ensures { (model : Model) → HaveGivenSpans model result text.now 0 }
    {
        Spans {
            pieces: Pieces::new(text),
            end: 0,
        }
    }

    /// The next span of an accepted format, if one comes.
    pub(crate) fn next(
        &mut self,
        alloc: Global,
        model: Model,
    ) -> Result<Option<PrintedSpan>, AllocError>
        ensures { IfOk result (λ found. (t : Text) (count : ℕ)
            → IsAccepted t → HaveGivenSpans model self.old t count
            → IsNextSpan model self.new t count found) }
    {
        while let Some(piece) = self.pieces.next() {
            if let Ok(piece) = piece {
                let start = self.end;
                self.end = start.saturating_add(neutral_len(alloc, model, &piece)?);
                if let Piece::Directive(directive) = piece {
                    return Ok(Some(PrintedSpan {
                        directive,
                        start,
                        end: self.end,
                    }));
                }
            }
        }
        Ok(None)
    }
}

// How many bytes a piece prints for a neutral argument.
fn neutral_len(alloc: Global, model: Model, piece: &Piece<'_>) -> Result<usize, AllocError>
    ensures { IfOk result (λ len. (printed : Text)
        × PrintsNeutral model (items_of piece.now) printed × (len ≡ length printed)) }
{
    match piece {
        Piece::Literal(literal) => Ok(literal.len()),
        Piece::Percent => Ok(1),
        Piece::Directive(directive) => {
            let argument = neutral_arg(directive.arg_type(model));
            Ok(print(alloc, model, directive, argument)?.len())
        }
    }
}

// The neutral argument of a type.
#[inline(always)]
fn neutral_arg(arg_type: ArgType) -> Arg<'static>
    ensures value { argument_of result ≡ neutral arg_type }
    ensures arg_type { type_of result ≡ arg_type }
{
    match arg_type {
        ArgType::Int => Arg::Int(0),
        ArgType::UInt => Arg::UInt(0),
        ArgType::Long => Arg::Long(0),
        ArgType::ULong => Arg::ULong(0),
        ArgType::LongLong => Arg::LongLong(0),
        ArgType::ULongLong => Arg::ULongLong(0),
        ArgType::Str => Arg::Str(no_bytes()),
    }
}

fn no_bytes() -> CBytes<'static>
    ensures { bytes_of result ≡ [] }
{
    match CBytes::new(b"") {
        Some(bytes) => bytes,
        None => unreachable!(),
    }
}

/// Returns the neutral arguments of an accepted format: 0 for each number, and empty strings. `Err`
/// if memory is refused, which it may be for any format.
pub fn neutrals_of<T: From<OwnedArg> + Drop>(
    alloc: Global,
    model: Model,
    text: &[u8],
) -> Result<Vec<T>, AllocError>
    requires { IsAccepted text.now }
    ensures { IfOk result (λ args. (items : List Item) → Reads text.now items
        → AreConverted T.from_gives (AreNeutral (types model items)) args.items) }
{
    let mut args = Vec::with_capacity(alloc, argument_count(text))?;
    push_neutrals(model, text, &mut args)?;
    Ok(args)
}

// How many arguments a text takes, up to where it is rejected.
fn argument_count(text: &[u8]) -> usize {
    let mut count: usize = 0;
    for piece in Pieces::new(text) {
        if let Ok(Piece::Directive(_)) = piece {
            count = count.saturating_add(1);
        }
    }
    count
}

/// Puts the neutral arguments of an accepted format after what `args` has. `Err` if memory is refused: then some of
/// them may be there.
pub fn push_neutrals<T: From<OwnedArg> + Drop>(
    model: Model,
    text: &[u8],
    args: &mut Vec<T>,
) -> Result<(), AllocError>
    requires { IsAccepted text.now }
    ensures added { IfOk result (λ _. (items : List Item) → Reads text.now items
        → AddsConverted T.from_gives (AreNeutral (types model items)) args.old.items args.new.items) }
    ensures kept { BeginsWith args.old.items args.new.items }
{
    for piece in Pieces::new(text) {
        match piece {
            Ok(piece) => push_neutral(model, &piece, args)?,
            Err(_) => unreachable!(),
        }
    }
    Ok(())
}

fn push_neutral<T: From<OwnedArg> + Drop>(
    model: Model,
    piece: &Piece<'_>,
    args: &mut Vec<T>,
) -> Result<(), AllocError>
    ensures added { IfOk result (λ _. AddsConverted T.from_gives
        (AreNeutral (types model (items_of piece.now))) args.old.items args.new.items) }
    ensures kept { BeginsWith args.old.items args.new.items }
{
    match piece.arg_type(model) {
        Some(arg_type) => {
            args.push(T::from(OwnedArg::neutral(arg_type)))?;
            Ok(())
        }
        None => Ok(()),
    }
}

/// What a directive prints for an argument of its type.
pub(crate) fn print(
    alloc: Global,
    model: Model,
    directive: &Directive,
    argument: Arg<'_>,
) -> Result<Vec<u8>, AllocError>
    requires { HasType model (argument_of argument) (arg_type model directive.now) }
    ensures { IfOk result
        (λ bytes. Prints model directive.now (argument_of argument.entry) bytes.items) }
{
    print_after(
        Vec::with_capacity(alloc, USUAL_WIDTH)?,
        model,
        directive,
        argument,
    )
}

// Some bytes, and after them what a directive prints for an argument of its type.
fn print_after(
    bytes: Vec<u8>,
    model: Model,
    directive: &Directive,
    argument: Arg<'_>,
) -> Result<Vec<u8>, AllocError>
    requires { HasType model (argument_of argument) (arg_type model directive.now) }
    ensures { IfOk result (λ all.
        (printed : Text) × Prints model directive.now (argument_of argument.entry) printed
        × (all.items ≡ bytes.items ++ printed)) }
{
    let mut writer = Counted::new(bytes);
    match render_one(model, directive, argument, &mut writer) {
        Ok(()) => Ok(writer.into_inner()),
        Err(_) => Err(AllocError),
    }
}
