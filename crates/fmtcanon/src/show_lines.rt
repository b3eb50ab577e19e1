//! The parts of a format, a line for each.
ghost use Rattle.std.specs.Prelude.{◌≡◌, ◌++◌, IfOk, MatchResult, codes, decimal};
ghost use Rattle.pf_reduce.specs.Reducing.{IsReducedTo, core_of};
ghost use Rattle.pf_reduce.specs.declared.results.Reduced.{Reduced};
ghost use Rattle.pf_values.specs.meaning.DataModel.{arg_type};
ghost use Rattle.pf_values.specs.meaning.Spelling.{spelling_of};
ghost use Rattle.pf_values.specs.meaning.Text.{Text};
ghost use Rattle.fmtcanon.specs.Answers.{IsFormatFault};
ghost use Rattle.pf_whole.specs.Languages.{Profile};
ghost use Rattle.fmtcanon.specs.Lines.{line};
ghost use Rattle.fmtcanon.specs.Shows.{HasShownLines, IsLineOf, reduced_line, reduced_text, shown_of};
ghost use Rattle.fmtcanon.specs.TypeLines.{type_name};

use crate::lines::push_decimal;
use crate::outcome::Outcome;
use crate::type_lines::type_name;
use pf_reduce::{Core, Reduced, reduce};
use pf_text::{Piece, Pieces, check, spell};
use pf_values::{Directive, Model};
use std::alloc::{AllocError, Global};

/// Returns a line for each run of literal bytes, each `%%` and each directive of a format in a data
/// model. `Err` if the format or memory is refused.
pub fn show_lines(alloc: Global, model: Model, format: &[u8]) -> Result<Vec<u8>, Outcome>
    ensures { MatchResult result (λ out. HasShownLines model format.now out.items)
        (IsFormatFault Profile model format.now) }
{
    check(format)?;
    let mut out = Vec::new(alloc);
    for piece in Pieces::new(format) {
        let piece = match piece {
            Ok(piece) => piece,
            Err(refusal) => return Err(Outcome::Refused {
                side: None,
                refusal,
            }),
        };
        if push_piece(&mut out, model, piece).is_err() {
            return Err(Outcome::Memory);
        }
    }
    Ok(out)
}

fn push_piece(out: &mut Vec<u8>, model: Model, piece: Piece<'_>) -> Result<(), AllocError>
    ensures { IfOk result (λ _.
        (part : Text) × IsLineOf model (shown_of piece.entry) part
        × (out.new.items ≡ out.old.items ++ part)) }
{
    match piece {
        Piece::Literal(run) => push_run(out, run.len()),
        Piece::Percent => out.extend_from_slice(b"percent\n"),
        Piece::Directive(directive) => push_directive(out, model, &directive),
    }
}

// Adds the line of a run of `len` bytes.
fn push_run(out: &mut Vec<u8>, len: usize) -> Result<(), AllocError>
    ensures { IfOk result
        (λ _. out.new.items ≡ out.old.items ++ line (codes "text " ++ decimal len)) }
{
    out.extend_from_slice(b"text ")?;
    push_decimal(out, len as u128)?;
    out.push(b'\n')?;
    Ok(())
}

fn push_directive(out: &mut Vec<u8>, model: Model, directive: &Directive) -> Result<(), AllocError>
    ensures { IfOk result (λ _.
        (r : Reduced) × IsReducedTo model directive.now r
        × (out.new.items ≡ out.old.items ++ reduced_line model directive.now r)) }
{
    push_front(out, model, directive)?;
    push_reduced(out, reduce(model, directive))?;
    out.push(b'\n')?;
    Ok(())
}

// The spelling of a directive, and its type.
fn push_front(out: &mut Vec<u8>, model: Model, directive: &Directive) -> Result<(), AllocError>
    ensures { IfOk result (λ _.
        out.new.items ≡ out.old.items ++ codes "directive " ++ spelling_of directive.now
        ++ codes ": " ++ type_name (arg_type model directive.now) ++ codes ": ") }
{
    out.extend_from_slice(b"directive ")?;
    out.extend_from_slice(&spell(directive))?;
    out.extend_from_slice(b": ")?;
    out.extend_from_slice(type_name(directive.arg_type(model)).as_bytes())?;
    out.extend_from_slice(b": ")
}

// The counts of a reduction, and its core between them.
fn push_reduced(out: &mut Vec<u8>, reduced: Reduced) -> Result<(), AllocError>
    ensures { IfOk result (λ _. out.new.items ≡ out.old.items ++ reduced_text reduced) }
{
    let Reduced {
        spaces,
        zeros,
        core,
        trail,
    } = reduced;
    push_padding(out, spaces, zeros)?;
    push_core(out, core)?;
    out.push(b' ')?;
    push_decimal(out, u128::from(trail))
}

// The padding before a core.
fn push_padding(out: &mut Vec<u8>, spaces: u16, zeros: u16) -> Result<(), AllocError>
    ensures { IfOk result (λ _.
        out.new.items
        ≡ out.old.items ++ (decimal spaces ++ codes " " ++ decimal zeros ++ codes " ")) }
{
    push_decimal(out, u128::from(spaces))?;
    out.push(b' ')?;
    push_decimal(out, u128::from(zeros))?;
    out.push(b' ')?;
    Ok(())
}

fn push_core(out: &mut Vec<u8>, core: Core) -> Result<(), AllocError>
    ensures { IfOk result (λ _. out.new.items ≡ out.old.items ++ spelling_of (core_of core)) }
{
    match core {
        Core::Normal(normal) => out.extend_from_slice(&spell(&normal.directive())),
        Core::Silent => out.extend_from_slice(b"%.0s"),
    }
}
