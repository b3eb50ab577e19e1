//! How far the writing of a format has come.
ghost use Rattle.std.specs.Prelude.{◌≡◌, ◌+◌, ◌≤◌, ◌^◌, length, map};
ghost use Rattle.pf_values.specs.meaning.Arguments.{HasTypes};
ghost use Rattle.pf_values.specs.meaning.Items.{types};
ghost use Rattle.pf_values.specs.meaning.Printing.{PrintsAll};
ghost use Rattle.pf_values.specs.meaning.Text.{Text};
ghost use Rattle.pf_render.specs.Outputs.{WritesCounted};
ghost use Rattle.pf_render.specs.FormatParts.{items_of_part};
ghost use Rattle.pf_render.specs.Progressing.{WritesNext, next_arguments};

use crate::arguments::FormatArgument;
use crate::directives::write_argument;
use crate::faults::WriteFault;
use crate::fields::write_counted;
use crate::format_parts::FormatPart;
use crate::outputs::Output;
use pf_values::{Model, ShortWrite};

/// How far the writing of a format has come.
#[derive(Clone, Copy)]
pub(crate) struct Progress {
    /// How many arguments are taken.
    pub(crate) taken: usize,
    /// How many bytes went out.
    pub(crate) written: u128,
}

impl Progress {
    /// Nothing is written.
    pub(crate) fn new() -> Progress
        ensures { (result.taken ≡ 0) × (result.written ≡ 0) }
    {
        Progress {
            taken: 0,
            written: 0,
        }
    }

    /// Writes what a part prints for the arguments that come next.
    pub(crate) fn write<A: FormatArgument, O: Output>(
        &mut self,
        model: Model,
        part: &FormatPart<'_>,
        args: &[A],
        writer: &mut O,
    ) -> Result<(), WriteFault>
        requires few { self.old.written + 2 ^ 64 ≤ 2 ^ 128 }
        requires within { self.old.taken + length (types model (items_of_part part.now)) ≤ length
            args.now }
        requires typed { HasTypes model
            (next_arguments A.argument_of model self.old part.now args.now)
            (types model (items_of_part part.now)) }
        ensures { WritesNext O.wrote O.stopped writer.old writer.new self.old self.new
            A.argument_of model part.now args.now result }
    {
        let end = self.taken + part.argument_count();
        match write_part(model, part, &args[self.taken..end], writer) {
            Ok(count) => {
                self.taken = end;
                self.written += count as u128;
                Ok(())
            }
            Err(short) => Err(WriteFault {
                written: self.written + short.written as u128,
            }),
        }
    }
}

// Writes what a part prints for its own arguments, and returns how many bytes that were.
fn write_part<A: FormatArgument, O: Output>(
    model: Model,
    part: &FormatPart<'_>,
    own: &[A],
    writer: &mut O,
) -> Result<usize, ShortWrite>
    requires typed { HasTypes model (map A.argument_of own.now)
        (types model (items_of_part part.now)) }
    ensures { (out : Text)
        × PrintsAll model (items_of_part part.now) (map A.argument_of own.now) out
        × WritesCounted O.wrote O.stopped writer.old writer.new out result }
{
    match part.directive {
        Some(directive) => write_argument(model, &directive, &own[0], writer),
        None => write_counted(part.literal, writer),
    }
}
