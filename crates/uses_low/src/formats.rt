//! Callers that find the refusal of a format, ask whether it takes an argument, and print a line by one.
ghost use Rattle.std.specs.Prelude.{◌≡◌, ℕ, IfNone, IfSome, IsTrue, List, [], ◌∷◌, codes};
ghost use Rattle.pf_values.specs.declared.refusals.RefusalKind.{RefusalKind};
ghost use Rattle.pf_values.specs.meaning.Items.{HasItems, IsAccepted, Item, types};
ghost use Rattle.pf_values.specs.meaning.Refusals.{IsRefusedAt};
ghost use Rattle.pf_values.specs.declared.arguments.Arg.TheVariants as args;
ghost use Rattle.pf_values.specs.declared.models.Model.TheVariants.{Lp64};
ghost use Rattle.pf_render.specs.Rendering.{RendersInto};

use pf_render::{RenderFault, render};
use pf_text::laws::{reads_once, refused_once};
use pf_text::{Refusal, check, signature};
use pf_values::{Arg, Counted, Model};
use std::alloc::Global;
use std::io::Write;

/// Returns the byte at which a format is rejected, for an editor that marks it, or `None` if it is
/// accepted.
pub fn fault_at(format: &[u8]) -> Option<u64>
    ensures accepted { IfNone result (IsAccepted format.now) }
    ensures refused { IfSome result (λ at. (kind : RefusalKind) × IsRefusedAt format.now kind at) }
{
    match check(format) {
        Ok(()) => None,
        Err(refusal) => Some(refusal.at),
    }
}

/// Returns why and where a format is rejected: for no other reason, and at no other byte. `None` if it is
/// accepted.
pub fn refusal_of(format: &[u8]) -> Option<Refusal>
    ensures { IfSome result (λ refusal. (kind : RefusalKind) (at : ℕ) → IsRefusedAt format.now kind at
        → (kind ≡ refusal.kind) × (at ≡ refusal.at)) }
{
    refused_once();
    match check(format) {
        Ok(()) => None,
        Err(refusal) => Some(refusal),
    }
}

/// Returns whether a format takes no argument, as whatever items it is read. False for a rejected format, and
/// if out of memory.
pub fn takes_none(alloc: Global, model: Model, format: &[u8]) -> bool
    ensures { IsTrue result → (items : List Item) → HasItems format.now items
        → types model items ≡ [] }
{
    reads_once();
    let Ok(signature) = signature(alloc, model, format) else {
        return false;
    };
    matches!(signature.as_slice(), [])
}

/// Writes how many files there are. If `Ok`, all was written and no call of the writer failed; if
/// `Err(Write(n))`, exactly the first n bytes were.
pub fn print_count<W: Write>(count: i32, writer: &mut Counted<W>) -> Result<(), RenderFault>
    ensures { RendersInto Lp64 W.contents writer.old writer.new
        (codes "%d files") (args.Int count ∷ []) result }
{
    render(Model::Lp64, b"%d files", &[Arg::Int(count)], writer)
}
