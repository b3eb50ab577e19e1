//! Whether the arguments that are given are those that a format takes.
ghost use Rattle.std.specs.Prelude.{◌≡◌, ◌≤◌, ◌++◌, ◌∷◌, [], List, IsTrue, IsFalse, MatchResult};
ghost use Rattle.pf_values.specs.declared.limits.TheConstants.{MAX_TEXT_LEN};
ghost use Rattle.pf_values.specs.declared.models.Model.{Model};
ghost use Rattle.pf_values.specs.declared.types.ArgType.{ArgType};
ghost use Rattle.pf_values.specs.meaning.Text.{Text};
ghost use Rattle.pf_text.specs.Signatures.{TakesTypes};
ghost use Rattle.pf_render.specs.Matching.{IsOfTypeAt, TakesArguments, HasChecked};
ghost use Rattle.pf_render.specs.Rendering.{FaultForRenderBy};

use crate::arguments::FormatArgument;
use crate::faults::RenderFault;
use pf_text::{Piece, Pieces};
use pf_values::{ArgType, Model};

/// Whether the text is a format that takes these arguments.
#[inline(never)]
pub(crate) fn check_arguments<A: FormatArgument>(
    model: Model,
    text: &[u8],
    args: &[A],
) -> Result<(), RenderFault>
    ensures { MatchResult result
        (λ _. TakesArguments A.type_of A.argument_of model text.now args.now)
        (FaultForRenderBy A.type_of A.argument_of model text.now args.now) }
{
    let mut check = ArgumentCheck {
        wanted: 0,
        matched: 0,
    };
    for piece in Pieces::new(text) {
        let piece = match piece {
            Ok(piece) => piece,
            Err(refusal) => return Err(RenderFault::Refused(refusal)),
        };
        if let Piece::Directive(directive) = piece {
            check = check.with_next(model, directive.arg_type(model), args);
        }
    }
    check.conclude(args)
}

// How many arguments the directives so far take (`wanted`), and how many of the given arguments
// have the expected types, up to the first one that has another (`matched`).
#[derive(Clone, Copy)]
struct ArgumentCheck {
    wanted: usize,
    matched: usize,
}

impl ArgumentCheck {
    // The check after one more directive, which takes an argument of this type.
    fn with_next<A: FormatArgument>(
        self,
        model: Model,
        wanted: ArgType,
        args: &[A],
    ) -> ArgumentCheck
        requires few { self.wanted ≤ MAX_TEXT_LEN }
        ensures { (types : List ArgType)
            → HasChecked A.type_of A.argument_of model self args.now types
            → HasChecked A.type_of A.argument_of model result args.now (types ++ wanted ∷ []) }
    {
        let count = self.wanted + 1;
        if self.next_matches(model, wanted, args) {
            return ArgumentCheck {
                wanted: count,
                matched: count,
            };
        }
        ArgumentCheck {
            wanted: count,
            matched: self.matched,
        }
    }

    // Whether the arguments so far all have their types, and the next one has this type.
    fn next_matches<A: FormatArgument>(self, model: Model, wanted: ArgType, args: &[A]) -> bool
        ensures yes { IsTrue result → (self.matched ≡ self.wanted)
            × IsOfTypeAt A.type_of A.argument_of model args.now self.matched wanted }
        ensures other { IsFalse result → self.matched ≡ self.wanted
            → IsOfTypeAt A.type_of A.argument_of model args.now self.matched wanted → ⊥ }
    {
        self.matched == self.wanted && is_of_type_at(model, args, self.matched, wanted)
    }

    // Whether the given arguments are as many as the directives take, each of its type.
    fn conclude<A: FormatArgument>(self, args: &[A]) -> Result<(), RenderFault>
        ensures { (model : Model) (t : Text) (types : List ArgType)
            → TakesTypes model t types
            → HasChecked A.type_of A.argument_of model self args.now types
            → MatchResult result (λ _. TakesArguments A.type_of A.argument_of model t args.now)
            (FaultForRenderBy A.type_of A.argument_of model t args.now) }
    {
        let given = args.len();
        if self.wanted != given {
            return Err(RenderFault::WrongCount {
                wanted: self.wanted as u64,
                given: given as u64,
            });
        }
        if self.matched != self.wanted {
            return Err(RenderFault::WrongType(self.matched as u64));
        }
        Ok(())
    }
}

// Whether there is an argument with this number, and of this type.
fn is_of_type_at<A: FormatArgument>(model: Model, args: &[A], index: usize, wanted: ArgType) -> bool
    ensures yes { IsTrue result
        → IsOfTypeAt A.type_of A.argument_of model args.now index wanted }
    ensures other { IsFalse result
        → IsOfTypeAt A.type_of A.argument_of model args.now index wanted → ⊥ }
{
    match args.get(index) {
        Some(arg) => arg.has_type(model, wanted),
        None => false,
    }
}
