//! What can be an argument of a format.
ghost use Rattle.std.specs.Prelude.{◌≡◌, ℤ, IsTrue, IsFalse, MatchOption};
ghost use Rattle.pf_values.specs.declared.types.ArgType.{ArgType};
ghost use Rattle.pf_values.specs.meaning.Arguments.{Argument, Number, String};
ghost use Rattle.pf_values.specs.meaning.Text.{Text};
ghost use Rattle.pf_render.specs.Rendering.{IsOfTypeBy};

use pf_values::{Arg, ArgType, Model};

/// A value that a format prints: a number or a string, of a type in C.
pub trait FormatArgument {
    // its type in C
    ghost type_of: { Self → ArgType };

    // its value
    ghost argument_of: { Self → Argument };

    /// Whether it is of this type in this data model: a number must be in its range, and a string
    /// has no NUL.
    fn has_type(&self, model: Model, wanted: ArgType) -> bool
        ensures yes { IsTrue result → IsOfTypeBy type_of argument_of model self.now wanted }
        ensures other { IsFalse result → IsOfTypeBy type_of argument_of model self.now wanted → ⊥ };

    /// The number, or `None` for a string.
    fn as_number(&self) -> Option<i128>
        ensures { MatchOption result ((bytes : Text) × (argument_of self.now ≡ String bytes))
            (λ n. argument_of self.now ≡ Number n) };

    /// The bytes of the string, or `None` for a number.
    fn as_string(&self) -> Option<&[u8]>
        ensures { MatchOption result ((n : ℤ) × (argument_of self.now ≡ Number n))
            (λ bytes. argument_of self.now ≡ String bytes.now) };
}

impl<'a> FormatArgument for Arg<'a> {
    ghost use Rattle.pf_values.specs.Arg as program;

    ghost type_of = { program.type_of };

    ghost argument_of = { program.argument_of };

    fn has_type(&self, model: Model, wanted: ArgType) -> bool {
        if self.arg_type() != wanted {
            return false;
        }
        match model {
            // Each argument is in the range of its type there, so its number isn't asked for.
            Model::Lp64 => true,
            Model::Ilp32 | Model::Llp64 => self.fits(model),
        }
    }

    fn as_number(&self) -> Option<i128> {
        self.number()
    }

    fn as_string(&self) -> Option<&[u8]> {
        match self {
            Arg::Str(string) => Some(string.bytes()),
            Arg::Int(_) => None,
            Arg::UInt(_) => None,
            Arg::Long(_) => None,
            Arg::ULong(_) => None,
            Arg::LongLong(_) => None,
            Arg::ULongLong(_) => None,
        }
    }
}
