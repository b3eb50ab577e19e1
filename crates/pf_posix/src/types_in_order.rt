//! The types of the arguments of an accepted format one after another, for a format that has more than a list
//! has room for.
ghost use Rattle.std.specs.Prelude.{◌≡◌, ◌≢◌, ◌<◌, ◌∷◌, [], List, length};
ghost use Rattle.pf_values.specs.declared.models.Model.{Model as ModelOf};
ghost use Rattle.pf_posix.specs.declared.numbered.TheConstants.{ROOM as MOST};
ghost use Rattle.pf_posix.specs.declared.types.WholeArgType.{WholeArgType as WholeArgTypeOf};
ghost use Rattle.pf_posix.specs.Items.{HasArguments};
ghost use Rattle.pf_posix.specs.ListComparisons.{HasLeft};

use crate::directive_spans::fetch_count;
use crate::fetches::conversion_type;
use crate::specification_walk::item_at;
use crate::types::WholeArgType;
use pf_values::{ArgType, Model};

/// The rest of such a format.
#[derive(Clone, Copy)]
pub(crate) struct TypesInOrder<'a> {
    text: &'a [u8],
    /// The offset of the next item.
    at: usize,
    /// How many arguments of the specification before it are left: ints for its `*`s, and then one of this type.
    left: u64,
    last: WholeArgType,
}

impl<'a> TypesInOrder<'a> {
    /// All of a format that has no numbers, since it has too many arguments.
    pub(crate) fn new(text: &'a [u8]) -> TypesInOrder<'a>
        ensures { (model : ModelOf) (types : List WholeArgTypeOf) → HasArguments model text.now types
            → MOST < length types → HasLeft model result types }
    {
        TypesInOrder {
            text,
            at: 0,
            left: 0,
            last: WholeArgType::Profile(ArgType::Int),
        }
    }

    /// The next one, if there is one.
    pub(crate) fn next(&mut self, model: Model) -> WholeArgType
        requires { (types : List WholeArgTypeOf) × HasLeft model self.old types }
        ensures { (first : WholeArgTypeOf) (rest : List WholeArgTypeOf) → HasLeft model self.old (first ∷ rest)
            → (result ≡ first) × HasLeft model self.new rest }
    {
        self.fill(model);
        self.take_one()
    }

    // Reads on until some argument is left.
    fn fill(&mut self, model: Model)
        requires { (types : List WholeArgTypeOf) × HasLeft model self.old types }
        ensures { (types : List WholeArgTypeOf) → HasLeft model self.old types
            → HasLeft model self.new types × (types ≢ [] → 0 < self.new.left) }
    {
        while self.left == 0 && self.at < self.text.len() {
            match item_at(self.text, self.at) {
                (None, end) => self.at = end,
                (Some(read), end) => {
                    self.at = end;
                    self.left = fetch_count(&read);
                    self.last = conversion_type(model, read.parts.modifier, read.parts.conversion);
                }
            }
        }
    }

    // Takes an argument of a specification.
    fn take_one(&mut self) -> WholeArgType
        ensures { (model : ModelOf) (first : WholeArgTypeOf) (rest : List WholeArgTypeOf) → 0 < self.old.left
            → HasLeft model self.old (first ∷ rest) → (result ≡ first) × HasLeft model self.new rest }
    {
        self.left = self.left.saturating_sub(1);
        if self.left == 0 {
            return self.last;
        }
        WholeArgType::Profile(ArgType::Int)
    }
}
