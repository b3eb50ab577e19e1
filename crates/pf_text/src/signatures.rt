//! The argument types of formats.
ghost use Rattle.std.specs.Prelude.{◌≡◌, ◌↔◌, [], IsTrue, length, slice_get};
ghost use Rattle.pf_text.specs.Signatures.{types_of};

use pf_values::ArgType;
use smallvec::SmallVec;

/// The types of the arguments that a format takes, in order. Up to eight need no allocation.
#[derive(Debug, Drop)]
pub struct Signature {
    pub(crate) types: SmallVec<ArgType, 8>,
}

impl Signature {
    /// Returns how many arguments there are.
    pub fn len(&self) -> usize
        ensures { result ≡ length (types_of self.now) }
    {
        self.types.len()
    }

    /// Returns whether there are none.
    pub fn is_empty(&self) -> bool
        ensures { IsTrue result ↔ (types_of self.now ≡ []) }
    {
        self.types.is_empty()
    }

    /// Returns the type of the argument with this number, counted from 0, or `None` after the last
    /// one.
    pub fn get(&self, index: usize) -> Option<ArgType>
        ensures { result ≡ slice_get (types_of self.now) index }
    {
        self.as_slice().get(index).copied()
    }

    /// Returns the types.
    pub fn as_slice(&self) -> &[ArgType]
        ensures { result.now ≡ types_of self.now }
    {
        self.types.as_slice()
    }
}
