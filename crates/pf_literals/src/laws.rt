//! Laws of the definitions: a text is a source of one list of bytes, or has one fault, at the byte
//! from which on it can't be a source; and a text is the bytes of its encoding.
ghost use Rattle.std.specs.Prelude.{◌≡◌, ◌++◌, ◌-◌, ◌<◌, ◌≤◌, ℕ, Some, length, slice_get};
ghost use Rattle.pf_literals.specs.declared.faults.LiteralKind.{LiteralKind};
ghost use Rattle.pf_literals.specs.declared.faults.TheConstants.LiteralKind.{ALL as kinds};
ghost use Rattle.pf_literals.specs.Answers.{IsOffsetOf};
ghost use Rattle.pf_literals.specs.Elements.{Bytes};
ghost use Rattle.pf_literals.specs.Encoding.{encoding};
ghost use Rattle.pf_literals.specs.Faults.{IsFaultAt};
ghost use Rattle.pf_literals.specs.Kinds.{literal_kind_number};
ghost use Rattle.pf_literals.specs.Laws.{CanGoOn, IsReadOrRefused, AreCStringBytes};
ghost use Rattle.pf_literals.specs.Sources.{HasOffsets, IsSourceOf};

/// Proves that the table of kinds is in the order of their numbers.
pub fn kinds_in_order()
    ensures { (kind : LiteralKind) → slice_get kinds (literal_kind_number kind - 1) ≡ Some kind }
{}

/// Proves that a source has one list of bytes.
pub fn bytes_once()
    ensures { (t bytes others : Bytes) → IsSourceOf t bytes → IsSourceOf t others
        → bytes ≡ others }
{}

/// Proves that a source has one list of offsets of its bytes, and one offset of its last quote.
pub fn offsets_once()
    ensures { (t found others : Bytes) (close last : ℕ) → HasOffsets t found close
        → HasOffsets t others last → (found ≡ others) × (close ≡ last) }
{}

/// Proves that each byte of a source has an offset, and so does the last closing quote after them; each is
/// less than the length of the source.
pub fn offsets_there()
    ensures there { (t bytes : Bytes) (index : ℕ) → IsSourceOf t bytes → index ≤ length bytes
        → (at : ℕ) × IsOffsetOf t index at }
    ensures within { (t : Bytes) (index at : ℕ) → IsOffsetOf t index at → at < length t }
{}

/// Proves that a text that is not a source is rejected for one reason and at one offset.
pub fn refused_once()
    ensures { (t : Bytes) (kind other : LiteralKind) (p q : ℕ) → IsFaultAt t kind p
        → IsFaultAt t other q → (kind ≡ other) × (p ≡ q) }
{}

/// Proves that a text is a source, or it is rejected.
pub fn read_or_refused()
    ensures { (t : Bytes) → IsReadOrRefused t }
{}

/// Proves that no text is both a source and rejected.
pub fn never_both()
    ensures { (t bytes : Bytes) (kind : LiteralKind) (at : ℕ) → IsSourceOf t bytes
        → IsFaultAt t kind at → ⊥ }
{}

/// Proves that a text that is rejected before its end is rejected so whatever bytes follow.
pub fn refused_for_good()
    ensures { (t more : Bytes) (kind : LiteralKind) (at : ℕ) → IsFaultAt t kind at
        → at < length t → IsFaultAt (t ++ more) kind at }
{}

/// Proves that a text that is rejected at its end is a source with some more bytes.
pub fn end_goes_on()
    ensures { (t : Bytes) (kind : LiteralKind) (at : ℕ) → IsFaultAt t kind at
        → at ≡ length t → CanGoOn t }
{}

/// Proves that a text without NUL is the bytes of its encoding.
pub fn encoded_is_read()
    ensures { (t : Bytes) → AreCStringBytes t → IsSourceOf (encoding t) t }
{}

/// Proves that the encoding of the bytes of an encoding is that encoding.
pub fn encoded_once()
    ensures { (t bytes : Bytes) → AreCStringBytes t → IsSourceOf (encoding t) bytes
        → encoding bytes ≡ encoding t }
{}
