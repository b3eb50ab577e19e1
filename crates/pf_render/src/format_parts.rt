//! The parts of a format, written one at a time.
ghost use Rattle.std.specs.Prelude.{◌≡◌, length};
ghost use Rattle.pf_values.specs.declared.models.Model.{Model};
ghost use Rattle.pf_values.specs.meaning.Items.{types};
ghost use Rattle.pf_text.specs.PieceHistory.{items_of};
ghost use Rattle.pf_render.specs.FormatParts.{items_of_part};

use pf_text::Piece;
use pf_values::Directive;

/// A part of a format, as it is printed: a directive, or else literal bytes.
#[derive(Clone, Copy)]
pub(crate) struct FormatPart<'a> {
    /// The directive, if the part is one.
    pub(crate) directive: Option<Directive>,
    /// The bytes that are printed if the part isn't a directive.
    pub(crate) literal: &'a [u8],
}

impl<'a> FormatPart<'a> {
    /// The part that a piece is.
    pub(crate) fn of(piece: &Piece<'a>) -> FormatPart<'a>
        ensures { items_of_part result ≡ items_of piece.now }
    {
        match piece {
            Piece::Literal(literal) => FormatPart {
                directive: None,
                literal,
            },
            Piece::Percent => FormatPart {
                directive: None,
                literal: b"%",
            },
            Piece::Directive(directive) => FormatPart {
                directive: Some(*directive),
                literal: b"",
            },
        }
    }

    /// How many arguments the part takes.
    pub(crate) fn argument_count(&self) -> usize
        ensures { (model : Model) → result ≡ length (types model (items_of_part self.now)) }
    {
        match self.directive {
            Some(_) => 1,
            None => 0,
        }
    }
}
