//! Laws over the definitions alone. Each is the contract of a function that does nothing.
ghost use Rattle.fmtcanon.specs.Answers.{IsAnswer};
ghost use Rattle.fmtcanon.specs.ArgumentWords.{SpellsOneArgument};
ghost use Rattle.fmtcanon.specs.declared.answer.Ending.{Ending};
ghost use Rattle.fmtcanon.specs.declared.questions.Question.{Question};
ghost use Rattle.pf_values.specs.declared.models.Model.{Model};
ghost use Rattle.fmtcanon.specs.Comparisons.{PrintedWordIsRead};
ghost use Rattle.fmtcanon.specs.Formats.{IsCanonicalLiteralOf};
ghost use Rattle.pf_reduce.specs.Reducing.{IsReducedTo};
ghost use Rattle.pf_reduce.specs.declared.results.Reduced.{Reduced};
ghost use Rattle.pf_values.specs.meaning.Specification.{Specification};
ghost use Rattle.pf_values.specs.meaning.Text.{Text};
ghost use Rattle.std.specs.Prelude.{◌≡◌};

/// Proves that a word gives one argument at most.
pub fn spells_one_argument()
    ensures { SpellsOneArgument }
{}

/// Proves that the word that is printed for an argument is read as that argument.
pub fn printed_word_is_read()
    ensures { (model : Model) → PrintedWordIsRead model }
{}

/// Proves that a directive has one reduction in each data model.
pub fn one_reduction()
    ensures { (model : Model) (s : Specification) (r q : Reduced) → IsReducedTo model s r
        → IsReducedTo model s q → r ≡ q }
{}

/// Proves that a question has one answer: the bytes that are written and how the run ends are determined.
pub fn one_answer()
    ensures { (question : Question) (out other : Text) (ending end : Ending) → IsAnswer question out ending
        → IsAnswer question other end → (out ≡ other) × (ending ≡ end) }
{}

/// Proves that the canonical literal of a format that is given as literals is its own canonical
/// literal.
pub fn canonical_literal_is_its_own()
    ensures { (model : Model) (t literal : Text) → IsCanonicalLiteralOf model t literal
        → IsCanonicalLiteralOf model literal literal }
{}
