//! The parts of a conversion specification that have no effect.
ghost use Rattle.std.specs.Prelude.{◌≡◌, ◌↔◌, IsTrue, false, true};
ghost use Rattle.pf_values.specs.meaning.Text.{Text};
ghost use Rattle.pf_posix.specs.Items.{Specification, IsWholeReadAs};
ghost use Rattle.pf_posix.specs.Opaque.{is_opaque};
ghost use Rattle.pf_posix.specs.OpaqueParts.{amount_back, amount_of, conv_back, narrow, parts_of_opaque};
ghost use Rattle.pf_whole.specs.declared.parts.Part.{Part as PartOf};
ghost use Rattle.pf_whole.specs.declared.parts.PartSet.{PartSet as PartSetOf};
ghost use Rattle.pf_whole.specs.Needless.{AreFound, AreGathered, AreNeedless, GathersPart, HaveNoEffect, IsPartQuestion};
ghost use Rattle.pf_whole.specs.Parts.{all_parts, has_part, no_parts, only, with_part, without};

use crate::comparison::make_one_call;
use crate::parts::{Part, PartSet, given_parts, without};
use pf_compare::print_alike;
use pf_posix::{Opaque, OpaqueAmount, OpaqueDirective, WholeConv, integer_length, is_opaque};
use pf_values::{Conv, Directive, Flag, Model};

/// Sets of parts of a conversion specification.
#[derive(Clone, Copy, Debug, PartialEq, Eq)]
pub struct NeedlessParts {
    /// The parts that the specification has.
    pub given: PartSet,
    /// The parts that have no effect, each by itself.
    pub each: PartSet,
    /// Those that have no effect together, either: one after another, each that has none together with those before
    /// it.
    pub together: PartSet,
}

// A question about a directive that has these parts.
#[derive(Clone, Copy)]
struct NeedlessQuestion {
    model: Model,
    directive: OpaqueDirective,
    given: PartSet,
}

/// Returns the parts of a directive that have no effect in a data model: without any one of them, the directive is
/// alike. Also returns those that can be left out together: the flags `- + space # 0 '`, the width, the precision and
/// the modifier, each if it has no effect together with those before it. In `%02.2u`, neither the width nor the
/// precision has an effect, but without both the directive prints less, so the precision isn't among them.
pub fn needless_parts(model: Model, directive: OpaqueDirective) -> NeedlessParts
    requires { (t : Text) × IsWholeReadAs t (Specification (parts_of_opaque directive)) }
    ensures { AreNeedless model (parts_of_opaque directive) result }
{
    let given = given_parts(directive);
    if given.is_empty() {
        return NeedlessParts {
            given,
            each: given,
            together: given,
        };
    }
    let question = NeedlessQuestion {
        model,
        directive,
        given,
    };
    let each = question.each();
    NeedlessParts {
        given,
        each,
        together: question.together(each),
    }
}

impl NeedlessQuestion {
    // The parts that have no effect.
    fn each(&self) -> PartSet
        requires { IsPartQuestion self.now }
        ensures { (part : PartOf) → IsTrue (has_part result part)
            ↔ (IsTrue (has_part self.now.given part)
            × HaveNoEffect self.now.model (parts_of_opaque self.now.directive) (only part)) }
    {
        let each = self.ask(PartSet::empty(), Part::Flag(Flag::Minus));
        let each = self.ask(each, Part::Flag(Flag::Plus));
        let each = self.ask(each, Part::Flag(Flag::Space));
        let each = self.ask(each, Part::Flag(Flag::Alt));
        let each = self.ask(each, Part::Flag(Flag::Zero));
        let each = self.ask(each, Part::Flag(Flag::Group));
        let each = self.ask(each, Part::Width);
        let each = self.ask(each, Part::Precision);
        self.ask(each, Part::Modifier)
    }

    // Asks about one more part.
    fn ask(&self, each: PartSet, part: Part) -> PartSet
        requires { IsPartQuestion self.now }
        ensures { (asked : PartSetOf) → AreFound self.now asked each → AreFound self.now (with_part asked part) result }
    {
        if !self.given.has(part) {
            return each;
        }
        if !self.have_no_effect(PartSet::empty().with(part)) {
            return each;
        }
        each.with(part)
    }

    // Those of these parts that have no effect together: one after another, each that has none with those before it.
    fn together(&self, each: PartSet) -> PartSet
        requires { IsPartQuestion self.now }
        ensures { AreGathered self.now.model (parts_of_opaque self.now.directive) each no_parts all_parts result }
    {
        if each.is_empty() {
            return each;
        }
        let some = self.gather(PartSet::empty(), each, Part::Flag(Flag::Minus));
        let some = self.gather(some, each, Part::Flag(Flag::Plus));
        let some = self.gather(some, each, Part::Flag(Flag::Space));
        let some = self.gather(some, each, Part::Flag(Flag::Alt));
        let some = self.gather(some, each, Part::Flag(Flag::Zero));
        let some = self.gather(some, each, Part::Flag(Flag::Group));
        let some = self.gather(some, each, Part::Width);
        let some = self.gather(some, each, Part::Precision);
        self.gather(some, each, Part::Modifier)
    }

    // These parts and one more, if it is one of the others and has no effect with them.
    fn gather(&self, some: PartSet, each: PartSet, part: Part) -> PartSet
        requires { IsPartQuestion self.now }
        ensures { GathersPart self.now.model (parts_of_opaque self.now.directive) each some part result }
    {
        if !each.has(part) {
            return some;
        }
        let more = some.with(part);
        if self.have_no_effect(more) {
            return more;
        }
        some
    }

    // Whether the directive is alike without these parts.
    fn have_no_effect(&self, set: PartSet) -> bool
        requires { IsPartQuestion self.now }
        ensures { IsTrue result ↔ HaveNoEffect self.now.model (parts_of_opaque self.now.directive) set }
    {
        let shorter = without(self.directive, set);
        if is_opaque(self.directive) {
            return self.is_opaque_alike(set, shorter);
        }
        print_alike(self.model, &narrow(self.directive), &narrow(shorter))
    }

    // Whether a directive that the profile lacks is alike without these parts: it makes the same call.
    fn is_opaque_alike(&self, set: PartSet, shorter: OpaqueDirective) -> bool
        requires question { IsPartQuestion self.now }
        requires opaque { is_opaque (parts_of_opaque self.now.directive) ≡ true }
        requires shorter { parts_of_opaque shorter ≡ without (parts_of_opaque self.now.directive) set }
        ensures { IsTrue result ↔ HaveNoEffect self.now.model (parts_of_opaque self.now.directive) set }
    {
        if !is_opaque(shorter) {
            return false;
        }
        make_one_call(
            self.model,
            Opaque::Directive(self.directive),
            Opaque::Directive(shorter),
        )
    }
}

// A directive that the profile has.
fn narrow(directive: OpaqueDirective) -> Directive
    requires spelled { (t : Text) × IsWholeReadAs t (Specification (parts_of_opaque directive)) }
    requires narrow { is_opaque (parts_of_opaque directive) ≡ false }
    ensures { result ≡ narrow (parts_of_opaque directive) }
{
    Directive::of_defined(
        directive.flags,
        number_of(directive.width),
        number_of(directive.precision),
        integer_length(directive.modifier),
        conv_of(directive.conversion),
    )
}

fn number_of(amount: Option<OpaqueAmount>) -> Option<u16>
    ensures { result ≡ amount_back (amount_of amount) }
{
    match amount {
        Some(OpaqueAmount::Number(n)) => Some(n),
        Some(OpaqueAmount::Star) => None,
        None => None,
    }
}

fn conv_of(conversion: WholeConv) -> Conv
    ensures { result ≡ conv_back conversion }
{
    match conversion {
        WholeConv::Profile(conv) => conv,
        _ => Conv::D,
    }
}
