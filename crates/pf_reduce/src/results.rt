//! What a directive is reduced to.
use pf_values::{Directive, Model};
use std::marker;

/// A directive that is normal in a data model, as `IsNormal` of `pf_values` says. There is no way
/// to make one that isn't.
#[derive(Clone, Copy, Debug, PartialEq, Eq)]
pub struct Normal {
    model: Model,
    directive: Directive,
}

impl marker::Model for Normal {
    ghost use Rattle.pf_values.specs.meaning.Normal.{IsNormal};
    ghost use Rattle.pf_reduce.specs.NormalValues.{NormalDirective};

    ghost Value = { NormalDirective };

    ghost view = { λ n. record { model = n.model; specification = n.directive } };

    ghost invariant = { λ n. IsNormal n.model n.directive };

    ghost inverse = { λ n. record { model = n.model; directive = n.specification } };
}

/// The directive that remains without its constant padding.
#[derive(Clone, Copy, Debug, PartialEq, Eq)]
pub enum Core {
    /// A normal directive.
    Normal(Normal),
    /// `%.0s`, which takes a string and prints nothing.
    Silent,
}

/// A core within constant padding, as counts of bytes: spaces and then zeros before it, and spaces
/// after it. Together they are at most 4,095.
#[derive(Clone, Copy, Debug, PartialEq, Eq)]
pub struct Reduced {
    /// Spaces before the zeros.
    pub spaces: u16,
    /// Zeros before what the core prints.
    pub zeros: u16,
    /// The directive that remains.
    pub core: Core,
    /// Spaces after what the core prints.
    pub trail: u16,
}

impl Normal {
    ghost use Rattle.std.specs.Prelude.{◌≡◌};
    ghost use Rattle.pf_values.specs.meaning.Normal.{IsNormal};

    /// Returns the data model in which it is normal.
    pub fn model(&self) -> Model
        ensures { result ≡ self.now.model }
    {
        self.model
    }

    /// Returns the directive.
    pub fn directive(&self) -> Directive
        ensures value { result ≡ self.now.specification }
        ensures normal { IsNormal self.now.model self.now.specification }
    {
        self.directive
    }

    pub(crate) fn new(model: Model, directive: Directive) -> Normal
        requires { IsNormal model directive }
        ensures { result ≡ record { model = model; specification = directive } }
    {
        Normal { model, directive }
    }
}
