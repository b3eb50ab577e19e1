//! The data models that the option `--model` names.
ghost use Rattle.std.specs.Prelude.{◌≡◌};
ghost use Rattle.fmtcanon.specs.Models.{first_model, model_in, model_name, model_named, models_in, models_named};
ghost use Rattle.fmtcanon.specs.Options.{rows_in};

use clap::ArgMatches;
use pf_values::Model;

/// The names of the data models, in the order of `Model::ALL`.
pub const NAMES: &[&str] = &["lp64", "ilp32", "llp64"];

/// The names of the data models, of the first two together, and of all.
pub const NAMES_OR_MORE: &[&str] = &["lp64", "ilp32", "llp64", "both", "all"];

/// The data models in which two formats are compared.
#[derive(Clone, Copy)]
pub enum Models {
    /// This one.
    One(Model),
    /// LP64 and ILP32, one after the other.
    Both,
    /// All, one after another.
    All,
}

impl Models {
    /// Returns the first of them.
    pub fn first(self) -> Model
        ensures { result ≡ first_model self }
    {
        match self {
            Models::One(model) => model,
            Models::Both | Models::All => Model::Lp64,
        }
    }
}

/// Returns the name of a data model.
pub fn name_of(model: Model) -> &'static str
    ensures { result.now ≡ model_name model }
{
    match model {
        Model::Lp64 => "lp64",
        Model::Ilp32 => "ilp32",
        Model::Llp64 => "llp64",
    }
}

/// Returns the data model of a command.
pub fn model_of(inner: &ArgMatches<'_>) -> Model
    ensures { result ≡ model_in (rows_in inner.now) }
{
    match inner.get_str("model") {
        Some(name) => model_named(name),
        None => Model::Lp64,
    }
}

/// Returns the data models of a command about two formats.
pub fn models_of(inner: &ArgMatches<'_>) -> Models
    ensures { result ≡ models_in (rows_in inner.now) }
{
    match inner.get_str("model") {
        Some(name) => models_named(name),
        None => Models::One(Model::Lp64),
    }
}

fn models_named(name: &str) -> Models
    ensures { result ≡ models_named name.now }
{
    match name {
        "both" => Models::Both,
        "all" => Models::All,
        _ => Models::One(model_named(name)),
    }
}

// clap takes no name but those above.
fn model_named(name: &str) -> Model
    ensures { result ≡ model_named name.now }
{
    match name {
        "ilp32" => Model::Ilp32,
        "llp64" => Model::Llp64,
        _ => Model::Lp64,
    }
}
