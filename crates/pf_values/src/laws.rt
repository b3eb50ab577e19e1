//! Laws over the definitions alone. Each is the contract of a function that does nothing.
ghost use Rattle.std.specs.Prelude.{◌≡◌, [], ◌∷◌};
ghost use Rattle.pf_values.specs.declared.conversions.TheConstants.Conv.{ALL as conversions};
ghost use Rattle.pf_values.specs.declared.flags.TheConstants.Flag.{ALL as flags};
ghost use Rattle.pf_values.specs.declared.lengths.TheConstants.Length.{ALL as lengths};
ghost use Rattle.pf_values.specs.declared.models.Model.{Model};
ghost use Rattle.pf_values.specs.declared.models.Model.TheVariants.{Lp64, Ilp32, Llp64};
ghost use Rattle.pf_values.specs.declared.models.TheConstants.Model.{ALL as models};
ghost use Rattle.pf_values.specs.declared.refusals.TheConstants.RefusalKind.{ALL as refusals};
ghost use Rattle.pf_values.specs.Laws.{PrintsOnce, HasEachOnce};

/// Proves that each directive and argument of its type print exactly one text, in each data model.
pub fn prints_once()
    ensures { (model : Model) → PrintsOnce model }
{}

/// Proves that each table `ALL` has each value of its type exactly once.
pub fn tables_have_each_once()
    ensures conversions { HasEachOnce conversions }
    ensures lengths { HasEachOnce lengths }
    ensures flags { HasEachOnce flags }
    ensures models { HasEachOnce models }
    ensures refusals { HasEachOnce refusals }
{}

/// Proves that the data models of `Model::ALL` have this order, which says which ones `both` and
/// `all` are, and which number and which bit each has in C.
pub fn models_in_order()
    ensures { models ≡ Lp64 ∷ Ilp32 ∷ Llp64 ∷ [] }
{}
