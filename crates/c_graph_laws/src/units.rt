//! The laws of graphs for each unit that has a typed core: nothing is asked of the core.

ghost use Rattle.c_syntax_spec.specs.Unit.{TranslationUnit};
ghost use Rattle.c_types_spec.specs.Core.{Typed};
ghost use Rattle.c_graph_laws.specs.OfUnits.{CallsRunTogether, HasValidGraphs};

/// Each function of a unit that has a typed core runs as its graphs do.
pub fn units_and_graphs_run_together()
    ensures { (unit : TranslationUnit) (core : Typed) → CallsRunTogether unit core }
{}

/// The graphs of a unit that has a typed core are valid.
pub fn units_have_valid_graphs()
    ensures { (unit : TranslationUnit) (core : Typed) → HasValidGraphs unit core }
{}
