//! Laws on the lines that report what is wrong with an automaton, each the contract of an empty function.
ghost use Rattle.std.specs.Prelude.{◌≡◌, List};
ghost use Rattle.mh_grammar.specs.declared.types.Grammar.{Grammar};
ghost use Rattle.mh_items_kernels.specs.KernelTypes.{Automaton};
ghost use Rattle.mh_lint_findings.specs.Lines.{Line};
ghost use Rattle.mh_lint_states.specs.AutomatonLines.{AreAutomatonLines};
ghost use Rattle.mh_resolve_cells.specs.declared.conflicts.Conflict.{Conflict};
ghost use Rattle.mh_tables_core.specs.Table.{TableData};

/// Law: an automaton and its table have one list of lines.
pub fn automaton_lines_are_unique()
    ensures { (g : Grammar) (a : Automaton) (t : TableData) (conflicts : List Conflict) (x y : List Line) → AreAutomatonLines g a t conflicts x → AreAutomatonLines g a t conflicts y → x ≡ y }
{}
