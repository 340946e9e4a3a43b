//! The law of writing table files, as a function that does nothing and whose contract states the law.
ghost use Rattle.mh_report.specs.Fitting.{HasTable};
ghost use Rattle.mh_tabfile_form.specs.Form.{table_text, IsFileOf};
ghost use Rattle.mh_tabfile_form.specs.TableContent.{HasWordNames, raw_of};

use mh_grammar::Grammar;
use mh_items_kernels::Automaton;
use mh_resolve_cells::Mode;
use mh_tables_core::Table;

/// If the names of the grammar are words, the text that `write_tables` writes is a table file with the same content.
pub fn written_is_file<const W: usize>(
    grammar: &Grammar,
    automaton: &Automaton<W>,
    table: &Table,
    mode: Mode,
)
    requires names { HasWordNames grammar.now }
    requires table { HasTable W grammar.now automaton.now mode table.now }
    ensures { IsFileOf (table_text (raw_of grammar.now automaton.now mode table.now.states))
        (raw_of grammar.now automaton.now mode table.now.states) }
{
    let _grammar = grammar;
    let _automaton = automaton;
    let _mode = mode;
    table.facts();
}
