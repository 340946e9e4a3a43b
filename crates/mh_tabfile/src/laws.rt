//! Laws on table files that are written and read again, as functions that do nothing and whose contracts state the
//! laws.
ghost use Rattle.std.specs.Prelude.{◌≡◌, ◌≤◌, ◌⊎◌, List, None, Result, Ok, Err, ℕ};
ghost use Rattle.mh_grammar.specs.Plain.{plain_of, IsInRange};
ghost use Rattle.mh_items_kernels.specs.KernelTypes.{Automaton as AutomatonOf};
ghost use Rattle.mh_items_kernels.specs.Automaton.{IsAutomaton};
ghost use Rattle.mh_tables_core.specs.declared.parts.StateParts.{StateParts};
ghost use Rattle.mh_tables_core.specs.Table.{TableData};
ghost use Rattle.mh_resolve_cells.specs.States.{IsTableOf};
ghost use Rattle.mh_tabfile.specs.Versions.{with_costs};
ghost use Rattle.mh_tabfile_form.specs.declared.types.RawTable.{RawTable as Raw};
ghost use Rattle.mh_tabfile_form.specs.Form.{table_text, IsFileOf};
ghost use Rattle.mh_tabfile_form.specs.TableContent.{HasWordNames, raw_of};
ghost use Rattle.mh_tabfile_read.specs.declared.reading.TabFault.{TabFault as Fault};
ghost use Rattle.mh_tabfile_read.specs.declared.reading.TabFault.TheVariants as faults;
ghost use Rattle.mh_tabfile_read.specs.Reading.{IsReading, IsBadLine};
ghost use Rattle.mh_validate_valid.specs.Valid.{AreTokenNamesDistinct, IsValidFor};

use mh_grammar::Grammar;
use mh_items_kernels::Automaton;
use mh_resolve_cells::Mode;
use mh_tabfile_form::RawTable;
use mh_tables_core::Table;

/// The text that `write_tables` writes of an automaton and its table is read as what was written, unless memory runs
/// out. This content is valid for the grammar, and names this automaton with this table alone.
pub fn written_again<const W: usize>(
    grammar: &Grammar,
    automaton: &Automaton<W>,
    table: &Table,
    mode: Mode,
)
    requires few { W ≤ 8 }
    requires range { IsInRange (plain_of grammar.now) }
    requires names { HasWordNames grammar.now }
    requires distinct { AreTokenNamesDistinct grammar.now }
    requires automaton { IsAutomaton (plain_of grammar.now) automaton.now }
    requires table { IsTableOf grammar.now automaton.now mode table.now }
    ensures read { (r : Result Raw Fault) →
        IsReading (table_text (raw_of grammar.now automaton.now mode table.now.states)) r →
        (r ≡ Ok (raw_of grammar.now automaton.now mode table.now.states)) ⊎ (r ≡ Err faults.Memory) }
    ensures valid { IsValidFor grammar.now (raw_of grammar.now automaton.now mode table.now.states) automaton.now table.now.states }
    ensures one { (a : AutomatonOf) (t : TableData) →
        IsValidFor grammar.now (raw_of grammar.now automaton.now mode table.now.states) a t.states →
        IsTableOf grammar.now a mode t → (a ≡ automaton.now) × (t ≡ table.now) }
{
    let _grammar = grammar;
    let _automaton = automaton;
    let _mode = mode;
    table.facts();
}

/// A content is valid without costs, as in version 1, exactly if the same content with the costs of the grammar is
/// valid, as in version 2, and both name the same automaton with the same states of its table. The content with the
/// costs is then the one that is written of this automaton.
pub fn versions_agree(grammar: &Grammar, raw: &RawTable)
    ensures version_two { (a : AutomatonOf) (parts : List StateParts) →
        IsValidFor grammar.now raw.now a parts → IsValidFor grammar.now (with_costs grammar.now raw.now) a parts }
    ensures version_one { (a : AutomatonOf) (parts : List StateParts) → raw.now.costs ≡ None →
        IsValidFor grammar.now (with_costs grammar.now raw.now) a parts → IsValidFor grammar.now raw.now a parts }
    ensures written { (a : AutomatonOf) (parts : List StateParts) →
        IsValidFor grammar.now raw.now a parts → with_costs grammar.now raw.now ≡ raw_of grammar.now a raw.now.mode parts }
{
    let _grammar = grammar;
    let _raw = raw;
}

/// Law: all bytes are a table file, or have a first line that does not have the form of its place.
pub fn file_or_bad_line(bytes: &[u8])
    ensures { ((raw : Raw) × IsFileOf bytes.now raw) ⊎ ((line : ℕ) × IsBadLine bytes.now line) }
{
    let _bytes = bytes;
}
