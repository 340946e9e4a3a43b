//! Laws of comment lines: functions without effect whose contracts state theorems.
ghost use Rattle.std.specs.Prelude.{Bool, ◌≡◌, ◌<◌, ◌-◌, ℕ, List, slice_get};
ghost use Rattle.mh_grammar.specs.Plain.{rhs_of};
ghost use Rattle.mh_grammar.specs.declared.types.Grammar.{Grammar as Grammar'};
ghost use Rattle.mh_items_kernels.specs.KernelTypes.{Automaton};
ghost use Rattle.mh_tables_core.specs.Facts.{InCore};
ghost use Rattle.mh_tables_core.specs.Failing.{Fails};
ghost use Rattle.mh_report.specs.Comments.{IsCommentBlock, IsEntryText};

use mh_tables_core::Halting;

/// Law: the known suffix of the stack does not depend on the item. The items of a state in which a sentence fails have
/// the same symbols before their dots, compared from the dot backwards.
pub fn known_suffix_is_unique(table: &Halting)
    ensures { (start s : ℕ) (w : List ℕ) → Fails table.now start w s → (p d q e j : ℕ) → InCore table.now s p d → InCore table.now s q e → j < d → j < e → slice_get (rhs_of table.now.grammar p) (d - 1 - j) ≡ slice_get (rhs_of table.now.grammar q) (e - 1 - j) }
{
    let _facts = table.table();
}

/// Law: two comment texts of the same sentence are equal, and so are two entries.
pub fn entry_is_unique(table: &Halting)
    ensures comments { (expected : Bool) (g : Grammar') (a : Automaton) (start : ℕ) (w x y : List ℕ) → IsCommentBlock expected g a table.now start w x → IsCommentBlock expected g a table.now start w y → x ≡ y }
    ensures entry { (expected : Bool) (g : Grammar') (a : Automaton) (start : ℕ) (w x y : List ℕ) → IsEntryText expected g a table.now start w x → IsEntryText expected g a table.now start w y → x ≡ y }
{
    let _table = table;
}
