//! Laws on the lines that say what is wrong with a messages file: functions without effect whose contracts state
//! theorems.
ghost use Rattle.std.specs.Prelude.{◌≡◌, ◌↔◌, [], List, ℕ};
ghost use Rattle.mh_msgfile.specs.FileBlocks.{HasBlocks};
ghost use Rattle.mh_msgfile.specs.declared.blocks.LooseBlocks.{LooseBlocks};
ghost use Rattle.mh_rebase.specs.ErrorLines.{IsErrorText};
ghost use Rattle.mh_lint_messages.specs.Complete.{IsFaultless};

use mh_grammar::Grammar;
use mh_tables_core::Halting;

/// Law: the text for the blocks of a file is unique.
pub fn error_text_is_unique(grammar: &Grammar, table: &Halting)
    ensures { (name : List ℕ) (blocks : LooseBlocks) (x y : List ℕ) → IsErrorText grammar.now table.now name blocks x → IsErrorText grammar.now table.now name blocks y → x ≡ y }
{
    let _grammar = grammar;
    let _facts = table.table();
}

/// Law: the text is empty exactly if the file is one that `compile` takes, each state in which some sentence fails has
/// a sentence in the file, and each message is written.
pub fn nothing_is_written(grammar: &Grammar, table: &Halting)
    ensures { (bytes name text : List ℕ) (blocks : LooseBlocks) → HasBlocks bytes blocks → IsErrorText grammar.now table.now name blocks text → (text ≡ []) ↔ IsFaultless grammar.now table.now bytes }
{
    let _grammar = grammar;
    let _facts = table.table();
}
