//! Laws of rebased messages files: functions without effect whose contracts state theorems.
ghost use Rattle.std.specs.Prelude.{◌≡◌, ◌++◌, [], Bool, List, ℕ, map};
ghost use Rattle.std.specs.List.{Contains};
ghost use Rattle.mh_grammar.specs.Plain.{plain_of};
ghost use Rattle.mh_msgfile.specs.LooseFiles.{LooseSpells};
ghost use Rattle.mh_tables_core.specs.Failing.{Failing};
ghost use Rattle.mh_msgfile.specs.Messages.{MsgSpells};
ghost use Rattle.mh_msgfile.specs.FileTexts.{HasReadableNames, entry_content};
ghost use Rattle.mh_msgfile.specs.declared.messages.MsgFile.{MsgFile};
ghost use Rattle.mh_msgfile.specs.declared.messages.MsgSentence.{MsgSentence};
ghost use Rattle.mh_check.specs.Checks.{FailsIn, Sound, sentences_of};
ghost use Rattle.mh_msgfile.specs.declared.loose.LooseFile.{LooseFile};
ghost use Rattle.mh_report.specs.CatalogueTexts.{IsCatalogueText};
ghost use Rattle.mh_update.specs.NoLineEnds.{HasNamesWithoutLineEnds};
ghost use Rattle.mh_rebase.specs.RebasedText.{IsRebased, kept_entries_text};
ghost use Rattle.mh_rebase.specs.ReadAgain.{HasNoCr};
ghost use Rattle.mh_rebase.specs.EntryTexts.{AreCommented};

use mh_grammar::Grammar;
use mh_items_kernels::Automaton;
use mh_tables_core::Halting;

/// Law: the rebased text of a file is unique.
pub fn rebased_once<const W: usize>(grammar: &Grammar, automaton: &Automaton<W>, table: &Halting)
    ensures { (expected : Bool) (file : LooseFile) (x y : List ℕ) → IsRebased expected grammar.now automaton.now table.now file x → IsRebased expected grammar.now automaton.now table.now file y → x ≡ y }
{
    let _grammar = grammar;
    let _automaton = automaton;
    let _facts = table.table();
}

/// Law: the rebased text of a file without entries is the list of errors, byte for byte.
pub fn empty_is_list<const W: usize>(grammar: &Grammar, automaton: &Automaton<W>, table: &Halting)
    ensures { (expected : Bool) (file : LooseFile) (text : List ℕ) → file.entries ≡ [] → IsRebased expected grammar.now automaton.now table.now file text → IsCatalogueText expected grammar.now automaton.now table.now text }
{
    let _grammar = grammar;
    let _automaton = automaton;
    let _table = table;
}

/// Law: the rebased text can be read, and rebasing it onto the same grammar gives the same entries, byte for byte, and
/// drops nothing.
pub fn rebased_again<const W: usize>(grammar: &Grammar, automaton: &Automaton<W>, table: &Halting)
    requires { table.now.grammar ≡ plain_of grammar.now }
    ensures { (expected : Bool) → HasReadableNames grammar.now → HasNamesWithoutLineEnds grammar.now → (bytes : List ℕ) (file : LooseFile) (text : List ℕ) → LooseSpells bytes file → HasNoCr file → (is : IsRebased expected grammar.now automaton.now table.now file text) → (loose : LooseFile) × LooseSpells text loose × ((next : List ℕ) → IsRebased expected grammar.now automaton.now table.now loose next → next ≡ kept_entries_text grammar.now is.entries ++ is.new) }
{
    let _grammar = grammar;
    let _automaton = automaton;
    table.table().facts();
}

/// Law: if a messages file is sound, and has a sentence for each state in which some sentence fails, then its rebased
/// text has all of its sentences, each with new comment lines, and all of its messages, and nothing else.
pub fn complete_is_kept<const W: usize>(
    grammar: &Grammar,
    automaton: &Automaton<W>,
    table: &Halting,
)
    ensures { (expected : Bool) → HasReadableNames grammar.now → (bytes : List ℕ) (file : MsgFile) (loose : LooseFile) (text : List ℕ) → MsgSpells grammar.now bytes file → LooseSpells bytes loose → Sound table.now (sentences_of file) → ((s : ℕ) → Failing table.now s → (x : MsgSentence) × Contains (sentences_of file) x × FailsIn table.now x s) → IsRebased expected grammar.now automaton.now table.now loose text → AreCommented expected grammar.now automaton.now table.now (map entry_content file.entries) text }
{
    let _grammar = grammar;
    let _automaton = automaton;
    let _table = table;
}
