//! Laws of messages files brought up to date: functions without effect whose contracts state theorems.
ghost use Rattle.std.specs.Prelude.{◌≡◌, ◌⊎◌, Bool, List, ℕ, length};
ghost use Rattle.mh_grammar.specs.Plain.{plain_of};
ghost use Rattle.mh_items_kernels.specs.Automaton.{IsAutomaton};
ghost use Rattle.mh_msgfile.specs.Messages.{AreSentencesOf, MsgSpells};
ghost use Rattle.mh_check.specs.Checks.{SoundnessFault, sentences_of};
ghost use Rattle.mh_msgfile.specs.FileTexts.{HaveSameContent};
ghost use Rattle.mh_msgfile.specs.declared.messages.MsgFile.{MsgFile};
ghost use Rattle.mh_update.specs.NoLineEnds.{HasNamesWithoutLineEnds, HasNoCrAtEnds};
ghost use Rattle.mh_update.specs.Updates.{FirstUnfit, IsUpdated};
ghost use Rattle.mh_msgfile.specs.declared.messages.MsgSentence.{MsgSentence};

use mh_grammar::Grammar;
use mh_items_kernels::Automaton;
use mh_tables_core::Halting;

/// Law: the updated text of a file is unique. If no name contains LF or CR and no line of the file ends in a CR, this
/// text is read as a file with the same sentences and messages, and a second update changes no byte.
pub fn updated_again<const W: usize>(grammar: &Grammar, automaton: &Automaton<W>, table: &Halting)
    ensures once { (expected : Bool) (file : MsgFile) (x y : List ℕ) → IsUpdated expected grammar.now automaton.now table.now file x → IsUpdated expected grammar.now automaton.now table.now file y → x ≡ y }
    ensures again { HasNamesWithoutLineEnds grammar.now → (expected : Bool) (bytes text : List ℕ) (file : MsgFile) → MsgSpells grammar.now bytes file → HasNoCrAtEnds file → IsUpdated expected grammar.now automaton.now table.now file text → (again : MsgFile) × MsgSpells grammar.now text again × HaveSameContent file again × IsUpdated expected grammar.now automaton.now table.now again text }
{
    let _grammar = grammar;
    let _automaton = automaton;
    table.table().facts();
}

/// Law: a file with starts and tokens of the table either is brought up to date or has exactly one first sentence that
/// does not fail at its last token.
pub fn updated_or_unfit<const W: usize>(
    grammar: &Grammar,
    automaton: &Automaton<W>,
    table: &Halting,
)
    ensures fault { (xs : List MsgSentence) (a b : SoundnessFault) → FirstUnfit table.now xs a → FirstUnfit table.now xs b → a ≡ b }
    ensures not_both { (expected : Bool) (file : MsgFile) (text : List ℕ) (fault : SoundnessFault) → IsUpdated expected grammar.now automaton.now table.now file text → FirstUnfit table.now (sentences_of file) fault → ⊥ }
    ensures either { IsAutomaton (plain_of grammar.now) automaton.now → length table.now.states ≡ length automaton.now.kernels → (expected : Bool) (file : MsgFile) → AreSentencesOf (length table.now.grammar.starts) table.now.grammar.tokens file → ((text : List ℕ) × IsUpdated expected grammar.now automaton.now table.now file text) ⊎ ((fault : SoundnessFault) × FirstUnfit table.now (sentences_of file) fault) }
{
    let _grammar = grammar;
    let _automaton = automaton;
    let _facts = table.table();
}
