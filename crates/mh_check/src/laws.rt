//! Laws of messages files on a table: a function without effect whose contract states theorems.
ghost use Rattle.std.specs.Prelude.{◌≡◌, ◌⊎◌, List, ℕ, Option, length};
ghost use Rattle.mh_check.specs.Checks.{SoundnessFault, FirstFault, Sound, sentences_of};
ghost use Rattle.mh_check.specs.Compiling.{IsCompiled};
ghost use Rattle.mh_msgfile.specs.Messages.{AreSentencesOf};
ghost use Rattle.mh_msgfile.specs.declared.messages.MsgSentence.{MsgSentence};
ghost use Rattle.mh_msgfile.specs.declared.messages.MsgFile.{MsgFile};

use mh_tables_core::Halting;

/// Law: sentences are either sound or have exactly one first fault, and a file with starts and tokens of the table is
/// compiled to exactly one list of messages or has a first fault.
pub fn checked_once(table: &Halting)
    ensures fault { (xs : List MsgSentence) (a b : SoundnessFault) → FirstFault table.now xs a → FirstFault table.now xs b → a ≡ b }
    ensures not_both { (xs : List MsgSentence) (fault : SoundnessFault) → Sound table.now xs → FirstFault table.now xs fault → ⊥ }
    ensures either { (file : MsgFile) → AreSentencesOf (length table.now.grammar.starts) table.now.grammar.tokens file → ((messages : List (Option (List ℕ))) × IsCompiled table.now file messages) ⊎ ((fault : SoundnessFault) × FirstFault table.now (sentences_of file) fault) }
    ensures messages { (file : MsgFile) (a b : List (Option (List ℕ))) → IsCompiled table.now file a → IsCompiled table.now file b → a ≡ b }
{
    let _facts = table.table();
}
