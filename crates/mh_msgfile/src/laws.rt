//! Laws of sentences and messages files: functions without effect whose contracts state theorems.
ghost use Rattle.std.specs.Prelude.{◌≡◌, ◌<◌, ◌⊎◌, ℕ, List, length};
ghost use Rattle.std.specs.List.{AllByRecursion};
ghost use Rattle.mh_msgfile.specs.Sentences.{IsSentence, sentence_in, vocabulary_of};
ghost use Rattle.mh_msgfile.specs.Messages.{MessagesFault, MsgSpells, HasFault};
ghost use Rattle.mh_msgfile.specs.FileTexts.{HasReadableNames, HasNoCr, HaveSameContent, file_text, sentence_text};
ghost use Rattle.mh_msgfile.specs.FreeSpacing.{IsLineOf};
ghost use Rattle.mh_msgfile.specs.declared.messages.MsgFile.{MsgFile};

use mh_grammar::Grammar;

/// Law: bytes either spell exactly one messages file or have exactly one first fault.
pub fn spelled_once(grammar: &Grammar)
    ensures file { (bytes : List ℕ) (a b : MsgFile) → MsgSpells grammar.now bytes a → MsgSpells grammar.now bytes b → a ≡ b }
    ensures fault { (bytes : List ℕ) (a b : MessagesFault) → HasFault grammar.now bytes a → HasFault grammar.now bytes b → a ≡ b }
    ensures either { (bytes : List ℕ) → ((file : MsgFile) × MsgSpells grammar.now bytes file) ⊎ ((fault : MessagesFault) × HasFault grammar.now bytes fault) }
    ensures not_both { (bytes : List ℕ) (file : MsgFile) (fault : MessagesFault) → MsgSpells grammar.now bytes file → HasFault grammar.now bytes fault → ⊥ }
{
    let _grammar = grammar;
}

/// Law: if all names are words and different, the canonical line of a sentence is read as this sentence.
pub fn canonical_is_read(grammar: &Grammar)
    ensures { HasReadableNames grammar.now → (start : ℕ) (tokens : List ℕ) → start < length grammar.now.starts → AllByRecursion (λ z. z < length grammar.now.tokens) tokens → sentence_in (vocabulary_of grammar.now) (sentence_text grammar.now start tokens) ≡ IsSentence (record { start = start; tokens = tokens }) }
{
    let _grammar = grammar;
}

/// Law: if all names are words and different, a start, a colon and names of tokens, with blanks between them, are read
/// as this sentence.
pub fn spaced_is_read(grammar: &Grammar)
    ensures { HasReadableNames grammar.now → (start : ℕ) (tokens : List ℕ) (line : List ℕ) → start < length grammar.now.starts → AllByRecursion (λ z. z < length grammar.now.tokens) tokens → IsLineOf grammar.now start tokens line → sentence_in (vocabulary_of grammar.now) line ≡ IsSentence (record { start = start; tokens = tokens }) }
{
    let _grammar = grammar;
}

/// Law: if all names are words and different, and no line of a message ends in a CR, then the text that
/// `print_messages` writes for a file that was read spells a file with the same starts, tokens and messages.
pub fn printed_again(grammar: &Grammar)
    ensures { HasReadableNames grammar.now → (bytes : List ℕ) (file : MsgFile) → MsgSpells grammar.now bytes file → HasNoCr file → (again : MsgFile) × MsgSpells grammar.now (file_text grammar.now file) again × HaveSameContent file again }
{
    let _grammar = grammar;
}
