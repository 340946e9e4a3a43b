//! Laws on the verdicts of a table and the sentences of its grammar (Knuth 1965). Each is the contract of an empty
//! function.
ghost use Rattle.std.specs.Prelude.{◌≡◌, ◌↔◌, ◌<◌, ◌+◌, List, ℕ, length, take};
ghost use Rattle.mh_grammar.specs.declared.types.Grammar.{Grammar};
ghost use Rattle.mh_items_kernels.specs.KernelTypes.{Automaton as AutomatonOf};
ghost use Rattle.mh_tables_core.specs.Table.{TableData};
ghost use Rattle.mh_resolve_cells.specs.declared.kinds.Mode.{Mode};
ghost use Rattle.mh_run_exact.specs.Example.{MeetsPremises};
ghost use Rattle.mh_grammar.specs.declared.types.Symbol.{Symbol};
ghost use Rattle.mh_grammar.specs.Plain.{PlainGrammar, plain_of, Derives, IsSentence, BeginsSentence};
ghost use Rattle.mh_items_kernels.specs.Automaton.{IsAutomaton};
ghost use Rattle.mh_resolve_cells.specs.NoConflicts.{HasNoConflicts};
ghost use Rattle.mh_resolve_cells.specs.States.{IsTableOf};
ghost use Rattle.mh_tables_core.specs.Run.{VerdictOf, Accepted, Overshot, Rejected};
ghost use Rattle.mh_grammar.specs.Trees.{SyntaxTree, IsTreeFor, yield_of};
ghost use Rattle.mh_tables_core.specs.TreeRuns.{IsTreeOfRead};
ghost use Rattle.mh_run_exact.specs.Exactness.{IsPrefixSentence, AllProductive};

use mh_grammar::Grammar;
use mh_items_kernels::Automaton;
use mh_resolve_cells::Mode;
use mh_tables_core::Table;

/// Law: if a run accepts, on any table, then it has one tree, which is a tree of the start symbol for the tokens read,
/// and these tokens are a sentence.
pub fn accepts_with_tree(table: &Table)
    ensures tree { (start : ℕ) (w : List ℕ) (read : ℕ) → start < length table.now.grammar.starts → VerdictOf table.now start w (Accepted read) → (tree : SyntaxTree) × IsTreeOfRead table.now start w read tree }
    ensures sentence { (start : ℕ) (w : List ℕ) (read : ℕ) → start < length table.now.grammar.starts → VerdictOf table.now start w (Accepted read) → IsPrefixSentence table.now.grammar start w read }
{
    table.facts();
}

/// Law: a tree of a grammar for a symbol is a derivation of its yield from the symbol.
pub fn trees_derive()
    ensures { (g : PlainGrammar) (tree : SyntaxTree) (x : Symbol) → IsTreeFor g x tree → Derives g x (yield_of tree) }
{}

/// Law: if a table belongs to an automaton, with or without conflicts, and each nonterminal derives some word, then the
/// tokens of each run that overshoots (asks for a token after the last one) begin a sentence.
pub fn overshoots_in_sentences<const W: usize>(
    grammar: &Grammar,
    automaton: &Automaton<W>,
    mode: Mode,
    table: &Table,
)
    requires automaton { IsAutomaton (plain_of grammar.now) automaton.now }
    requires table { IsTableOf grammar.now automaton.now mode table.now }
    requires productive { AllProductive (plain_of grammar.now) }
    ensures { (start : ℕ) (w : List ℕ) (s : ℕ) → start < length grammar.now.starts → VerdictOf table.now start w (Overshot s) → BeginsSentence (plain_of grammar.now) start w }
{
    let _grammar = grammar;
    let _automaton = automaton;
    let _mode = mode;
    table.facts();
}

/// Law: the verdicts on a table without conflicts are exact. A run accepts all tokens if and only if they are a
/// sentence, and accepts after the first n tokens if and only if these are a sentence. At most one prefix of the tokens
/// is a sentence. The tokens up to and including a refused one begin no sentence.
pub fn verdicts_are_exact<const W: usize>(
    grammar: &Grammar,
    automaton: &Automaton<W>,
    mode: Mode,
    table: &Table,
)
    requires automaton { IsAutomaton (plain_of grammar.now) automaton.now }
    requires table { IsTableOf grammar.now automaton.now mode table.now }
    requires no_conflicts { HasNoConflicts grammar.now automaton.now }
    ensures accepted { (start : ℕ) (w : List ℕ) → start < length grammar.now.starts → VerdictOf table.now start w (Accepted (length w)) ↔ IsSentence (plain_of grammar.now) start w }
    ensures prefix { (start : ℕ) (w : List ℕ) (read : ℕ) → start < length grammar.now.starts → VerdictOf table.now start w (Accepted read) ↔ IsPrefixSentence (plain_of grammar.now) start w read }
    ensures unique { (start : ℕ) (w : List ℕ) (j k : ℕ) → start < length grammar.now.starts → IsPrefixSentence (plain_of grammar.now) start w j → IsPrefixSentence (plain_of grammar.now) start w k → j ≡ k }
    ensures refused { (start : ℕ) (w : List ℕ) (at s : ℕ) → start < length grammar.now.starts → VerdictOf table.now start w (Rejected at s) → BeginsSentence (plain_of grammar.now) start (take (at + 1) w) → ⊥ }
{
    let _grammar = grammar;
    let _automaton = automaton;
    let _mode = mode;
    table.facts();
}

/// Law: the premises of these laws can be satisfied. There is a grammar with an automaton and a table that has a
/// sentence and no conflicts.
pub fn some_clean_table()
    ensures { (g : Grammar) × (a : AutomatonOf) × (mode : Mode) × (t : TableData) × MeetsPremises g a mode t }
{}
