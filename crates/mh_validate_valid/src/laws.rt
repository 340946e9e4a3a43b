//! Laws of validity, as functions that do nothing and whose contracts state the laws.
ghost use Rattle.std.specs.Prelude.{◌≡◌, ◌<◌, ◌^◌, ℕ, List, Option, length};
ghost use Rattle.mh_grammar.specs.Plain.{plain_of};
ghost use Rattle.mh_items_kernels.specs.KernelTypes.{Automaton as AutomatonOf};
ghost use Rattle.mh_items_kernels.specs.Automaton.{IsAutomaton};
ghost use Rattle.mh_tables_core.specs.declared.parts.StateParts.{StateParts};
ghost use Rattle.mh_resolve_cells.specs.States.{AreResolved};
ghost use Rattle.mh_tabfile_form.specs.TableContent.{raw_of};
ghost use Rattle.mh_validate_valid.specs.declared.reason.Reason.{Reason as ReasonOf};
ghost use Rattle.mh_validate_valid.specs.Valid.{IsValid, IsValidFor, IsInvalidAt, AreTokenNamesDistinct};

use mh_grammar::Grammar;
use mh_items_kernels::Automaton;
use mh_resolve_cells::Mode;
use mh_tabfile_form::RawTable;

/// A valid file spells an automaton of the grammar, with the actions that conflict resolution gives for its states.
pub fn valid_is_automaton(grammar: &Grammar, raw: &RawTable)
    requires { length raw.now.states < 2 ^ 32 }
    ensures automaton { (a : AutomatonOf) (parts : List StateParts) → IsValidFor grammar.now raw.now a parts → IsAutomaton (plain_of grammar.now) a }
    ensures resolved { (a : AutomatonOf) (parts : List StateParts) → IsValidFor grammar.now raw.now a parts → AreResolved grammar.now a raw.now.mode parts }
{
    let _grammar = grammar;
    let _raw = raw;
}

/// The written table file of an automaton and its table is valid.
pub fn written_is_valid<const W: usize>(grammar: &Grammar, automaton: &Automaton<W>, mode: Mode)
    requires { IsAutomaton (plain_of grammar.now) automaton.now }
    ensures { (parts : List StateParts) → AreResolved grammar.now automaton.now mode parts → IsValidFor grammar.now (raw_of grammar.now automaton.now mode parts) automaton.now parts }
{
    let _grammar = grammar;
    let _automaton = automaton;
    let _mode = mode;
}

/// A valid file does not fail any test.
pub fn valid_is_not_invalid(grammar: &Grammar, raw: &RawTable)
    requires { AreTokenNamesDistinct grammar.now }
    ensures { IsValid grammar.now raw.now → (state : Option ℕ) (reason : ReasonOf) → IsInvalidAt grammar.now raw.now state reason → ⊥ }
{
    let _grammar = grammar;
    let _raw = raw;
}

/// A valid file names one automaton. The first failing test of any other file is unique.
pub fn validity_is_unique(grammar: &Grammar, raw: &RawTable)
    requires { AreTokenNamesDistinct grammar.now }
    ensures automaton { (a b : AutomatonOf) (ps qs : List StateParts) → IsValidFor grammar.now raw.now a ps → IsValidFor grammar.now raw.now b qs → a ≡ b }
    ensures test { (s t : Option ℕ) (r q : ReasonOf) → IsInvalidAt grammar.now raw.now s r → IsInvalidAt grammar.now raw.now t q → (s ≡ t) × (r ≡ q) }
{
    let _grammar = grammar;
    let _raw = raw;
}
