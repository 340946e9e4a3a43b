//! Laws of every automaton of a grammar, and of every merged automaton.
ghost use Rattle.mh_pager.specs.ReachedConflicts.{ReachesConflict, ReachesAnyConflict};
ghost use Rattle.mh_items_kernels.specs.KernelTypes.{Automaton as AutomatonOf};
ghost use Rattle.mh_items_kernels.specs.Conflicts.{AutomatonHasConflict, AutomatonHasAnyConflict};
ghost use Rattle.mh_canon.specs.Canonical.{IsCanonical};
ghost use Rattle.std.specs.Prelude.{◌≡◌, ◌<◌, ◌^◌, ◌↔◌, length};
ghost use Rattle.mh_grammar.specs.Plain.{plain_of, PlainGrammar};
ghost use Rattle.mh_items_kernels.specs.Automaton.{IsAutomaton};
ghost use Rattle.mh_pager.specs.CoversPaths.{CoversPaths};
ghost use Rattle.mh_pager.specs.MergeSteps.{IsMerged};

use mh_grammar::Grammar;
use mh_items_kernels::Automaton;

/// Law: each path of the canonical collection is a path of any automaton of the grammar, to a state that contains the
/// collection's items.
pub fn covers_canonical_paths<const W: usize>(grammar: &Grammar, automaton: &Automaton<W>)
    requires { IsAutomaton (plain_of grammar.now) automaton.now }
    ensures { CoversPaths (plain_of grammar.now) automaton.now }
{
    let _grammar = grammar;
    let _automaton = automaton;
}

/// Law: two merged automata of one grammar are equal, with the same numbers and the same order of edges, whatever the
/// widths of their lookahead sets.
pub fn is_one_merged<const V: usize, const W: usize>(
    grammar: &Grammar,
    left: &Automaton<V>,
    right: &Automaton<W>,
)
    requires left { IsMerged (plain_of grammar.now) left.now }
    requires right { IsMerged (plain_of grammar.now) right.now }
    ensures { left.now ≡ right.now }
{
    let _grammar = grammar;
    let _left = left;
    let _right = right;
}

/// Law: merging adds no conflict. A merged automaton has a conflict exactly if a path from a start reaches an item set
/// with a conflict, and so does the canonical automaton.
pub fn merging_adds_no_conflict()
    ensures merged { (g : PlainGrammar) (a : AutomatonOf) → IsMerged g a → length a.kernels < 2 ^ 32 →
        (AutomatonHasConflict g a ↔ ReachesConflict g) × (AutomatonHasAnyConflict g a ↔ ReachesAnyConflict g) }
    ensures canonical { (g : PlainGrammar) (c : AutomatonOf) → IsCanonical g c →
        (AutomatonHasConflict g c ↔ ReachesConflict g) × (AutomatonHasAnyConflict g c ↔ ReachesAnyConflict g) }
{}
