//! Laws of the definitions. Each is the contract of an empty function.
ghost use Rattle.std.specs.Prelude.{◌≡◌};
ghost use Rattle.mh_inline.specs.Inlined.{IsInlined};
ghost use Rattle.mh_inline.specs.GrammarOfInstances.{IsGrammarOf};
ghost use Rattle.mh_inline.specs.Faults.{IsFault, IsNotMemory};

use crate::fault::InlineFault;
use mh_grammar::Grammar;
use mh_rules::Expanded;

/// Law: two grammars of the same instances are equal.
pub fn is_one_grammar(expanded: &Expanded, left: &Grammar, right: &Grammar)
    requires left { IsInlined expanded.now left.now }
    requires right { IsInlined expanded.now right.now }
    ensures { left.now ≡ right.now }
{
    let _expanded = expanded;
    let _left = left;
    let _right = right;
}

/// Law: if instances have a grammar, then the only fault that may be reported is that memory ran out.
pub fn grammar_excludes_fault(expanded: &Expanded, grammar: &Grammar, fault: &InlineFault)
    requires grammar { IsGrammarOf expanded.now grammar.now }
    requires fault { IsFault expanded.now fault.now }
    ensures { IsNotMemory fault.now → ⊥ }
{
    let _expanded = expanded;
    let _grammar = grammar;
    let _fault = fault;
}

/// Law: two faults of the same instances are equal, unless one of them reports that memory ran out.
pub fn is_one_fault(expanded: &Expanded, left: &InlineFault, right: &InlineFault)
    requires left { IsFault expanded.now left.now }
    requires right { IsFault expanded.now right.now }
    ensures { IsNotMemory left.now → IsNotMemory right.now → left.now ≡ right.now }
{
    let _expanded = expanded;
    let _left = left;
    let _right = right;
}
