//! Laws that modules have one grammar or one first fault, each the contract of an empty function.
ghost use Rattle.mh_rules.specs.declared.modules.Module.{Module as ModuleOf};
ghost use Rattle.mh_rules.specs.declared.joined.Joined.{Joined};
ghost use Rattle.mh_rules.specs.declared.instances.Expanded.{Expanded};
ghost use Rattle.mh_rules.specs.Ready.{AreModulesReady, IsExpandedReady};
ghost use Rattle.mh_join_names.specs.declared.fault.JoinFault.{JoinFault};
ghost use Rattle.mh_join_names.specs.Joining.{Joins};
ghost use Rattle.mh_join_names.specs.Faults.{first, join_faults};
ghost use Rattle.mh_inline.specs.declared.fault.InlineFault.{InlineFault};
ghost use Rattle.mh_inline.specs.GrammarOfInstances.{IsGrammarOf};
ghost use Rattle.mh_inline.specs.Faults.{IsFault, IsNotMemory};
ghost use Rattle.mh_grammar.specs.NotLacking.{NotLacking};
ghost use Rattle.mh_grammar.specs.declared.types.Grammar.{Grammar as GrammarOf};
ghost use Rattle.mh_expand.specs.declared.fault.ExpandFault.{ExpandFault};
ghost use Rattle.mh_expand.specs.Expansion.{IsExpanded, IsFirstFault};
ghost use Rattle.std.specs.Prelude.{◌≡◌, ◌⊎◌, Bool, List, Ok, Some};
ghost use Rattle.mh_front.specs.declared.fault.GrammarFault.{GrammarFault};
ghost use Rattle.mh_front.specs.Stages.{IsGrammarFault, IsGrammarOfModules};

use crate::fault::GrammarFault;
use mh_grammar::Grammar;
use mh_rules::Module;

/// Law: two grammars of the same modules are equal.
pub fn is_one_grammar(modules: &[Module], prelude: bool, left: &Grammar, right: &Grammar)
    requires left { IsGrammarOfModules prelude modules.now left.now }
    requires right { IsGrammarOfModules prelude modules.now right.now }
    ensures { left.now ≡ right.now }
{
    let _modules = modules;
    let _prelude = prelude;
    let _left = left;
    let _right = right;
}

/// Law: two first faults of the same modules are equal.
pub fn is_one_fault(modules: &[Module], prelude: bool, left: &GrammarFault, right: &GrammarFault)
    requires left { IsGrammarFault prelude modules.now left.now }
    requires right { IsGrammarFault prelude modules.now right.now }
    ensures { left.now ≡ right.now }
{
    let _modules = modules;
    let _prelude = prelude;
    let _left = left;
    let _right = right;
}

/// Law: modules with a grammar have no fault.
pub fn grammar_excludes_fault(modules: &[Module], prelude: bool, grammar: &Grammar)
    requires { IsGrammarOfModules prelude modules.now grammar.now }
    ensures { (fault : GrammarFault) → IsGrammarFault prelude modules.now fault → ⊥ }
{
    let _modules = modules;
    let _prelude = prelude;
    let _grammar = grammar;
}

/// Law: modules are joined or have a first fault, and joined rules are expanded or have a first fault. An expansion has
/// a grammar or a first fault, and so do modules in range. The last two clauses are double negations (`NotLacking`).
pub fn some_grammar_or_fault()
    ensures joined { (prelude : Bool) (modules : List ModuleOf) →
        ((joined : Joined) × Joins prelude modules (Ok joined)) ⊎ ((fault : JoinFault) × (first (join_faults prelude modules) ≡ Some fault)) }
    ensures expanded { (j : Joined) → ((e : Expanded) × IsExpanded j e) ⊎ ((fault : ExpandFault) × IsFirstFault j fault) }
    ensures inlined { (e : Expanded) → IsExpandedReady e →
        NotLacking (((g : GrammarOf) × IsGrammarOf e g) ⊎ ((fault : InlineFault) × IsNotMemory fault × IsFault e fault)) }
    ensures grammar { (prelude : Bool) (modules : List ModuleOf) → AreModulesReady modules →
        NotLacking (((g : GrammarOf) × IsGrammarOfModules prelude modules g) ⊎ ((fault : GrammarFault) × IsGrammarFault prelude modules fault)) }
{}
