//! The stages in sequence: joining, expansion, inlining.
ghost use Rattle.std.specs.Prelude.{◌≤◌, length, IfOk, IfErr};
ghost use Rattle.mh_grammar.specs.Costs.{HaveCosts};
ghost use Rattle.mh_grammar.specs.Numbering.{AreDistinct};
ghost use Rattle.mh_grammar.specs.Plain.{plain_of, IsInRange};
ghost use Rattle.mh_rules.specs.Ready.{AreModulesReady, IsJoinedReady};
ghost use Rattle.mh_front.specs.Stages.{HasCauseOrMemory, IsGrammarOfJoined, IsGrammarOfModules, IsJoinedFault, IsGrammarFault};
ghost use Rattle.mh_front.specs.Sentences.{HasSentencesOfModules};
ghost use Rattle.mh_rules.specs.Limits.{max_tokens};

use crate::fault::GrammarFault;
use mh_expand::expand;
use mh_grammar::Grammar;
use mh_inline::inline_rules;
use mh_join::join;
use mh_rules::{Joined, Module};
use std::alloc::Global;

/// Returns the grammar of joined rules. The rules are dropped when they are expanded.
fn grammar_of_joined(alloc: Global, joined: Joined) -> Result<Grammar, GrammarFault>
    requires { IsJoinedReady joined }
    ensures grammar { IfOk result (IsGrammarOfJoined joined) }
    ensures fault { IfErr result (HasCauseOrMemory (IsJoinedFault joined)) }
{
    match expand(alloc, &joined) {
        Ok(expanded) => {
            drop(joined);
            match inline_rules(alloc, &expanded) {
                Ok(grammar) => Ok(grammar),
                Err(fault) => Err(GrammarFault::from(fault)),
            }
        }
        Err(fault) => Err(GrammarFault::from(fault)),
    }
}

/// Returns the grammar of the modules of a grammar's files, with the prelude or without. The modules are joined, each
/// rule that the starts reach is expanded to its instances, and inline instances are replaced by their alternatives.
/// Each start symbol has the sentences of the joined rules, with their formals replaced.
///
/// The modules are dropped when they are joined, since they can take more memory than all that is made of them.
///
/// # Errors
///
/// The fault of the first stage that has one, and `Memory` if memory runs out.
pub fn grammar_of(
    alloc: Global,
    modules: Vec<Module>,
    prelude: bool,
) -> Result<Grammar, GrammarFault>
    requires { AreModulesReady modules.items }
    ensures grammar { IfOk result (IsGrammarOfModules prelude modules.items) }
    ensures fault { IfErr result (HasCauseOrMemory (IsGrammarFault prelude modules.items)) }
    ensures tokens { IfOk result (λ g. length g.tokens ≤ max_tokens) }
    ensures range { IfOk result (λ g. IsInRange (plain_of g)) }
    ensures costs { IfOk result (λ g. HaveCosts g.tokens) }
    ensures distinct { IfOk result (λ g. AreDistinct g.starts) }
    ensures sentences { IfOk result (HasSentencesOfModules prelude modules.items) }
{
    match join(alloc, modules.as_slice(), prelude) {
        Ok(joined) => {
            drop(modules);
            grammar_of_joined(alloc, joined)
        }
        Err(fault) => Err(GrammarFault::from(fault)),
    }
}
