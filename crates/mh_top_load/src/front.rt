//! From an order to its grammar: its modules, and their grammar.
//! Nothing is written, and nothing of the input is read.
ghost use Rattle.std.specs.Prelude.{◌≡◌, ◌<◌, ◌≤◌, List, ℕ, length, IfOk};
ghost use Rattle.std.specs.List.{All};
ghost use Rattle.mh_grammar.specs.Costs.{HaveCosts};
ghost use Rattle.mh_grammar.specs.Plain.{plain_of, IsInRange};
ghost use Rattle.mh_opts.specs.Orders.{IsWithinLimits};
ghost use Rattle.mh_top_drive.specs.NextFile.{IsNextFile};
ghost use Rattle.mh_top_load.specs.GrammarNames.{HasFileNames};
ghost use Rattle.mh_top_drive.specs.code.StageCalls.{FileStageGives, StageShelfCounts};
ghost use Rattle.mh_top_load.specs.GrammarFile.{IsModule};
ghost use Rattle.mh_top_load.specs.Modules.{grammar_files};
ghost use Rattle.mh_top_load.specs.OrderAndGrammar.{IsWithGrammar};
ghost use Rattle.mh_validate_valid.specs.Valid.{AreTokenNamesDistinct};
ghost use Rattle.mh_rules.specs.Limits.{max_tokens};

use crate::grammar::grammar_in;
use crate::modules::modules_of;
use mh_opts::Order;
use mh_outside::Shelf;
use mh_top_drive::{OrderAndGrammar, Stop};
use std::alloc::Global;

/// Gives an order with its grammar. Reads the grammar files of the order.
pub fn with_grammar<F: Shelf>(
    alloc: Global,
    order: Order,
    shelf: &mut F,
) -> Result<OrderAndGrammar, Stop>
    requires asked { All (F.MayAsk shelf.old) (grammar_files order) }
    requires limits { IsWithinLimits order.job }
    ensures front { FileStageGives (IsWithGrammar order (F.files shelf.old))
        (IsNextFile (F.files shelf.old) IsModule (grammar_files order)) result }
    ensures order { IfOk result (λ front. order ≡ front.order) }
    ensures range { IfOk result (λ front. IsInRange (plain_of front.grammar)) }
    ensures start { IfOk result (λ front. 0 < length front.grammar.starts) }
    ensures limits { IfOk result (λ front. IsWithinLimits front.order.job) }
    ensures costs { IfOk result (λ front. HaveCosts front.grammar.tokens) }
    ensures tokens { IfOk result (λ front. length front.grammar.tokens ≤ max_tokens) }
    ensures distinct_names { IfOk result (λ front. AreTokenNamesDistinct front.grammar) }
    ensures names { IfOk result (λ front. HasFileNames front.grammar) }
    ensures may_ask { IfOk result (λ _. (other : List ℕ) → F.MayAsk shelf.old other → F.MayAsk shelf.new other) }
    ensures kept { F.files shelf.new ≡ F.files shelf.old }
    ensures counts { StageShelfCounts (F.faults shelf.old) (F.faults shelf.new) result }
{
    let modules = match modules_of(alloc, shelf, &order) {
        Ok(modules) => modules,
        Err(stop) => return Err(stop),
    };
    match grammar_in(alloc, modules, order.stdlib) {
        Ok(grammar) => Ok(OrderAndGrammar { order, grammar }),
        Err(stop) => Err(stop),
    }
}
