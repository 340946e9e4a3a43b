//! The productions that a run has reduced since its last shift.
ghost use Rattle.std.specs.Prelude.{IfOk};
ghost use Rattle.mh_tables_core.specs.Sentences.{FitsTable};
ghost use Rattle.mh_run.specs.Trace.{TraceOf};
ghost use Rattle.mh_run.specs.Verdicts.{ending_for};

use crate::observer::RunObserver;
use crate::outcome::Verdict;
use crate::runs::run;
use mh_grammar::{Memory, Token};
use mh_tables_core::Halting;
use std::alloc::Global;
use std::marker::Model;

/// The observer that collects the productions reduced since the last shift.
#[derive(Drop)]
struct SinceShift {
    productions: Vec<u32>,
}

impl Model for SinceShift {
    ghost use Rattle.std.specs.Prelude.{List, ℕ};

    ghost Value = { List ℕ };

    ghost view = { λ s. s.productions.items };
}

impl RunObserver for SinceShift {
    ghost use Rattle.std.specs.Prelude.{[], ◌∷◌, ◌++◌};

    ghost following = { record { shifted = λ ps z. []; reduced = λ ps m p. ps ++ p ∷ [] } };

    fn shift(&mut self, _: Token) -> Result<(), Memory> {
        self.productions.clear();
        Ok(())
    }

    fn reduce(&mut self, _: usize, production: u32) -> Result<(), Memory> {
        self.productions.push(production)?;
        Ok(())
    }
}

/// The verdict on a sentence of fewer than 2^32 tokens from the start symbol with this number, and the productions
/// reduced since the last shift, in order. Fails only if memory runs out.
pub fn trace(
    alloc: Global,
    table: &Halting,
    start: u16,
    sentence: &[Token],
) -> Result<(Verdict, Vec<u32>), Memory>
    requires { FitsTable table.now start sentence.now }
    ensures { IfOk result (λ traced. TraceOf table.now start sentence.now (ending_for traced.0) traced.1.items) }
{
    let mut since = SinceShift {
        productions: Vec::new(alloc),
    };
    let verdict = run(alloc, table, start, sentence, &mut since)?;
    Ok((verdict, since.productions))
}
