//! The mode of `--session`: each line of the input is a command on the named branches of a parser.
ghost use Rattle.std.specs.Prelude.{◌≡◌, ◌≤◌, []};
ghost use Rattle.mh_grammar.specs.Plain.{plain_of};
ghost use Rattle.mh_msgfile.specs.Sentences.{vocabulary_in, vocabulary_of};
ghost use Rattle.mh_session_branches.specs.Answers.{Branches};
ghost use Rattle.mh_session.specs.Represents.{Represents};
ghost use Rattle.mh_top_drive.specs.code.ModeCalls.{InputAndOutCounts};
ghost use Rattle.mh_top_plans.specs.code.Modes.{OpenedAndRan, Opens};
ghost use Rattle.mh_top_plans.specs.Plan.{Serves};
ghost use Rattle.mh_top_drive.specs.code.Prepared.{IsConsistent};
ghost use Rattle.mh_top_modes.specs.code.Running.{MayRun};

use mh_grammar::{Grammar, Memory};
use mh_msgfile::Lexicon;
use mh_outside::{Sink, Source};
use mh_session::{Session, answer_line};
use mh_top_drive::{Asks, Mode, Prepared, Stop, drive_opened};
use std::alloc::Global;

/// The mode of `--session`: the session, and the names by which lines are read.
#[derive(Drop)]
struct Serving<'a> {
    grammar: &'a Grammar,
    lexicon: Lexicon,
    session: Session<'a>,
    ghost names: { vocabulary_in lexicon ≡ vocabulary_of grammar.now },
    ghost same: { session.table.grammar ≡ plain_of grammar.now },
}

impl<'a> Mode for Serving<'a> {
    ghost use Rattle.std.specs.Prelude.{◌≡◌};
    ghost use Rattle.mh_session_branches.specs.Answers.{Branches};
    ghost use Rattle.mh_session.specs.Represents.{Represents};
    ghost use Rattle.mh_top_plans.specs.Plan.{Plan, plan_behavior, Serves};

    ghost State = { Plan };

    ghost behavior = { plan_behavior };

    ghost Is = { λ s plan. (branches : Branches) × Represents s.session branches × (plan ≡ Serves s.grammar.now s.session.table branches) };

    fn asks(&self) -> Asks {
        Asks::EachLine
    }

    fn answer(&mut self, alloc: Global, line: &[u8]) -> Result<Vec<u8>, Memory> {
        answer_line(alloc, self.grammar, &self.lexicon, &mut self.session, line)
    }

    fn end<O: Sink>(self, _alloc: Global, _out: &mut O) -> Result<(), Stop> {
        Ok(())
    }
}

/// Opens the mode, with a session without names.
fn serve_on<'a, const W: usize>(
    alloc: Global,
    prepared: &'a Prepared<W>,
) -> Result<Serving<'a>, Stop>
    requires few { W ≤ 8 }
    requires consistent { IsConsistent prepared.now }
    ensures { Opens (λ by plan. (branches : Branches) × Represents by.session branches × (plan ≡ Serves by.grammar.now by.session.table branches))
        (λ plan. plan ≡ Serves prepared.now.grammar prepared.now.tabled.halting [])
        (λ name. ⊥) result }
{
    let grammar = &prepared.grammar;
    match Lexicon::new(alloc, grammar) {
        Ok(lexicon) => Ok(Serving {
            grammar,
            lexicon,
            session: Session::new(alloc, &prepared.tabled.halting),
        }),
        Err(_) => Err(Stop::OutOfMemory),
    }
}

/// Runs the mode that answers each line of the input as a command of a session.
pub fn run_session<I: Source, O: Sink, const W: usize>(
    alloc: Global,
    prepared: &Prepared<W>,
    input: &mut I,
    out: &mut O,
) -> Result<(), Stop>
    requires { MayRun W prepared.now (I.MayRead input.old) (O.MayWrite out.old) }
    ensures ran { OpenedAndRan (λ plan. plan ≡ Serves prepared.now.grammar prepared.now.tabled.halting []) (λ name. ⊥)
        (I.left input.old) (I.left input.new) (O.written out.old) (O.written out.new) result }
    ensures counts { InputAndOutCounts (I.faults input.old) (I.faults input.new)
        (O.faults out.old) (O.faults out.new) result }
{
    let opened = serve_on(alloc, prepared);
    drive_opened(alloc, opened, input, out)
}
