//! Sessions: named checkpoints of one table.
ghost use Rattle.std.specs.Prelude.{◌≡◌, ◌↔◌, ◌<◌, All, IsTrue, [], length, IfOk, IfErr, IfSome, OnOk, OnErr, Some, Ok, Err, ◌⊎◌};
ghost use Rattle.std.specs.Option.{option_copied};
ghost use Rattle.mh_engine.specs.Phases.{phase_of, CanResume};
ghost use Rattle.mh_session_branches.specs.declared.reply.Reply.TheVariants as replies;
ghost use Rattle.mh_session_branches.specs.declared.reply.SessionFault.TheVariants as faults;
ghost use Rattle.mh_session_branches.specs.Names.{at_name};
ghost use Rattle.mh_session.specs.code.ChangesName.{ChangesName};
ghost use Rattle.mh_session_branches.specs.Answers.{IsCommandOf, Branches, IsAnswer, AreBranchesAfter};
ghost use Rattle.mh_session.specs.Represents.{Represents};
ghost use Rattle.mh_session.specs.Served.{IsServed};
ghost use Rattle.mh_session_branches.specs.declared.command.Command.TheVariants as commands;

use mh_engine::{Checkpoint, Fed, Phase, ResumeFault, begin};
use mh_expected::expected_at;
use mh_grammar::{Name, Sequence, Token};
use mh_session_branches::{Command, Reply, SessionFault};
use mh_tables_core::Halting;
use std::alloc::Global;
use std::collections::HashMap;
use std::marker::Model;

/// A session: branches of runs of one table, each with a name.
#[derive(Drop)]
pub struct Session<'t> {
    alloc: Global,
    table: &'t Halting,
    branches: HashMap<Name, Checkpoint<'t>>,
}

impl<'t> Model for Session<'t> {
    ghost use Rattle.mh_session.specs.SessionState.{SessionState};

    ghost Value = { SessionState };

    ghost use Rattle.mh_engine.specs.code.Pairs.{pairs_code};
    ghost use Rattle.std.specs.Coded.{codes};

    ghost coded = { Prim.hlevel (codes, pairs_code) };

    ghost view = { λ s. record { table = s.table.now; held = s.branches.entries } };

    ghost use Rattle.mh_session.specs.code.ChangesName.{HaveTable};

    ghost invariant = { λ s. HaveTable s.table.now s.branches.entries };
}

impl<'t> Session<'t> {
    /// Makes a session with no names.
    pub fn new(alloc: Global, table: &'t Halting) -> Session<'t>
        ensures { result ≡ record { table = table.now; held = [] } }
    {
        Session {
            alloc,
            table,
            branches: HashMap::new(alloc),
        }
    }

    /// Gives a name a checkpoint, and returns the phase of the checkpoint.
    fn put_checkpoint(
        &mut self,
        name: &Name,
        checkpoint: Checkpoint<'t>,
    ) -> Result<Phase, SessionFault>
        requires { checkpoint.table ≡ self.old.table }
        ensures phase { IfOk result (λ phase. phase ≡ phase_of checkpoint.entry) }
        ensures fault { IfErr result (λ f. f ≡ faults.Memory) }
        ensures put { OnOk result (ChangesName self.old name.now (Some checkpoint.entry) self.new) }
        ensures same { OnErr result (self.new ≡ self.old) }
    {
        let phase = checkpoint.phase();
        let name = name.clone()?;
        self.branches.insert(name, checkpoint)?;
        Ok(phase)
    }

    /// Gives a name a checkpoint, and replies with the phase of the checkpoint.
    fn put(&mut self, name: &Name, checkpoint: Checkpoint<'t>) -> Result<Reply, SessionFault>
        requires { checkpoint.table ≡ self.old.table }
        ensures reply { IfOk result (λ r. r ≡ replies.Phase (phase_of checkpoint.entry)) }
        ensures fault { IfErr result (λ f. f ≡ faults.Memory) }
        ensures put { OnOk result (ChangesName self.old name.now (Some checkpoint.entry) self.new) }
        ensures same { OnErr result (self.new ≡ self.old) }
    {
        match self.put_checkpoint(name, checkpoint) {
            Ok(phase) => Ok(Reply::Phase(phase)),
            Err(fault) => Err(fault),
        }
    }

    /// The checkpoint of a name, if the session has the name.
    fn find(&self, name: &Name) -> Option<&Checkpoint<'t>>
        ensures found { option_copied result ≡ at_name name.now self.now.held }
        ensures table { IfSome result (λ c. c.now.table ≡ self.now.table) }
    {
        self.branches.get(name)
    }

    /// Executes a command, and returns the reply. A refused command changes nothing.
    pub fn step(&mut self, command: &Command) -> Result<Reply, SessionFault>
        requires { IsCommandOf self.old.table command.now }
        ensures served { IsServed self.old command.now self.new result }
        ensures reply { IfOk result (λ r. (bs : Branches) → Represents self.old bs → IsAnswer self.old.table bs command.now (Ok r)) }
        ensures next { OnOk result ((bs : Branches) → Represents self.old bs → (after : Branches) × AreBranchesAfter self.old.table bs command.now after × Represents self.new after) }
        ensures same { OnErr result (self.new ≡ self.old) }
        ensures fault { IfErr result (λ f. (f ≡ faults.Memory) ⊎ ((bs : Branches) → Represents self.old bs → IsAnswer self.old.table bs command.now (Err f))) }
        ensures table { self.new.table ≡ self.old.table }
    {
        self.serve(command)
    }

    /// Executes a command by the method for its kind.
    fn serve(&mut self, command: &Command) -> Result<Reply, SessionFault>
        requires { IsCommandOf self.old.table command.now }
        ensures { IsServed self.old command.now self.new result }
    {
        match command {
            Command::Begin { name, start } => self.begin(name, *start),
            Command::Offer { name, token } => self.offer(name, *token),
            Command::Feed { name, tokens } => self.feed(name, tokens.as_slice()),
            Command::Resume { name } => self.resume(name),
            Command::Fork { name, fresh } => self.fork(name, fresh),
            Command::Show { name } => self.show(name),
            Command::Stack { name } => self.stack(name),
            Command::Tree { name } => self.tree(name),
            Command::Expected { name } => self.expected(name),
            Command::Forget { name } => self.forget(name),
        }
    }

    fn begin(&mut self, name: &Name, start: u16) -> Result<Reply, SessionFault>
        requires { start < length self.old.table.grammar.starts }
        ensures { IsServed self.old (commands.Begin name.now start) self.new result }
    {
        if self.find(name).is_some() {
            return Err(SessionFault::NameTaken);
        }
        let checkpoint = begin(self.table, start);
        self.put(name, checkpoint)
    }

    fn offer(&mut self, name: &Name, token: Token) -> Result<Reply, SessionFault>
        requires { token < self.old.table.grammar.tokens }
        ensures { IsServed self.old (commands.Offer name.now token) self.new result }
    {
        let Some(checkpoint) = self.find(name) else {
            return Err(SessionFault::UnknownName);
        };
        let phase = checkpoint.phase();
        let Phase::InputNeeded { state: _ } = phase else {
            return Err(SessionFault::WrongPhase { phase });
        };
        let offered = checkpoint.offer(token)?;
        self.put(name, offered)
    }

    fn feed(&mut self, name: &Name, tokens: &[Token]) -> Result<Reply, SessionFault>
        requires { All (λ z. z < self.old.table.grammar.tokens) tokens.now }
        ensures { IsServed self.old (commands.Feed name.now tokens.now) self.new result }
    {
        let Some(checkpoint) = self.find(name) else {
            return Err(SessionFault::UnknownName);
        };
        let phase = checkpoint.phase();
        let Phase::InputNeeded { state: _ } = phase else {
            return Err(SessionFault::WrongPhase { phase });
        };
        let Fed {
            checkpoint: end,
            shifted,
        } = match checkpoint.feed(self.alloc, tokens) {
            Ok(fed) => fed,
            Err(ResumeFault::TooDeep) => return Err(SessionFault::TooDeep),
            Err(ResumeFault::Memory) => return Err(SessionFault::Memory),
        };
        self.put_fed(name, end, shifted)
    }

    /// Gives a name the checkpoint at which feeding ended, and replies with the number of tokens that were shifted, and
    /// with the phase of the checkpoint.
    fn put_fed(
        &mut self,
        name: &Name,
        checkpoint: Checkpoint<'t>,
        shifted: usize,
    ) -> Result<Reply, SessionFault>
        requires { checkpoint.table ≡ self.old.table }
        ensures reply { IfOk result (λ r. r ≡ replies.Fed shifted (phase_of checkpoint.entry)) }
        ensures fault { IfErr result (λ f. f ≡ faults.Memory) }
        ensures put { OnOk result (ChangesName self.old name.now (Some checkpoint.entry) self.new) }
        ensures same { OnErr result (self.new ≡ self.old) }
    {
        match self.put_checkpoint(name, checkpoint) {
            Ok(phase) => Ok(Reply::Fed { shifted, phase }),
            Err(fault) => Err(fault),
        }
    }

    fn resume(&mut self, name: &Name) -> Result<Reply, SessionFault>
        ensures { IsServed self.old (commands.Resume name.now) self.new result }
    {
        let Some(checkpoint) = self.find(name) else {
            return Err(SessionFault::UnknownName);
        };
        let phase = checkpoint.phase();
        if !can_resume(phase) {
            return Err(SessionFault::WrongPhase { phase });
        }
        let resumed = match checkpoint.resume(self.alloc) {
            Ok(resumed) => resumed,
            Err(ResumeFault::TooDeep) => return Err(SessionFault::TooDeep),
            Err(ResumeFault::Memory) => return Err(SessionFault::Memory),
        };
        self.put(name, resumed)
    }

    fn fork(&mut self, name: &Name, fresh: &Name) -> Result<Reply, SessionFault>
        ensures { IsServed self.old (commands.Fork name.now fresh.now) self.new result }
    {
        let Some(checkpoint) = self.find(name) else {
            return Err(SessionFault::UnknownName);
        };
        if self.find(fresh).is_some() {
            return Err(SessionFault::NameTaken);
        }
        let forked = checkpoint.fork()?;
        self.put(fresh, forked)
    }

    fn show(&mut self, name: &Name) -> Result<Reply, SessionFault>
        ensures { IsServed self.old (commands.Show name.now) self.new result }
    {
        match self.find(name) {
            None => Err(SessionFault::UnknownName),
            Some(checkpoint) => Ok(Reply::Phase(checkpoint.phase())),
        }
    }

    fn stack(&mut self, name: &Name) -> Result<Reply, SessionFault>
        ensures { IsServed self.old (commands.Stack name.now) self.new result }
    {
        let Some(checkpoint) = self.find(name) else {
            return Err(SessionFault::UnknownName);
        };
        let symbols = checkpoint.symbols(self.alloc)?;
        Ok(Reply::Stack(Sequence::from_vec(symbols)))
    }

    fn tree(&mut self, name: &Name) -> Result<Reply, SessionFault>
        ensures { IsServed self.old (commands.Tree name.now) self.new result }
    {
        let Some(checkpoint) = self.find(name) else {
            return Err(SessionFault::UnknownName);
        };
        match checkpoint.tree() {
            Some(tree) => Ok(Reply::Tree(tree.share()?)),
            None => Err(SessionFault::WrongPhase {
                phase: checkpoint.phase(),
            }),
        }
    }

    fn expected(&mut self, name: &Name) -> Result<Reply, SessionFault>
        ensures { IsServed self.old (commands.Expected name.now) self.new result }
    {
        let Some(checkpoint) = self.find(name) else {
            return Err(SessionFault::UnknownName);
        };
        let phase = checkpoint.phase();
        match phase {
            Phase::InputNeeded { state: _ } => {
                let tokens = expected_at(self.alloc, self.table, checkpoint)?;
                Ok(Reply::Expected(tokens))
            }
            _ => Err(SessionFault::WrongPhase { phase }),
        }
    }

    fn forget(&mut self, name: &Name) -> Result<Reply, SessionFault>
        ensures { IsServed self.old (commands.Forget name.now) self.new result }
    {
        let Some(_) = self.branches.remove(name) else {
            return Err(SessionFault::UnknownName);
        };
        Ok(Reply::Forgotten)
    }
}

/// True if the run may be resumed in this phase.
fn can_resume(phase: Phase) -> bool
    ensures { IsTrue result ↔ CanResume phase }
{
    match phase {
        Phase::Shifting { state: _, token: _ } => true,
        Phase::AboutToReduce {
            state: _,
            production: _,
        } => true,
        Phase::HandlingError { state: _ } => true,
        _ => false,
    }
}
