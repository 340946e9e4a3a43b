//! Heads applied to arguments.
ghost use Rattle.std.specs.Prelude.{◌≡◌, ◌∷◌, ◌++◌, [], IfOk, OnOk};

use mh_grammar::{Memory, Sequence};
use mh_rules::Head;

/// A head with the numbers of its arguments among the terms.
#[derive(Drop, PartialEq, Eq, Hash)]
pub(crate) struct Application {
    pub head: Head,
    pub args: Sequence<usize>,
}

impl Application {
    /// Returns a copy of this application. Fails only if memory runs out.
    pub(crate) fn copied(&self) -> Result<Application, Memory>
        ensures { IfOk result (λ n. n ≡ self.now) }
    {
        Ok(Application {
            head: self.head,
            args: self.args.clone()?,
        })
    }

    /// Appends an argument. Fails only if memory runs out.
    pub(crate) fn add_argument(&mut self, number: usize) -> Result<(), Memory>
        ensures { OnOk result (self.new ≡ record { head = self.old.head; args = self.old.args ++ number ∷ [] }) }
    {
        self.args.push(number)?;
        Ok(())
    }
}
