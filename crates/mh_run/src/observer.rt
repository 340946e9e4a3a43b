//! Observers of runs.
ghost use Rattle.std.specs.Prelude.{◌≡◌, OnOk};
ghost use Rattle.mh_run.specs.code.Observers.{Observer};

use mh_grammar::{Memory, Token};

/// A value that is updated at each shift and at each reduction of a run. Each call fails only if memory runs out.
pub(crate) trait RunObserver {
    ghost following: { Observer Self };

    fn shift(&mut self, token: Token) -> Result<(), Memory>
        ensures { OnOk result (self.new ≡ following.shifted self.old token) };

    /// Updates the value for the reduction of a production whose right side has `length` symbols.
    fn reduce(&mut self, length: usize, production: u32) -> Result<(), Memory>
        ensures { OnOk result (self.new ≡ following.reduced self.old length production) };
}

/// The observer that keeps nothing.
#[derive(Clone, Copy)]
pub(crate) struct NoObserver;

impl RunObserver for NoObserver {
    ghost following = { record { shifted = λ s z. s; reduced = λ s m p. s } };

    fn shift(&mut self, _: Token) -> Result<(), Memory> {
        Ok(())
    }

    fn reduce(&mut self, _: usize, _: u32) -> Result<(), Memory> {
        Ok(())
    }
}
