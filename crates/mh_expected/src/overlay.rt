//! A stack that shares its lowest states with another stack.
ghost use Rattle.std.specs.Prelude.{◌≡◌, ◌≤◌, ◌<◌, ◌++◌, ◌∷◌, [], length, take, OnOk};
ghost use Rattle.mh_tables_core.specs.Run.{top_of};

use mh_grammar::Memory;
use std::alloc::Global;
use std::marker::Model;

/// The states of a stack: the first `kept` states of `base`, and then the states of `above`.
#[derive(Drop)]
pub(crate) struct Overlay<'a> {
    base: &'a [u32],
    kept: usize,
    above: Vec<u32>,
}

impl<'a> Model for Overlay<'a> {
    ghost use Rattle.std.specs.Prelude.{◌≤◌, ◌++◌, take, length};
    ghost use Rattle.std.specs.Coded.{codes};
    ghost use Rattle.mh_expected.specs.code.Overlaid.{Overlaid};

    ghost Value = { Overlaid };

    ghost coded = { Prim.hlevel codes };

    ghost view = { λ s. record { base = s.base.now; stack = take s.kept s.base.now ++ s.above.items } };

    ghost invariant = { λ s. s.kept ≤ length s.base.now };
}

impl<'a> Overlay<'a> {
    /// An overlay with exactly the states of its base.
    pub(crate) fn on(alloc: Global, base: &'a [u32]) -> Overlay<'a>
        ensures { result ≡ record { base = base.now; stack = base.now } }
    {
        Overlay {
            base,
            kept: base.len(),
            above: Vec::new(alloc),
        }
    }

    /// Resets the overlay to the states of its base.
    pub(crate) fn restart(&mut self)
        ensures { self.new ≡ record { base = self.old.base; stack = self.old.base } }
    {
        self.kept = self.base.len();
        self.above.clear();
    }

    /// The number of states.
    pub(crate) fn len(&self) -> usize
        ensures { result ≡ length self.now.stack }
    {
        self.kept + self.above.len()
    }

    /// The top state.
    pub(crate) fn top(&self) -> u32
        requires { 0 < length self.now.stack }
        ensures { result ≡ top_of self.now.stack }
    {
        match self.above.last() {
            Some(state) => *state,
            None => self.base[self.kept - 1],
        }
    }

    /// Keeps only the lowest `len` states.
    pub(crate) fn truncate(&mut self, len: usize)
        requires { len ≤ length self.old.stack }
        ensures { self.new ≡ record { base = self.old.base; stack = take len self.old.stack } }
    {
        if len <= self.kept {
            self.kept = len;
            self.above.clear();
            return;
        }
        self.above.truncate(len - self.kept);
    }

    /// Pushes a state. Fails only if memory runs out.
    pub(crate) fn push(&mut self, state: u32) -> Result<(), Memory>
        ensures base { self.new.base ≡ self.old.base }
        ensures pushed { OnOk result (self.new.stack ≡ self.old.stack ++ state ∷ []) }
    {
        self.above.push(state)?;
        Ok(())
    }

    /// The states of an overlay of the empty stack.
    pub(crate) fn into_above(self) -> Vec<u32>
        requires { self.base ≡ [] }
        ensures { result.items ≡ self.entry.stack }
    {
        let Overlay {
            base: _,
            kept: _,
            above,
        } = self;
        above
    }
}
