//! The law that a grammar has a canonical automaton, as a function that does nothing and whose contract states the law.
ghost use Rattle.std.specs.Prelude.{◌≤◌, ◌⊎◌, ℕ, length};
ghost use Rattle.mh_grammar.specs.Plain.{PlainGrammar, IsInRange};
ghost use Rattle.mh_grammar.specs.NotLacking.{NotLacking};
ghost use Rattle.mh_items_kernels.specs.KernelTypes.{Automaton};
ghost use Rattle.mh_canon.specs.Canonical.{IsCanonical, CanonicalExceeds};

/// Law: for each limit, a grammar has a canonical automaton with at most so many states, or more canonical states than
/// the limit. The law is a double negation (`NotLacking`).
pub fn some_canonical()
    ensures { (g : PlainGrammar) (limit : ℕ) → IsInRange g → length g.starts ≤ limit →
        NotLacking (((a : Automaton) × IsCanonical g a × (length a.kernels ≤ limit)) ⊎ CanonicalExceeds g limit) }
{}
