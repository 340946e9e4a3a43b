//! The law that a grammar has a merged automaton, as a function that does nothing and whose contract states the law.
ghost use Rattle.std.specs.Prelude.{◌≤◌, ◌⊎◌, ℕ, length};
ghost use Rattle.mh_grammar.specs.Plain.{PlainGrammar, IsInRange};
ghost use Rattle.mh_grammar.specs.NotLacking.{NotLacking};
ghost use Rattle.mh_items_kernels.specs.KernelTypes.{Automaton};
ghost use Rattle.mh_pager.specs.MergeSteps.{IsMerged, MergingExceeds};

/// Law: for each limit, a grammar has a merged automaton of at most so many states, or a merging with more states than
/// the limit. The law is a double negation (`NotLacking`).
pub fn some_merged()
    ensures { (g : PlainGrammar) (limit : ℕ) → IsInRange g → length g.starts ≤ limit →
        NotLacking (((a : Automaton) × IsMerged g a × (length a.kernels ≤ limit)) ⊎ MergingExceeds g limit) }
{}
