//! Laws of runs, as functions with empty bodies whose contracts state the laws.
ghost use Rattle.std.specs.Prelude.{◌≡◌, ◌<◌, ◌+◌, ◌++◌, ◌⊎◌, List, ℕ, [], Option, length, take};
ghost use Rattle.mh_tables_core.specs.Failing.{SentenceAtMost, CatalogueRow, Catalogue};
ghost use Rattle.mh_tables_core.specs.Halting.{IsFirstLoop};
ghost use Rattle.mh_tables_core.specs.Run.{VerdictOf, Ending, Rejected, after, initial};
ghost use Rattle.mh_tables_core.specs.RunTrees.{TreesMatchRun, trees_after};
ghost use Rattle.mh_tables_core.specs.TreeRuns.{TreeEnding, IsTreeEnding};

use crate::table::Table;

impl Table {
    /// Law: a start has at most one verdict on a sentence.
    pub fn one_verdict(&self)
        ensures { (start : ℕ) (w : List ℕ) (a b : Ending) → VerdictOf self.now start w a → VerdictOf self.now start w b → a ≡ b }
    {}

    /// Law: if a sentence is refused, each sentence that begins with it is refused at the same token and in the same
    /// state.
    pub fn refusal_stays(&self)
        ensures { (start : ℕ) (w v : List ℕ) (at s : ℕ) → VerdictOf self.now start w (Rejected at s) → VerdictOf self.now start (w ++ v) (Rejected at s) }
    {}

    /// Law: if a sentence is refused, its prefix up to the refused token is refused too, at the same token and in the
    /// same state (Pottier 2016).
    pub fn refusal_is_cut(&self)
        ensures { (start : ℕ) (w : List ℕ) (at s : ℕ) → VerdictOf self.now start w (Rejected at s) → (at < length w) × VerdictOf self.now start (take (at + 1) w) (Rejected at s) }
    {}

    /// Law: at each moment of a run its trees are trees for the symbols along its stack, and spell the tokens that were
    /// read.
    pub fn trees_spell(&self)
        ensures { (start n : ℕ) (w : List ℕ) → start < length self.now.grammar.starts → TreesMatchRun self.now w (after self.now n (initial start w)) (trees_after self.now n (initial start w) []) }
    {
        self.facts();
    }

    /// Law: a run with trees has at most one end.
    pub fn one_tree_ending(&self)
        ensures { (start : ℕ) (w : List ℕ) (a b : TreeEnding) → IsTreeEnding self.now start w a → IsTreeEnding self.now start w b → a ≡ b }
    {}

    /// Law: at most one relative run is the first that makes more than `MAX_REDUCTIONS` reductions.
    pub fn one_loop(&self)
        ensures { (below : Option ℕ) (s : ℕ) (look below' : Option ℕ) (s' : ℕ) (look' : Option ℕ) → IsFirstLoop self.now below s look → IsFirstLoop self.now below' s' look' → (below ≡ below') × (s ≡ s') × (look ≡ look') }
    {}

    /// Law: the order of sentences is total and antisymmetric.
    pub fn one_comes_first(&self)
        ensures some { (start : ℕ) (w : List ℕ) (start' : ℕ) (w' : List ℕ) → SentenceAtMost self.now start w start' w' ⊎ SentenceAtMost self.now start' w' start w }
        ensures one { (start : ℕ) (w : List ℕ) (start' : ℕ) (w' : List ℕ) → SentenceAtMost self.now start w start' w' → SentenceAtMost self.now start' w' start w → (start ≡ start') × (w ≡ w') }
    {}

    /// Law: a table has at most one catalogue.
    pub fn one_catalogue(&self)
        ensures { (rows other : List CatalogueRow) → Catalogue self.now rows → Catalogue self.now other → rows ≡ other }
    {}
}
