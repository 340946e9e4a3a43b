//! The law of samples, as a function that does nothing and whose contract states the law.
ghost use Rattle.std.specs.Prelude.{◌≡◌, List, ℕ};
ghost use Rattle.mh_grammar.specs.Plain.{plain_of};
ghost use Rattle.mh_grammar.specs.declared.types.Grammar.{Grammar};
ghost use Rattle.mh_sample.specs.Counts.{IsSampleLine};

use mh_tables_core::Halting;

/// For a grammar, its table and a number of listed states, the line of a sample exists and is unique.
pub fn sample_line_is_unique(table: &Halting)
    ensures some { (g : Grammar) → table.now.grammar ≡ plain_of g → (number listed : ℕ) → (text : List ℕ) × IsSampleLine g table.now number listed text }
    ensures once { (g : Grammar) (number listed : ℕ) (x y : List ℕ) → IsSampleLine g table.now number listed x → IsSampleLine g table.now number listed y → x ≡ y }
{
    let _facts = table.table();
}
