//! The law that every run on a table ends or some run does not, as a function that does nothing and whose contract
//! states the law.
ghost use Rattle.std.specs.Prelude.{◌⊎◌, ℕ, Option};
ghost use Rattle.mh_tables_core.specs.Table.{TableData};
ghost use Rattle.mh_tables_core.specs.Facts.{Facts};
ghost use Rattle.mh_tables_core.specs.Halting.{AlwaysHalts, IsFirstLoop};

/// Law: every run on a table ends, or there is a first relative run that does not end.
pub fn halts_or_loops()
    ensures { (t : TableData) → Facts t →
        AlwaysHalts t ⊎ ((below : Option ℕ) × (s : ℕ) × (look : Option ℕ) × IsFirstLoop t below s look) }
{}
