//! The law that the content of a table file is valid or fails a first test, as a function that does nothing and whose
//! contract states the law.
ghost use Rattle.std.specs.Prelude.{◌⊎◌, ℕ, Option};
ghost use Rattle.mh_grammar.specs.declared.types.Grammar.{Grammar};
ghost use Rattle.mh_grammar.specs.NotLacking.{NotLacking};
ghost use Rattle.mh_tabfile_form.specs.declared.types.RawTable.{RawTable};
ghost use Rattle.mh_validate_valid.specs.declared.reason.Reason.{Reason};
ghost use Rattle.mh_validate_valid.specs.Valid.{IsValid, IsInvalidAt};

/// Law: the content of a table file is valid, or there is a first test that it fails. The law is a double negation
/// (`NotLacking`).
pub fn is_valid_or_invalid()
    ensures { (g : Grammar) (raw : RawTable) →
        NotLacking (IsValid g raw ⊎ ((state : Option ℕ) × (reason : Reason) × IsInvalidAt g raw state reason)) }
{}
