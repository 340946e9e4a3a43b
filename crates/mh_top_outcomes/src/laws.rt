//! Laws on what every run has. Each law is the contract of a function that does nothing.
ghost use Rattle.std.specs.Prelude.{List, Option};
ghost use Rattle.mh_grammar.specs.Text.{Text};
ghost use Rattle.mh_grammar.specs.NotLacking.{NotLacking};
ghost use Rattle.mh_outside.specs.Shelf.{Files};
ghost use Rattle.mh_top_drive.specs.ModeBehavior.{Outcome, HasOutcome};
ghost use Rattle.mh_top_plans.specs.Plan.{plan_behavior};
ghost use Rattle.mh_top_claims.specs.Work.{Work, IsWork};

/// No words and files lack a work that is asked for. There is no premise.
pub fn no_work_is_lacking()
    ensures { (words : List Text) (files : Option Files) → NotLacking ((w : Work) × IsWork words files w) }
{}

/// No work that is asked for lacks an outcome, for any input, known or not. So every run has an outcome that the
/// definitions allow.
pub fn every_work_has_an_outcome()
    ensures { (words : List Text) (files : Option Files) (w : Work) → IsWork words files w → (input : Option Text) →
        NotLacking ((o : Outcome) × HasOutcome plan_behavior w.plan input o) }
{}
