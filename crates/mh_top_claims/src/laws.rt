//! Laws on the definition of what the program does: the outcome is unique, and each input line gets its own answer.
//! Each law is the contract of a function that does nothing.
ghost use Rattle.std.specs.Prelude.{◌≡◌, ◌∷◌, ◌++◌, List, Option, Some};
ghost use Rattle.mh_outside.specs.Shelf.{Files};
ghost use Rattle.mh_top_claims.specs.AnswerAtLine.{IsAnsweredAt, HasVerdictAt};
ghost use Rattle.mh_top_claims.specs.RoundTrips.{HasRoundTrips};
ghost use Rattle.mh_top_claims.specs.VerdictClaims.{AcceptsRandom, UnwarnedIsConflictFree};
ghost use Rattle.mh_top_drive.specs.StageResults.{StageResult, Go};
ghost use Rattle.mh_top_plans.specs.Plan.{Plan, Judges, plan_behavior};
ghost use Rattle.mh_top_drive.specs.ModeBehavior.{AnswersAll, Outcome, HasOutcome};
ghost use Rattle.mh_grammar.specs.Text.{Text};
ghost use Rattle.mh_top_plans.specs.Verdicts.{VerdictContext};
ghost use Rattle.mh_top_claims.specs.Work.{Work, IsWork, NeedsTable};
ghost use Rattle.mh_opts.specs.declared.jobs.Job.TheVariants.{Check};
ghost use Rattle.mh_opts.specs.declared.order.Order.{Order};
ghost use Rattle.mh_top_check.specs.Examination.{AreExamined, Examined};
ghost use Rattle.mh_top_load.specs.Order.{staged_order};
ghost use Rattle.mh_top_claims.specs.Preparing.{IsPrepared};
ghost use Rattle.mh_top_drive.specs.Shapes.{Prepared};

/// Over known files the words ask for at most one work, and a mode has at most one outcome on a known input.
pub fn work_is_unique()
    ensures work { (words : List Text) (files : Files) (v w : Work) →
        IsWork words (Some files) v → IsWork words (Some files) w → v ≡ w }
    ensures outcome { (plan : Plan) (input : Text) (o p : Outcome) →
        HasOutcome plan_behavior plan (Some input) o → HasOutcome plan_behavior plan (Some input) p →
        o ≡ p }
{}

/// Two runs with the same words, files and input have the same warnings, the same text on out and the same cause, and
/// leave the same input.
pub fn runs_are_equal()
    ensures { (words : List Text) (files : Files) (input : Text) (v w : Work) (o p : Outcome) →
        IsWork words (Some files) v → HasOutcome plan_behavior v.plan (Some input) o →
        IsWork words (Some files) w → HasOutcome plan_behavior w.plan (Some input) p → (v ≡ w) × (o ≡ p) }
{}

/// The words always ask for some work: in each mode that needs a table, for each result of the stages before the
/// warnings; and for each result of the examination of grammar files.
pub fn some_work_is_asked()
    ensures tables { (words : List Text) (files : Option Files) (before : StageResult Prepared) →
        NeedsTable words → IsPrepared words files before → (w : Work) × IsWork words files w }
    ensures check { (words : List Text) (files : Option Files) (order : Order) (result : StageResult Examined) →
        staged_order words ≡ Go order → order.job ≡ Check → AreExamined files order result →
        (w : Work) × IsWork words files w }
{}

/// The text that answers several lines is, for each line, the answers to the lines before, the answer to this line, and
/// the answers to the lines after. The answer with a verdict depends on this line alone.
pub fn lines_are_answered()
    ensures each { (plan last : Plan) (before after : List Text) (line text : Text) →
        AnswersAll plan_behavior plan (before ++ line ∷ after) text last → IsAnsweredAt plan before line after text last }
    ensures verdict { (by : VerdictContext) (last : Plan) (before after : List Text) (line text : Text) →
        AnswersAll plan_behavior (Judges by) (before ++ line ∷ after) text last → HasVerdictAt by before line after text }
{}

/// For a grammar without levels of precedence, no warning on err means that verdicts do not depend on the resolution of
/// a conflict, also if a table file is named. So the user sees on err whether the premise of the claims on acceptance
/// and rejection is true.
pub fn unwarned_is_conflict_free()
    ensures { (words : List Text) (files : Option Files) → UnwarnedIsConflictFree words files }
{}

/// The program accepts its own random sentences if the grammar is LR(1) or the table has no conflict.
pub fn random_sentences_are_accepted()
    ensures { (words : List Text) (files : Option Files) → AcceptsRandom words files }
{}

/// The texts that the program writes for an accepted grammar are read again as what was written: sentence lines,
/// printed messages files, the list of errors, updated messages files and table files. There is no premise on the names
/// of the grammar, since those that files give are fit.
pub fn texts_are_read_again()
    ensures { (words : List Text) (files : Option Files) (p : Prepared) → IsPrepared words files (Go p) → HasRoundTrips p }
{}
