//! Laws on the answers to a call over what a caller gives. Each law is the contract of a function that does nothing.
ghost use Rattle.std.specs.Prelude.{◌≡◌, ◌⊎◌, ℕ};
ghost use Rattle.mh_grammar.specs.Text.{Text};
ghost use Rattle.mh_page.specs.Answers.{before, after, IsAnswer, IsRun};
ghost use Rattle.mh_page.specs.Given.{Given};
ghost use Rattle.mh_top_claims.specs.Claims.{HasNoDeviceFault};
ghost use Rattle.mh_top_claims.specs.Promises.{Promises};
ghost use Rattle.mh_top_claims.specs.Run.{DoesWork};

/// In a run over what a caller gives no device fails. So the run does the work that the words ask for, unless memory
/// runs out, and the status is never 4.
pub fn no_device_fails()
    ensures quiet { (g : Given) (left out err : Text) → HasNoDeviceFault (before g) (after g left out err) }
    ensures work { (g : Given) (out err : Text) (status : ℕ) (run : IsRun g out err status) →
        (status ≡ 6) ⊎ DoesWork g.words (before g) (after g run.left out err) status }
    ensures writes { (g : Given) (out err : Text) (status : ℕ) → IsAnswer g out err status → status ≡ 4 → ⊥ }
{}

/// There is one answer to what is given, unless memory runs out.
pub fn answers_are_unique()
    ensures { (g : Given) (out err out' err' : Text) (status status' : ℕ) →
        IsAnswer g out err status → IsAnswer g out' err' status' →
        (status ≡ 6 → ⊥) → (status' ≡ 6 → ⊥) →
        (out ≡ out') × (err ≡ err') × (status ≡ status') }
{}

/// Each run over what a caller gives keeps the promises of `mh_top::menhir`.
pub fn runs_keep_the_promises()
    ensures { (g : Given) (out err : Text) (status : ℕ) (run : IsRun g out err status) →
        Promises g.words (before g) (after g run.left out err) status }
{}
