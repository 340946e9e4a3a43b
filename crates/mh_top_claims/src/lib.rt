//! The definition of a run of the program: the work that words ask for over files (`Work`), the end of a run (`Run`),
//! and the claims on a call of it (`Headline`, `Claims`, `ErrorLists`, `RebasedFiles`, `RoundTrips`, `VerdictClaims`).
//! The claims are proved here from these definitions alone. The lemmas in `proofs/EachMode` have one case for each
//! mode.
#![tactic(auto)]

mod laws;

pub use laws::{
    lines_are_answered, random_sentences_are_accepted, runs_are_equal, some_work_is_asked,
    texts_are_read_again, unwarned_is_conflict_free, work_is_unique,
};
