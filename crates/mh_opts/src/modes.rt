//! Counts the modes among the words.
ghost use Rattle.std.specs.Prelude.{◌≡◌};
ghost use Rattle.mh_opts.specs.code.FoundModes as modes;

/// The modes among some words: none, one, or several.
pub enum FoundModes<M> {
    Nothing,
    One(M),
    Several,
}

/// Counts one more mode.
fn with_one<M: Copy>(asked: FoundModes<M>, mode: M) -> FoundModes<M>
    ensures { result ≡ modes.with_one asked mode }
{
    match asked {
        FoundModes::Nothing => FoundModes::One(mode),
        FoundModes::One(_) => FoundModes::Several,
        FoundModes::Several => FoundModes::Several,
    }
}

/// Counts the mode of one more word, if the word has one.
pub(crate) fn with_next<M: Copy>(asked: FoundModes<M>, mode: Option<M>) -> FoundModes<M>
    ensures { result ≡ modes.with_next asked mode }
{
    match mode {
        Some(mode) => with_one(asked, mode),
        None => asked,
    }
}
