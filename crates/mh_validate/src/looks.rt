//! Reads looks from their names.
ghost use Rattle.std.specs.Prelude.{◌≡◌, ◌↔◌, IsTrue, codes};
ghost use Rattle.mh_grammar.specs.Edges.{IsLookBefore};
ghost use Rattle.mh_msgfile.specs.Sentences.{vocabulary_in, vocabulary_of};
ghost use Rattle.mh_validate_valid.specs.Valid.{AreTokenNamesDistinct};
ghost use Rattle.mh_validate.specs.code.LooksAndItems.{FindsOne, IsAfterLast, IsLookOf, AreLooksOf};
ghost use Rattle.mh_items.specs.Fitting.{FitsSets};

use mh_grammar::{Grammar, Look};
use mh_msgfile::Lexicon;
use mh_sets::TokenSet;
use mh_tabfile_form::Names;

/// Returns true if the name is that of the end of the stream.
fn is_end_name(name: &[u8]) -> bool
    ensures { IsTrue result ↔ (name.now ≡ codes "#") }
{
    name == b"#".as_slice()
}

/// The look that a name denotes: `#` is the end of the stream, and any other name is that of a token.
fn look_of(grammar: &Grammar, lexicon: &Lexicon, name: &[u8]) -> Option<Look>
    requires distinct_names { AreTokenNamesDistinct grammar.now }
    requires lexicon { vocabulary_in lexicon.now ≡ vocabulary_of grammar.now }
    ensures { FindsOne (IsLookOf grammar.now name.now) result }
{
    // The argument `grammar` is not used at run time; only the contract mentions it.
    let _grammar = grammar;
    if is_end_name(name) {
        return Some(Look::End);
    }
    match lexicon.token(name) {
        Some(token) => Some(Look::Token(token)),
        None => None,
    }
}

fn is_before(left: Look, right: Look) -> bool
    ensures { IsTrue result ↔ IsLookBefore left right }
{
    match (left, right) {
        (Look::Token(left), Look::Token(right)) => left < right,
        (Look::Token(_), Look::End) => true,
        (Look::End, _) => false,
    }
}

/// Returns true if the look is greater than the last one, if there is a last one.
fn is_after_last(last: Option<Look>, look: Look) -> bool
    ensures { IsTrue result ↔ IsAfterLast last look }
{
    match last {
        None => true,
        Some(last) => is_before(last, look),
    }
}

/// The set of the looks that the names denote, if each denotes one and they rise.
pub(crate) fn looks_of<const W: usize>(
    grammar: &Grammar,
    lexicon: &Lexicon,
    names: &Names,
) -> Option<TokenSet<W>>
    requires fits { FitsSets W grammar.now }
    requires distinct_names { AreTokenNamesDistinct grammar.now }
    requires lexicon { vocabulary_in lexicon.now ≡ vocabulary_of grammar.now }
    ensures { FindsOne (AreLooksOf grammar.now names.now) result }
{
    let mut looks = TokenSet::empty();
    let mut last = None;
    for index in 0..names.len() {
        let Some(look) = look_of(grammar, lexicon, names.at(index)) else {
            return None;
        };
        if !is_after_last(last, look) {
            return None;
        }
        looks.insert(look);
        last = Some(look);
    }
    Some(looks)
}
