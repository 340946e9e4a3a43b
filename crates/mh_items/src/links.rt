//! FIRST of strings of symbols, and the links from a nonterminal to the nonterminals with which its productions begin.
ghost use Rattle.std.specs.Prelude.{◌≡◌, ◌<◌, ◌↔◌, ◌≤◌, ◌*◌, ◌⊎◌, [], false, length, slice_index_or, IsTrue};
ghost use Rattle.std.specs.List.{All, Contains};
ghost use Rattle.mh_grammar.specs.Plain.{PlainGrammar, IsSymbolBelow, Derives};
ghost use Rattle.mh_grammar.specs.declared.types.Look.{Look as LookOf};
ghost use Rattle.mh_items.specs.code.Links.{IsLinkOf};
ghost use Rattle.mh_items.specs.Firsts.{AreNullableAndFirst, IsFirstLook, IsStringFirst};

use crate::first_sets::NullableAndFirst;
use mh_grammar::{Look, Symbol};
use mh_items_kernels::{rest_from, symbol_in};
use mh_sets::TokenSet;

/// FIRST of a string of symbols, and whether the string is nullable.
#[derive(Drop)]
pub(crate) struct StringFirst<const W: usize> {
    /// FIRST of the string.
    pub(crate) tokens: TokenSet<W>,
    /// Whether the string is nullable.
    pub(crate) passes: bool,
}

/// A production that begins with a nonterminal `to`: FIRST of the symbols after `to`, and whether they are nullable.
#[derive(Drop)]
pub(crate) struct FirstLink<const W: usize> {
    /// The first nonterminal of the right side.
    pub(crate) to: u16,
    /// FIRST of the symbols after it.
    pub(crate) tokens: TokenSet<W>,
    /// Whether the symbols after it are nullable, so that looks pass to the nonterminal.
    pub(crate) passes: bool,
}

/// Returns FIRST of a string of symbols, and whether the string is nullable.
pub(crate) fn rest_of<const W: usize>(
    sets: &NullableAndFirst<W>,
    symbols: &[Symbol],
) -> StringFirst<W>
    requires few { W ≤ 8 }
    requires len { length sets.now.first ≡ length sets.now.nullable }
    requires symbols { All (IsSymbolBelow (64 * W) (length sets.now.nullable)) symbols.now }
    ensures { (g : PlainGrammar) → AreNullableAndFirst g sets.now → IsStringFirst g symbols.now result.tokens result.passes }
{
    let mut tokens = TokenSet::empty();
    for symbol in symbols {
        if !add_symbol(&mut tokens, sets, *symbol) {
            return StringFirst {
                tokens,
                passes: false,
            };
        }
    }
    StringFirst {
        tokens,
        passes: true,
    }
}

/// Adds the FIRST set of a symbol, and returns whether the symbol is nullable.
fn add_symbol<const W: usize>(
    tokens: &mut TokenSet<W>,
    sets: &NullableAndFirst<W>,
    symbol: Symbol,
) -> bool
    requires few { W ≤ 8 }
    requires len { length sets.now.first ≡ length sets.now.nullable }
    requires symbol { IsSymbolBelow (64 * W) (length sets.now.nullable) symbol }
    ensures first { (g : PlainGrammar) → AreNullableAndFirst g sets.now → (b : LookOf) → Contains tokens.new b ↔ (Contains tokens.old b ⊎ IsFirstLook g symbol b) }
    ensures empty { (g : PlainGrammar) → AreNullableAndFirst g sets.now → IsTrue result ↔ Derives g symbol [] }
{
    match symbol {
        Symbol::T(token) => {
            tokens.insert(Look::Token(token));
            false
        }
        Symbol::N(n) => {
            tokens.union_into(&sets.first[usize::from(n)]);
            is_marked(sets.nullable.as_slice(), n)
        }
    }
}

/// True if the nonterminal is marked as nullable.
fn is_marked(marks: &[bool], n: u16) -> bool
    requires { n < length marks.now }
    ensures { result ≡ slice_index_or marks.now n false }
{
    marks[usize::from(n)]
}

/// The link of a right side, if it begins with a nonterminal.
pub(crate) fn link_of<const W: usize>(
    sets: &NullableAndFirst<W>,
    symbols: &[Symbol],
) -> Option<FirstLink<W>>
    requires few { W ≤ 8 }
    requires len { length sets.now.first ≡ length sets.now.nullable }
    requires symbols { All (IsSymbolBelow (64 * W) (length sets.now.nullable)) symbols.now }
    ensures { (g : PlainGrammar) → AreNullableAndFirst g sets.now → IsLinkOf g symbols.now result }
{
    match symbol_in(symbols, 0) {
        Some(Symbol::N(to)) => {
            let rest = rest_of(sets, rest_from(symbols, 0));
            Some(FirstLink {
                to,
                tokens: rest.tokens,
                passes: rest.passes,
            })
        }
        Some(Symbol::T(_)) => None,
        None => None,
    }
}
