//! FIRST of each nonterminal.
ghost use Rattle.std.specs.Prelude.{◌≡◌, ◌<◌, ◌≤◌, ◌+◌, ◌*◌, ◌^◌, ◌↔◌, ℕ, List, map, true, false, length, slice_get, slice_index_or, vec_len, Some, IfOk};
ghost use Rattle.std.specs.List.{All, Contains};
ghost use Rattle.std.specs.List.Sorted.{IsStrictlyIncreasing};
ghost use Rattle.mh_grammar.specs.declared.types.Symbol.TheVariants.{N};
ghost use Rattle.mh_grammar.specs.Plain.{PlainGrammar, plain_of, IsInRange, IsSymbolBelow, IsProductionBelow};
ghost use Rattle.mh_grammar.specs.Marked.{AreMarks};
ghost use Rattle.mh_grammar.specs.FlagTable.{flag, Grows};
ghost use Rattle.mh_grammar.specs.First.{First, FirstOf};
ghost use Rattle.mh_grammar.specs.FirstFlags.{SymbolFits, NullableSound, AreSoundFlags, HasSymbolFirst, HasStringFirst, NoProductionAdds, AreFirstFlags};

use crate::grid::{add_row, insert};
use crate::marks::{is_marked, nullable};
use crate::types::{Grammar, Memory, Production, Symbol, Token};
use std::alloc::Global;

/// Returns FIRST of each nonterminal, rising: the tokens with which the words that it derives may begin (Aho, Lam,
/// Sethi and Ullman). It fails only for lack of memory.
pub fn first(alloc: Global, grammar: &Grammar) -> Result<Vec<Vec<Token>>, Memory>
    requires { IsInRange (plain_of grammar.now) }
    ensures len { IfOk result (λ v. vec_len v ≡ length grammar.now.nonterminals) }
    ensures rising { IfOk result (λ v. All IsStrictlyIncreasing (map (λ row. row.items) v.items)) }
    ensures exact { IfOk result (λ v. (n : ℕ) (row : List ℕ) → slice_get (map (λ row. row.items) v.items) n ≡ Some row
        → (a : ℕ) → Contains row a ↔ First (plain_of grammar.now) (N n) a) }
{
    let nullable = nullable(alloc, grammar)?;
    let flags = first_flags(alloc, grammar, nullable.as_slice())?;
    rows_of(alloc, grammar, &flags)
}

/// Converts the rows of flags to lists of tokens.
fn rows_of(alloc: Global, grammar: &Grammar, flags: &[bool]) -> Result<Vec<Vec<Token>>, Memory>
    requires range { IsInRange (plain_of grammar.now) }
    requires len { length flags.now ≡ length grammar.now.nonterminals * length grammar.now.tokens }
    requires exact { AreFirstFlags (plain_of grammar.now) (length grammar.now.tokens) flags.now }
    ensures len { IfOk result (λ v. vec_len v ≡ length grammar.now.nonterminals) }
    ensures rising { IfOk result (λ v. All IsStrictlyIncreasing (map (λ row. row.items) v.items)) }
    ensures exact { IfOk result (λ v. (n : ℕ) (row : List ℕ) → slice_get (map (λ row. row.items) v.items) n ≡ Some row
        → (a : ℕ) → Contains row a ↔ First (plain_of grammar.now) (N n) a) }
{
    let width = grammar.tokens.len();
    let mut rows = Vec::new(alloc);
    for n in 0..grammar.nonterminals.len() {
        let row = tokens_of(alloc, &flags[n * width..n * width + width])?;
        rows.push(row)?;
    }
    Ok(rows)
}

/// Returns the indices of the set flags.
fn tokens_of(alloc: Global, flags: &[bool]) -> Result<Vec<Token>, Memory>
    requires { length flags.now ≤ 2 ^ 16 }
    ensures rising { IfOk result (λ v. IsStrictlyIncreasing v.items) }
    ensures exact { IfOk result (λ v. (a : ℕ) → Contains v.items a ↔ (slice_index_or flags.now a false ≡ true)) }
{
    let mut tokens = Vec::new(alloc);
    for (token, flag) in flags.iter().enumerate() {
        if *flag {
            tokens.push(token as u16)?;
        }
    }
    Ok(tokens)
}

/// Returns FIRST as flags: a row for each nonterminal, and in it a column for each token.
fn first_flags(alloc: Global, grammar: &Grammar, nullable: &[bool]) -> Result<Vec<bool>, Memory>
    requires grammar { IsInRange (plain_of grammar.now) }
    requires nullable { AreMarks false grammar.now.productions nullable.now }
    requires len { length nullable.now ≡ length grammar.now.nonterminals }
    ensures len { IfOk result (λ v. vec_len v ≡ length grammar.now.nonterminals * length grammar.now.tokens) }
    ensures exact { IfOk result (λ v. AreFirstFlags (plain_of grammar.now) (length grammar.now.tokens) v.items) }
{
    let width = grammar.tokens.len();
    let mut flags = vec![in alloc; false; grammar.nonterminals.len() * width]?;
    let mut grown = true;
    while grown {
        grown = add_once(nullable, &mut flags, width, grammar.productions.as_slice());
    }
    Ok(flags)
}

/// Adds the flags that one backward and one forward pass over the productions find, and returns whether any was new.
/// Either pass alone would need a round for each rule of a file that is written in the other order.
fn add_once(nullable: &[bool], flags: &mut [bool], width: usize, productions: &[Production]) -> bool
    requires productions { All (IsProductionBelow width (length nullable.now)) productions.now }
    requires flags { length flags.old ≡ length nullable.now * width }
    ensures grows { Grows flags.old flags.new result }
    ensures sound { (g : PlainGrammar) → g.productions ≡ productions.now → NullableSound g nullable.now → AreSoundFlags g width flags.old → AreSoundFlags g width flags.new }
    ensures added { result ≡ false → NoProductionAdds productions.now nullable.now width flags.new }
{
    let mut grown = false;
    for place in (0..productions.len()).rev() {
        grown |= add_production(nullable, flags, width, &productions[place]);
    }
    for production in productions {
        grown |= add_production(nullable, flags, width, production);
    }
    grown
}

/// Adds FIRST of a production's right side to its left side, and returns whether any flag was new.
fn add_production(
    nullable: &[bool],
    flags: &mut [bool],
    width: usize,
    production: &Production,
) -> bool
    requires production { IsProductionBelow width (length nullable.now) production.now }
    requires flags { length flags.old ≡ length nullable.now * width }
    ensures grows { Grows flags.old flags.new result }
    ensures sound { (g : PlainGrammar) → NullableSound g nullable.now → ((a : ℕ) → FirstOf g production.now.rhs a → First g (N production.now.lhs) a)
        → AreSoundFlags g width flags.old → AreSoundFlags g width flags.new }
    ensures added { result ≡ false → HasStringFirst nullable.now width flags.new production.now.lhs production.now.rhs }
{
    add_side(
        nullable,
        flags,
        width,
        usize::from(production.lhs),
        production.rhs.as_slice(),
    )
}

/// Adds FIRST of a right side to a nonterminal, and returns whether any flag was new.
fn add_side(
    nullable: &[bool],
    flags: &mut [bool],
    width: usize,
    lhs: usize,
    symbols: &[Symbol],
) -> bool
    requires lhs { lhs < length nullable.now }
    requires symbols { All (IsSymbolBelow width (length nullable.now)) symbols.now }
    requires flags { length flags.old ≡ length nullable.now * width }
    ensures grows { Grows flags.old flags.new result }
    ensures sound { (g : PlainGrammar) → NullableSound g nullable.now → ((a : ℕ) → FirstOf g symbols.now a → First g (N lhs) a)
        → AreSoundFlags g width flags.old → AreSoundFlags g width flags.new }
    ensures added { result ≡ false → HasStringFirst nullable.now width flags.new lhs symbols.now }
{
    let mut grown = false;
    for symbol in symbols {
        grown |= add_symbol(flags, width, lhs, *symbol);
        if !is_marked(false, nullable, *symbol) {
            return grown;
        }
    }
    grown
}

/// Adds FIRST of a symbol to a nonterminal, and returns whether any flag was new.
fn add_symbol(flags: &mut [bool], width: usize, lhs: usize, symbol: Symbol) -> bool
    requires lhs { lhs * width + width ≤ length flags.old }
    requires symbol { SymbolFits width (length flags.old) symbol }
    ensures grows { Grows flags.old flags.new result }
    ensures sound { (g : PlainGrammar) → ((a : ℕ) → First g symbol a → First g (N lhs) a) → AreSoundFlags g width flags.old → AreSoundFlags g width flags.new }
    ensures added { result ≡ false → HasSymbolFirst width flags.new lhs symbol }
{
    match symbol {
        Symbol::T(token) => insert(flags, width, lhs, usize::from(token)),
        Symbol::N(from) => add_row(flags, width, lhs, usize::from(from)),
    }
}
