//! The symbol at the dot of an item, and the symbols after it.
ghost use Rattle.std.specs.Prelude.{◌≡◌, ◌<◌, ◌≤◌, ℕ, suc, [], ◌∷◌, length, drop, slice_get};
ghost use Rattle.mh_grammar.specs.Plain.{plain_of, rhs_of, production_count, IsInRange};
ghost use Rattle.mh_grammar.specs.declared.types.Symbol.TheVariants.{N};

use mh_grammar::{Grammar, Symbol};

/// The symbol at the dot of a production, or `None` if the dot is at the end.
pub fn symbol_at(grammar: &Grammar, production: u32, dot: u32) -> Option<Symbol>
    requires range { IsInRange (plain_of grammar.now) }
    requires production { production < production_count (plain_of grammar.now) }
    ensures { result ≡ slice_get (rhs_of (plain_of grammar.now) production) dot }
{
    let production = production as usize;
    let starts = grammar.starts.len();
    if production < starts {
        return start_symbol_at(grammar.starts[production], dot);
    }
    symbol_in(
        grammar.productions[production - starts].rhs.as_slice(),
        dot as usize,
    )
}

fn start_symbol_at(start: u16, dot: u32) -> Option<Symbol>
    ensures { result ≡ slice_get (N start ∷ []) dot }
{
    if dot == 0 {
        Some(Symbol::N(start))
    } else {
        None
    }
}

/// The symbol at an index of a right side, from 0; `None` at or after its end.
pub fn symbol_in(symbols: &[Symbol], at: usize) -> Option<Symbol>
    ensures { result ≡ slice_get symbols.now at }
{
    symbols.get(at).copied()
}

/// The symbols of a production after the symbol at the dot.
pub fn symbols_after_dot(grammar: &Grammar, production: u32, dot: u32) -> &[Symbol]
    requires range { IsInRange (plain_of grammar.now) }
    requires production { production < production_count (plain_of grammar.now) }
    requires dot { dot < length (rhs_of (plain_of grammar.now) production) }
    ensures { result.now ≡ drop (suc dot) (rhs_of (plain_of grammar.now) production) }
{
    let production = production as usize;
    let starts = grammar.starts.len();
    if production < starts {
        return &[];
    }
    rest_from(
        grammar.productions[production - starts].rhs.as_slice(),
        dot as usize,
    )
}

/// The symbols of a right side after an index, at which it has a symbol.
pub fn rest_from(symbols: &[Symbol], at: usize) -> &[Symbol]
    requires { at < length symbols.now }
    ensures { result.now ≡ drop (suc at) symbols.now }
{
    &symbols[at + 1..]
}
