//! Grammars from short texts, and their canonical automata and tables.
use crate::facts::{automaton_of, is_small, table_of};
use mh_grammar::{
    Assoc, Grammar, Level, NontermInfo, Production, Sequence, Symbol, TokenInfo, from_bytes,
};
use mh_items_kernels::Automaton;
use mh_resolve::resolve;
use mh_resolve_cells::{Conflict, Mode};
use mh_tables_core::{Halting, Table};
use std::alloc::Global;
use std::test::Fail;

/// The number that digits spell.
fn rank_of(text: &str) -> Result<u64, Fail> {
    Ok(text.parse()?)
}

/// A level: the byte of its file, the byte of its rank, and `l`, `r` or `n`.
fn level_of(text: &str) -> Result<Level, Fail> {
    let [file, rank, assoc] = text.as_bytes() else {
        return Err(Fail::from("a level of three letters"));
    };
    Ok(Level {
        file: u64::from(*file),
        rank: u64::from(*rank),
        assoc: match *assoc {
            b'l' => Assoc::Left,
            b'r' => Assoc::Right,
            _ => Assoc::Nonassoc,
        },
    })
}

/// A token, perhaps with `%` and its level, and with `$` and its cost.
fn token_of(alloc: Global, word: &str) -> Result<TokenInfo, Fail> {
    let (word, cost) = match word.split_once('$') {
        Some((word, cost)) => (word, cost.parse()?),
        None => (word, 1),
    };
    let (name, level) = match word.split_once('%') {
        Some((name, level)) => (name, Some(level_of(level)?)),
        None => (word, None),
    };
    Ok(TokenInfo {
        name: from_bytes(alloc, name.as_bytes())?,
        level,
        cost,
    })
}

/// A nonterminal, perhaps with `<` and its rank for errors, and with `*` if it is a start symbol.
fn nonterminal_of(alloc: Global, word: &str) -> Result<NontermInfo, Fail> {
    let word = word.strip_suffix('*').unwrap_or(word);
    let (name, on_error) = match word.split_once('<') {
        Some((name, rank)) => (name, Some(rank_of(rank)?)),
        None => (word, None),
    };
    Ok(NontermInfo {
        name: from_bytes(alloc, name.as_bytes())?,
        on_error,
    })
}

fn place_of_token(tokens: &[TokenInfo], name: &[u8]) -> Option<u16> {
    for (place, token) in tokens.iter().enumerate() {
        if token.name.as_slice() == name {
            return u16::try_from(place).ok();
        }
    }
    None
}

fn place_of_nonterminal(nonterminals: &[NontermInfo], name: &[u8]) -> Option<u16> {
    for (place, nonterminal) in nonterminals.iter().enumerate() {
        if nonterminal.name.as_slice() == name {
            return u16::try_from(place).ok();
        }
    }
    None
}

/// The symbol with this name.
fn symbol_of(grammar: &Grammar, word: &str) -> Result<Symbol, Fail> {
    match place_of_token(grammar.tokens.as_slice(), word.as_bytes()) {
        Some(token) => Ok(Symbol::T(token)),
        None => match place_of_nonterminal(grammar.nonterminals.as_slice(), word.as_bytes()) {
            Some(nonterminal) => Ok(Symbol::N(nonterminal)),
            None => Err(Fail::from("an unknown symbol")),
        },
    }
}

/// The symbols of a right side, without its level after `%`.
fn side_of(alloc: Global, grammar: &Grammar, right: &str) -> Result<Sequence<Symbol>, Fail> {
    let mut side = Sequence::new(alloc);
    for word in right.split_ascii_whitespace() {
        if !word.starts_with('%') {
            side.push(symbol_of(grammar, word)?)?;
        }
    }
    Ok(side)
}

/// The level after `%`.
fn side_level(right: &str) -> Result<Option<Level>, Fail> {
    match right.split_once('%') {
        Some((_, level)) => Ok(Some(level_of(level.trim_ascii())?)),
        None => Ok(None),
    }
}

/// A production: its left side, a colon, its symbols, and perhaps `%` and its level.
fn production_of(alloc: Global, grammar: &Grammar, rule: &str) -> Result<Production, Fail> {
    let (left, right) = rule.split_once(':').ok_or("a rule without a colon")?;
    let lhs = place_of_nonterminal(
        grammar.nonterminals.as_slice(),
        left.trim_ascii().as_bytes(),
    );
    Ok(Production {
        lhs: lhs.ok_or("an unknown left side")?,
        level: side_level(right)?,
        rhs: side_of(alloc, grammar, right)?,
    })
}

fn add_tokens(alloc: Global, tokens: &mut Sequence<TokenInfo>, words: &str) -> Result<(), Fail> {
    for word in words.split_ascii_whitespace() {
        tokens.push(token_of(alloc, word)?)?;
    }
    Ok(())
}

fn add_nonterminals(
    alloc: Global,
    nonterminals: &mut Sequence<NontermInfo>,
    words: &str,
) -> Result<(), Fail> {
    for word in words.split_ascii_whitespace() {
        nonterminals.push(nonterminal_of(alloc, word)?)?;
    }
    Ok(())
}

/// Appends the numbers of the first nonterminal, and of each one that is followed by `*`.
fn add_starts(starts: &mut Sequence<u16>, nonterminals: &str) -> Result<(), Fail> {
    let mut place = 0u16;
    for word in nonterminals.split_ascii_whitespace() {
        if place == 0 || word.ends_with('*') {
            starts.push(place)?;
        }
        place = place.saturating_add(1);
    }
    Ok(())
}

fn empty_grammar(alloc: Global) -> Grammar {
    Grammar {
        tokens: Sequence::new(alloc),
        nonterminals: Sequence::new(alloc),
        productions: Sequence::new(alloc),
        starts: Sequence::new(alloc),
    }
}

fn add_production(alloc: Global, grammar: &mut Grammar, rule: &str) -> Result<(), Fail> {
    let production = production_of(alloc, grammar, rule)?;
    grammar.productions.push(production)?;
    Ok(())
}

fn fill(alloc: Global, grammar: &mut Grammar, text: &str) -> Result<(), Fail> {
    let mut parts = text.split(';');
    let tokens = parts.next().unwrap_or("");
    let nonterminals = parts.next().unwrap_or("");
    add_tokens(alloc, &mut grammar.tokens, tokens)?;
    add_nonterminals(alloc, &mut grammar.nonterminals, nonterminals)?;
    add_starts(&mut grammar.starts, nonterminals)?;
    for rule in parts {
        add_production(alloc, grammar, rule)?;
    }
    Ok(())
}

/// The grammar of a text, in which `;` is between the tokens, the nonterminals and each production. The first
/// nonterminal is a start symbol, and so is each one that is followed by `*`.
pub fn grammar_of(alloc: Global, text: &str) -> Result<Grammar, Fail> {
    let mut grammar = empty_grammar(alloc);
    match fill(alloc, &mut grammar, text) {
        Ok(()) => Ok(grammar),
        Err(fail) => {
            drop(grammar);
            Err(fail)
        }
    }
}

/// The canonical automaton of a grammar of at most 64 tokens.
pub fn canonical_of(alloc: Global, grammar: &Grammar) -> Result<Automaton<1>, Fail> {
    if !is_small(grammar) {
        return Err(Fail::from("out of range"));
    }
    automaton_of(alloc, grammar)
}

/// The table and the conflicts of a grammar's canonical automaton.
pub fn resolved(
    alloc: Global,
    grammar: &Grammar,
    mode: Mode,
) -> Result<(Table, Vec<Conflict>), Fail> {
    if !is_small(grammar) {
        return Err(Fail::from("out of range"));
    }
    let automaton = automaton_of(alloc, grammar)?;
    let resolved = resolve(alloc, grammar, &automaton, mode);
    drop(automaton);
    Ok(resolved?)
}

/// The table of a grammar, if every run on the table ends.
pub fn halting_of(alloc: Global, grammar: &Grammar) -> Result<Halting, Fail> {
    if !is_small(grammar) {
        return Err(Fail::from("out of range"));
    }
    let automaton = automaton_of(alloc, grammar)?;
    let table = table_of(alloc, grammar, &automaton);
    drop(automaton);
    table
}
