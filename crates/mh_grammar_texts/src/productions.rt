//! The texts of symbols and productions. Each function appends to a text.
ghost use Rattle.std.specs.Prelude.{◌≡◌, ◌≤◌, ◌++◌, length, take, codes, MatchOption, OnOk, ⊤};
ghost use Rattle.mh_grammar.specs.Plain.{plain_of, rhs_of};
ghost use Rattle.mh_grammar_texts.specs.Productions.{spaced_symbols, symbols_text, left_side_text, production_text};

use mh_grammar::{Grammar, Memory, Symbol, left_side_name, nonterminal_name, symbol_name};

/// Writes the names of symbols, each after a space. It fails only for lack of memory; a prefix may then have been
/// written.
pub fn write_names(text: &mut Vec<u8>, grammar: &Grammar, symbols: &[Symbol]) -> Result<(), Memory>
    ensures { OnOk result (text.new.items ≡ text.old.items ++ spaced_symbols grammar.now symbols.now) }
{
    for symbol in symbols {
        text.push(b' ')?;
        text.extend_from_slice(symbol_name(grammar, *symbol))?;
    }
    Ok(())
}

#[tactic(auto, unfolding(mh_grammar::specs::Names::start_name))]
fn write_left_side(text: &mut Vec<u8>, grammar: &Grammar, production: u32) -> Result<(), Memory>
    ensures { OnOk result (text.new.items ≡ text.old.items ++ left_side_text grammar.now production) }
{
    match grammar.starts.get(production as usize) {
        Some(start) => {
            text.extend_from_slice(nonterminal_name(grammar, *start))?;
            text.push(b'\'')?;
        }
        None => text.extend_from_slice(left_side_name(grammar, production))?,
    }
    Ok(())
}

/// Writes the symbols before a dot, the dot, and the symbols after it, each after a space.
fn write_dotted(
    text: &mut Vec<u8>,
    grammar: &Grammar,
    before: &[Symbol],
    after: &[Symbol],
) -> Result<(), Memory>
    ensures { OnOk result (text.new.items ≡ text.old.items
        ++ (spaced_symbols grammar.now before.now ++ (codes " ." ++ spaced_symbols grammar.now after.now))) }
{
    write_names(text, grammar, before)?;
    text.extend_from_slice(b" .")?;
    write_names(text, grammar, after)
}

/// Writes symbols, each after a space, with a dot at the given position, if one is given.
fn write_symbols(
    text: &mut Vec<u8>,
    grammar: &Grammar,
    symbols: &[Symbol],
    dot: Option<u32>,
) -> Result<(), Memory>
    requires { MatchOption dot ⊤ (λ dot. dot ≤ length symbols.now) }
    ensures { OnOk result (text.new.items ≡ text.old.items
        ++ symbols_text grammar.now dot symbols.now) }
{
    match dot {
        None => write_names(text, grammar, symbols),
        Some(dot) => {
            let (before, after) = symbols.split_at(dot as usize);
            write_dotted(text, grammar, before, after)
        }
    }
}

/// Writes the right side of a production, with a dot at the given position, if one is given.
#[tactic(auto, unfolding(mh_grammar::specs::Plain::rhs_of))]
fn write_right_side(
    text: &mut Vec<u8>,
    grammar: &Grammar,
    production: u32,
    dot: Option<u32>,
) -> Result<(), Memory>
    requires { MatchOption dot ⊤ (λ dot. dot ≤ length (rhs_of (plain_of grammar.now) production)) }
    ensures { OnOk result (text.new.items ≡ text.old.items
        ++ symbols_text grammar.now dot (rhs_of (plain_of grammar.now) production)) }
{
    let place = production as usize;
    let starts = grammar.starts.len();
    if place < starts {
        let symbols = [Symbol::N(grammar.starts[place])];
        return write_symbols(text, grammar, &symbols, dot);
    }
    match grammar.productions.get(place - starts) {
        Some(found) => write_symbols(text, grammar, found.rhs.as_slice(), dot),
        None => write_symbols(text, grammar, &[], dot),
    }
}

/// Writes both sides of a production with an arrow between them, and with a dot at the given position of the right
/// side, if one is given. It fails only for lack of memory; a prefix may then have been written.
pub fn write_sides(
    text: &mut Vec<u8>,
    grammar: &Grammar,
    production: u32,
    dot: Option<u32>,
) -> Result<(), Memory>
    requires { MatchOption dot ⊤ (λ dot. dot ≤ length (rhs_of (plain_of grammar.now) production)) }
    ensures { OnOk result (text.new.items ≡ text.old.items
        ++ (left_side_text grammar.now production ++ (codes " ->" ++ symbols_text grammar.now dot (rhs_of (plain_of grammar.now) production)))) }
{
    write_left_side(text, grammar, production)?;
    text.extend_from_slice(b" ->")?;
    write_right_side(text, grammar, production, dot)
}

/// Writes a production: its left side, an arrow, and its right side. It fails only for lack of memory; a prefix may
/// then have been written.
pub fn write_production(
    text: &mut Vec<u8>,
    grammar: &Grammar,
    production: u32,
) -> Result<(), Memory>
    ensures { OnOk result (text.new.items ≡ text.old.items
        ++ production_text grammar.now production) }
{
    write_sides(text, grammar, production, None)
}

/// Writes the symbols before a position of a production's right side, each after a space. It fails only for lack of
/// memory; a prefix may then have been written.
#[tactic(auto, unfolding(mh_grammar::specs::Plain::rhs_of))]
pub fn write_before(
    text: &mut Vec<u8>,
    grammar: &Grammar,
    production: u32,
    dot: u32,
) -> Result<(), Memory>
    requires { dot ≤ length (rhs_of (plain_of grammar.now) production) }
    ensures { OnOk result (text.new.items ≡ text.old.items
        ++ spaced_symbols grammar.now (take dot (rhs_of (plain_of grammar.now) production))) }
{
    let place = production as usize;
    let starts = grammar.starts.len();
    let dot = dot as usize;
    if place < starts {
        let symbols = [Symbol::N(grammar.starts[place])];
        return write_names(text, grammar, &symbols[..dot]);
    }
    match grammar.productions.get(place - starts) {
        Some(found) => write_names(text, grammar, &found.rhs.as_slice()[..dot]),
        None => write_names(text, grammar, &[]),
    }
}
