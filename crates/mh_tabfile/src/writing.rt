//! Writes table files. Each function appends to a text and fails only if memory runs out; then the text may have only a
//! part of the bytes that the function writes.
ghost use Rattle.std.specs.Prelude.{◌≡◌, ◌∷◌, ◌++◌, ◌<◌, ◌≤◌, ◌^◌, [], map, length, codes, decimal, Some, IfOk, OnOk};
ghost use Rattle.std.specs.List.{All};
ghost use Rattle.mh_grammar.specs.Costs.{costs_of};
ghost use Rattle.mh_grammar.specs.Names.{nonterminal_name as name_of_nonterminal, symbol_name as name_of_symbol};
ghost use Rattle.mh_items_kernels.specs.Automaton.{kernel_at, edges_at};
ghost use Rattle.mh_tables_core.specs.Table.{state_at};
ghost use Rattle.mh_report.specs.Fitting.{HasTable};
ghost use Rattle.mh_resolve_cells.specs.Names.{look_name as name_of_look};
ghost use Rattle.mh_tabfile_form.specs.Form.{count_line, production_line, item_line, edge_line, cell_line, fallback_line, cells_lines, state_lines, states_lines, table_text};
ghost use Rattle.mh_tabfile_form.specs.TableContent.{raw_production, raw_item, raw_edge, raw_cell, raw_row, raw_cells, raw_state_of, raw_states, raw_of};
ghost use Rattle.mh_tabfile.specs.code.Texts.{words_after, line_written, lines_written};

use mh_grammar::{
    Edge, Grammar, Memory, Production, Symbol, Token, TokenInfo, nonterminal_name, symbol_name,
    token_name,
};
use mh_items_kernels::{Automaton, KernelItem};
use mh_report::{look_name, mode_name, write_number};
use mh_resolve_cells::Mode;
use mh_sets::TokenSet;
use mh_tables_core::{Action, Fallback, Table};
use std::alloc::Global;

/// Appends a space and a word.
fn write_word(text: &mut Vec<u8>, word: &[u8]) -> Result<(), Memory>
    ensures { OnOk result (text.new.items ≡ text.old.items ++ 32 ∷ word.now) }
{
    text.push(b' ')?;
    text.extend_from_slice(word)?;
    Ok(())
}

/// Appends a space and a number.
fn write_numeral(text: &mut Vec<u8>, number: u32) -> Result<(), Memory>
    ensures { OnOk result (text.new.items ≡ text.old.items ++ 32 ∷ decimal number) }
{
    text.push(b' ')?;
    write_number(text, number)
}

/// Appends a line of a keyword and a number.
fn write_count(text: &mut Vec<u8>, key: &[u8], count: u32) -> Result<(), Memory>
    ensures { OnOk result (text.new.items ≡ text.old.items ++ line_written (count_line key.now count)) }
{
    text.extend_from_slice(key)?;
    write_numeral(text, count)?;
    text.push(b'\n')?;
    Ok(())
}

fn write_version(text: &mut Vec<u8>, version: u32, mode: &[u8]) -> Result<(), Memory>
    ensures { OnOk result (text.new.items ≡ text.old.items
        ++ line_written (codes "menhir-tables" ∷ decimal version ∷ mode.now ∷ [])) }
{
    text.extend_from_slice(b"menhir-tables")?;
    write_numeral(text, version)?;
    write_word(text, mode)?;
    text.push(b'\n')?;
    Ok(())
}

fn write_token_names(text: &mut Vec<u8>, tokens: &[TokenInfo]) -> Result<(), Memory>
    ensures { OnOk result (text.new.items ≡ text.old.items
        ++ words_after (map (λ t. t.name) tokens.now)) }
{
    for token in tokens {
        write_word(text, token.name.as_slice())?;
    }
    Ok(())
}

fn write_token_costs(text: &mut Vec<u8>, tokens: &[TokenInfo]) -> Result<(), Memory>
    ensures { OnOk result (text.new.items ≡ text.old.items
        ++ words_after (map decimal (costs_of tokens.now))) }
{
    for token in tokens {
        write_numeral(text, token.cost)?;
    }
    Ok(())
}

fn write_start_names(text: &mut Vec<u8>, grammar: &Grammar, starts: &[u16]) -> Result<(), Memory>
    ensures { OnOk result (text.new.items ≡ text.old.items
        ++ words_after (map (name_of_nonterminal grammar.now) starts.now)) }
{
    for start in starts {
        write_word(text, nonterminal_name(grammar, *start))?;
    }
    Ok(())
}

fn write_symbol_names(
    text: &mut Vec<u8>,
    grammar: &Grammar,
    symbols: &[Symbol],
) -> Result<(), Memory>
    ensures { OnOk result (text.new.items ≡ text.old.items
        ++ words_after (map (name_of_symbol grammar.now) symbols.now)) }
{
    for symbol in symbols {
        write_word(text, symbol_name(grammar, *symbol))?;
    }
    Ok(())
}

fn write_looks<const W: usize>(
    text: &mut Vec<u8>,
    grammar: &Grammar,
    looks: &TokenSet<W>,
) -> Result<(), Memory>
    requires few { W ≤ 8 }
    ensures { OnOk result (text.new.items ≡ text.old.items
        ++ words_after (map (name_of_look grammar.now) looks.now)) }
{
    for look in looks.looks() {
        write_word(text, look_name(grammar, look))?;
    }
    Ok(())
}

fn write_tokens(text: &mut Vec<u8>, tokens: &[TokenInfo]) -> Result<(), Memory>
    ensures { OnOk result (text.new.items ≡ text.old.items
        ++ line_written (codes "tokens" ∷ map (λ t. t.name) tokens.now)) }
{
    text.extend_from_slice(b"tokens")?;
    write_token_names(text, tokens)?;
    text.push(b'\n')?;
    Ok(())
}

fn write_costs(text: &mut Vec<u8>, tokens: &[TokenInfo]) -> Result<(), Memory>
    ensures { OnOk result (text.new.items ≡ text.old.items
        ++ line_written (codes "costs" ∷ map decimal (costs_of tokens.now))) }
{
    text.extend_from_slice(b"costs")?;
    write_token_costs(text, tokens)?;
    text.push(b'\n')?;
    Ok(())
}

fn write_starts(text: &mut Vec<u8>, grammar: &Grammar) -> Result<(), Memory>
    ensures { OnOk result (text.new.items ≡ text.old.items
        ++ line_written (codes "starts" ∷ map (name_of_nonterminal grammar.now) grammar.now.starts)) }
{
    text.extend_from_slice(b"starts")?;
    write_start_names(text, grammar, grammar.starts.as_slice())?;
    text.push(b'\n')?;
    Ok(())
}

fn write_production(
    text: &mut Vec<u8>,
    grammar: &Grammar,
    production: &Production,
) -> Result<(), Memory>
    ensures { OnOk result (text.new.items ≡ text.old.items
        ++ line_written (production_line (raw_production grammar.now production.now))) }
{
    text.extend_from_slice(nonterminal_name(grammar, production.lhs))?;
    text.extend_from_slice(b" ->")?;
    write_symbol_names(text, grammar, production.rhs.as_slice())?;
    text.push(b'\n')?;
    Ok(())
}

fn write_productions(
    text: &mut Vec<u8>,
    grammar: &Grammar,
    productions: &[Production],
) -> Result<(), Memory>
    ensures { OnOk result (text.new.items ≡ text.old.items
        ++ lines_written (map production_line (map (raw_production grammar.now) productions.now))) }
{
    for production in productions {
        write_production(text, grammar, production)?;
    }
    Ok(())
}

fn write_item<const W: usize>(
    text: &mut Vec<u8>,
    grammar: &Grammar,
    item: &KernelItem<W>,
) -> Result<(), Memory>
    requires few { W ≤ 8 }
    ensures { OnOk result (text.new.items ≡ text.old.items
        ++ line_written (item_line (raw_item grammar.now item.now))) }
{
    text.extend_from_slice(b"item")?;
    write_numeral(text, item.production)?;
    write_numeral(text, item.dot)?;
    write_looks(text, grammar, &item.looks)?;
    text.push(b'\n')?;
    Ok(())
}

fn write_items<const W: usize>(
    text: &mut Vec<u8>,
    grammar: &Grammar,
    items: &[KernelItem<W>],
) -> Result<(), Memory>
    requires few { W ≤ 8 }
    ensures { OnOk result (text.new.items ≡ text.old.items
        ++ lines_written (map item_line (map (raw_item grammar.now) items.now))) }
{
    for item in items {
        write_item(text, grammar, item)?;
    }
    Ok(())
}

fn write_edge(text: &mut Vec<u8>, grammar: &Grammar, edge: &Edge) -> Result<(), Memory>
    ensures { OnOk result (text.new.items ≡ text.old.items
        ++ line_written (edge_line (raw_edge grammar.now edge.now))) }
{
    text.extend_from_slice(b"edge")?;
    write_word(text, symbol_name(grammar, edge.symbol))?;
    write_numeral(text, edge.target)?;
    text.push(b'\n')?;
    Ok(())
}

fn write_edges(text: &mut Vec<u8>, grammar: &Grammar, edges: &[Edge]) -> Result<(), Memory>
    ensures { OnOk result (text.new.items ≡ text.old.items
        ++ lines_written (map edge_line (map (raw_edge grammar.now) edges.now))) }
{
    for edge in edges {
        write_edge(text, grammar, edge)?;
    }
    Ok(())
}

/// Appends the line of a cell that shifts or reduces.
fn write_acting(text: &mut Vec<u8>, name: &[u8], verb: &[u8], number: u32) -> Result<(), Memory>
    ensures { OnOk result (text.new.items ≡ text.old.items
        ++ line_written (codes "cell" ∷ name.now ∷ verb.now ∷ decimal number ∷ [])) }
{
    text.extend_from_slice(b"cell")?;
    write_word(text, name)?;
    write_word(text, verb)?;
    write_numeral(text, number)?;
    text.push(b'\n')?;
    Ok(())
}

fn write_cell(
    text: &mut Vec<u8>,
    grammar: &Grammar,
    token: Token,
    action: Action,
) -> Result<(), Memory>
    ensures { OnOk result (text.new.items ≡ text.old.items
        ++ lines_written (map cell_line (raw_cell grammar.now token action))) }
{
    let name = token_name(grammar, token);
    match action {
        Action::Shift(target) => write_acting(text, name, b"shift", target),
        Action::Reduce(production) => write_acting(text, name, b"reduce", production),
        Action::Refuse => Ok(()),
    }
}

fn write_cells(
    text: &mut Vec<u8>,
    grammar: &Grammar,
    table: &Table,
    state: u32,
) -> Result<(), Memory>
    requires state { state < length table.now.states }
    ensures { OnOk result (text.new.items ≡ text.old.items
        ++ lines_written (map cell_line (raw_row grammar.now 0 (state_at table.now state).cells))) }
{
    table.facts();
    for token in 0..table.tokens() {
        write_cell(text, grammar, token, table.action(state, token))?;
    }
    Ok(())
}

fn write_fallback(text: &mut Vec<u8>, fallback: Fallback) -> Result<(), Memory>
    ensures { OnOk result (text.new.items ≡ text.old.items ++ line_written (fallback_line fallback)) }
{
    match fallback {
        Fallback::Accept => {
            text.extend_from_slice(b"default accept\n")?;
            Ok(())
        }
        Fallback::Reduce(production) => write_count(text, b"default reduce", production),
    }
}

/// Appends the default action of a state, or its cells if it has no default action.
#[tactic(auto, unfolding(mh_tables_core::specs::Table::fallback_of))]
fn write_actions(
    text: &mut Vec<u8>,
    grammar: &Grammar,
    table: &Table,
    state: u32,
) -> Result<(), Memory>
    requires state { state < length table.now.states }
    ensures { OnOk result (text.new.items ≡ text.old.items
        ++ lines_written (cells_lines (raw_cells grammar.now (state_at table.now state)))) }
{
    match table.fallback(state) {
        Some(fallback) => write_fallback(text, fallback),
        None => write_cells(text, grammar, table, state),
    }
}

fn write_state<const W: usize>(
    text: &mut Vec<u8>,
    grammar: &Grammar,
    automaton: &Automaton<W>,
    table: &Table,
    state: u32,
) -> Result<(), Memory>
    requires few { W ≤ 8 }
    requires kernel { state < length automaton.now.kernels }
    requires edges { state < length automaton.now.edges }
    requires state { state < length table.now.states }
    ensures { OnOk result (text.new.items ≡ text.old.items
        ++ lines_written (state_lines state (raw_state_of grammar.now
        (kernel_at automaton.now state) (edges_at automaton.now state)
        (state_at table.now state)))) }
{
    let place = state as usize;
    write_count(text, b"state", state)?;
    write_items(text, grammar, automaton.kernels[place].items.as_slice())?;
    write_edges(text, grammar, automaton.edges[place].as_slice())?;
    write_actions(text, grammar, table, state)?;
    Ok(())
}

fn write_states<const W: usize>(
    text: &mut Vec<u8>,
    grammar: &Grammar,
    automaton: &Automaton<W>,
    table: &Table,
) -> Result<(), Memory>
    requires few { W ≤ 8 }
    requires edges { length automaton.now.edges ≡ length automaton.now.kernels }
    requires states { length table.now.states ≡ length automaton.now.kernels }
    ensures { OnOk result (text.new.items ≡ text.old.items
        ++ lines_written (states_lines 0
        (raw_states grammar.now automaton.now.kernels automaton.now.edges table.now.states))) }
{
    for state in 0..table.states() {
        write_state(text, grammar, automaton, table, state)?;
    }
    Ok(())
}

/// Returns the table file, in version 2, of a grammar's automaton and table. The table must be the one that the states
/// of the automaton resolve to; `mode` is the kind of the automaton, merged or canonical. Fails only if memory runs
/// out.
pub fn write_tables<const W: usize>(
    alloc: Global,
    grammar: &Grammar,
    automaton: &Automaton<W>,
    table: &Table,
    mode: Mode,
) -> Result<Vec<u8>, Memory>
    requires table { HasTable W grammar.now automaton.now mode table.now }
    ensures { IfOk result (λ text. text.items
        ≡ table_text (raw_of grammar.now automaton.now mode table.now.states)) }
{
    let mut text = Vec::new(alloc);
    write_all(&mut text, grammar, automaton, table, mode)?;
    Ok(text)
}

/// Writes the file into an empty text.
fn write_all<const W: usize>(
    text: &mut Vec<u8>,
    grammar: &Grammar,
    automaton: &Automaton<W>,
    table: &Table,
    mode: Mode,
) -> Result<(), Memory>
    requires empty { text.old.items ≡ [] }
    requires table { HasTable W grammar.now automaton.now mode table.now }
    ensures { OnOk result (text.new.items
        ≡ table_text (raw_of grammar.now automaton.now mode table.now.states)) }
{
    let productions = grammar.productions.as_slice();
    let tokens = grammar.tokens.as_slice();
    write_version(text, 2, mode_name(mode))?;
    write_tokens(text, tokens)?;
    write_costs(text, tokens)?;
    write_starts(text, grammar)?;
    write_count(text, b"productions", productions.len() as u32)?;
    write_productions(text, grammar, productions)?;
    write_count(text, b"states", table.states())?;
    write_states(text, grammar, automaton, table)?;
    text.extend_from_slice(b"end\n")?;
    Ok(())
}
