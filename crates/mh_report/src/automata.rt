//! The text of an automaton with its table.
ghost use Rattle.std.specs.Prelude.{◌≡◌, ◌<◌, ◌≤◌, ◌++◌, length, codes, IfOk, OnOk};
ghost use Rattle.mh_grammar.specs.Plain.{plain_of, IsInRange};
ghost use Rattle.mh_items_kernels.specs.Automaton.{IsAutomaton, kernel_at, edges_at};
ghost use Rattle.mh_tables_core.specs.Table.{fallback_of};
ghost use Rattle.mh_resolve_cells.specs.declared.kinds.Mode.{Mode as ModeOf};
ghost use Rattle.mh_resolve_cells.specs.Names.{mode_name};
ghost use Rattle.mh_grammar_texts.specs.Productions.{production_text};
ghost use Rattle.mh_report.specs.Fitting.{HasTable};
ghost use Rattle.mh_report.specs.Automata.{title, kernel_lines, cell_line, cell_lines, goto_line, goto_lines, head_line, AreActionLines, IsStateText, IsAutomatonText, AppendsText};

use mh_grammar::{Edge, Grammar, Memory, Symbol, Token, nonterminal_name, token_name};
use mh_grammar_texts::{write_between, write_production};
use mh_items_kernels::Automaton;
use mh_report_notation::write_item_lines;
use mh_resolve_cells::Mode;
use mh_resolve_settle::holes_of;
use mh_tables_core::{Action, Fallback, Halting, Table};
use std::alloc::Global;

/// The name of a mode in the text of an automaton.
pub fn mode_name(mode: Mode) -> &'static [u8]
    ensures { result.now ≡ mode_name mode }
{
    match mode {
        Mode::Merged => b"merged",
        Mode::Canonical => b"canonical",
    }
}

fn write_title(text: &mut Vec<u8>, mode: Mode, states: u32) -> Result<(), Memory>
    ensures { OnOk result (text.new.items ≡ text.old.items ++ title mode states) }
{
    text.extend_from_slice(mode_name(mode))?;
    write_between(text, b": ", states, b" states\n")
}

/// Appends a name, indented by two spaces.
fn write_indented(text: &mut Vec<u8>, name: &[u8]) -> Result<(), Memory>
    ensures { OnOk result (text.new.items ≡ text.old.items ++ (codes "  " ++ name.now)) }
{
    text.extend_from_slice(b"  ")?;
    text.extend_from_slice(name)?;
    Ok(())
}

/// Appends a line that ends with a production.
fn write_reduction(
    text: &mut Vec<u8>,
    grammar: &Grammar,
    front: &[u8],
    production: u32,
) -> Result<(), Memory>
    ensures { OnOk result (text.new.items ≡ text.old.items
        ++ (front.now ++ production_text grammar.now production ++ codes "\n")) }
{
    text.extend_from_slice(front)?;
    write_production(text, grammar, production)?;
    text.push(b'\n')?;
    Ok(())
}

/// Appends the line of a token: the action of its cell.
fn write_cell_line(
    text: &mut Vec<u8>,
    grammar: &Grammar,
    token: Token,
    action: Action,
    is_hole: bool,
) -> Result<(), Memory>
    ensures { OnOk result (text.new.items ≡ text.old.items
        ++ cell_line grammar.now token action is_hole) }
{
    match action {
        Action::Shift(target) => {
            write_indented(text, token_name(grammar, token))?;
            write_between(text, b": shift ", target, b"\n")
        }
        Action::Reduce(production) => {
            write_indented(text, token_name(grammar, token))?;
            write_reduction(text, grammar, b": reduce ", production)
        }
        Action::Refuse => {
            if is_hole {
                write_indented(text, token_name(grammar, token))?;
                text.extend_from_slice(b": hole\n")?;
            }
            Ok(())
        }
    }
}

fn write_cell_lines(
    text: &mut Vec<u8>,
    grammar: &Grammar,
    table: &Table,
    state: u32,
    holes: &[bool],
) -> Result<(), Memory>
    requires range { IsInRange (plain_of grammar.now) }
    requires grammar { table.now.grammar ≡ plain_of grammar.now }
    requires state { state < length table.now.states }
    requires holes { length holes.now ≡ length grammar.now.tokens }
    ensures { OnOk result (text.new.items ≡ text.old.items
        ++ cell_lines grammar.now table.now state holes.now (length grammar.now.tokens)) }
{
    for token in 0..holes.len() {
        let number = token as Token;
        let action = table.action(state, number);
        write_cell_line(text, grammar, number, action, holes[token])?;
    }
    Ok(())
}

fn write_goto_line(
    text: &mut Vec<u8>,
    grammar: &Grammar,
    symbol: Symbol,
    target: u32,
) -> Result<(), Memory>
    ensures { OnOk result (text.new.items ≡ text.old.items ++ goto_line grammar.now symbol target) }
{
    match symbol {
        Symbol::T(_) => Ok(()),
        Symbol::N(nonterminal) => {
            write_indented(text, nonterminal_name(grammar, nonterminal))?;
            write_between(text, b": goto ", target, b"\n")
        }
    }
}

fn write_goto_lines(text: &mut Vec<u8>, grammar: &Grammar, edges: &[Edge]) -> Result<(), Memory>
    ensures { OnOk result (text.new.items ≡ text.old.items ++ goto_lines grammar.now edges.now) }
{
    for edge in edges {
        write_goto_line(text, grammar, edge.symbol, edge.target)?;
    }
    Ok(())
}

/// Appends the default of a state, else one line for each token whose cell has an action or is a hole (has lost its
/// actions by precedence).
fn write_actions<const W: usize>(
    alloc: Global,
    text: &mut Vec<u8>,
    grammar: &Grammar,
    automaton: &Automaton<W>,
    table: &Table,
    state: u32,
) -> Result<(), Memory>
    requires table { (mode : ModeOf) × HasTable W grammar.now automaton.now mode table.now }
    requires state { state < length automaton.now.kernels }
    ensures { OnOk result
        (AppendsText (AreActionLines grammar.now automaton.now table.now state (fallback_of table.now state))
        text.old.items text.new.items) }
{
    match table.fallback(state) {
        Some(Fallback::Accept) => {
            text.extend_from_slice(b"  default: accept\n")?;
            Ok(())
        }
        Some(Fallback::Reduce(production)) => {
            write_reduction(text, grammar, b"  default: reduce ", production)
        }
        None => {
            let holes = holes_of(alloc, grammar, automaton, table, state)?;
            write_cell_lines(text, grammar, table, state, holes.as_slice())
        }
    }
}

fn write_head(text: &mut Vec<u8>, state: u32) -> Result<(), Memory>
    ensures { OnOk result (text.new.items ≡ text.old.items ++ head_line state) }
{
    write_between(text, b"state ", state, b"\n")
}

fn write_kernel<const W: usize>(
    text: &mut Vec<u8>,
    grammar: &Grammar,
    automaton: &Automaton<W>,
    state: u32,
) -> Result<(), Memory>
    requires few { W ≤ 8 }
    requires automaton { IsAutomaton (plain_of grammar.now) automaton.now }
    requires state { state < length automaton.now.kernels }
    ensures { OnOk result (text.new.items ≡ text.old.items
        ++ kernel_lines grammar.now (kernel_at automaton.now state).items) }
{
    let kernel = &automaton.kernels[state as usize];
    write_item_lines(text, grammar, b"  ", kernel.items.as_slice())
}

fn write_gotos<const W: usize>(
    text: &mut Vec<u8>,
    grammar: &Grammar,
    automaton: &Automaton<W>,
    state: u32,
) -> Result<(), Memory>
    requires few { W ≤ 8 }
    requires state { state < length automaton.now.edges }
    ensures { OnOk result (text.new.items ≡ text.old.items
        ++ goto_lines grammar.now (edges_at automaton.now state)) }
{
    let edges = automaton.edges[state as usize].as_slice();
    write_goto_lines(text, grammar, edges)
}

fn write_state<const W: usize>(
    alloc: Global,
    text: &mut Vec<u8>,
    grammar: &Grammar,
    automaton: &Automaton<W>,
    table: &Table,
    state: u32,
) -> Result<(), Memory>
    requires table { (mode : ModeOf) × HasTable W grammar.now automaton.now mode table.now }
    requires state { state < length automaton.now.kernels }
    ensures { OnOk result
        (AppendsText (IsStateText grammar.now automaton.now table.now state)
        text.old.items text.new.items) }
{
    write_head(text, state)?;
    write_kernel(text, grammar, automaton, state)?;
    write_actions(alloc, text, grammar, automaton, table, state)?;
    write_gotos(text, grammar, automaton, state)?;
    Ok(())
}

/// Returns the text of an automaton: for each state its kernel, its default or the cells that have an action or are
/// holes, and its edges on nonterminals. A hole is a cell whose actions were all removed by precedence. The table must
/// be the one of this automaton; `mode` is the kind of the automaton, merged or canonical. Fails only if memory runs
/// out.
pub fn automaton_text<const W: usize>(
    alloc: Global,
    grammar: &Grammar,
    automaton: &Automaton<W>,
    table: &Halting,
    mode: Mode,
) -> Result<Vec<u8>, Memory>
    requires table { HasTable W grammar.now automaton.now mode table.now }
    ensures { IfOk result
        (λ text. IsAutomatonText grammar.now automaton.now mode table.now text.items) }
{
    let states = automaton.kernels.len() as u32;
    let mut text = Vec::new(alloc);
    write_title(&mut text, mode, states)?;
    for state in 0..states {
        write_state(alloc, &mut text, grammar, automaton, table.table(), state)?;
    }
    Ok(text)
}
