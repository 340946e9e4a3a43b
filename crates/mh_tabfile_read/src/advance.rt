//! Reads one line of a table file.
ghost use Rattle.std.specs.Prelude.{◌≡◌, ◌∷◌, ◌<◌, map, Some};
ghost use Rattle.mh_tabfile_read.specs.code.Words.{AgreesWith};
ghost use Rattle.mh_tabfile_read.specs.code.Machine as machine;
ghost use Rattle.mh_tabfile_read.specs.code.Machine.{AdvancesTo};

use crate::places::{ExpectedLine, LineKind, Reader};
use crate::words::{
    cell_of, count_of, edge_of, fallback_of, item_of, kind_of, mode_of, names_of, number,
    numbers_of, production_of,
};
use mh_grammar::Sequence;
use mh_tabfile_form::{RawCell, RawCells, RawEdge, RawItem, RawProduction, RawState};
use std::alloc::Global;
use std::mem;

/// Why a line is refused.
#[derive(Clone, Copy)]
pub(crate) enum LineRefusal {
    Unexpected,
    Memory,
}

fn costs_for(alloc: Global, version: u32) -> Result<Option<Sequence<u32>>, LineRefusal>
    ensures { AgreesWith (machine.costs_for version) result }
{
    if version == 1 {
        Ok(None)
    } else if version == 2 {
        Ok(Some(Sequence::new(alloc)))
    } else {
        Err(LineRefusal::Unexpected)
    }
}

fn expected_after_tokens(costs: &Option<Sequence<u32>>) -> ExpectedLine
    ensures { result ≡ machine.expected_after_tokens costs.now }
{
    match costs {
        None => ExpectedLine::Starts,
        Some(_) => ExpectedLine::Costs,
    }
}

fn read_head(alloc: Global, reader: &mut Reader, words: &[&[u8]]) -> Result<(), LineRefusal>
    ensures { AdvancesTo (machine.read_head reader.old (map (λ w. w.now) words.now)) reader.new result }
{
    match words {
        [version, mode] => {
            let version = number(version)?;
            reader.costs = costs_for(alloc, version)?;
            reader.mode = mode_of(mode)?;
            reader.place = ExpectedLine::Tokens;
            Ok(())
        }
        _ => Err(LineRefusal::Unexpected),
    }
}

fn at_head(
    alloc: Global,
    reader: &mut Reader,
    kind: LineKind,
    words: &[&[u8]],
) -> Result<(), LineRefusal>
    ensures { AdvancesTo (machine.at_head reader.old kind (map (λ w. w.now) words.now)) reader.new result }
{
    match kind {
        LineKind::Head => read_head(alloc, reader, words),
        _ => Err(LineRefusal::Unexpected),
    }
}

fn at_tokens(
    alloc: Global,
    reader: &mut Reader,
    kind: LineKind,
    words: &[&[u8]],
) -> Result<(), LineRefusal>
    ensures { AdvancesTo (machine.at_tokens reader.old kind (map (λ w. w.now) words.now)) reader.new result }
{
    match kind {
        LineKind::Tokens => {
            reader.place = expected_after_tokens(&reader.costs);
            reader.tokens = names_of(alloc, words)?;
            Ok(())
        }
        _ => Err(LineRefusal::Unexpected),
    }
}

fn at_costs(
    alloc: Global,
    reader: &mut Reader,
    kind: LineKind,
    words: &[&[u8]],
) -> Result<(), LineRefusal>
    ensures { AdvancesTo (machine.at_costs reader.old kind (map (λ w. w.now) words.now)) reader.new result }
{
    match kind {
        LineKind::Costs => {
            let costs = numbers_of(alloc, words)?;
            reader.costs = Some(costs);
            reader.place = ExpectedLine::Starts;
            Ok(())
        }
        _ => Err(LineRefusal::Unexpected),
    }
}

fn at_starts(
    alloc: Global,
    reader: &mut Reader,
    kind: LineKind,
    words: &[&[u8]],
) -> Result<(), LineRefusal>
    ensures { AdvancesTo (machine.at_starts reader.old kind (map (λ w. w.now) words.now)) reader.new result }
{
    match kind {
        LineKind::Starts => {
            let starts = names_of(alloc, words)?;
            reader.starts = starts;
            reader.place = ExpectedLine::Productions;
            Ok(())
        }
        _ => Err(LineRefusal::Unexpected),
    }
}

fn at_productions(reader: &mut Reader, kind: LineKind, words: &[&[u8]]) -> Result<(), LineRefusal>
    ensures { AdvancesTo (machine.at_productions reader.old kind (map (λ w. w.now) words.now)) reader.new result }
{
    match kind {
        LineKind::Productions => {
            let count = count_of(words)?;
            reader.place = ExpectedLine::Listing(count);
            Ok(())
        }
        _ => Err(LineRefusal::Unexpected),
    }
}

fn at_states(reader: &mut Reader, kind: LineKind, words: &[&[u8]]) -> Result<(), LineRefusal>
    ensures { AdvancesTo (machine.at_states reader.old kind (map (λ w. w.now) words.now)) reader.new result }
{
    match kind {
        LineKind::States => {
            let count = count_of(words)?;
            reader.place = ExpectedLine::Between(count);
            Ok(())
        }
        _ => Err(LineRefusal::Unexpected),
    }
}

fn at_production(
    alloc: Global,
    reader: &mut Reader,
    left: u32,
    line: &[&[u8]],
) -> Result<(), LineRefusal>
    requires { 0 < left }
    ensures { AdvancesTo (machine.at_production reader.old left (map (λ w. w.now) line.now)) reader.new result }
{
    let production = production_of(alloc, line)?;
    let Ok(()) = reader.productions.push(production) else {
        return Err(LineRefusal::Memory);
    };
    reader.place = ExpectedLine::Listing(left - 1);
    Ok(())
}

fn open_state(alloc: Global, reader: &mut Reader, left: u32, number: u32) -> Result<(), LineRefusal>
    requires { 0 < left }
    ensures { AdvancesTo (machine.open_state reader.old left number) reader.new result }
{
    if number as usize != reader.states.len() {
        return Err(LineRefusal::Unexpected);
    }
    reader.items = Sequence::new(alloc);
    reader.edges = Sequence::new(alloc);
    reader.cells = Sequence::new(alloc);
    reader.place = ExpectedLine::Items(left - 1);
    Ok(())
}

fn at_state(
    alloc: Global,
    reader: &mut Reader,
    left: u32,
    kind: LineKind,
    words: &[&[u8]],
) -> Result<(), LineRefusal>
    requires { 0 < left }
    ensures { AdvancesTo (machine.at_state reader.old left kind (map (λ w. w.now) words.now)) reader.new result }
{
    match kind {
        LineKind::State => {
            let number = count_of(words)?;
            open_state(alloc, reader, left, number)
        }
        _ => Err(LineRefusal::Unexpected),
    }
}

fn at_end(reader: &mut Reader, kind: LineKind, words: &[&[u8]]) -> Result<(), LineRefusal>
    ensures { AdvancesTo (machine.at_end reader.old kind (map (λ w. w.now) words.now)) reader.new result }
{
    match kind {
        LineKind::End => match words {
            [] => {
                reader.place = ExpectedLine::Ended;
                Ok(())
            }
            [_, ..] => Err(LineRefusal::Unexpected),
        },
        _ => Err(LineRefusal::Unexpected),
    }
}

fn between(
    alloc: Global,
    reader: &mut Reader,
    left: u32,
    kind: LineKind,
    words: &[&[u8]],
) -> Result<(), LineRefusal>
    ensures { AdvancesTo (machine.at_between_states reader.old left kind (map (λ w. w.now) words.now)) reader.new result }
{
    if left == 0 {
        at_end(reader, kind, words)
    } else {
        at_state(alloc, reader, left, kind, words)
    }
}

/// Completes the open state with its cells or its default action.
fn ended_by(
    alloc: Global,
    reader: &mut Reader,
    cells: RawCells,
    place: ExpectedLine,
) -> Result<(), LineRefusal>
    ensures { AdvancesTo (Some (machine.state_ended_by reader.old cells place)) reader.new result }
{
    let state = RawState {
        items: mem::replace(&mut reader.items, Sequence::new(alloc)),
        edges: mem::replace(&mut reader.edges, Sequence::new(alloc)),
        cells,
    };
    let Ok(()) = reader.states.push(state) else {
        return Err(LineRefusal::Memory);
    };
    reader.cells = Sequence::new(alloc);
    reader.place = place;
    Ok(())
}

fn closed(alloc: Global, reader: &mut Reader) -> Result<(), LineRefusal>
    ensures { AdvancesTo (Some (machine.state_closed reader.old)) reader.new result }
{
    let place = reader.place;
    let cells = mem::replace(&mut reader.cells, Sequence::new(alloc));
    ended_by(alloc, reader, RawCells::Cells(cells), place)
}

fn at_cells(
    alloc: Global,
    reader: &mut Reader,
    left: u32,
    kind: LineKind,
    words: &[&[u8]],
) -> Result<(), LineRefusal>
    ensures { AdvancesTo (machine.at_cells reader.old left kind (map (λ w. w.now) words.now)) reader.new result }
{
    match kind {
        LineKind::Cell => {
            let cell = cell_of(alloc, words)?;
            let Ok(()) = reader.cells.push(cell) else {
                return Err(LineRefusal::Memory);
            };
            reader.place = ExpectedLine::Cells(left);
            Ok(())
        }
        _ => {
            let Ok(()) = closed(alloc, reader) else {
                return Err(LineRefusal::Memory);
            };
            between(alloc, reader, left, kind, words)
        }
    }
}

fn at_edges(
    alloc: Global,
    reader: &mut Reader,
    left: u32,
    kind: LineKind,
    words: &[&[u8]],
) -> Result<(), LineRefusal>
    ensures { AdvancesTo (machine.at_edges reader.old left kind (map (λ w. w.now) words.now)) reader.new result }
{
    match kind {
        LineKind::Edge => {
            let edge = edge_of(alloc, words)?;
            let Ok(()) = reader.edges.push(edge) else {
                return Err(LineRefusal::Memory);
            };
            reader.place = ExpectedLine::Edges(left);
            Ok(())
        }
        LineKind::Default => {
            let fallback = fallback_of(words)?;
            ended_by(
                alloc,
                reader,
                RawCells::Fallback(fallback),
                ExpectedLine::Between(left),
            )
        }
        _ => at_cells(alloc, reader, left, kind, words),
    }
}

fn at_items(
    alloc: Global,
    reader: &mut Reader,
    left: u32,
    kind: LineKind,
    words: &[&[u8]],
) -> Result<(), LineRefusal>
    ensures { AdvancesTo (machine.at_items reader.old left kind (map (λ w. w.now) words.now)) reader.new result }
{
    match kind {
        LineKind::Item => {
            let item = item_of(alloc, words)?;
            let Ok(()) = reader.items.push(item) else {
                return Err(LineRefusal::Memory);
            };
            reader.place = ExpectedLine::Items(left);
            Ok(())
        }
        _ => at_edges(alloc, reader, left, kind, words),
    }
}

fn at_production_list(
    alloc: Global,
    reader: &mut Reader,
    left: u32,
    word: &[u8],
    words: &[&[u8]],
    line: &[&[u8]],
) -> Result<(), LineRefusal>
    requires { map (λ w. w.now) line.now ≡ word.now ∷ map (λ w. w.now) words.now }
    ensures { AdvancesTo (machine.at_production_list reader.old left word.now (map (λ w. w.now) words.now)) reader.new result }
{
    if left == 0 {
        at_states(reader, kind_of(word), words)
    } else {
        at_production(alloc, reader, left, line)
    }
}

fn advance_at(
    alloc: Global,
    place: ExpectedLine,
    reader: &mut Reader,
    word: &[u8],
    words: &[&[u8]],
    line: &[&[u8]],
) -> Result<(), LineRefusal>
    requires { map (λ w. w.now) line.now ≡ word.now ∷ map (λ w. w.now) words.now }
    ensures { AdvancesTo (machine.next_at place reader.old word.now (map (λ w. w.now) words.now)) reader.new result }
{
    match place {
        ExpectedLine::Head => at_head(alloc, reader, kind_of(word), words),
        ExpectedLine::Tokens => at_tokens(alloc, reader, kind_of(word), words),
        ExpectedLine::Costs => at_costs(alloc, reader, kind_of(word), words),
        ExpectedLine::Starts => at_starts(alloc, reader, kind_of(word), words),
        ExpectedLine::Productions => at_productions(reader, kind_of(word), words),
        ExpectedLine::Listing(left) => at_production_list(alloc, reader, left, word, words, line),
        ExpectedLine::Between(left) => between(alloc, reader, left, kind_of(word), words),
        ExpectedLine::Items(left) => at_items(alloc, reader, left, kind_of(word), words),
        ExpectedLine::Edges(left) => at_edges(alloc, reader, left, kind_of(word), words),
        ExpectedLine::Cells(left) => at_cells(alloc, reader, left, kind_of(word), words),
        ExpectedLine::Ended => Err(LineRefusal::Unexpected),
    }
}

/// Reads the next line. If the line is refused, nothing is said of the content of the reader.
#[tactic(auto, unfolding(crate::specs::code::Machine::next))]
pub(crate) fn advance(alloc: Global, reader: &mut Reader, line: &[&[u8]]) -> Result<(), LineRefusal>
    ensures { AdvancesTo (machine.next reader.old (map (λ w. w.now) line.now)) reader.new result }
{
    match line {
        [word, words @ ..] => {
            let place = reader.place;
            advance_at(alloc, place, reader, word, words, line)
        }
        [] => Err(LineRefusal::Unexpected),
    }
}
