//! Upper bounds on the reductions of relative runs above an edge. Such a run begins with the target of the edge (the
//! upper state) above the source of the edge (the lower state). The bounds are computed once for each symbol instead of
//! once for each edge. At first a run makes the reductions of its upper state alone, which are the same above every
//! lower state. If the next reduction removes exactly the states above the lower one, the run continues above the edge
//! of the lower state on the left side: a passage from the symbol of the first edge to this left side. So a bound for
//! one symbol follows from the bounds of other symbols. If the graph of the passages has no cycle, no run above an edge
//! has to be tried.
ghost use Rattle.std.specs.Prelude.{◌≡◌, ◌<◌, ◌≤◌, ◌+◌, ℕ, true, false, length, vec_len, slice_index, All, Contains, IfOk, OnOk};
ghost use Rattle.mh_grammar.specs.Plain.{production_count, rhs_of, IsSymbolBelow};
ghost use Rattle.mh_tables_core.specs.Halting.{IsLook, look_list};
ghost use Rattle.mh_tables.specs.code.Passages.{symbol_index, symbol_count, HasContinuation, IsPassageInRange, KeepsPassages, HasNoUsefulBound, UnitIsIn, UnitsAreIn, EmptyNext, PassageOr, IsCoveredOn, IsCoveredFrom, IsCovered, AreAllPassages, IsBoundHighEnough, BoundsProveHalting};

use crate::relative_runs::{next_reduction, reduced_within};
use mh_grammar::{Symbol, Token};
use mh_tables_core::{NextAction, Table, choose};
use std::alloc::{AllocError, Global};

/// The greatest useful bound: a run with this many reductions, together with the `MAX_TRIED` that are tried for a state
/// alone, makes at most `MAX_REDUCTIONS` reductions.
pub(crate) const MAX_BOUND: u32 = 9_900;

/// The greatest number of reductions that are tried for a state alone.
const MAX_TRIED: u32 = 100;

/// The number of rounds in which bounds are raised as far as needed; afterwards a bound that still rises is given up.
const PATIENCE: u32 = 200;

/// The greatest number of rounds.
const MAX_ROUNDS: u32 = 400;

/// Relative runs above an edge on the symbol with index `from` continue above an edge on the symbol with index `to`,
/// after `count` + 1 reductions.
#[derive(Clone, Copy, PartialEq, Eq)]
pub(crate) struct Passage {
    /// The index of the symbol on whose edge the runs begin.
    pub from: u32,
    /// The index of the symbol on whose edge the runs continue.
    pub to: u32,
    /// The number of reductions of the upper state alone; at least `MAX_BOUND` if it is not known.
    pub count: u32,
}

/// How relative runs continue after the reductions of their upper state alone.
#[derive(Clone, Copy)]
pub(crate) enum Continuation {
    /// They end.
    Ends,
    /// They continue above an edge on this nonterminal.
    Passes(u16),
    /// Their continuation is not known.
    Unknown,
}

/// The number of symbols.
fn symbols(table: &Table) -> u32
    ensures { result ≡ symbol_count table.now }
{
    u32::from(table.tokens()) + u32::from(table.nonterminals())
}

/// The index of a symbol in the list of bounds.
pub(crate) fn place_of(table: &Table, symbol: Symbol) -> u32
    requires { IsSymbolBelow table.now.grammar.tokens table.now.grammar.nonterminals symbol }
    ensures place { result ≡ symbol_index table.now symbol }
    ensures known { result < symbol_count table.now }
{
    match symbol {
        Symbol::T(token) => u32::from(token),
        Symbol::N(nonterminal) => u32::from(table.tokens()) + u32::from(nonterminal),
    }
}

/// Appends a passage, unless it is the last one already.
fn add(table: &Table, passages: &mut Vec<Passage>, passage: Passage) -> Result<(), AllocError>
    requires known { All (IsPassageInRange table.now) passages.old.items }
    requires passage { IsPassageInRange table.now passage }
    ensures known { OnOk result (All (IsPassageInRange table.now) passages.new.items) }
    ensures kept { OnOk result (KeepsPassages passages.old.items passages.new.items) }
    ensures there { OnOk result (Contains passages.new.items passage) }
{
    // Only the contract uses the table.
    let _table = table;
    if is_last(passages, passage) {
        return Ok(());
    }
    passages.push(passage)?;
    Ok(())
}

/// True only if the passage is the last of the list.
fn is_last(passages: &[Passage], passage: Passage) -> bool
    ensures { result ≡ true → Contains passages.now passage }
{
    match passages.last() {
        Some(last) => *last == passage,
        None => false,
    }
}

/// True only if the last passage is from this symbol and has no useful bound.
fn is_unclear(passages: &[Passage], from: u32) -> bool
    ensures { result ≡ true → HasNoUsefulBound passages.now from }
{
    match passages.last() {
        Some(last) => last.from == from && MAX_BOUND <= last.count,
        None => false,
    }
}

/// Appends the passage of a production if its right side has one symbol.
fn add_unit(table: &Table, passages: &mut Vec<Passage>, production: u32) -> Result<(), AllocError>
    requires ordinary { length table.now.grammar.starts ≤ production }
    requires production { production < production_count table.now.grammar }
    requires known { All (IsPassageInRange table.now) passages.old.items }
    ensures known { OnOk result (All (IsPassageInRange table.now) passages.new.items) }
    ensures kept { OnOk result (KeepsPassages passages.old.items passages.new.items) }
    ensures unit { OnOk result (UnitIsIn table.now passages.new.items production) }
{
    table.facts();
    if table.length_of(production) != 1 {
        return Ok(());
    }
    let from = place_of(table, table.symbol_of(production, 0));
    let to = place_of(table, Symbol::N(table.lhs_of(production)));
    add(table, passages, Passage { from, to, count: 0 })
}

/// Appends the passages of all productions whose right side has one symbol.
fn add_units(table: &Table, passages: &mut Vec<Passage>) -> Result<(), AllocError>
    requires known { All (IsPassageInRange table.now) passages.old.items }
    ensures known { OnOk result (All (IsPassageInRange table.now) passages.new.items) }
    ensures units { OnOk result (UnitsAreIn table.now passages.new.items) }
{
    'productions: for production in u32::from(table.starts())..table.productions() {
        add_unit(table, passages, production)?;
    }
    Ok(())
}

/// The empty production that a state reduces first with this next token, if there is one.
fn empty_reduction(table: &Table, state: u32, look: Option<Token>) -> Option<u32>
    requires look { IsLook table.now look }
    requires state { state < length table.now.states }
    ensures { EmptyNext table.now state look result }
{
    table.facts();
    match choose(table, state, look) {
        NextAction::Reduce(production) => {
            if table.length_of(production) == 0 {
                Some(production)
            } else {
                None
            }
        }
        _ => None,
    }
}

/// How relative runs continue if the run of their upper state leaves this stack.
fn continuation_after(table: &Table, stack: &[u32], look: Option<Token>) -> Continuation
    requires begun { 0 < length stack.now }
    requires known { All (λ s. s < length table.now.states) stack.now }
    requires look { IsLook table.now look }
    ensures { HasContinuation table.now (look_list look) stack.now result }
{
    let Some(production) = next_reduction(table, stack, look) else {
        return Continuation::Ends;
    };
    let taken = table.length_of(production) as usize;
    if stack.len() < taken {
        return Continuation::Ends;
    }
    if stack.len() > taken {
        return Continuation::Unknown;
    }
    Continuation::Passes(table.lhs_of(production))
}

/// The passage of a state that reduces an empty production first with this next token; `None` if its runs end. All
/// edges to the state are on the symbol with index `from`.
fn passage_of(
    table: &Table,
    stack: &mut Vec<u32>,
    from: u32,
    state: u32,
    look: Option<Token>,
) -> Result<Option<Passage>, AllocError>
    requires look { IsLook table.now look }
    requires from { from < symbol_count table.now }
    requires state { state < length table.now.states }
    ensures { IfOk result (λ found. PassageOr table.now from state look found) }
{
    table.facts();
    let Some(production) = empty_reduction(table, state, look) else {
        return Ok(None);
    };
    let unclear = Passage {
        from,
        to: place_of(table, Symbol::N(table.lhs_of(production))),
        count: MAX_BOUND,
    };
    let Some(count) = reduced_within(table, stack, None, state, look, MAX_TRIED)? else {
        return Ok(Some(unclear));
    };
    match continuation_after(table, stack, look) {
        Continuation::Ends => Ok(None),
        Continuation::Passes(nonterminal) => Ok(Some(Passage {
            from,
            to: place_of(table, Symbol::N(nonterminal)),
            count,
        })),
        Continuation::Unknown => Ok(Some(unclear)),
    }
}

/// Appends the passage of a state with this next token, if there is one, unless the last passage already shows that the
/// symbol has no useful bound.
fn add_passage(
    table: &Table,
    stack: &mut Vec<u32>,
    passages: &mut Vec<Passage>,
    from: u32,
    state: u32,
    look: Option<Token>,
) -> Result<(), AllocError>
    requires look { IsLook table.now look }
    requires from { from < symbol_count table.now }
    requires state { state < length table.now.states }
    requires known { All (IsPassageInRange table.now) passages.old.items }
    ensures known { OnOk result (All (IsPassageInRange table.now) passages.new.items) }
    ensures kept { OnOk result (KeepsPassages passages.old.items passages.new.items) }
    ensures covered { OnOk result (IsCoveredOn table.now passages.new.items from state look) }
{
    if is_unclear(passages, from) {
        return Ok(());
    }
    match passage_of(table, stack, from, state, look)? {
        None => Ok(()),
        Some(passage) => add(table, passages, passage),
    }
}

/// Appends the passages of a state with each next token and with none.
fn add_looks(
    table: &Table,
    stack: &mut Vec<u32>,
    passages: &mut Vec<Passage>,
    from: u32,
    state: u32,
) -> Result<(), AllocError>
    requires from { from < symbol_count table.now }
    requires state { state < length table.now.states }
    requires known { All (IsPassageInRange table.now) passages.old.items }
    ensures known { OnOk result (All (IsPassageInRange table.now) passages.new.items) }
    ensures kept { OnOk result (KeepsPassages passages.old.items passages.new.items) }
    ensures covered { OnOk result (IsCoveredFrom table.now passages.new.items from state) }
{
    add_passage(table, stack, passages, from, state, None)?;
    'tokens: for token in 0..table.tokens() {
        add_passage(table, stack, passages, from, state, Some(token))?;
    }
    Ok(())
}

/// Appends the passages of a state.
fn add_state(
    table: &Table,
    stack: &mut Vec<u32>,
    passages: &mut Vec<Passage>,
    state: u32,
) -> Result<(), AllocError>
    requires state { state < length table.now.states }
    requires known { All (IsPassageInRange table.now) passages.old.items }
    ensures known { OnOk result (All (IsPassageInRange table.now) passages.new.items) }
    ensures kept { OnOk result (KeepsPassages passages.old.items passages.new.items) }
    ensures covered { OnOk result (IsCovered table.now passages.new.items state) }
{
    match table.symbol_to(state) {
        None => Ok(()),
        Some(symbol) => {
            let from = place_of(table, symbol);
            add_looks(table, stack, passages, from, state)
        }
    }
}

/// All passages of a table.
fn passages_of(
    alloc: Global,
    table: &Table,
    stack: &mut Vec<u32>,
) -> Result<Vec<Passage>, AllocError>
    ensures known { IfOk result (λ passages. All (IsPassageInRange table.now) passages.items) }
    ensures all { IfOk result (λ passages. AreAllPassages table.now passages.items) }
{
    let mut passages = Vec::new(alloc);
    add_units(table, &mut passages)?;
    'states: for state in 0..table.states() {
        add_state(table, stack, &mut passages, state)?;
    }
    Ok(passages)
}

/// The least bound that a passage with `count` reductions needs at its origin if its end has the bound `onward`;
/// `MAX_BOUND` + 1 if there is no useful one.
fn needed_bound(count: u32, onward: u32) -> u32
    ensures { (b : ℕ) → result ≤ b → b ≤ MAX_BOUND → count + 1 + onward ≤ b }
{
    if MAX_BOUND <= onward || MAX_BOUND <= count {
        return MAX_BOUND + 1;
    }
    count + 1 + onward
}

/// Raises the bound of a passage's origin to what it needs, or gives it up if `patient` is false. Returns whether the
/// bound was too low.
fn raise(bounds: &mut Vec<u32>, passage: Passage, patient: bool) -> bool
    requires from { passage.from < vec_len bounds.old }
    requires to { passage.to < vec_len bounds.old }
    ensures size { vec_len bounds.new ≡ vec_len bounds.old }
    ensures same { result ≡ false → bounds.new.items ≡ bounds.old.items }
    ensures high_enough { result ≡ false → IsBoundHighEnough bounds.old.items passage }
{
    let asked = needed_bound(passage.count, bounds[passage.to as usize]);
    if asked <= bounds[passage.from as usize] {
        return false;
    }
    bounds[passage.from as usize] = if patient { asked } else { MAX_BOUND + 1 };
    true
}

/// Raises the bounds for all passages, from the last to the first. With forward passes alone, a grammar written
/// bottom-up would need a round for each rule.
fn raise_backward(bounds: &mut Vec<u32>, passages: &[Passage], patient: bool)
    requires { All (λ p. (p.from < vec_len bounds.old) × (p.to < vec_len bounds.old)) passages.now }
    ensures { vec_len bounds.new ≡ vec_len bounds.old }
{
    'places: for place in (0..passages.len()).rev() {
        raise(bounds, passages[place], patient);
    }
}

/// Raises the bounds for all passages, from the first to the last, and returns whether one was too low.
fn raise_forward(bounds: &mut Vec<u32>, passages: &[Passage], patient: bool) -> bool
    requires { All (λ p. (p.from < vec_len bounds.old) × (p.to < vec_len bounds.old)) passages.now }
    ensures size { vec_len bounds.new ≡ vec_len bounds.old }
    ensures high_enough { result ≡ false → All (IsBoundHighEnough bounds.new.items) passages.now }
{
    let mut lower = false;
    for passage in passages {
        lower |= raise(bounds, *passage, patient);
    }
    lower
}

/// Raises bounds until none is too low, and returns true; or returns false after `MAX_ROUNDS` rounds.
fn raise_until_stable(bounds: &mut Vec<u32>, passages: &[Passage]) -> bool
    requires { All (λ p. (p.from < vec_len bounds.old) × (p.to < vec_len bounds.old)) passages.now }
    ensures size { vec_len bounds.new ≡ vec_len bounds.old }
    ensures high_enough { result ≡ true → All (IsBoundHighEnough bounds.new.items) passages.now }
{
    'rounds: for round in 0..MAX_ROUNDS {
        let patient = round < PATIENCE;
        raise_backward(bounds, passages, patient);
        if !raise_forward(bounds, passages, patient) {
            return true;
        }
    }
    false
}

/// Returns bounds that are high enough for all passages: the fixed point that is reached from 0, or `MAX_BOUND` + 1 for
/// all symbols.
fn lifted(alloc: Global, passages: &[Passage], count: usize) -> Result<Vec<u32>, AllocError>
    requires { All (λ p. (p.from < count) × (p.to < count)) passages.now }
    ensures size { IfOk result (λ bounds. length bounds.items ≡ count) }
    ensures high_enough { IfOk result (λ bounds. All (IsBoundHighEnough bounds.items) passages.now) }
{
    let mut bounds = vec![in alloc; 0u32; count]?;
    if raise_until_stable(&mut bounds, passages) {
        return Ok(bounds);
    }
    vec![in alloc; MAX_BOUND + 1; count]
}

/// Returns upper bounds on the reductions of relative runs above an edge, by the index of the edge's symbol. If the
/// bound of the symbol is at most `MAX_BOUND`, no run above the edge makes more than `MAX_REDUCTIONS` reductions.
pub(crate) fn bounds_of(
    alloc: Global,
    table: &Table,
    stack: &mut Vec<u32>,
) -> Result<Vec<u32>, AllocError>
    ensures size { IfOk result (λ bounds. length bounds.items ≡ symbol_count table.now) }
    ensures settled { IfOk result (λ bounds. BoundsProveHalting table.now bounds.items) }
{
    table.facts();
    let passages = passages_of(alloc, table, stack)?;
    lifted(alloc, &passages, symbols(table) as usize)
}
