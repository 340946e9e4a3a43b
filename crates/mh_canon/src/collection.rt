//! The construction of the canonical collection: takes each state in turn, computes its moves, and appends the kernels
//! that are new.
ghost use Rattle.std.specs.Prelude.{◌≡◌, ◌<◌, ◌≤◌, ℕ, [], length, Err, IfOk, OnOk};
ghost use Rattle.mh_grammar.specs.Plain.{plain_of};
ghost use Rattle.mh_items_kernels.specs.Automaton.{IsAutomaton};
ghost use Rattle.mh_canon.specs.Canonical.{IsCanonical, CanonicalExceeds};
ghost use Rattle.mh_items_kernels.specs.KernelTypes.{Kernel as KernelOf};
ghost use Rattle.mh_items_kernels.specs.Collection.{AreStarts};
ghost use Rattle.mh_items.specs.Fitting.{FitsSets};
ghost use Rattle.mh_items.specs.code.AllMoves.{AreMoves};
ghost use Rattle.mh_items.specs.code.MoveBuilder.{IsMoveBuilder};
ghost use Rattle.mh_canon.specs.code.FoundStates.{IsStateClosure, AreCanonicalStates};
ghost use Rattle.mh_canon.specs.code.EdgesOfMoves.{AreEdgesOfMoves, HasEdges};
ghost use Rattle.mh_canon.specs.Limits.{max_states};

use crate::kernel_set::KernelIndex;
use mh_grammar::{Edge, Grammar, Sequence};
use mh_items::{Move, MoveBuilder};
use mh_items_kernels::{Automaton, StatesFault, start_kernel};
use std::alloc::Global;

/// Returns the canonical LR(1) automaton of a grammar (Knuth 1965): the start kernels in order, then the kernels in the
/// order of a breadth-first search over tokens rising and then nonterminals rising. It fails with `TooManyStates`
/// exactly if the automaton has more than `MAX_STATES` states, and with `Memory` if there is no memory.
pub fn canonical<const W: usize>(
    alloc: Global,
    grammar: &Grammar,
) -> Result<Automaton<W>, StatesFault>
    requires fits { FitsSets W grammar.now }
    ensures ok { IfOk result (IsCanonical (plain_of grammar.now)) }
    ensures few { IfOk result (λ a. length a.kernels ≤ max_states) }
    ensures exact { IfOk result (λ _. CanonicalExceeds (plain_of grammar.now) max_states → ⊥) }
    ensures exceeds { result ≡ Err StatesFault.TooManyStates → CanonicalExceeds (plain_of grammar.now) max_states }
    ensures automaton { IfOk result (IsAutomaton (plain_of grammar.now)) }
{
    let mut kernels = start_kernels(alloc, grammar)?;
    let mut edges = Vec::new(alloc);
    match collect(alloc, grammar, &mut kernels, &mut edges) {
        Ok(()) => Ok(Automaton {
            kernels: Sequence::from_vec(kernels.into_list(alloc)?),
            edges: Sequence::from_vec(edges),
        }),
        Err(fault) => Err(fault),
    }
}

/// Adds the states that are reached, and the edges of each state in turn.
fn collect<const W: usize>(
    alloc: Global,
    grammar: &Grammar,
    kernels: &mut KernelIndex<W>,
    edges: &mut Vec<Sequence<Edge>>,
) -> Result<(), StatesFault>
    requires fits { FitsSets W grammar.now }
    requires starts { AreStarts (length grammar.now.starts) kernels.old.set.keys }
    requires none { edges.old.items ≡ [] }
    ensures ok { OnOk result (IsCanonical (plain_of grammar.now) (record { kernels = kernels.new.set.keys; edges = edges.new.items })) }
    ensures few { OnOk result (length kernels.new.set.keys ≤ max_states) }
    ensures exceeds { result ≡ Err StatesFault.TooManyStates → CanonicalExceeds (plain_of grammar.now) max_states }
{
    let mut mover = MoveBuilder::new(alloc, grammar)?;
    'states: while edges.len() < kernels.all().len() {
        match edges_of(alloc, grammar, &mut mover, kernels, edges.len()) {
            Ok(row) => edges.push(row)?,
            Err(fault) => return Err(fault),
        }
    }
    Ok(())
}

/// Returns the edges of a state, and appends the target kernels that are new.
fn edges_of<const W: usize>(
    alloc: Global,
    grammar: &Grammar,
    mover: &mut MoveBuilder<W>,
    kernels: &mut KernelIndex<W>,
    state: usize,
) -> Result<Sequence<Edge>, StatesFault>
    requires fits { FitsSets W grammar.now }
    requires mover { IsMoveBuilder (plain_of grammar.now) mover.old }
    requires state { state < length kernels.old.set.keys }
    requires states { AreCanonicalStates (plain_of grammar.now) kernels.old.set.keys }
    requires few { length kernels.old.set.keys ≤ max_states }
    ensures ok { IfOk result (λ row. HasEdges (plain_of grammar.now) state kernels.old.set.keys kernels.new.set.keys row) }
    ensures mover { IfOk result (λ _. IsMoveBuilder (plain_of grammar.now) mover.new) }
    ensures few { IfOk result (λ _. length kernels.new.set.keys ≤ max_states) }
    ensures exceeds { result ≡ Err StatesFault.TooManyStates → CanonicalExceeds (plain_of grammar.now) max_states }
{
    let moves = mover.moves(alloc, grammar, &kernels.all()[state])?;
    place_all(alloc, grammar, moves, kernels)
}

/// The start kernels, in order.
fn start_kernels<const W: usize>(
    alloc: Global,
    grammar: &Grammar,
) -> Result<KernelIndex<W>, StatesFault>
    requires fits { FitsSets W grammar.now }
    ensures ok { IfOk result (λ k. AreStarts (length grammar.now.starts) k.set.keys) }
    ensures err { result ≡ Err StatesFault.TooManyStates → ⊥ }
{
    let mut kernels = KernelIndex::new(alloc);
    for start in 0..grammar.starts.len() {
        let kernel = start_kernel(alloc, grammar, start as u16)?;
        kernels.insert(kernel)?;
    }
    Ok(kernels)
}

/// Returns the edges for a list of moves, and appends the kernels that are new, in the order of the moves.
fn place_all<const W: usize>(
    alloc: Global,
    grammar: &Grammar,
    moves: Vec<Move<W>>,
    kernels: &mut KernelIndex<W>,
) -> Result<Sequence<Edge>, StatesFault>
    requires small { W ≤ 8 }
    requires states { AreCanonicalStates (plain_of grammar.now) kernels.old.set.keys }
    requires few { length kernels.old.set.keys ≤ max_states }
    ensures ok { IfOk result (λ row. AreEdgesOfMoves (plain_of grammar.now) moves.entry.items kernels.old.set.keys kernels.new.set.keys row) }
    ensures few { IfOk result (λ _. length kernels.new.set.keys ≤ max_states) }
    ensures exceeds { result ≡ Err StatesFault.TooManyStates → (closed : KernelOf) → IsStateClosure (plain_of grammar.now) closed → AreMoves (plain_of grammar.now) closed moves.entry.items → CanonicalExceeds (plain_of grammar.now) max_states }
{
    // Only the contract uses the grammar.
    let _grammar = grammar;
    let mut row = Vec::with_capacity(alloc, moves.len())?;
    for found in moves {
        match kernels.place(found.kernel) {
            Ok(target) => row.push(Edge {
                symbol: found.symbol,
                target,
            })?,
            Err(fault) => return Err(fault),
        }
    }
    Ok(Sequence::from_vec(row))
}
