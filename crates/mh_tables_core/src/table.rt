//! A table with its invariant.
ghost use Rattle.std.specs.Prelude.{◌≡◌, ◌<◌, ◌≤◌, Some, ℕ, length, slice_get, IfOk, IfSome};
ghost use Rattle.mh_grammar.specs.declared.types.Symbol.{Symbol};
ghost use Rattle.mh_grammar.specs.declared.types.Symbol.TheVariants.{N};
ghost use Rattle.mh_grammar.specs.Plain.{production_count, rhs_of, lhs_of, IsSymbolBelow};
ghost use Rattle.mh_grammar.specs.Edges.{IsRising, IsEdgeBefore};
ghost use Rattle.mh_grammar.specs.Costs.{costs_of};
ghost use Rattle.mh_tables_core.specs.Table.{TableData, state_at, cell_of, fallback_of, edge_of, cost_of_token, table_data};
ghost use Rattle.mh_tables_core.specs.Facts.{Facts};

use crate::parts::{Action, Fallback, Place, StateParts};
use mh_grammar::{
    Edge, Grammar, Memory, Production, Sequence, Symbol, Token, TokenInfo, find_edge,
};
use std::alloc::{AllocError, Global};
use std::marker::Model;

/// The table of an LR(1) parser: the states with their cells, defaults, edges and cores, and the grammar without its
/// names. Its invariant guarantees that a reduction of a run always finds its symbols and its goto.
pub struct Table {
    tokens: u16,
    nonterminals: u16,
    starts: Sequence<u16>,
    productions: Sequence<Production>,
    costs: Sequence<u32>,
    states: Sequence<StateParts>,
}

// The exit of a function drops this value by one call. With the derived destructor it would drop each field.
impl Drop for Table {
    fn drop(self) {
        let Table {
            tokens: _,
            nonterminals: _,
            starts,
            productions,
            costs,
            states,
        } = self;
        drop(starts);
        drop(productions);
        drop(costs);
        drop(states);
    }
}

impl Model for Table {
    ghost use Rattle.mh_tables_core.specs.Table.{TableData};
    ghost use Rattle.mh_tables_core.specs.Facts.{Facts};

    ghost Value = { TableData };

    ghost view = { λ t. record { grammar = record { tokens = t.tokens; nonterminals = t.nonterminals; starts = t.starts; productions = t.productions }; costs = t.costs; states = t.states } };

    ghost invariant = { λ t. Facts (record { grammar = record { tokens = t.tokens; nonterminals = t.nonterminals; starts = t.starts; productions = t.productions }; costs = t.costs; states = t.states }) };
}

/// Copies of the parts of a grammar that a table keeps.
#[derive(Drop)]
struct GrammarCopies {
    starts: Sequence<u16>,
    productions: Sequence<Production>,
    costs: Sequence<u32>,
}

fn copy_of(alloc: Global, production: &Production) -> Result<Production, AllocError>
    ensures { IfOk result (λ copy. copy ≡ production.now) }
{
    Ok(Production {
        lhs: production.lhs,
        rhs: Sequence::from_vec(Vec::from_slice(alloc, production.rhs.as_slice())?),
        level: production.level,
    })
}

fn copies_of(alloc: Global, productions: &[Production]) -> Result<Vec<Production>, AllocError>
    ensures { IfOk result (λ copies. copies.items ≡ productions.now) }
{
    let mut copies = Vec::new(alloc);
    for production in productions {
        copies.push(copy_of(alloc, production)?)?;
    }
    Ok(copies)
}

fn costs_of(alloc: Global, tokens: &[TokenInfo]) -> Result<Vec<u32>, AllocError>
    ensures { IfOk result (λ costs. costs.items ≡ costs_of tokens.now) }
{
    let mut costs = Vec::new(alloc);
    for token in tokens {
        costs.push(token.cost)?;
    }
    Ok(costs)
}

fn kept_of(alloc: Global, grammar: &Grammar) -> Result<GrammarCopies, AllocError>
    ensures starts { IfOk result (λ kept. kept.starts ≡ grammar.now.starts) }
    ensures productions { IfOk result (λ kept. kept.productions ≡ grammar.now.productions) }
    ensures costs { IfOk result (λ kept. kept.costs ≡ costs_of grammar.now.tokens) }
{
    let starts = Sequence::from_vec(Vec::from_slice(alloc, grammar.starts.as_slice())?);
    let productions = Sequence::from_vec(copies_of(alloc, grammar.productions.as_slice())?);
    let costs = Sequence::from_vec(costs_of(alloc, grammar.tokens.as_slice())?);
    Ok(GrammarCopies {
        starts,
        productions,
        costs,
    })
}

/// Returns the table of a grammar with these states. It fails only if there is no memory; then the states are dropped.
pub fn table_of(alloc: Global, grammar: &Grammar, states: Vec<StateParts>) -> Result<Table, Memory>
    requires { Facts (table_data grammar.now states.items) }
    ensures { IfOk result (λ table. table ≡ table_data grammar.now states.items) }
{
    let kept = kept_of(alloc, grammar)?;
    Ok(Table {
        tokens: grammar.tokens.len() as u16,
        nonterminals: grammar.nonterminals.len() as u16,
        starts: kept.starts,
        productions: kept.productions,
        costs: kept.costs,
        states: Sequence::from_vec(states),
    })
}

impl Table {
    /// Law: the invariant of the table. The body is empty; only the contract matters.
    pub fn facts(&self)
        ensures { Facts self.now }
    {
        let _states = &self.states;
    }

    /// The number of states.
    pub fn states(&self) -> u32
        ensures { result ≡ length self.now.states }
    {
        self.states.len() as u32
    }

    /// The number of tokens; each state has one cell for each token.
    pub fn tokens(&self) -> u16
        ensures { result ≡ self.now.grammar.tokens }
    {
        self.tokens
    }

    /// The number of nonterminals.
    pub fn nonterminals(&self) -> u16
        ensures { result ≡ self.now.grammar.nonterminals }
    {
        self.nonterminals
    }

    /// The cost of a token in a least sentence: from 1 to [`MAX_COST`](mh_grammar::MAX_COST).
    #[tactic(auto, unfolding(crate::specs::Table::cost_of_token))]
    pub fn token_cost(&self, token: Token) -> u32
        requires { token < self.now.grammar.tokens }
        ensures { result ≡ cost_of_token self.now token }
    {
        self.costs.as_slice()[token as usize]
    }

    /// The number of starts. A state below this number is the start state of the start with the same number.
    pub fn starts(&self) -> u16
        ensures { result ≡ length self.now.grammar.starts }
    {
        self.starts.len() as u16
    }

    /// The number of productions, including the start productions, which are first.
    pub fn productions(&self) -> u32
        ensures { result ≡ production_count self.now.grammar }
    {
        (self.starts.len() + self.productions.len()) as u32
    }

    /// The cell of a state and a token.
    #[tactic(auto, unfolding(crate::specs::Table::cell_of))]
    pub fn action(&self, state: u32, token: Token) -> Action
        requires state { state < length self.now.states }
        requires token { token < self.now.grammar.tokens }
        ensures { result ≡ cell_of self.now state token }
    {
        let parts = &self.states.as_slice()[state as usize];
        parts.cells.as_slice()[token as usize]
    }

    /// The default of a state, if it has one.
    #[tactic(auto, unfolding(crate::specs::Table::fallback_of))]
    pub fn fallback(&self, state: u32) -> Option<Fallback>
        requires { state < length self.now.states }
        ensures { result ≡ fallback_of self.now state }
    {
        let parts = &self.states.as_slice()[state as usize];
        parts.fallback
    }

    /// The edges of a state, in the order of their symbols.
    pub fn edges(&self, state: u32) -> &[Edge]
        requires { state < length self.now.states }
        ensures edges { result.now ≡ (state_at self.now state).edges }
        ensures order { IsRising IsEdgeBefore result.now }
    {
        let parts = &self.states.as_slice()[state as usize];
        parts.edges.as_slice()
    }

    /// The target of the edge of a state on a nonterminal, if there is one; the nonterminal may be any number.
    #[tactic(auto, unfolding(crate::specs::Table::edge_of))]
    pub fn goto(&self, state: u32, nonterminal: u16) -> Option<u32>
        requires { state < length self.now.states }
        ensures { result ≡ edge_of self.now state (N nonterminal) }
    {
        find_edge(self.edges(state), Symbol::N(nonterminal))
    }

    /// The core of a state.
    fn core(&self, state: u32) -> &[Place]
        requires { state < length self.now.states }
        ensures { result.now ≡ (state_at self.now state).core }
    {
        let parts = &self.states.as_slice()[state as usize];
        parts.core.as_slice()
    }

    /// The symbol of the edges that lead to a state, which is the symbol before each dot of its core; `None` for a
    /// start state.
    pub fn symbol_to(&self, state: u32) -> Option<Symbol>
        requires { state < length self.now.states }
        ensures symbol { (r : ℕ) (x : Symbol) → edge_of self.now r x ≡ Some state → result ≡ Some x }
        ensures known { IfSome result (IsSymbolBelow self.now.grammar.tokens self.now.grammar.nonterminals) }
    {
        self.facts();
        let place = self.core(state)[0];
        if place.dot == 0 {
            None
        } else {
            Some(self.symbol_of(place.production, place.dot - 1))
        }
    }

    /// The left side of a production that is not a start production.
    #[tactic(auto, unfolding(mh_grammar::specs::Plain::lhs_of))]
    pub fn lhs_of(&self, production: u32) -> u16
        requires ordinary { length self.now.grammar.starts ≤ production }
        requires known { production < production_count self.now.grammar }
        ensures { result ≡ lhs_of self.now.grammar production }
    {
        let place = production as usize - self.starts.len();
        self.productions.as_slice()[place].lhs
    }

    /// The length of the right side of a production; 1 for a start production.
    #[tactic(auto, unfolding(mh_grammar::specs::Plain::rhs_of))]
    pub fn length_of(&self, production: u32) -> u32
        requires { production < production_count self.now.grammar }
        ensures { result ≡ length (rhs_of self.now.grammar production) }
    {
        let production = production as usize;
        if production < self.starts.len() {
            1
        } else {
            let found = &self.productions.as_slice()[production - self.starts.len()];
            found.rhs.len() as u32
        }
    }

    /// The symbol at an index of the right side of a production, from 0.
    #[tactic(auto, unfolding(mh_grammar::specs::Plain::rhs_of))]
    pub fn symbol_of(&self, production: u32, place: u32) -> Symbol
        requires production { production < production_count self.now.grammar }
        requires place { place < length (rhs_of self.now.grammar production) }
        ensures { slice_get (rhs_of self.now.grammar production) place ≡ Some result }
    {
        let production = production as usize;
        if production < self.starts.len() {
            Symbol::N(self.starts.as_slice()[production])
        } else {
            let found = &self.productions.as_slice()[production - self.starts.len()];
            found.rhs.as_slice()[place as usize]
        }
    }
}
