//! Rows of items, one for each symbol.
ghost use Rattle.std.specs.Prelude.{◌≡◌, ◌<◌, ◌≤◌, ◌+◌, ◌^◌, [], ◌∷◌, ◌++◌, ℕ, set, length, vec_len, slice_index_or, IfOk, OnOk};
ghost use Rattle.mh_grammar.specs.Plain.{plain_of, IsInRange, IsSymbolBelow};
ghost use Rattle.mh_items.specs.Fitting.{FitsSets};
ghost use Rattle.mh_items.specs.code.SymbolRows.{AreRowsEmpty, AreFilled, IsListedAsFilled, row_index, row_at};

use mh_grammar::{Grammar, Memory, Sequence, Symbol};
use mh_items_kernels::KernelItem;
use std::alloc::Global;

/// A row of items for each token, then one for each nonterminal, and the indices of the rows with items. It is scratch
/// space: emptying it takes time proportional to its contents.
#[derive(Drop)]
pub struct SymbolRows<const W: usize> {
    /// The items of each row.
    pub(crate) rows: Vec<Sequence<KernelItem<W>>>,
    /// The indices of the rows with items.
    pub(crate) filled: Vec<u32>,
}

impl<const W: usize> SymbolRows<W> {
    /// Returns empty rows for the symbols of a grammar. It fails only if there is no memory.
    pub fn new(alloc: Global, grammar: &Grammar) -> Result<SymbolRows<W>, Memory>
        requires fits { FitsSets W grammar.now }
        ensures { IfOk result (AreRowsEmpty (plain_of grammar.now)) }
    {
        let count = grammar.tokens.len() + grammar.nonterminals.len();
        let mut rows = Vec::with_capacity(alloc, count)?;
        for _ in 0..count {
            rows.push(Sequence::new(alloc))?;
        }
        Ok(SymbolRows {
            rows,
            filled: Vec::new(alloc),
        })
    }

    /// Appends an item to a row.
    pub(crate) fn add(&mut self, place: usize, item: KernelItem<W>) -> Result<(), Memory>
        requires few { W ≤ 8 }
        requires place { place < vec_len self.old.rows }
        requires small { vec_len self.old.rows < 2 ^ 32 }
        ensures rows { OnOk result (self.new.rows.items ≡ set self.old.rows.items place (row_at self.old place ++ item.entry ∷ [])) }
        ensures filled { OnOk result (AreFilled self.old → AreFilled self.new) }
    {
        self.note_filled(place)?;
        self.rows[place].push(item)?;
        Ok(())
    }

    /// Adds a row to the list of filled rows if it is still empty.
    fn note_filled(&mut self, place: usize) -> Result<(), Memory>
        requires few { W ≤ 8 }
        requires place { place < vec_len self.old.rows }
        requires small { vec_len self.old.rows < 2 ^ 32 }
        ensures rows { OnOk result (self.new.rows ≡ self.old.rows) }
        ensures listed { OnOk result (IsListedAsFilled place self.old self.new) }
    {
        if !self.rows[place].is_empty() {
            return Ok(());
        }
        self.filled.push(place as u32)?;
        Ok(())
    }
}

/// The index of the row of a symbol.
pub(crate) fn place(grammar: &Grammar, symbol: Symbol) -> usize
    requires range { IsInRange (plain_of grammar.now) }
    requires symbol { IsSymbolBelow (length grammar.now.tokens) (length grammar.now.nonterminals) symbol }
    ensures at { result ≡ row_index (length grammar.now.tokens) symbol }
    ensures within { result < length grammar.now.tokens + length grammar.now.nonterminals }
{
    match symbol {
        Symbol::T(token) => usize::from(token),
        Symbol::N(nonterminal) => grammar.tokens.len() + usize::from(nonterminal),
    }
}
