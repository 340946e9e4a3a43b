//! Token classes: a partition refinement finds them, and a test shows that they are sound.
ghost use Rattle.std.specs.Prelude.{◌≡◌, ◌<◌, ◌≤◌, ◌↔◌, ◌+◌, ◌∷◌, [], IsTrue, None, OnOk, IfOk, IfSome, length};
ghost use Rattle.mh_tables_core.specs.Run.{Reduces, run_move_of};
ghost use Rattle.mh_facts.specs.code.BestFirst.{RepresentativesAgree};
ghost use Rattle.mh_reach_classes.specs.code.Reductions.{AreAllReductions};
ghost use Rattle.mh_facts.specs.code.TokenClasses.{AreTokenClasses, rep_of};
ghost use Rattle.mh_reach_classes.specs.code.ClassRows.{IsAtRepresentative, IsClassRow, IsClassFor, AddsRow, IsPartition, TreatsAlike, TreatsAllAlike, RepresentThemselves, are_treated_alike};

use crate::leading_reductions::{Reduction, reductions_to_states};
use indexmap::IndexSet;
use mh_facts::{TokenClass, TokenClasses, by_left_side, class_of};
use mh_grammar::{Memory, Token};
use mh_tables_core::{NextAction, Table, choose};
use std::alloc::Global;

/// Whether a state reduces the production on a token.
fn reduces(table: &Table, state: u32, production: u32, token: Token) -> bool
    requires state { state < length table.now.states }
    requires token { token < table.now.grammar.tokens }
    ensures { IsTrue result ↔ (run_move_of table.now state (token ∷ []) ≡ Reduces production) }
{
    match choose(table, state, Some(token)) {
        NextAction::Reduce(found) => found == production,
        _ => false,
    }
}

/// Whether a reduction treats a token like its representative in the target state.
fn is_alike(table: &Table, classes: &TokenClasses, reduction: Reduction, token: Token) -> bool
    requires classes { IsPartition table.now classes.now }
    requires end { reduction.end < length table.now.states }
    requires target { reduction.target < length table.now.states }
    requires token { token < table.now.grammar.tokens }
    ensures { IsTrue result → TreatsAlike table.now classes.now reduction token }
{
    let other = class_of(table, classes, reduction.target, token).representative;
    let there = reduces(table, reduction.end, reduction.production, token);
    let back = reduces(table, reduction.end, reduction.production, other);
    let here = class_of(table, classes, reduction.end, token).representative;
    let same = class_of(table, classes, reduction.end, other).representative;
    agree(there, back, here == same)
}

/// Whether a reduction treats two tokens alike: both are reduced on (`there`, `back`) and have one representative in
/// the reducing state (`same`), or neither is reduced on.
fn agree(there: bool, back: bool, same: bool) -> bool
    ensures { result ≡ are_treated_alike there back same }
{
    if there { back && same } else { !back }
}

/// Whether a reduction treats each token like its representative.
fn goes_alike(table: &Table, classes: &TokenClasses, reduction: Reduction) -> bool
    requires classes { IsPartition table.now classes.now }
    requires end { reduction.end < length table.now.states }
    requires target { reduction.target < length table.now.states }
    ensures { IsTrue result → TreatsAllAlike table.now classes.now reduction table.now.grammar.tokens }
{
    for token in 0..table.tokens() {
        if !is_alike(table, classes, reduction, token) {
            return false;
        }
    }
    true
}

/// Whether all reductions treat each token like its representative.
fn go_alike(table: &Table, classes: &TokenClasses, past: &IndexSet<Reduction>) -> bool
    requires classes { IsPartition table.now classes.now }
    requires past { AreAllReductions table.now past.now.keys }
    ensures { IsTrue result → RepresentativesAgree table.now (rep_of classes.now) }
{
    table.facts();
    for place in 0..past.len() {
        match past.get_index(place) {
            None => return false,
            Some(reduction) => {
                if !goes_alike(table, classes, *reduction) {
                    return false;
                }
            }
        }
    }
    true
}

/// Returns the number of the next class. From the highest number on, classes share a number.
fn next_place(count: &mut u32) -> u32
    ensures grows { count.old ≤ count.new }
    ensures within { result < count.new }
{
    if *count < u32::MAX {
        *count += 1;
    }
    *count - 1
}

/// The class of the earlier token that `given` has for this token, if that token represents itself; else none.
fn followed(row: &[TokenClass], given: &[Token], token: Token) -> Option<TokenClass>
    requires { length row.now ≡ token }
    ensures at_representative { IfSome result (IsAtRepresentative row.now) }
    ensures nothing { given.now ≡ [] → result ≡ None }
{
    match given.get(token as usize) {
        None => None,
        Some(other) => {
            if *other >= token {
                return None;
            }
            let class = row[*other as usize];
            if class.representative != *other {
                return None;
            }
            Some(class)
        }
    }
}

/// The class of the next token of a row: that of its representative by `given` (see `followed`), or else a new class.
fn class_for(row: &[TokenClass], given: &[Token], token: Token, count: &mut u32) -> TokenClass
    requires { length row.now ≡ token }
    ensures { IsClassFor row.now given.now token count.old count.new result }
{
    match followed(row, given, token) {
        Some(class) => class,
        None => TokenClass {
            representative: token,
            place: next_place(count),
        },
    }
}

/// The classes of one state, by token, and the list of their representatives.
#[derive(Drop)]
struct ClassRow {
    classes: Vec<TokenClass>,
    list: Vec<Token>,
}

/// Appends the class of the next token.
fn add_class(
    row: &mut ClassRow,
    given: &[Token],
    token: Token,
    count: &mut u32,
) -> Result<(), Memory>
    requires { IsClassRow token given.now row.old.classes.items row.old.list.items count.old }
    ensures row { OnOk result (IsClassRow (token + 1) given.now row.new.classes.items row.new.list.items count.new) }
    ensures grows { OnOk result (count.old ≤ count.new) }
{
    let class = class_for(row.classes.as_slice(), given, token, count);
    row.classes.push(class)?;
    if class.representative != token {
        return Ok(());
    }
    row.list.push(token)?;
    Ok(())
}

/// The classes of one state, by the given representatives.
fn number_row(
    alloc: Global,
    tokens: Token,
    given: &[Token],
    count: &mut u32,
) -> Result<ClassRow, Memory>
    ensures row { IfOk result (λ row. IsClassRow tokens given.now row.classes.items row.list.items count.new) }
    ensures grows { OnOk result (count.old ≤ count.new) }
{
    let mut row = ClassRow {
        classes: Vec::new(alloc),
        list: Vec::new(alloc),
    };
    for token in 0..tokens {
        add_class(&mut row, given, token, count)?;
    }
    Ok(row)
}

/// The representatives that are given for a state, empty if none are.
fn given_row(given: &[Vec<Token>], state: u32) -> &[Token]
    ensures { given.now ≡ [] → result.now ≡ [] }
{
    match given.get(state as usize) {
        Some(row) => row.as_slice(),
        None => &[],
    }
}

/// Appends the classes of the next state.
fn add_row(
    alloc: Global,
    tokens: Token,
    given: &[Token],
    classes: &mut TokenClasses,
) -> Result<(), Memory>
    ensures { OnOk result (AddsRow tokens given.now classes.old classes.new) }
{
    let row = number_row(alloc, tokens, given, &mut classes.places)?;
    classes.rows.push(row.classes)?;
    classes.lists.push(row.list)?;
    Ok(())
}

/// The classes of all states, by the given representatives; if none are given, each token represents itself.
fn number(alloc: Global, table: &Table, given: &[Vec<Token>]) -> Result<TokenClasses, Memory>
    ensures partition { IfOk result (IsPartition table.now) }
    ensures each { given.now ≡ [] → IfOk result (λ classes. RepresentThemselves table.now classes) }
{
    let mut classes = TokenClasses {
        rows: Vec::new(alloc),
        lists: Vec::new(alloc),
        places: 0,
    };
    for state in 0..table.states() {
        let given = given_row(given, state);
        add_row(alloc, table.tokens(), given, &mut classes)?;
    }
    Ok(classes)
}

/// The representative of a token in a row, 0 if it has none.
fn token_at(row: &[Token], token: usize) -> Token {
    row.get(token).copied().unwrap_or(0)
}

/// The mark of a token by a reduction: 0 if the state does not reduce on the token, else 1 plus the token's
/// representative in the reducing state.
fn mark_of(table: &Table, rows: &[Vec<Token>], reduction: Reduction, token: Token) -> usize
    requires end { reduction.end < length table.now.states }
    requires token { token < table.now.grammar.tokens }
{
    if !reduces(table, reduction.end, reduction.production, token) {
        return 0;
    }
    match rows.get(reduction.end as usize) {
        None => 0,
        Some(row) => token_at(row.as_slice(), token as usize) as usize + 1,
    }
}

/// Writes the marks of all tokens by a reduction.
fn mark(table: &Table, rows: &[Vec<Token>], reduction: Reduction, marks: &mut Vec<usize>) {
    if reduction.end >= table.states() {
        return;
    }
    for token in 0..table.tokens() {
        let found = mark_of(table, rows, reduction, token);
        if let Some(mark) = marks.get_mut(token as usize) {
            *mark = found;
        }
    }
}

/// The index in `Scratch::seen` of the pair of a token's representative and its mark.
fn slot_of(row: &[Token], marks: &[usize], token: usize) -> usize {
    let mark = marks.get(token).copied().unwrap_or(0);
    (token_at(row, token) as usize)
        .wrapping_mul(marks.len() + 1)
        .wrapping_add(mark)
}

/// The scratch space of the refinement: the marks of the tokens, the first token of each pair of representative and
/// mark, the refined representatives, and for each state one more than the number of the last pass that split one of
/// its classes, or 0. Between two reductions `seen` is filled with `u16::MAX`.
#[derive(Drop)]
struct Scratch {
    marks: Vec<usize>,
    seen: Vec<Token>,
    fresh: Vec<Token>,
    splits: Vec<usize>,
}

/// Writes a token at an index. Returns whether the row changed.
fn put(row: &mut Vec<Token>, place: usize, token: Token) -> bool {
    match row.get_mut(place) {
        None => false,
        Some(old) => {
            let changed = *old != token;
            *old = token;
            changed
        }
    }
}

/// The first token that was seen for a pair; if the pair is new, the given token becomes its first one.
fn first_at(seen: &mut Vec<Token>, slot: usize, token: Token) -> Token {
    match seen.get_mut(slot) {
        None => token,
        Some(first) => {
            if *first == u16::MAX {
                *first = token;
            }
            *first
        }
    }
}

/// Writes, for each token, the first token with the same representative and mark.
fn meet(row: &[Token], tokens: Token, scratch: &mut Scratch) {
    for token in 0..tokens {
        let slot = slot_of(row, scratch.marks.as_slice(), token as usize);
        let first = first_at(&mut scratch.seen, slot, token);
        put(&mut scratch.fresh, token as usize, first);
    }
}

/// Clears the first tokens of all pairs.
fn forget(row: &[Token], tokens: Token, scratch: &mut Scratch) {
    for token in 0..tokens {
        let slot = slot_of(row, scratch.marks.as_slice(), token as usize);
        put(&mut scratch.seen, slot, u16::MAX);
    }
}

/// Overwrites a row. Returns whether the row changed.
fn renew(row: &mut Vec<Token>, fresh: &[Token]) -> bool {
    let mut changed = false;
    for place in 0..fresh.len() {
        changed |= put(row, place, fresh[place]);
    }
    changed
}

/// Splits the classes of a state by marks: tokens with one representative and one mark get the first of them as
/// representative. Returns whether a class was split.
fn split(row: &mut Vec<Token>, tokens: Token, scratch: &mut Scratch) -> bool {
    meet(row.as_slice(), tokens, scratch);
    forget(row.as_slice(), tokens, scratch);
    renew(row, scratch.fresh.as_slice())
}

/// A row of zeros for each state, with an element for each token.
fn rows_of(alloc: Global, states: u32, tokens: Token) -> Result<Vec<Vec<Token>>, Memory> {
    let mut rows = Vec::new(alloc);
    for _ in 0..states {
        rows.push(vec![in alloc; 0; tokens as usize]?)?;
    }
    Ok(rows)
}

fn scratch_for(alloc: Global, states: u32, tokens: Token) -> Result<Scratch, Memory> {
    let count = tokens as usize;
    Ok(Scratch {
        marks: vec![in alloc; 0; count]?,
        seen: vec![in alloc; u16::MAX; count * (count + 1)]?,
        fresh: vec![in alloc; 0; count]?,
        splits: vec![in alloc; 0; states as usize]?,
    })
}

/// Whether a reduction can split classes in a pass, counted from 0: a class of the reducing state was split in this
/// pass or in the one before. In the first pass, all tokens of a state are in one class, so a reduction can also split
/// classes if the state does not make the reduction by default.
fn is_due(table: &Table, splits: &[usize], reduction: Reduction, pass: usize) -> bool {
    if reduction.end >= table.states() {
        return false;
    }
    match splits.get(reduction.end as usize) {
        None => false,
        Some(0) => pass == 0 && table.fallback(reduction.end).is_none(),
        Some(last) => *last >= pass,
    }
}

/// Records that a pass has split a class of a state.
fn note_split(splits: &mut Vec<usize>, state: u32, pass: usize) {
    if let Some(last) = splits.get_mut(state as usize) {
        *last = pass.saturating_add(1);
    }
}

/// Splits the classes of the target state of a reduction. Returns whether a class was split.
fn refine_by(
    table: &Table,
    reduction: Reduction,
    rows: &mut Vec<Vec<Token>>,
    scratch: &mut Scratch,
    pass: usize,
) -> bool {
    if !is_due(table, scratch.splits.as_slice(), reduction, pass) {
        return false;
    }
    mark(table, rows.as_slice(), reduction, &mut scratch.marks);
    let changed = match rows.get_mut(reduction.target as usize) {
        None => false,
        Some(row) => split(row, table.tokens(), scratch),
    };
    if changed {
        note_split(&mut scratch.splits, reduction.target, pass);
    }
    changed
}

/// One pass of the refinement over all reductions. Returns whether a class was split.
fn refine_once(
    table: &Table,
    past: &IndexSet<Reduction>,
    rows: &mut Vec<Vec<Token>>,
    scratch: &mut Scratch,
    pass: usize,
) -> bool {
    let mut changed = false;
    for place in 0..past.len() {
        if let Some(reduction) = past.get_index(place) {
            changed |= refine_by(table, *reduction, rows, scratch, pass);
        }
    }
    changed
}

/// Refines the representatives until a pass splits no class.
fn refine(
    alloc: Global,
    table: &Table,
    past: &IndexSet<Reduction>,
    rows: &mut Vec<Vec<Token>>,
) -> Result<(), Memory> {
    let tokens = table.tokens();
    let mut scratch = scratch_for(alloc, table.states(), tokens)?;
    for pass in 0..table.states() as usize * tokens as usize {
        if !refine_once(table, past, rows, &mut scratch, pass) {
            break;
        }
    }
    Ok(())
}

/// The representatives of the coarsest classes whose tokens all reductions treat alike.
fn refined(
    alloc: Global,
    table: &Table,
    past: &IndexSet<Reduction>,
) -> Result<Vec<Vec<Token>>, Memory> {
    let mut rows = rows_of(alloc, table.states(), table.tokens())?;
    refine(alloc, table, past, &mut rows)?;
    Ok(rows)
}

/// The reductions that lead to states.
fn all_past(alloc: Global, table: &Table) -> Result<IndexSet<Reduction>, Memory>
    ensures { IfOk result (λ past. AreAllReductions table.now past.keys) }
{
    let left = by_left_side(alloc, table)?;
    reductions_to_states(alloc, table, &left)
}

/// The classes that the refinement finds, untested.
fn found_classes(
    alloc: Global,
    table: &Table,
    past: &IndexSet<Reduction>,
) -> Result<TokenClasses, Memory>
    ensures { IfOk result (IsPartition table.now) }
{
    let rows = refined(alloc, table, past)?;
    number(alloc, table, rows.as_slice())
}

/// The classes that the refinement finds, or one class for each token if a reduction does not treat the tokens of a
/// class alike.
fn tested_classes(
    alloc: Global,
    table: &Table,
    past: &IndexSet<Reduction>,
) -> Result<TokenClasses, Memory>
    requires { AreAllReductions table.now past.now.keys }
    ensures { IfOk result (AreTokenClasses table.now) }
{
    let classes = found_classes(alloc, table, past)?;
    if go_alike(table, &classes, past) {
        return Ok(classes);
    }
    each_by_itself(alloc, table)
}

/// Token classes that all reductions treat alike. If the refined classes fail the test, each token has its own class.
/// Fails only if memory runs out.
pub fn classes_of(alloc: Global, table: &Table) -> Result<TokenClasses, Memory>
    ensures { IfOk result (AreTokenClasses table.now) }
{
    let past = all_past(alloc, table)?;
    tested_classes(alloc, table, &past)
}

/// One class for each token.
fn each_by_itself(alloc: Global, table: &Table) -> Result<TokenClasses, Memory>
    ensures { IfOk result (AreTokenClasses table.now) }
{
    let none = Vec::new(alloc);
    number(alloc, table, none.as_slice())
}
