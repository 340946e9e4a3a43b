//! The numbering of the words of one cost.
ghost use Rattle.std.specs.Prelude.{◌≡◌, ◌<◌, ◌≤◌, ◌++◌, ℕ, IfOk, OnOk, Some, drop, length, map, replicate, slice_get, slice_set};
ghost use Rattle.std.specs.List.{Contains};
ghost use Rattle.std.specs.Option.{unwrap_or};
ghost use Rattle.mh_facts.specs.code.Queues.{row_of};
ghost use Rattle.mh_reach_rests.specs.code.RestNumbers.{AreRestsToNumber, AreTokensByCost, IsFreshBook, IsFrontOf, IsNumberOfGoto, IsNumberOfRest, KeepsNumbers, RestsAreNumbered, SpellAll, SpellsWaiting, token_alone};

use crate::settled::{SettledWords, word_of_goto, word_of_rest};
use crate::waiting::{Origin, WaitingWord};
use mh_facts::queue::{Queue, empty_queue, push};
use mh_facts::{CAP, FactKey, GotoFact};
use mh_grammar::{Memory, Token};
use mh_reach_words::{Book, EMPTY, LastPart, WordParts, token_before};
use mh_tables_core::Table;
use std::alloc::Global;

/// The words of the search by their numbers; for each token the number of the word that is this token alone, or the
/// number of the empty word as long as this word is not numbered; and the tokens by their costs.
#[derive(Drop)]
pub struct RestBook {
    pub book: Book,
    pub tokens: Vec<usize>,
    pub by_cost: Queue<Token>,
}

/// The tokens of a table by their costs.
fn tokens_by_cost(alloc: Global, table: &Table) -> Result<Queue<Token>, Memory>
    ensures { IfOk result (λ queue. AreTokensByCost table.now table.now.grammar.tokens queue.buckets.items) }
{
    let mut queue = empty_queue(alloc);
    for token in 0..table.tokens() {
        push(alloc, &mut queue, table.token_cost(token), token)?;
    }
    Ok(queue)
}

/// The book before the search, which has the empty word alone. Fails only if memory runs out.
pub(crate) fn fresh_book(alloc: Global, table: &Table) -> Result<RestBook, Memory>
    ensures { IfOk result (IsFreshBook table.now) }
{
    let tokens = vec![in alloc; EMPTY; table.tokens() as usize]?;
    let by_cost = tokens_by_cost(alloc, table)?;
    Ok(RestBook {
        book: Book::new(alloc),
        tokens,
        by_cost,
    })
}

/// The tokens of a cost.
fn tokens_of(by_cost: &Queue<Token>, cost: u32) -> &[Token]
    ensures { result.now ≡ row_of by_cost.now.buckets.items cost }
{
    match by_cost.buckets.get(cost as usize) {
        None => &[],
        Some(tokens) => tokens.as_slice(),
    }
}

/// The number of the settled word of a rest.
fn number_of_rest(settled: &SettledWords, key: FactKey) -> usize
    ensures { IsNumberOfRest settled.now key result }
{
    match word_of_rest(settled, key) {
        None => EMPTY,
        Some(found) => found.word,
    }
}

/// The number of the settled word of a goto fact.
fn number_of_goto(settled: &SettledWords, fact: GotoFact) -> usize
    ensures { IsNumberOfGoto settled.now fact result }
{
    match word_of_goto(settled, fact) {
        None => EMPTY,
        Some(found) => found.word,
    }
}

/// The number of the word that is a token alone.
fn number_of_token(words: &RestBook, token: Token) -> usize
    ensures { result ≡ unwrap_or (slice_get words.now.tokens.items token) 0 }
{
    words.tokens.get(token as usize).copied().unwrap_or(EMPTY)
}

/// The parts of the word of a token and a word after it. A token alone is the last part of its word.
fn made_of_token(words: &RestBook, token: Option<Token>, rest: usize) -> WordParts
    ensures { IsFrontOf words.now token rest result }
{
    match token {
        None => WordParts {
            front: EMPTY,
            last: LastPart::Word(rest),
        },
        Some(token) => {
            if rest == EMPTY {
                return WordParts {
                    front: EMPTY,
                    last: LastPart::Token(token),
                };
            }
            WordParts {
                front: number_of_token(words, token),
                last: LastPart::Word(rest),
            }
        }
    }
}

/// The parts of a waiting word.
fn made_of(table: &Table, settled: &SettledWords, words: &RestBook, item: WaitingWord) -> WordParts
    ensures { SpellsWaiting table.now settled.now words.now item result }
{
    table.facts();
    match item.origin {
        Origin::Ended => WordParts {
            front: EMPTY,
            last: LastPart::Word(EMPTY),
        },
        Origin::Shifted(rest) => {
            made_of_token(
                words,
                token_before(table, rest),
                number_of_rest(settled, rest),
            )
        }
        Origin::Joined { goto, rest } => WordParts {
            front: number_of_goto(settled, goto),
            last: LastPart::Word(number_of_rest(settled, rest)),
        },
    }
}

/// The parts of all waiting words.
fn all_made(
    alloc: Global,
    table: &Table,
    settled: &SettledWords,
    words: &RestBook,
    items: &[WaitingWord],
) -> Result<Vec<WordParts>, Memory>
    ensures { IfOk result (λ made. SpellAll table.now settled.now words.now items.now (length items.now) made.items) }
{
    let mut made = Vec::new(alloc);
    for item in items {
        made.push(made_of(table, settled, words, *item))?;
    }
    Ok(made)
}

/// Appends the parts of the word of each token.
fn add_tokens(tokens: &[Token], made: &mut Vec<WordParts>) -> Result<(), Memory>
    ensures { OnOk result (made.new.items ≡ made.old.items ++ map token_alone tokens.now) }
{
    for token in tokens {
        made.push(WordParts {
            front: EMPTY,
            last: LastPart::Token(*token),
        })?;
    }
    Ok(())
}

/// The number at an index.
fn number_at(numbers: &[usize], place: usize) -> usize
    requires { place < length numbers.now }
    ensures { slice_get numbers.now place ≡ Some result }
{
    numbers[place]
}

/// Stores the number of a token.
fn set_number(tokens: &mut Vec<usize>, token: Token, number: usize)
    requires { token < length tokens.old.items }
    ensures { tokens.new.items ≡ slice_set tokens.old.items token number }
{
    tokens[token as usize] = number;
}

/// Stores the number of each of the given tokens.
fn keep_numbers(tokens: &mut Vec<usize>, given: &[Token], numbers: &[usize])
    requires known { (x : ℕ) → Contains given.now x → x < length tokens.old.items }
    requires numbers { length numbers.now ≡ length given.now }
    ensures { KeepsNumbers given.now numbers.now (length given.now) tokens.old.items tokens.new.items }
{
    for place in 0..given.len() {
        set_number(tokens, given[place], number_at(numbers, place));
    }
}

/// The numbers after the first `count`.
fn after(numbers: &[usize], count: usize) -> &[usize]
    requires { count ≤ length numbers.now }
    ensures { result.now ≡ drop count numbers.now }
{
    &numbers[count..]
}

/// The number of the empty word for each item.
fn no_numbers(alloc: Global, items: &[WaitingWord]) -> Result<Vec<usize>, Memory>
    ensures { IfOk result (λ numbers. numbers.items ≡ replicate (length items.now) 0) }
{
    let numbers = vec![in alloc; EMPTY; items.len()]?;
    Ok(numbers)
}

/// Numbers the words of items of one cost, and the tokens of this cost. Returns the number of each item's word. Fails
/// only if memory runs out.
pub(crate) fn numbers_of(
    alloc: Global,
    table: &Table,
    settled: &SettledWords,
    words: &mut RestBook,
    cost: u32,
    items: &[WaitingWord],
) -> Result<Vec<usize>, Memory>
    requires { AreRestsToNumber table.now settled.now words.old cost items.now }
    ensures { IfOk result (λ numbers. RestsAreNumbered table.now settled.now words.old words.new cost items.now numbers.items) }
{
    table.facts();
    words.book.rising();
    // All words of cost 0 are empty, and words of the highest cost are not distinguished.
    if cost == 0 || cost == CAP {
        return no_numbers(alloc, items);
    }
    let mut made = all_made(alloc, table, settled, words, items)?;
    let tokens = tokens_of(&words.by_cost, cost);
    add_tokens(tokens, &mut made)?;
    let mut numbers = words.book.number_all(alloc, cost, made.as_slice())?;
    let count = items.len();
    let of_tokens = after(numbers.as_slice(), count);
    keep_numbers(&mut words.tokens, tokens, of_tokens);
    numbers.truncate(count);
    Ok(numbers)
}
