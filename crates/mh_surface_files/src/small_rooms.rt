//! Small libraries that can be used alone: names and derivations, sets of tokens, least costs, generated grammars, the
//! words of the command line, and devices in memory.
ghost use Rattle.std.specs.Prelude.{◌≤◌, ◌<◌, length};
ghost use Rattle.mh_grammar.specs.Plain.{plain_of, IsInRange};

use mh_facts::{Back, FactKey, FactStore};
use mh_grammar::{Grammar, Look, Name, first, from_bytes, nullable, productive};
use mh_opts::{Job, Order, UsageFault, read_words};
use mh_outside::{
    Failed, LineFault, MemShelf, MemSink, MemSource, Shelf, ShelfFault, Sink, Source, WriteFault,
    read_line, write_whole,
};
use mh_reader::read_module;
use mh_sample::{Sample, Shortest, random_sentence, sample, shortest_words};
use mh_sets::{TokenSet, with_width};
use mh_surface::{grammar_of, is_small};
use mh_worked_files::ONE_SENTENCE;
use std::alloc::Global;
use std::process::Abort;
use std::test::Fail;

/// A name is a list of bytes.
#[test]
fn names(rt: HostRuntime) -> Result<(), Fail> {
    let name: Name = from_bytes(rt.alloc(), b"EOF")?;
    assert!(rt; name.as_slice() == "EOF".as_bytes());
    drop(name);
    Ok(())
}

/// The only nonterminal is not nullable, is productive, and its words begin with token 0.
fn derivations(rt: &impl Abort, alloc: Global, grammar: &Grammar) -> Result<(), Fail>
    requires { IsInRange (plain_of grammar.now) }
{
    let empty = nullable(alloc, grammar)?;
    assert!(rt; empty.as_slice() == [false].as_slice());
    drop(empty);
    let finite = productive(alloc, grammar)?;
    assert!(rt; finite.as_slice() == [true].as_slice());
    drop(finite);
    let rows = first(alloc, grammar)?;
    let is_wanted = match rows.as_slice() {
        [row] => row.as_slice() == [0].as_slice(),
        _ => false,
    };
    drop(rows);
    assert!(rt; is_wanted);
    Ok(())
}

/// The shortest word of the only nonterminal is the only sentence.
fn shortest(rt: &impl Abort, alloc: Global, grammar: &Grammar) -> Result<(), Fail>
    requires { IsInRange (plain_of grammar.now) }
{
    let words = shortest_words(alloc, grammar)?;
    let is_wanted = match words.as_slice() {
        [Shortest::Word(word)] => word.as_slice() == [0, 1].as_slice(),
        _ => false,
    };
    drop(words);
    assert!(rt; is_wanted);
    Ok(())
}

/// The random sentence of at most two tokens is the only sentence.
fn sentences(rt: &impl Abort, alloc: Global, grammar: &Grammar) -> Result<(), Fail>
    requires { IsInRange (plain_of grammar.now) }
{
    shortest(rt, alloc, grammar)?;
    if grammar.starts.is_empty() {
        return Err(Fail::from("no start"));
    }
    let Ok(word) = random_sentence(alloc, grammar, 7, 2) else {
        return Err(Fail::from("no sentence"));
    };
    assert!(rt; word.as_slice() == [0, 1].as_slice());
    Ok(())
}

/// Tests the functions on grammars with a small grammar.
fn check_grammar(rt: &impl Abort, alloc: Global, grammar: &Grammar) -> Result<(), Fail> {
    if !is_small(grammar) {
        return Err(Fail::from("a large grammar"));
    }
    derivations(rt, alloc, grammar)?;
    sentences(rt, alloc, grammar)
}

#[test]
fn of_a_grammar(rt: HostRuntime) -> Result<(), Fail> {
    let grammar = grammar_of(rt.alloc(), ONE_SENTENCE)?;
    let result = check_grammar(&rt, rt.alloc(), &grammar);
    drop(grammar);
    result
}

/// A set of lookaheads with one machine word has room for 64 tokens and the end of the stream.
#[test]
fn sets(rt: HostRuntime) {
    let mut set = TokenSet::<1>::empty();
    let mut other = TokenSet::<1>::empty();
    let (token, end) = (Look::Token(63), Look::End);
    let inserted = [set.insert(token), set.insert(token), other.insert(end)];
    let asked = [
        set.contains(token),
        set.contains(end),
        set.meets(&other),
        set.is_subset(&other),
    ];
    assert!(rt; inserted == [true, false, true] && asked == [true, false, false, false]);
    let grew = [set.union_into(&other), set.union_into(&other)];
    assert!(rt; grew == [true, false] && other.is_subset(&set) && set.meets(&other));
    assert!(rt; set.first() == Some(token) && other.first() == Some(end));
}

/// The number of words of a width.
fn words_of<const W: usize>(tokens: usize) -> (usize, usize) {
    (tokens, W)
}

/// The macro calls a function with the least width that holds this number of tokens.
fn width_of(tokens: usize) -> usize
    requires { tokens ≤ 512 }
{
    let (_, width) = with_width!(tokens; words_of;; tokens);
    width
}

#[test]
fn widths(rt: HostRuntime) {
    let found = [width_of(0), width_of(64), width_of(65), width_of(256)];
    assert!(rt; found == [1, 1, 2, 4]);
}

/// A key of the store: a path from a state along a production up to a dot.
fn key(dot: u32) -> FactKey {
    FactKey {
        from: 0,
        production: 1,
        dot,
        first: 0,
        next: 1,
    }
}

/// A stored cost does not change, and the costs are read in rising order.
fn check_store(rt: &impl Abort, store: &mut FactStore) -> Result<(), Fail> {
    if store.last() > 0 {
        return Err(Fail::from("nothing is stored at first"));
    }
    let is_new = store.settle(key(0), 0, Back::Empty)?;
    let cost = store.cost(&key(0));
    let is_empty = matches!(store.back(&key(0)), Some(Back::Empty));
    assert!(rt; is_new && cost == Some(0) && is_empty);
    assert!(rt; store.cost(&key(1)).is_none() && store.back(&key(1)).is_none());
    Ok(())
}

#[test]
fn least_costs(rt: HostRuntime) -> Result<(), Fail> {
    let mut store = FactStore::new(rt.alloc());
    let result = check_store(&rt, &mut store);
    drop(store);
    result
}

/// The number of lines in a text.
fn lines_in(text: &[u8]) -> usize {
    text.iter().filter(|byte| **byte == b'\n').count()
}

/// Sample 0 has 6 tokens and 3,000 sentences.
fn check_sample(rt: &impl Abort, alloc: Global, sample: &Sample) -> Result<(), Fail> {
    if sample.grammar.len() > 1_000_000 {
        return Err(Fail::from("a long file"));
    }
    let Ok(module) = read_module(alloc, &sample.grammar) else {
        return Err(Fail::from("a file that spells no module"));
    };
    let tokens = module.tokens.len();
    drop(module);
    assert!(rt; tokens == 6 && lines_in(&sample.sentences) == 3_000);
    Ok(())
}

#[test]
fn samples(rt: HostRuntime) -> Result<(), Fail> {
    let sample = sample(rt.alloc(), 0)?;
    let result = check_sample(&rt, rt.alloc(), &sample);
    drop(sample);
    result
}

fn add_words(alloc: Global, words: &mut Vec<String>, text: &str) -> Result<(), Fail> {
    for word in text.split_ascii_whitespace() {
        words.push(String::from_str(alloc, word)?)?;
    }
    Ok(())
}

/// The words of a text.
fn words_in(alloc: Global, text: &str) -> Result<Vec<String>, Fail> {
    let mut words = Vec::new(alloc);
    match add_words(alloc, &mut words, text) {
        Ok(()) => Ok(words),
        Err(fail) => Err(fail),
    }
}

fn is_strict_list(order: &Order) -> bool {
    let is_list = matches!(order.job, Job::ListErrors);
    let marks = [
        order.strict,
        order.stdlib,
        order.canonical,
        order.show_cst,
        order.show_expected,
        order.comment_expected,
    ];
    let files = order.messages.is_none() && order.tables.is_none() && order.grammars.len() == 1;
    is_list && files && marks == [true, true, false, false, false, false]
}

/// The order that the words of the command line spell.
#[test]
fn orders(rt: HostRuntime) -> Result<(), Fail> {
    let words = words_in(rt.alloc(), "--list-errors --strict g.mly")?;
    let order = read_words(rt.alloc(), &words);
    drop(words);
    let Ok(order) = order else {
        return Err(Fail::from("no order"));
    };
    let is_wanted = is_strict_list(&order);
    drop(order);
    assert!(rt; is_wanted);
    Ok(())
}

/// Words that are not an order.
#[test]
fn no_order(rt: HostRuntime) -> Result<(), Fail> {
    let words = words_in(rt.alloc(), "--list-errors")?;
    let order = read_words(rt.alloc(), &words);
    drop(words);
    let lacks_grammar = matches!(order, Err(UsageFault::NoGrammar));
    drop(order);
    assert!(rt; lacks_grammar);
    Ok(())
}

/// Lines of an input in memory. The limit is that of one line in bytes, without its LF.
fn check_lines(rt: &impl Abort, alloc: Global, source: &mut MemSource) -> Result<(), Fail> {
    let Ok(Some(line)) = read_line(alloc, source, 5) else {
        return Err(Fail::from("a line"));
    };
    let is_first = line.as_slice() == "A EOF".as_bytes();
    drop(line);
    let is_long = matches!(read_line(alloc, source, 5), Err(LineFault::TooBig));
    let fails = matches!(read_line(alloc, source, 5), Err(LineFault::Failed));
    assert!(rt; is_first && is_long && fails);
    Ok(())
}

/// A source in memory whose 13th read fails.
#[test]
fn sources(rt: HostRuntime) -> Result<(), Fail> {
    let bytes = b"A EOF\nA EOF A\n".to_vec(rt.alloc())?;
    let fails = vec![in rt.alloc(); 13u64]?;
    let mut source = MemSource::new(bytes, fails);
    let result = check_lines(&rt, rt.alloc(), &mut source);
    drop(source);
    result
}

/// A sink in memory whose second write fails. The bytes written before it remain.
#[test]
fn sinks(rt: HostRuntime) -> Result<(), Fail> {
    let fails = vec![in rt.alloc(); 2u64]?;
    let mut sink = MemSink::new(rt.alloc(), fails);
    let first = write_whole(&mut sink, b"A");
    let second = write_whole(&mut sink, b"B");
    let is_kept = sink.written() == "A".as_bytes();
    drop(sink);
    assert!(rt; first == Ok(()) && second == Err(WriteFault::Failed) && is_kept);
    Ok(())
}

/// A shelf without files.
#[test]
fn shelves(rt: HostRuntime) -> Result<(), Fail> {
    let mut shelf = MemShelf::new(Vec::new(rt.alloc()), Vec::new(rt.alloc()));
    let read = shelf.read_file(rt.alloc(), b"g.mly", 100);
    drop(shelf);
    let is_absent = matches!(read, Err(ShelfFault::Absent));
    drop(read);
    assert!(rt; is_absent);
    Ok(())
}
