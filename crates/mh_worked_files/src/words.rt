//! Words of the command line and the orders that they spell, worked out by hand.
use crate::cases::{Subject, check_cases, put_number};
use crate::filling::put;
use mh_opts::{Job, Order, UsageFault, read_words};
use std::alloc::Global;
use std::test::Fail;

fn job_name(job: &Job) -> &'static [u8] {
    match job {
        Job::Interpret => b"interpret",
        Job::Session => b"session",
        Job::ShowAutomaton => b"show",
        Job::WriteTables => b"tables",
        Job::ListErrors => b"list",
        Job::InterpretError => b"explain",
        Job::CompileErrors { .. } => b"compile",
        Job::CompareErrors { .. } => b"compare",
        Job::EchoErrors { .. } => b"echo",
        Job::UpdateErrors { .. } => b"update",
        Job::RebaseErrors { .. } => b"rebase",
        Job::CheckErrors { .. } => b"check-errors",
        Job::Check => b"check",
        Job::Sample { .. } => b"sample",
        Job::ShortestSentences => b"shortest",
        Job::RandomSentence { .. } => b"random",
        Job::Explain => b"conflicts",
    }
}

/// Appends a word if the flag is true.
fn put_if(text: &mut Vec<u8>, is_on: bool, word: &[u8]) {
    if is_on {
        put(text, word);
    }
}

/// Appends the numbers of the job, each after a space.
fn put_numbers(alloc: Global, text: &mut Vec<u8>, job: &Job) {
    match job {
        Job::Sample { number } => {
            put(text, b" ");
            put_number(alloc, text, u64::from(*number));
        }
        Job::RandomSentence { seed, length } => {
            put(text, b" ");
            put_number(alloc, text, *seed);
            put(text, b" ");
            put_number(alloc, text, u64::from(*length));
        }
        _ => {}
    }
}

/// Appends the job with its numbers, the flags that are set, and each grammar file after a colon.
fn put_order(alloc: Global, text: &mut Vec<u8>, order: &Order) {
    put(text, job_name(&order.job));
    put_numbers(alloc, text, &order.job);
    put_if(text, order.canonical, b" canonical");
    put_if(text, order.strict, b" strict");
    put_if(text, !order.stdlib, b" bare");
    put_if(text, order.show_cst, b" trees");
    put_if(text, order.show_expected, b" expected");
    put_if(text, order.comment_expected, b" comments");
    for file in order.grammars.as_slice() {
        put(text, b" :");
        put(text, file.as_slice());
    }
}

fn put_fault(text: &mut Vec<u8>, fault: &UsageFault) {
    put(
        text,
        match fault {
            UsageFault::Parse => b"bad words",
            UsageFault::Number => b"bad number",
            UsageFault::NoMode => b"no mode",
            UsageFault::TwoModes => b"two modes",
            UsageFault::Misplaced { option } => option.as_slice(),
            UsageFault::NoGrammar => b"no grammar",
            UsageFault::Memory => b"no memory",
        },
    );
}

/// Appends the order that the words spell, or the usage fault.
pub fn put_read(alloc: Global, text: &mut Vec<u8>, words: &[String]) {
    match read_words(alloc, words) {
        Ok(order) => {
            put_order(alloc, text, &order);
            drop(order);
        }
        Err(fault) => {
            put_fault(text, &fault);
            drop(fault);
        }
    }
}

/// Words with spaces between them, `~`, and the order or the fault; `^` is between cases.
const CASES: &str = "--interpret g.mly~interpret :g.mly^\
    g.mly --interpret~interpret :g.mly^\
    a.mly --interpret b.mly~interpret :a.mly :b.mly^\
    --interpret --no-stdlib g.mly~interpret bare :g.mly^\
    --interpret --strict --interpret-show-cst g.mly~interpret strict trees :g.mly^\
    --interpret --show-expected g.mly~interpret expected :g.mly^\
    --show-automaton --strict g.mly~show strict :g.mly^\
    --canonical --show-automaton g.mly~show canonical :g.mly^\
    --canonical --write-tables g.mly~tables canonical :g.mly^\
    --write-tables --show-automaton g.mly~two modes^\
    --write-tables=t g.mly~bad words^\
    --canonical g.mly~no mode^\
    --canonical --interpret --canonical g.mly~bad words^\
    --interpret -~interpret :-^\
    --echo-errors m g.mly~echo :g.mly^\
    --echo-errors=m --strict g.mly~echo strict :g.mly^\
    --echo-errors m --compile-errors m g.mly~two modes^\
    --update-errors m g.mly~update :g.mly^\
    --update-errors m --echo-errors m g.mly~two modes^\
    --rebase-errors m g.mly~rebase :g.mly^\
    --rebase-errors m --list-errors g.mly~two modes^\
    --rebase-errors m~no grammar^\
    --check-errors m g.mly~check-errors :g.mly^\
    --check-errors m --rebase-errors m g.mly~two modes^\
    --check-errors m~no grammar^\
    --check a.mly b.mly~check :a.mly :b.mly^\
    --check --strict g.mly~check strict :g.mly^\
    --check --list-errors g.mly~two modes^\
    --check~no grammar^\
    --sample 7~sample 7^\
    --sample=9999 --canonical~sample 9999 canonical^\
    --sample=0070 --strict~sample 70 strict^\
    --sample=12345~bad number^\
    --sample=~bad number^\
    --sample 1x --interpret g.mly~bad number^\
    --sample 7 -- g.mly~--sample^\
    --compare-errors a --compare-errors b g.mly~compare :g.mly^\
    --compare-errors=a g.mly --compare-errors=b~compare :g.mly^\
    --compare-errors a g.mly~--compare-errors^\
    --compare-errors a -- --compare-errors b~--compare-errors^\
    --compare-errors a --compare-errors b --compare-errors c g.mly~bad words^\
    --compare-errors a --compare-errors-2 b g.mly~bad words^\
    --compare-errors-2=b --interpret g.mly~bad words^\
    --interpret -- --compare-errors-2~interpret :--compare-errors-2^\
    --interpret -- --strict -x~interpret :--strict :-x^\
    --interpret  g.mly~interpret : :g.mly^\
    help --interpret~interpret :help^\
    --interpret~no grammar^\
    --show-automaton --~no grammar^\
    g.mly~no mode^\
    --no-stdlib g.mly~no mode^\
    --interpret-show-cst g.mly~no mode^\
    -- --interpret g.mly~no mode^\
    --interpret --show-automaton g.mly~two modes^\
    --interpret --show-automaton --interpret-show-cst~two modes^\
    --show-automaton --interpret-show-cst g.mly~--interpret-show-cst^\
    --show-automaton --interpret-show-cst~--interpret-show-cst^\
    --session --show-expected g.mly~--show-expected^\
    --interpret --show-expected --messages m g.mly~--show-expected^\
    --session --show-expected --messages m g.mly~--messages^\
    --sample 7 --show-expected -- g.mly~--sample^\
    --session --show-expected~--show-expected^\
    --length 2 --session --show-expected g.mly~--show-expected^\
    --what g.mly~bad words^\
    --inter g.mly~bad words^\
    --interpret --interpret g.mly~bad words^\
    --interpret= g.mly~bad words^\
    --interpret=yes g.mly~bad words^\
    --interpret -x g.mly~bad words^\
    --interpret -- -x --~interpret :-x :--^\
    --explain g.mly~conflicts :g.mly^\
    --explain --canonical --strict g.mly~conflicts canonical strict :g.mly^\
    --explain~no grammar^\
    --explain --list-errors g.mly~two modes^\
    --explain=yes g.mly~bad words^\
    --list-errors --comment-expected g.mly~list comments :g.mly^\
    --update-errors m --comment-expected g.mly~update comments :g.mly^\
    --rebase-errors m --comment-expected g.mly~rebase comments :g.mly^\
    --comment-expected --interpret-error g.mly~explain comments :g.mly^\
    --comment-expected g.mly~no mode^\
    --interpret --comment-expected g.mly~--comment-expected^\
    --echo-errors m --comment-expected g.mly~--comment-expected^\
    --explain --comment-expected~--comment-expected^\
    --sample 7 --comment-expected~--comment-expected^\
    --length 2 --explain --comment-expected g.mly~--length^\
    --session --show-expected --comment-expected g.mly~--show-expected^\
    --shortest-sentences g.mly~shortest :g.mly^\
    --shortest-sentences~no grammar^\
    --shortest-sentences --list-errors g.mly~two modes^\
    --random-sentence 7 --length 20 g.mly~random 7 20 :g.mly^\
    --length=1000 --random-sentence=9999999999999999999 g.mly~random 9999999999999999999 1000 :g.mly^\
    --random-sentence 007 --length 0002 g.mly~random 7 2 :g.mly^\
    --random-sentence x --length 2 g.mly~bad number^\
    --random-sentence= --length 2 g.mly~bad number^\
    --random-sentence 10000000000000000000 --length 2 g.mly~bad number^\
    --random-sentence 7 --length 1001 g.mly~bad number^\
    --random-sentence 7 --length 00001 g.mly~bad number^\
    --length x --interpret g.mly~bad number^\
    --random-sentence -7 --length 2 g.mly~bad words^\
    --random-sentence 7 --random-sentence 8 --length 2 g.mly~bad words^\
    --random-sentence 7 --length 2 --shortest-sentences g.mly~two modes^\
    --random-sentence 7 g.mly~--random-sentence^\
    --random-sentence 7~--random-sentence^\
    --length 2 --interpret g.mly~--length^\
    --length 2 --interpret~--length^\
    --length 2 --list-errors --interpret-show-cst g.mly~--interpret-show-cst^\
    --length 2 --interpret --tables t --canonical g.mly~--tables^\
    --length 2 --sample 7 g.mly~--sample^\
    --length 2 --sample 7~--length^\
    --random-sentence 7 --length 2~no grammar^\
    --help~bad words^\
    -h~bad words^\
    --version~bad words";

/// Appends a word. If memory runs out, the words lack it, and the case fails.
fn push_word(alloc: Global, words: &mut Vec<String>, word: &str) {
    if let Ok(word) = String::from_str(alloc, word) {
        let _ = words.push(word);
    }
}

/// Appends the order or the fault of the words of a line.
pub fn put_words(alloc: Global, text: &mut Vec<u8>, line: &str) {
    let mut words = Vec::new(alloc);
    for word in line.split(' ') {
        push_word(alloc, &mut words, word);
    }
    put_read(alloc, text, &words);
    drop(words);
}

#[test]
fn cases(rt: HostRuntime) -> Result<(), Fail> {
    check_cases(rt.alloc(), &Subject::Words, CASES, 113)?;
    check_cases(rt.alloc(), &Subject::NoWords, "~no mode", 1)
}
