//! Grammar files and their grammars or faults, worked out by hand.
ghost use Rattle.mh_rules.specs.Ready.{AreModulesReady};

use crate::cases::{
    Subject, Wanted, check_built, check_cases, modules_of, push_digit, push_symbol,
};
use crate::filling::put;
use mh_front::{GrammarFault, fault_line, grammar_of};
use mh_grammar::{Grammar, Production};
use mh_reader_parser::Module;
use std::alloc::Global;
use std::fmt::Write;
use std::test::Fail;

fn push_production(out: &mut Vec<u8>, production: &Production) {
    put(out, b" n");
    push_digit(out, u64::from(production.lhs));
    put(out, b":");
    for symbol in production.rhs.as_slice() {
        push_symbol(out, *symbol);
    }
}

/// Appends the tokens, the nonterminals, the start symbols and the productions in a short notation.
fn push_grammar(out: &mut Vec<u8>, grammar: &Grammar) {
    for token in grammar.tokens.as_slice() {
        put(out, token.name.as_slice());
        put(out, b" ");
    }
    for nonterminal in grammar.nonterminals.as_slice() {
        put(out, nonterminal.name.as_slice());
        put(out, b" ");
    }
    for start in grammar.starts.as_slice() {
        put(out, b">");
        push_digit(out, u64::from(*start));
    }
    for production in grammar.productions.as_slice() {
        push_production(out, production);
    }
}

/// Appends the line that reports a fault.
pub fn put_line(alloc: Global, text: &mut Vec<u8>, fault: &GrammarFault) {
    if let Ok(line) = fault_line(alloc, fault) {
        put(text, &line);
        drop(line);
    }
}

fn put_answer(alloc: Global, text: &mut Vec<u8>, modules: Vec<Module>, prelude: bool)
    requires { AreModulesReady modules.items }
{
    match grammar_of(alloc, modules, prelude) {
        Ok(grammar) => {
            push_grammar(text, &grammar);
            drop(grammar);
        }
        Err(fault) => {
            put_line(alloc, text, &fault);
            drop(fault);
        }
    }
}

/// Appends the grammar of files in a short notation, or the line that reports their fault.
pub fn put_front(
    alloc: Global,
    text: &mut Vec<u8>,
    files: &str,
    prelude: bool,
) -> Result<(), Fail> {
    let modules = modules_of(alloc, files)?;
    put_answer(alloc, text, modules, prelude);
    Ok(())
}

/// Grammar files and their grammars or faults. Names of at most 16 bytes are kept in another way than longer ones.
fn cases() -> &'static str {
    "%start s %% s: A {}~undefined: A^\
     %token A %start s %% s: A {} t: A {} t: A {}~duplicate: t^\
     %token A %% s: A {}~no start symbol^\
     %start s %% s: error {}~the error token is refused^\
     %token A %start s %% s: A %prec HIGH {}~unknown level: HIGH^\
     %start s %% s: option {}~arity: option^\
     %token A EOF %start main %% main: p(A) EOF {} p(X): X {} | p(option(X)) {}~expansion: p^\
     %start s %% s: x {} %inline x: x {}~inline cycle: x^\
     %token A %start s %% %inline s: A {}~inline start: s^\
     %token A B C D E F G H %start s %% s: x x x x x {} %inline x: A {} | B {} | C {} | D {} | E {} | F {} | G {} | H {}~\
     too many productions^\
     %token A %start s %% s: s A {}~empty language: s^\
     %token COMMA X Y EOF %start main %% main: separated_list(COMMA, X) Y* EOF {} list(E): E E {}~\
     COMMA X Y EOF main list(Y) loption(separated_nonempty_list(COMMA,X)) separated_nonempty_list(COMMA,X) >0 \
     n0:n2n1t3 n1:t2t2 n2: n2:n3 n3:t1 n3:t1t0n3^\
     %token A EOF %start s %% s: A EOF {}~A EOF s >0 n0:t0t1^\
     %token FIFTEEN_LETTERS SIXTEEN__LETTERS SEVENTEEN_LETTERS EOF %start s %% \
     s: SEVENTEEN_LETTERS seventeen_letters EOF {} seventeen_letters: SIXTEEN__LETTERS seventeen_letterz {} \
     seventeen_letterz: FIFTEEN_LETTERS sixteen__letters {} sixteen__letters: SEVENTEEN_LETTERS {}~\
     FIFTEEN_LETTERS SIXTEEN__LETTERS SEVENTEEN_LETTERS EOF s seventeen_letters seventeen_letterz sixteen__letters >0 \
     n0:t2n1t3 n1:t1n2 n2:t0n3 n3:t2^\
     %token X Y EOF %start main %% main: unit nonempty_list(item) EOF {} %public item: X {} unit: {}#\
     %% %public item: Y {} unit: Y {}~\
     X Y EOF main unit@1 nonempty_list(item) item >0 n0:n1n2t2 n3:t0 n1: n3:t1 n2:n3 n2:n3n2"
}

fn push_tokens(text: &mut String) {
    let _ = text.push_str("%token");
    for number in 0..513u16 {
        let _ = write!(text, " T{number}");
    }
    let _ = text.push_str(" %start s %% s: T0 {}");
}

fn check_many_tokens(alloc: Global) -> Result<(), Fail> {
    let mut text = String::new(alloc);
    push_tokens(&mut text);
    let wanted = Wanted::Whole("too many tokens: 513");
    check_built(alloc, &Subject::Front(true), text, &wanted)
}

/// Appends inline rules of which each doubles the one before; the last has 2^14 symbols.
fn push_doubles(text: &mut String) {
    let _ = text.push_str("%token A %start s %% s: x14 {} %inline x0: A {}");
    for number in 1..15u16 {
        let below = number - 1;
        let _ = write!(text, " %inline x{number}: x{below} x{below} {{}}");
    }
}

fn check_long_production(alloc: Global) -> Result<(), Fail> {
    let mut text = String::new(alloc);
    push_doubles(&mut text);
    let wanted = Wanted::Whole("too many productions");
    check_built(alloc, &Subject::Front(true), text, &wanted)
}

const WITHOUT_PRELUDE: &str = "%token A %start s %% s: option(A) {}~undefined: option";

#[test]
fn fronts(rt: HostRuntime) -> Result<(), Fail> {
    let alloc = rt.alloc();
    check_cases(alloc, &Subject::Front(true), cases(), 15)?;
    check_many_tokens(alloc)?;
    check_long_production(alloc)?;
    check_cases(alloc, &Subject::Front(false), WITHOUT_PRELUDE, 1)?;
    check_cases(alloc, &Subject::Memory, "~out of memory", 1)
}
