//! Grammar files and their inlined grammars, worked out by hand.
ghost use Rattle.std.specs.Prelude.{IfOk};
ghost use Rattle.mh_rules.specs.Ready.{IsExpandedReady};

use crate::cases::{
    Subject, check_cases, joined_of, push_digit, push_level, push_named, push_symbol,
};
use crate::filling::put;
use mh_expand::{Expanded, expand};
use mh_grammar::{Grammar, NontermInfo, Production};
use mh_inline::{InlineFault, grammar_excludes_fault, inline_rules, is_one_fault, is_one_grammar};
use std::alloc::Global;
use std::test::Fail;

/// The instances of the rules of files. Fails if the files have a fault.
fn expanded_of(alloc: Global, files: &str) -> Result<Expanded, Fail>
    ensures { IfOk result IsExpandedReady }
{
    let joined = joined_of(alloc, files, true)?;
    let expanded = expand(alloc, &joined);
    drop(joined);
    Ok(expanded?)
}

fn push_production(out: &mut Vec<u8>, production: &Production) {
    push_digit(out, u64::from(production.lhs));
    for symbol in production.rhs.as_slice() {
        put(out, b" ");
        push_symbol(out, *symbol);
    }
    if let Some(level) = production.level {
        push_level(out, level);
    }
    put(out, b";");
}

fn push_nonterminal(out: &mut Vec<u8>, nonterminal: &NontermInfo) {
    put(out, b" ");
    put(out, nonterminal.name.as_slice());
    if let Some(rank) = nonterminal.on_error {
        put(out, b"<");
        push_digit(out, rank);
    }
}

/// Appends the start symbols, the nonterminals and the productions in a short notation.
fn push_grammar(out: &mut Vec<u8>, grammar: &Grammar) {
    for start in grammar.starts.as_slice() {
        put(out, b">");
        push_digit(out, u64::from(*start));
    }
    for nonterminal in grammar.nonterminals.as_slice() {
        push_nonterminal(out, nonterminal);
    }
    put(out, b":");
    for production in grammar.productions.as_slice() {
        push_production(out, production);
    }
}

fn push_fault(out: &mut Vec<u8>, fault: &InlineFault) {
    match fault {
        InlineFault::InlineCycle { instance } => push_named(out, b'C', instance),
        InlineFault::InlineStart { name } => push_named(out, b'S', name),
        InlineFault::TooManyProductions => put(out, b"too many"),
        InlineFault::EmptyLanguage { name } => push_named(out, b'E', name),
        InlineFault::Memory => put(out, b"memory"),
    }
}

/// Appends the grammar of the instances, or their fault.
fn push_answer(alloc: Global, out: &mut Vec<u8>, expanded: &Expanded)
    requires { IsExpandedReady expanded.now }
{
    match inline_rules(alloc, expanded) {
        Ok(grammar) => {
            push_grammar(out, &grammar);
            drop(grammar);
        }
        Err(fault) => {
            push_fault(out, &fault);
            drop(fault);
        }
    }
}

/// Grammar files and their grammars.
///
/// The two cases with too many productions have 8^5 productions, and one production of 2^14 symbols.
fn cases() -> &'static str {
    "%token A B %start s %% s: x x {} %inline x: A {} | B {}~\
     >0 s:0 t0 t0;0 t0 t1;0 t1 t0;0 t1 t1;^\
     %token A B %left l %left m %start s %% s: x y {} %inline x: A {} %prec l | A A {} \
     %inline y: B {} %prec m | B B {}~>0 s:0 t0 t1%11;0 t0 t1 t1%10;0 t0 t0 t1%11;0 t0 t0 t1 t1;^\
     %token A B %left l %left m %start s %% s: x {} %prec m | x {} %inline x: A {} %prec l | B {}~\
     >0 s:0 t0%11;0 t1%11;0 t0%10;0 t1;^\
     %token A %left l %left m %start s %% s: x {} %inline x: y {} %prec l %inline y: A {} %prec m~\
     >0 s:0 t0%10;^\
     %token A B %left A %start s %% s: x A {} | x A {} %inline x: B {} %prec B | B {}~\
     >0 s:0 t1 t0;0 t1 t0%10;0 t1 t0;0 t1 t0%10;^\
     %token A B %left A %left B %start s %% s: A s {} | B A t {} t: {}~\
     >0 s t:0 t0 n0%10;0 t1 t0 n1%10;1;^\
     %token A B %start s %on_error_reduce t %% s: x t {} %inline x: A {} t: B {}~\
     >0 s t<0:0 t0 n1;1 t1;^\
     %token A %start s u %% %public t: A {} u: t {} s: option(u) {}~\
     >0>1 s u option(u) t:3 t0;1 n3;0 n2;2;2 n1;^\
     %token A %% %public t: A {}#%start s %% s: t {}~>0 s t:1 t0;0 n1;^\
     %start s %% s: x {} %inline x: x {}~C x^\
     %token A %start s %% s: w {} %inline w: x {} %inline x: y A {} | {} %inline y: A x {}~C x^\
     %start s %% %inline s: x {} %inline x: x {}~C x^\
     %token A %start s t %% s: A {} %inline t: A {}~S t^\
     %start s %% s: s s {} %inline x: A {}#%token A B %start u %% %inline u: A {}~S u^\
     %token A B C D E F G H %start s %% s: x x x x x {} %inline x: \
     A {} | B {} | C {} | D {} | E {} | F {} | G {} | H {}~too many^\
     %token A %start s %% s: o {} %inline o: n n {} %inline n: m m {} %inline m: l l {} \
     %inline l: k k {} %inline k: j j {} %inline j: i i {} %inline i: h h {} %inline h: g g {} \
     %inline g: f f {} %inline f: e e {} %inline e: d d {} %inline d: c c {} %inline c: b b {} \
     %inline b: a a {} %inline a: A {}~too many^\
     %token A %start s t %% s: A {} t: t A {}~E t"
}

/// Appends the grammar of files, or their fault.
pub fn put_grammar(alloc: Global, text: &mut Vec<u8>, files: &str) -> Result<(), Fail> {
    let expanded = expanded_of(alloc, files)?;
    push_answer(alloc, text, &expanded);
    drop(expanded);
    Ok(())
}

fn check_grammar(alloc: Global, expanded: &Expanded) -> Result<(), Fail>
    requires { IsExpandedReady expanded.now }
{
    let grammar = inline_rules(alloc, expanded)?;
    is_one_grammar(expanded, &grammar, &grammar);
    grammar_excludes_fault(expanded, &grammar, &InlineFault::Memory);
    drop(grammar);
    Ok(())
}

fn check_one_grammar(alloc: Global) -> Result<(), Fail> {
    let texts = "%token A %start s %% s: A {}";
    let expanded = expanded_of(alloc, texts)?;
    let result = check_grammar(alloc, &expanded);
    drop(expanded);
    result
}

fn check_fault(alloc: Global, expanded: &Expanded) -> Result<(), Fail>
    requires { IsExpandedReady expanded.now }
{
    match inline_rules(alloc, expanded) {
        Ok(grammar) => {
            drop(grammar);
            Err("no fault".into())
        }
        Err(fault) => {
            is_one_fault(expanded, &fault, &fault);
            drop(fault);
            Ok(())
        }
    }
}

fn check_one_fault(alloc: Global) -> Result<(), Fail> {
    let texts = "%start s %% s: s {}";
    let expanded = expanded_of(alloc, texts)?;
    let result = check_fault(alloc, &expanded);
    drop(expanded);
    result
}

#[test]
fn inlined(rt: HostRuntime) -> Result<(), Fail> {
    check_cases(rt.alloc(), &Subject::Grammar, cases(), 17)?;
    check_one_grammar(rt.alloc())?;
    check_one_fault(rt.alloc())
}
