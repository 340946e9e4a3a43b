//! Grammar files and their joined rules, worked out by hand.
ghost use Rattle.mh_rules.specs.Ready.{AreModulesReady};

use crate::cases::{
    Subject, Wanted, check_built, check_cases, modules_of, push_digit, push_level, push_named,
    push_number, push_prec,
};
use crate::filling::put;
use mh_grammar::TokenInfo;
use mh_join::{
    Applied, Head, JoinFault, Joined, JoinedAlternative, JoinedRule, is_one_fault, is_one_joined,
    join, joined_excludes_fault, prelude_rules,
};
use mh_reader_parser::{Actual, Alternative, Module, Ref, Rule};
use std::alloc::Global;
use std::fmt::Write;
use std::test::Fail;

fn push_head(out: &mut Vec<u8>, head: Head) {
    match head {
        Head::Formal(number) => {
            put(out, b"f");
            push_digit(out, number);
        }
        Head::Token(number) => {
            put(out, b"t");
            push_digit(out, u64::from(number));
        }
        Head::Rule(number) => {
            put(out, b"r");
            push_number(out, number);
        }
    }
}

fn push_applied(out: &mut Vec<u8>, applied: &Applied) {
    push_head(out, applied.head);
    if !applied.args.is_empty() {
        put(out, b"(");
        for arg in applied.args.as_slice() {
            push_applied(out, arg);
        }
        put(out, b")");
    }
}

fn push_alternative(out: &mut Vec<u8>, alternative: &JoinedAlternative) {
    push_digit(out, alternative.file);
    put(out, b".");
    push_number(out, alternative.place);
    for producer in alternative.producers.as_slice() {
        put(out, b" ");
        push_applied(out, producer);
    }
    push_prec(out, alternative.prec);
}

fn push_rule(out: &mut Vec<u8>, rule: &JoinedRule) {
    put(out, rule.name.as_slice());
    if rule.inlined {
        put(out, b"!");
    }
    push_digit(out, rule.formals);
    for alternative in rule.alternatives.as_slice() {
        put(out, b"|");
        push_alternative(out, alternative);
    }
    put(out, b";");
}

/// Returns true if a rule is one of the prelude and is printed by its plain name.
fn is_plain_prelude(rule: &JoinedRule) -> bool {
    let mut is_of_files = rule.alternatives.is_empty();
    for alternative in rule.alternatives.as_slice() {
        is_of_files = is_of_files || alternative.file > 0;
    }
    for byte in rule.name.as_slice() {
        is_of_files = is_of_files || *byte == b'@';
    }
    !is_of_files
}

/// Appends the tokens, start symbols, on-error declarations and rules in a short notation. Of the rules of the prelude,
/// only those that a rule of a file hides are appended.
fn push_joined(out: &mut Vec<u8>, joined: &Joined) {
    for token in joined.tokens.as_slice() {
        put(out, token.name.as_slice());
        if let Some(level) = token.level {
            push_level(out, level);
        }
        put(out, b" ");
    }
    for start in joined.starts.as_slice() {
        put(out, b">");
        push_digit(out, *start);
    }
    for actuals in joined.on_error.as_slice() {
        put(out, b"<");
        for actual in actuals.as_slice() {
            push_applied(out, actual);
        }
    }
    put(out, b":");
    for rule in joined.rules.as_slice() {
        if !is_plain_prelude(rule) {
            push_rule(out, rule);
        }
    }
}

fn push_count(out: &mut Vec<u8>, count: u64) {
    put(out, b"too many ");
    push_number(out, count / 100);
    push_number(out, count % 100);
}

fn push_fault(out: &mut Vec<u8>, fault: &JoinFault) {
    match fault {
        JoinFault::Undefined { name } => push_named(out, b'U', name),
        JoinFault::Duplicate { name } => push_named(out, b'D', name),
        JoinFault::NoStart => put(out, b"no start"),
        JoinFault::ErrorToken => put(out, b"error"),
        JoinFault::UnknownLevel { name } => push_named(out, b'L', name),
        JoinFault::TooManyTokens { count } => push_count(out, *count),
        JoinFault::Memory => put(out, b"memory"),
    }
}

/// Appends the joined rules of the files, or their fault.
fn push_answer(alloc: Global, out: &mut Vec<u8>, modules: &[Module], prelude: bool)
    requires { AreModulesReady modules.now }
{
    match join(alloc, modules, prelude) {
        Ok(joined) => {
            push_joined(out, &joined);
            drop(joined);
        }
        Err(fault) => {
            push_fault(out, &fault);
            drop(fault);
        }
    }
}

/// Grammar files without the prelude, and their joined rules.
///
/// A fault is `U NAME` (undefined), `D NAME` (duplicate), `L NAME` (unknown level), `no start`, `error` or `too many
/// COUNT`. Otherwise the result is each token and a space, `>` and the rule of each start symbol, `<` and the actuals
/// of each on-error declaration, `:`, and each rule followed by `;`. A rule is its printed name, `!` if it is inline,
/// the number of its formals, and each alternative as `|FILE.PLACE`, its producers, and the level of its `%prec`. An
/// actual is a formal `f0`, a token `t0` or a rule `r0`, with its own actuals in brackets. A level is `%`, its file and
/// its rank; `-` is a `%prec` without a level.
fn cases() -> &'static str {
    "%token A EOF %start s %% s: A EOF {}~A EOF >0:s0|1.0 t0 t1;^\
     %% s: {}~no start^\
     %token A %%#%% s: {}~no start^\
     %% s: x {}~U x^\
     %% s: {} s: {}~D s^\
     %start s %%~U s^\
     %start s %% s: b {}~U b^\
     %start s %% s: zz? {}~U option^\
     %start s %% s: a(b) {}~U a^\
     %start s %% s: \"x\" {}~U x^\
     %start s %% s: error {}~error^\
     %start s %% s: error b {}~U b^\
     %start s %on_error_reduce error %% s: {}~U error^\
     %start s %% s: {} %prec x~L x^\
     %start s %% s: {} %prec \"x\"~U x^\
     %start s %% s: b {}#%% b: a {}~U b^\
     %start s %% s: t {}#%% t: {}~U t^\
     %left \"x\" %on_error_reduce y %start q %% s: z {}~U q^\
     %left \"x\" %on_error_reduce y %start s %% s: z {}~U x^\
     %on_error_reduce y %start s %% s: z {}~U y^\
     %token A A B %start s %% s: {} B: {} A: {}~D B^\
     %token A %start s %% s: {}#%% A: {}~D A^\
     %token A \"a\" B \"a\" %start s %% s: {}~D a^\
     %token A \"a\" %start s %% s: {}#%token B \"a\" %%~D a^\
     %token A \"a\" B \"a\" %start s %% s: {} B: {}~D B^\
     %token A \"a\" A \"b\" %start s %% s: \"a\" \"b\" {}#%token A \"a\" %%~A >0:s0|1.0 t0 t0;^\
     %token A \"a\" %start s %% s: t {}#%% %public t: \"a\" {}~A >0:s0|1.0 r1;t0|2.0 t0;^\
     %start s %% s: {} b: {} b: {}~D b^\
     %start s %% s: {} t: {}#%% t: {} t: {}~D t^\
     %start s %% s: {} b(x, y, x): {}~D x^\
     %start s %% s: {} b: {} b: {}#%% p(x, x): {}~D b^\
     %start s %% s: {}#%% %public p(y, y): {}~D y^\
     %start s %% s: {} %public b(x): {} b: {}~D b^\
     %start s %% s: {} %public b: {} %inline b: {}~D b^\
     %start s %% s: {}#%% %inline s: {}~D s^\
     %start s %% s: {} %public t(x): {}#%% %public t: {} p(x, x): {}~D x^\
     %start s %% s: {} %public t(x): {}#%% %public t: {}~D t^\
     %token A \"a\" %left A A %right \"a\" %start s %% s: {}~D A^\
     %token A %left A %start s %% s: {}#%right A %%~D A^\
     %left x %right x %start s %% s: {}~D x^\
     %token A %left A A %start s %% s: {}~A%10 >0:s0|1.0;^\
     %token A B %left A %start s %% s: {}#%left B %%~A%10 B%20 >0:s0|1.0;^\
     %token A \"a\" %left b \"a\" %right c %start s %% s: \"a\" {} %prec c | A {} %prec A | {} %prec b~\
     A%10 >0:s0|1.0 t0%11|1.1 t0%10|1.2%10;^\
     %token A %start s %% s: {} %prec A~A >0:s0|1.0-;^\
     %token A %start s %% s: A {} %prec A#%% t: {} %prec y~L y^\
     %start s %% s: {} %prec y#%left y %%~>0:s0|1.0%20;^\
     %start s %% s: {} %prec y | error {}~error^\
     %start s %% s: {} p(error): error {}~error^\
     %start s %% s: {} p(error): {}~>0:s0|1.0;p1|1.1;^\
     %start s %% s: p(error) {} p(x): x {}~error^\
     %start s %% s: error {} error: {}~error^\
     %start s %on_error_reduce error %% s: {} error: {}~>0<r1:s0|1.0;error0|1.1;^\
     %token A %start s %% s: p(A) {} p(A): A {}~A >0:s0|1.0 r1(t0);p1|1.1 f0;^\
     %start s %% s: {}#%% s: {} t: s {}~>0:s0|1.0|2.0;t0|2.1 r0;^\
     %start s t s %% t: s {} s: p(t, p(s)) {} p(x): x(x) {} | {}~\
     >1>0:t0|1.0 r1;s0|1.1 r2(r0r2(r1));p1|1.2 f0(f0)|1.3;^\
     %start s %on_error_reduce s t %on_error_reduce t %% s: {} t: {}~>0<r0r1<r1:s0|1.0;t0|1.1;^\
     %start s %token A %% s: b {} b: A {}#%token B A %% b: B {} s: b A {}~\
     A B >0:s0|1.0 r1|2.1 r2 t0;b@10|1.1 t0;b@20|2.0 t1;^\
     %start s %% s: b {} %public b: {}#%% b: s {}#%% %public b: {} b: {}~\
     >0:s0|1.0 r1;b0|1.1|3.0|3.1;b@20|2.0 r0;^\
     %start s %% s: x {}#%start q %%~U x^\
     %token A \"a\" B \"a\" %start s %% s: {}#%% A: {}~D A^\
     %token A \"a\" B \"a\" %start s %% s: {} b: {} b: {}~D a^\
     %start s %% s: {} p(x, x): {}#%% b: {} b: {}~D b^\
     %left x %right x %start s %% s: {} %public b: {} b(y): {}~D b^\
     %start s %%#%% s: {} s: {}~>0:s0|2.0|2.1;^\
     %start s %left \"a\" %% s: \"a\" {}#%token A \"a\" %%~A%10 >0:s0|1.0 t0;"
}

/// Grammar files with the prelude. The rules of the prelude come after those of the files: `option` is the first of
/// them, `list` and `nonempty_list` are the tenth and the eleventh.
fn cases_with_prelude() -> &'static str {
    "%token A %start s %% s: A? A* A+ {}~A >0:s0|1.0 r1(t0) r10(t0) r11(t0);^\
     %start option %%~U option^\
     %start s %% s: optional {}~U optional^\
     %start s %% s: error? {}~error^\
     %token A %start s %% s: A? {} option(X): X {}~A >0:s0|1.0 r1(t0);option1|1.1 f0;option@01|0.0|0.1 f0;^\
     %token A %start s %% s: A? {}#%% option(X): X X {}~\
     A >0:s0|1.0 r2(t0);option1|2.0 f0 f0;option@01|0.0|0.1 f0;^\
     %token A %start s %% s: A? {}#%% %public option(X): X {}~\
     A >0:s0|1.0 r1(t0);option1|2.0 f0;option@01|0.0|0.1 f0;^\
     %token A %start s %% s: A* {} %public list(X): X {}~\
     A >0:s0|1.0 r1(t0);list1|1.1 f0;list@01|0.13|0.14 f0 r11(f0);^\
     %start s %% s: {} %public pair: {}~>0:s0|1.0;pair0|1.1;pair@0!2|0.8 f0 f1;^\
     %token X Y EOF %start main %% main: unit nonempty_list(item) EOF {} %public item: X {} unit: {}\
     #%% %public item: Y {} unit: Y {}~\
     X Y EOF >0:main0|1.0 r2 r14(r1) t2;item0|1.1 t0|2.0 t1;unit@10|1.2;unit@20|2.1 t1;^\
     %% s: {}~no start^\
     %start s %% s: {} list(X): {} list(X): {}~D list^\
     %start s %% s: {} %public list(X): X {}#%% %public list: {}~D list^\
     %start s %% s: {} %prec option~L option^\
     %token X %start s %% s: {} option(Y): Y {}~X >0:s0|1.0;option1|1.1 f0;option@01|0.0|0.1 f0;"
}

/// Appends the joined rules of files, or their fault.
pub fn put_joined(
    alloc: Global,
    text: &mut Vec<u8>,
    files: &str,
    prelude: bool,
) -> Result<(), Fail> {
    let modules = modules_of(alloc, files)?;
    push_answer(alloc, text, modules.as_slice(), prelude);
    drop(modules);
    Ok(())
}

fn check_answer(alloc: Global, modules: &[Module]) -> Result<(), Fail>
    requires { AreModulesReady modules.now }
{
    let joined = join(alloc, modules, false)?;
    is_one_joined(false, modules, &joined, &joined);
    joined_excludes_fault(false, modules, &joined, &JoinFault::Memory);
    drop(joined);
    Ok(())
}

fn check_one_answer(alloc: Global) -> Result<(), Fail> {
    let modules = modules_of(alloc, "%start s %% s: {}")?;
    let result = check_answer(alloc, modules.as_slice());
    drop(modules);
    result
}

fn check_fault(alloc: Global, modules: &[Module]) -> Result<(), Fail>
    requires { AreModulesReady modules.now }
{
    match join(alloc, modules, false) {
        Ok(joined) => {
            drop(joined);
            Err(Fail::from("no fault"))
        }
        Err(fault) => {
            is_one_fault(false, modules, &fault, &fault);
            let is_no_start = fault == JoinFault::NoStart;
            drop(fault);
            if is_no_start {
                Ok(())
            } else {
                Err(Fail::from("another fault"))
            }
        }
    }
}

fn check_one_fault(alloc: Global) -> Result<(), Fail> {
    let modules = modules_of(alloc, "%% s: {}")?;
    let result = check_fault(alloc, modules.as_slice());
    drop(modules);
    result
}

/// Appends the declaration of 512 tokens, and a text.
fn push_tokens(texts: &mut String, more: &str) {
    let _ = texts.push_str("%token");
    for first in 'A'..='P' {
        for second in 'a'..='p' {
            let _ = write!(texts, " {first}{second} {first}{second}_");
        }
    }
    let _ = texts.push_str(more);
}

/// A text after the declaration of 512 tokens, the number of bytes of the result, and the end of the result; `~` is
/// between these three, and `^` between cases.
const COUNTS: &str = " %start s %% s: {}~1802~Pp_ >0:s0|1.0;^\
     \x20Z %start s %% s: {}~12~too many 513^\
     \x20Z Aa Z Y %start s %% s: {}~12~too many 514^\
     \x20%start s %% s: {}#%token Pp_ Aa %%~1802~Pp_ >0:s0|1.0;^\
     \x20%start s %% s: {}#%token Pp_ Z Aa %%~12~too many 513^\
     \x20Z %start s %% s: {} %prec y~3~L y";

/// Fails if the joined rules of 512 tokens and a text are not the wanted ones.
fn check_after(alloc: Global, more: &str, wanted: &Wanted) -> Result<(), Fail> {
    let mut files = String::new(alloc);
    push_tokens(&mut files, more);
    check_built(alloc, &Subject::Joined(false), files, wanted)
}

fn check_count(alloc: Global, case: &str) -> Result<(), Fail> {
    let mut parts = case.split('~');
    let more = parts.next().unwrap_or("");
    let length = parts.next().unwrap_or("").parse().unwrap_or(0);
    let end = parts.next().unwrap_or("another end");
    check_after(alloc, more, &Wanted::Ends(length, "", end))
}

/// Each of the 256 pairs of tokens takes 7 bytes of the result.
fn check_counts(alloc: Global) -> Result<(), Fail> {
    for case in COUNTS.split('^') {
        check_count(alloc, case)?;
    }
    Ok(())
}

/// The prelude as a grammar file.
fn prelude_text() -> &'static str {
    "%%\n\
     %public option(X): {} | X {}\n\
     %public %inline ioption(X): {} | X {}\n\
     %public boption(X): {} | X {}\n\
     %public loption(X): {} | X {}\n\
     %public %inline pair(X, Y): X Y {}\n\
     %public %inline separated_pair(X, sep, Y): X sep Y {}\n\
     %public %inline preceded(opening, X): opening X {}\n\
     %public %inline terminated(X, closing): X closing {}\n\
     %public %inline delimited(opening, X, closing): opening X closing {}\n\
     %public list(X): {} | X list(X) {}\n\
     %public nonempty_list(X): X {} | X nonempty_list(X) {}\n\
     %public %inline separated_list(separator, X):\n\
     \x20 loption(separated_nonempty_list(separator, X)) {}\n\
     %public separated_nonempty_list(separator, X):\n\
     \x20 X {} | X separator separated_nonempty_list(separator, X) {}\n\
     %public %inline rev(XS): XS {}\n\
     %public %inline flatten(XSS): XSS {}\n\
     %public %inline append(XS, YS): XS YS {}\n\
     %public %inline endrule(X): X {}\n\
     %public midrule(X): X {}\n"
}

fn push_reference(out: &mut Vec<u8>, reference: &Ref) {
    match reference {
        Ref::Plain(name) => put(out, name.as_slice()),
        Ref::Alias(alias) => {
            put(out, b"\"");
            put(out, alias.as_slice());
        }
    }
}

fn push_actual(out: &mut Vec<u8>, actual: &Actual) {
    push_reference(out, &actual.head);
    put(out, b"(");
    for arg in actual.args.as_slice() {
        push_actual(out, arg);
    }
    put(out, b")");
}

fn push_source_alternative(out: &mut Vec<u8>, alternative: &Alternative) {
    put(out, b"|");
    for producer in alternative.producers.as_slice() {
        push_actual(out, producer);
    }
    if let Some(reference) = &alternative.prec {
        put(out, b"%");
        push_reference(out, reference);
    }
}

/// Appends all parts of a rule, each with a separator.
fn push_source(out: &mut Vec<u8>, rule: &Rule) {
    put(out, if rule.public { b"p" } else { b"o" });
    put(out, if rule.inlined { b"i" } else { b"o" });
    put(out, rule.name.as_slice());
    for formal in rule.formals.as_slice() {
        put(out, b",");
        put(out, formal.as_slice());
    }
    for alternative in rule.alternatives.as_slice() {
        push_source_alternative(out, alternative);
    }
    put(out, b";");
}

fn sources(alloc: Global, rules: &[Rule]) -> Vec<u8> {
    let mut out = Vec::new(alloc);
    for rule in rules {
        push_source(&mut out, rule);
    }
    out
}

fn are_same(alloc: Global, found: &[Rule], rules: &[Rule]) -> bool {
    let sources_of_found = sources(alloc, found);
    let sources_of_rules = sources(alloc, rules);
    let are_same = sources_of_found == sources_of_rules;
    drop(sources_of_found);
    drop(sources_of_rules);
    are_same
}

/// Returns true if a module has no declarations, and has exactly the rules of the prelude.
fn is_prelude(alloc: Global, found: &Module) -> bool {
    let has_no_tokens = found.tokens.is_empty() & found.starts.is_empty();
    let has_no_levels = found.levels.is_empty() & found.on_error.is_empty();
    match prelude_rules(alloc, true) {
        Ok(rules) => {
            let has_rules = rules.len() == 18
                && are_same(alloc, found.rules.as_slice(), rules.as_slice());
            drop(rules);
            has_rules & has_no_tokens & has_no_levels
        }
        Err(_) => false,
    }
}

fn check_prelude(alloc: Global) -> Result<(), Fail> {
    let modules = modules_of(alloc, prelude_text())?;
    let is_prelude = match modules.as_slice() {
        [found] => is_prelude(alloc, found),
        _ => false,
    };
    drop(modules);
    if is_prelude {
        Ok(())
    } else {
        Err(Fail::from("another prelude"))
    }
}

#[test]
fn joined(rt: HostRuntime) -> Result<(), Fail> {
    let alloc = rt.alloc();
    check_cases(alloc, &Subject::Joined(false), cases(), 65)?;
    check_cases(alloc, &Subject::Joined(true), cases_with_prelude(), 15)?;
    check_one_answer(alloc)?;
    check_one_fault(alloc)?;
    check_counts(alloc)?;
    check_prelude(alloc)
}
