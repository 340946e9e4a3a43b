//! Grammar files and the instances of their rules, worked out by hand.
ghost use Rattle.std.specs.Prelude.{IfOk};
ghost use Rattle.mh_rules.specs.Ready.{IsJoinedReady};
ghost use Rattle.mh_expand.specs.Expansion.{IsFirstFault};

use crate::cases::{
    Subject, Wanted, check_answer, check_built, check_cases, joined_of, push_digit, push_named,
    push_prec,
};
use crate::filling::put;
use mh_expand::{
    ExpandFault, Expanded, Instance, InstanceProduction, Part, expand, is_one_expansion,
    is_one_fault,
};
use mh_join::Joined;
use std::alloc::Global;
use std::test::Fail;

fn push_part(out: &mut Vec<u8>, part: Part) {
    let (kind, number) = match part {
        Part::Token(number) => (b"t", u64::from(number)),
        Part::Instance(number) => (b"i", u64::from(number)),
    };
    put(out, kind);
    push_digit(out, number);
}

fn push_production(out: &mut Vec<u8>, production: &InstanceProduction) {
    put(out, b"|");
    push_digit(out, production.file);
    put(out, b".");
    push_digit(out, production.place);
    for part in production.rhs.as_slice() {
        put(out, b" ");
        push_part(out, *part);
    }
    push_prec(out, production.prec);
}

fn push_instance(out: &mut Vec<u8>, instance: &Instance) {
    put(out, instance.name.as_slice());
    if instance.inlined {
        put(out, b"!");
    }
    if let Some(rank) = instance.on_error {
        put(out, b"<");
        push_digit(out, rank);
    }
    for production in instance.productions.as_slice() {
        push_production(out, production);
    }
    put(out, b";");
}

/// Appends the starts and the instances in a short notation.
fn push_expanded(out: &mut Vec<u8>, expanded: &Expanded) {
    for start in expanded.starts.as_slice() {
        put(out, b">");
        push_digit(out, u64::from(*start));
    }
    put(out, b":");
    for instance in expanded.instances.as_slice() {
        push_instance(out, instance);
    }
}

fn push_fault(out: &mut Vec<u8>, fault: &ExpandFault) {
    match fault {
        ExpandFault::Arity { instance } => push_named(out, b'A', instance),
        ExpandFault::Expansion { name } => push_named(out, b'E', name),
        ExpandFault::Memory => put(out, b"memory"),
    }
}

/// Appends the instances of the rules, or their fault.
fn push_answer(alloc: Global, out: &mut Vec<u8>, joined: &Joined)
    requires { IsJoinedReady joined.now }
{
    match expand(alloc, joined) {
        Ok(expanded) => {
            push_expanded(out, &expanded);
            drop(expanded);
        }
        Err(fault) => {
            push_fault(out, &fault);
            drop(fault);
        }
    }
}

/// Grammar files and their instances.
///
/// A fault is `A INSTANCE` (a wrong number of arguments) or `E NAME` (endless expansion). Otherwise the result is `>`
/// and the instance of each start symbol, `:`, and each instance followed by `;`. An instance is its printed name, `!`
/// if it is inline, `<` and its rank if an on-error declaration names it, and each alternative as `|FILE.PLACE`, its
/// producers (a token `t0`, an instance `i0`), and the level of its `%prec`. A level is `%`, its file and its rank; `-`
/// is a `%prec` without a level.
///
/// In the last three files the expansion has no end. The name of `p` with k options around A has 8k + 4 bytes. If the
/// name of an argument has n bytes, the name of the next argument has 2n + 4, so the ninth is the first with more than
/// 1,000. The names of `t` have at most 46 bytes: k letters `a` or `b` around A make 3k + 4, and 2^(k + 1) instances
/// have at most k letters, the start among them, so the 20,001st has k = 14.
fn cases() -> &'static str {
    "%token A B EOF %start s %% s: option(A) option(B) option(A) EOF {} option(x): {} | x {}~\
     >0:s|1.0 i1 i2 i1 t2;option(A)|1.1|1.2 t0;option(B)|1.1|1.2 t1;^\
     %token A B %start s %% s: p q {} p: r {} q: A {} r: B {}~\
     >0:s|1.0 i1 i2;p|1.1 i3;q|1.2 t0;r|1.3 t1;^\
     %token A B %start s %% s: twice(pair(A)) {} twice(f): f(B) {} pair(x, y): x y {}~\
     >0:s|1.0 i1;twice(pair(A))|1.1 i2;pair(A,B)|1.2 t0 t1;^\
     %token A B %start s %on_error_reduce B %on_error_reduce option(B) option(A) \
     %on_error_reduce option(A) %% s: option(A) {} option(x): {} | x {}~\
     >0:s|1.0 i1;option(A)<1|1.1|1.2 t0;^\
     %token A %left A %start s t %% t: x s {} %inline x: A {} | {} %prec A s: A {} u: t {}~\
     >0>1:s|1.3 t0;t|1.0 i2 i0;x!|1.1 t0|1.2%10;^\
     %start s %% s: option {} option(x): {}~A option^\
     %token A B EOF %start s %% s: A(B, EOF) {}~A A(B,EOF)^\
     %start s %% s(x): {}~A s^\
     %token A %start s %% s: p(A) q {} p(x): x(x) {} q(x): {}~A q^\
     %token A %start s %on_error_reduce option %% s: option(A) {} option(x): {}~>0:s|1.0 i1;option(A)|1.1;^\
     %token A %start s %% s: p(A) {} p(x): x {} | p(option(x)) {} option(x): {} | x {}~E p^\
     %token A %start s %% s: a(A) {} a(x): b(p(x, x)) {} b(x): c(p(x, x)) {} c(x): d(p(x, x)) {} \
     d(x): e(p(x, x)) {} e(x): f(p(x, x)) {} f(x): g(p(x, x)) {} g(x): h(p(x, x)) {} \
     h(x): i(p(x, x)) {} i(x): {} p(x, y): {}~E i^\
     %token A %start s %% s: t(A) {} t(x): t(a(x)) t(b(x)) {} a(x): {} b(x): {}~E t"
}

/// Appends the instances of the rules of a file, or their fault.
pub fn put_instances(alloc: Global, text: &mut Vec<u8>, file: &str) -> Result<(), Fail> {
    let joined = joined_of(alloc, file, false)?;
    push_answer(alloc, text, &joined);
    drop(joined);
    Ok(())
}

/// A grammar file whose only rule has a name of `count` letters.
fn file_of_letters(alloc: Global, count: usize) -> String {
    let mut file = String::new(alloc);
    let _ = file.push_str("%start ");
    push_letters(&mut file, count);
    let _ = file.push_str(" %% ");
    push_letters(&mut file, count);
    let _ = file.push_str(": {}");
    file
}

fn push_letters(file: &mut String, count: usize) {
    for _ in 0..count {
        let _ = file.push('s');
    }
}

fn check_letters(alloc: Global, count: usize, length: usize, front: &str) -> Result<(), Fail> {
    let file = file_of_letters(alloc, count);
    check_built(
        alloc,
        &Subject::Instances,
        file,
        &Wanted::Ends(length, front, ""),
    )
}

/// The term with eight nested pairs has 1,276 bytes, and `i` has one argument too few. The wrong number of arguments is
/// reported before the endless expansion.
fn check_arity_before_expansion(alloc: Global) -> Result<(), Fail> {
    let text = "%token A %start s %% s: a(A) {} a(x): b(p(x, x)) {} b(x): c(p(x, x)) {} \
                c(x): d(p(x, x)) {} d(x): e(p(x, x)) {} e(x): f(p(x, x)) {} f(x): g(p(x, x)) {} \
                g(x): h(p(x, x)) {} h(x): i(p(x, x)) {} i(x, y): {} p(x, y): {}";
    let (front, end) = ("A i(p(p(p(p(p(p(p(p(A,A),p(A,A)),", "p(A,A)))))))))");
    let wanted = Wanted::Ends(1276 + 5, front, end);
    check_answer(alloc, &Subject::Instances, text, &wanted)
}

fn check_expansion(alloc: Global, joined: &Joined) -> Result<(), Fail>
    requires { IsJoinedReady joined.now }
{
    let expanded = expand(alloc, joined)?;
    is_one_expansion(joined, &expanded, &expanded);
    drop(expanded);
    Ok(())
}

fn check_one_expansion(alloc: Global) -> Result<(), Fail> {
    let joined = joined_of(alloc, "%token A %start s %% s: A {}", false)?;
    let result = check_expansion(alloc, &joined);
    drop(joined);
    result
}

/// The fault of rules with a wrong number of arguments.
fn arity_of(alloc: Global, joined: &Joined) -> Result<ExpandFault, Fail>
    requires { IsJoinedReady joined.now }
    ensures { IfOk result (IsFirstFault joined.now) }
{
    let Err(ExpandFault::Arity { instance }) = expand(alloc, joined) else {
        return Err("no fault".into());
    };
    Ok(ExpandFault::Arity { instance })
}

fn check_fault(alloc: Global, joined: &Joined) -> Result<(), Fail>
    requires { IsJoinedReady joined.now }
{
    let fault = arity_of(alloc, joined)?;
    is_one_fault(joined, &fault, &fault);
    drop(fault);
    Ok(())
}

fn check_one_fault(alloc: Global) -> Result<(), Fail> {
    let joined = joined_of(alloc, "%start s %% s(x): {}", false)?;
    let result = check_fault(alloc, &joined);
    drop(joined);
    result
}

#[test]
fn instances(rt: HostRuntime) -> Result<(), Fail> {
    let alloc = rt.alloc();
    check_cases(alloc, &Subject::Instances, cases(), 13)?;
    check_letters(alloc, 1000, 1008, ">0:s")?;
    check_letters(alloc, 1001, 1003, "E s")?;
    check_arity_before_expansion(alloc)?;
    check_one_expansion(alloc)?;
    check_one_fault(alloc)
}
