//! From the text of a grammar file to the verdict on a sentence: the values of each stage, and the verdicts.
ghost use Rattle.mh_rules.specs.Ready.{IsModuleReady};

use crate::making::{A, EOF, can_run, expanded_of, grammar_of, joined_of, module_of};
use mh_expand::{Expanded, Instance, InstanceProduction, Part};
use mh_grammar::{Assoc, Grammar, Level, NontermInfo, Production, Symbol, Token, TokenInfo};
use mh_join::{Applied, Head, Joined, JoinedAlternative, JoinedRule, Prec};
use mh_lex::{Kind, Lexeme, PlacedFault, SyntaxFault, lex, lex_placed};
use mh_reader::{
    Actual, Alternative, LevelDecl, Module, Ref, Role, Rule, TokenDecl, print_module, read_placed,
};
use mh_run::{Verdict, trace, verdict};
use mh_tables::Halting;
use mh_worked_files::ONE_SENTENCE;
use std::alloc::Global;
use std::process::Abort;
use std::test::Fail;

/// The verdict on a sentence.
fn verdict_on(alloc: Global, table: &Halting, sentence: &[Token]) -> Result<Verdict, Fail> {
    if !can_run(table, sentence) {
        return Err(Fail::from("not a token of the table"));
    }
    Ok(verdict(alloc, table, 0, sentence)?)
}

/// A sentence is accepted, ends too early, or is refused at a token.
pub fn verdicts(rt: &impl Abort, alloc: Global, table: &Halting) -> Result<(), Fail> {
    let found = [
        verdict_on(alloc, table, &[A, EOF])?,
        verdict_on(alloc, table, &[A])?,
        verdict_on(alloc, table, &[A, A])?,
        verdict_on(alloc, table, &[EOF])?,
        verdict_on(alloc, table, &[A, EOF, A])?,
    ];
    let wanted = [
        Verdict::Accept { read: 2 },
        Verdict::Overshoot { state: 1 },
        Verdict::Reject { at: 1, state: 1 },
        Verdict::Reject { at: 0, state: 0 },
        Verdict::Accept { read: 2 },
    ];
    assert!(rt; found == wanted);
    Ok(())
}

/// A trace also has the productions that were reduced after the last shift. Production 0 is the start production, and
/// production 1 is `s -> A EOF`.
pub fn traces(rt: &impl Abort, alloc: Global, table: &Halting) -> Result<(), Fail> {
    let sentence = [A, EOF];
    if !can_run(table, &sentence) {
        return Err(Fail::from("not a token of the table"));
    }
    let (verdict, reduced) = trace(alloc, table, 0, &sentence)?;
    assert!(rt; verdict == Verdict::Accept { read: 2 } && reduced.as_slice() == [1].as_slice());
    drop(reduced);
    Ok(())
}

/// The first lexemes are the keyword `%token` and the words `A` and `EOF`, each with its place in the text.
#[test]
fn lexemes(rt: HostRuntime) -> Result<(), Fail> {
    let Ok(lexemes) = lex(rt.alloc(), b"%token A EOF\n") else {
        return Err(Fail::from("no lexemes"));
    };
    let [keyword, first, second]: &[Lexeme] = lexemes.as_slice() else {
        return Err(Fail::from("three lexemes"));
    };
    assert!(rt; keyword.kind == Kind::Keyword && first.kind == Kind::Word);
    assert!(rt; (second.start, second.end) == (9, 12));
    drop(lexemes);
    let has_no_end = matches!(
        lex(rt.alloc(), b"\n/* no end"),
        Err(SyntaxFault::Syntax { line: 2 })
    );
    assert!(rt; has_no_end);
    let ends_at = matches!(
        lex_placed(rt.alloc(), b"\n/* no end"),
        Err(PlacedFault::Syntax { place: 1 })
    );
    assert!(rt; ends_at);
    Ok(())
}

/// Each name in a grammar file has a place, the position where it begins in the text: here those of the token and of
/// the rule.
#[test]
fn places(rt: HostRuntime) -> Result<(), Fail> {
    let Ok(found) = read_placed(rt.alloc(), b"%token A\n%%\ns: {}") else {
        return Err(Fail::from("no module"));
    };
    let starts = match found.mentions.as_slice() {
        [token, rule] => (token.start, rule.start, rule.role == Role::Rule),
        _ => (0, 0, false),
    };
    drop(found);
    assert!(rt; starts == (7, 12, true));
    Ok(())
}

/// A module is a value of plain types, and can be printed as a file that spells the same module.
fn check_module(rt: &impl Abort, alloc: Global, module: &Module) -> Result<(), Fail>
    requires { IsModuleReady «module».now }
{
    let counts = [
        module.tokens.len(),
        module.starts.len(),
        module.levels.len(),
        module.on_error.len(),
        module.rules.len(),
    ];
    assert!(rt; counts == [2, 1, 0, 0, 1]);
    let token: &TokenDecl = module.tokens.get(1).ok_or("no second token")?;
    assert!(rt; token.name.as_slice() == "EOF".as_bytes() && token.alias.is_none());
    check_rule(rt, module)?;
    let text = print_module(alloc, module)?;
    let again = module_of(alloc, str::from_utf8(&text)?);
    drop(text);
    let again = again?;
    assert!(rt; again.rules.len() == 1 && again.tokens.len() == 2);
    drop(again);
    Ok(())
}

/// The rule `s` has one alternative, whose producers name A and EOF.
fn check_rule(rt: &impl Abort, module: &Module) -> Result<(), Fail> {
    let rule: &Rule = module.rules.get(0).ok_or("no rule")?;
    let alternative: &Alternative = rule.alternatives.get(0).ok_or("no alternative")?;
    let producer: &Actual = alternative.producers.get(1).ok_or("no second producer")?;
    assert!(rt; rule.name.as_slice() == "s".as_bytes() && !rule.public && !rule.inlined);
    assert!(rt; alternative.prec.is_none() && producer.args.is_empty());
    match &producer.head {
        Ref::Plain(name) => assert!(rt; name.as_slice() == "EOF".as_bytes()),
        Ref::Alias(_) => return Err(Fail::from("a name, and no string")),
    }
    Ok(())
}

#[test]
fn a_file_is_a_module(rt: HostRuntime) -> Result<(), Fail> {
    let module = module_of(rt.alloc(), ONE_SENTENCE)?;
    let result = check_module(&rt, rt.alloc(), &module);
    drop(module);
    result
}

/// The rule has one alternative, whose second producer is the token EOF.
fn check_joined(rt: &impl Abort, joined: &Joined) -> Result<(), Fail> {
    let rule: &JoinedRule = joined.rules.get(0).ok_or("no rule")?;
    let alternative: &JoinedAlternative = rule.alternatives.get(0).ok_or("no alternative")?;
    let producer: &Applied = alternative.producers.get(1).ok_or("no second producer")?;
    let is_eof = matches!(producer.head, Head::Token(EOF)) && producer.args.is_empty();
    assert!(rt; is_eof && matches!(alternative.prec, Prec::Absent) && rule.formals == 0);
    assert!(rt; joined.tokens.len() == 2 && joined.starts.len() == 1 && joined.rules.len() == 1);
    Ok(())
}

/// A module is joined, and its tokens and rules get numbers.
#[test]
fn a_module_is_joined(rt: HostRuntime) -> Result<(), Fail> {
    let joined = joined_of(rt.alloc(), ONE_SENTENCE)?;
    let result = check_joined(&rt, &joined);
    drop(joined);
    result
}

/// The only instance is the rule itself. A producer is a token or an instance.
fn check_expanded(rt: &impl Abort, expanded: &Expanded) -> Result<(), Fail> {
    let instance: &Instance = expanded.instances.get(0).ok_or("no instance")?;
    let production: &InstanceProduction = instance.productions.get(0).ok_or("no production")?;
    let is_eof = matches!(production.rhs.get(1), Some(Part::Token(EOF)));
    assert!(rt; is_eof && instance.name.as_slice() == "s".as_bytes() && !instance.inlined);
    assert!(rt;
        expanded.tokens.len() == 2 && expanded.starts.len() == 1 && expanded.instances.len() == 1
    );
    Ok(())
}

/// Joined rules are expanded to instances.
#[test]
fn joined_rules_are_expanded(rt: HostRuntime) -> Result<(), Fail> {
    let expanded = expanded_of(rt.alloc(), ONE_SENTENCE)?;
    let result = check_expanded(&rt, &expanded);
    drop(expanded);
    result
}

/// The grammar in numbers: production 1 is `s -> A EOF`, and is the first of the grammar's list, because production 0
/// is the start production.
fn check_grammar(rt: &impl Abort, grammar: &Grammar) -> Result<(), Fail> {
    let production: &Production = grammar.productions.get(0).ok_or("no production")?;
    let right = [Symbol::T(A), Symbol::T(EOF)];
    assert!(rt; production.lhs == 0 && production.rhs.as_slice() == right.as_slice());
    let token: &TokenInfo = grammar.tokens.get(1).ok_or("no second token")?;
    let nonterminal: &NontermInfo = grammar.nonterminals.get(0).ok_or("no nonterminal")?;
    assert!(rt;
        token.name.as_slice() == "EOF".as_bytes() && token.level.is_none() && token.cost == 1
    );
    assert!(rt; nonterminal.name.as_slice() == "s".as_bytes() && nonterminal.on_error.is_none());
    Ok(())
}

#[test]
fn instances_give_a_grammar(rt: HostRuntime) -> Result<(), Fail> {
    let grammar = grammar_of(rt.alloc(), ONE_SENTENCE)?;
    let result = check_grammar(&rt, &grammar);
    drop(grammar);
    result
}

/// The first level of a module makes the token A associate to the left.
fn check_levels(rt: &impl Abort, module: &Module) -> Result<(), Fail> {
    let level: &LevelDecl = module.levels.get(0).ok_or("no level")?;
    assert!(rt; level.assoc == Assoc::Left && level.names.len() == 1 && module.levels.len() == 2);
    Ok(())
}

/// The text of a file declares levels, from the lowest to the highest.
#[test]
fn levels_of_a_file(rt: HostRuntime) -> Result<(), Fail> {
    let module = module_of(rt.alloc(), WITH_LEVELS)?;
    let result = check_levels(&rt, &module);
    drop(module);
    result
}

/// A file with two levels.
const WITH_LEVELS: &str = "%token A B %left A %right B %start s %% s: A B {}";

/// A token has the level of its declaration.
#[test]
fn levels(rt: HostRuntime) -> Result<(), Fail> {
    let grammar = grammar_of(rt.alloc(), WITH_LEVELS)?;
    let level: Option<Level> = match grammar.tokens.get(1) {
        Some(token) => token.level,
        None => None,
    };
    drop(grammar);
    let assoc = match level {
        Some(level) => Some(level.assoc),
        None => None,
    };
    assert!(rt; assoc == Some(Assoc::Right));
    Ok(())
}
