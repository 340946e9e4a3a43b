//! The parser's steps in rules, apart from their actuals.
ghost use Rattle.std.specs.Prelude.{◌≡◌, ◌∷◌, ◌++◌, [], IfOk, OnOk, Some, None, map};
ghost use Rattle.mh_reader_parser.specs.Spelling.{ref_by, with_prec};
ghost use Rattle.mh_reader_parser.specs.code.ParserSteps as machine;
ghost use Rattle.mh_reader_parser.specs.code.ParserSteps.{AgreesWithStep, with_rule, with_productions, with_productions_of_prec, with_production, new_draft, named, with_formal};

use crate::parser_states::{
    ActualPurpose, ParseFault, Parser, ParserState, RuleDraft, go_to, no_memory, unexpected,
};
use crate::stack::Stack;
use crate::token_kinds::TokenKind;
use mh_grammar::{Memory, Name, Sequence, from_bytes, lost};
use mh_rules::{Alternative, Module, Ref, Rule};
use std::alloc::Global;
use std::mem;

/// The greatest number of items that are moved to a list of their own.
const MOST_MOVED: usize = 16;

/// Converts a word or a string to a reference to a symbol.
pub(crate) fn reference(alloc: Global, sign: TokenKind, text: &[u8]) -> Result<Ref, ParseFault>
    ensures { AgreesWithStep (ref_by sign text.now) result }
{
    let name = from_bytes(alloc, text)?;
    match sign {
        TokenKind::Word => Ok(Ref::Plain(name)),
        TokenKind::Quoted => Ok(Ref::Alias(name)),
        _ => unexpected(name),
    }
}

/// Takes the name of a rule.
fn name_rule(
    alloc: Global,
    made: Module,
    public: bool,
    inlined: bool,
    text: &[u8],
) -> Result<Parser, ParseFault>
    ensures { AgreesWithStep (machine.continues made (machine.state_after_name public inlined text.now)) result }
{
    match from_bytes(alloc, text) {
        Ok(name) => go_to(
            made,
            ParserState::RuleNamed(Rule {
                public,
                inlined,
                name,
                formals: Sequence::new(alloc),
                alternatives: Sequence::new(alloc),
            }),
        ),
        Err(_) => no_memory(made),
    }
}

/// Takes the first lexeme of a rule, or the second `%%`.
pub(crate) fn in_rules(
    alloc: Global,
    made: Module,
    sign: TokenKind,
    text: &[u8],
) -> Result<Parser, ParseFault>
    ensures { AgreesWithStep (machine.in_rules made sign text.now) result }
{
    match sign {
        TokenKind::Percents => go_to(made, ParserState::Ended),
        _ => at_modified(alloc, made, false, false, sign, text),
    }
}

/// Takes a lexeme after modifiers.
pub(crate) fn at_modified(
    alloc: Global,
    made: Module,
    public: bool,
    inlined: bool,
    sign: TokenKind,
    text: &[u8],
) -> Result<Parser, ParseFault>
    ensures { AgreesWithStep (machine.at_modified made public inlined sign text.now) result }
{
    match sign {
        TokenKind::Word => name_rule(alloc, made, public, inlined, text),
        TokenKind::Public => go_to(made, ParserState::Modified(true, inlined)),
        TokenKind::Inline => go_to(made, ParserState::Modified(public, true)),
        _ => unexpected(made),
    }
}

/// Takes a lexeme after the name of a rule.
pub(crate) fn at_rule_named(made: Module, rule: Rule, sign: TokenKind) -> Result<Parser, ParseFault>
    ensures { AgreesWithStep (machine.at_rule_named made rule sign) result }
{
    match sign {
        TokenKind::Open => go_to(made, ParserState::FormalsOpen(rule)),
        TokenKind::Colon => go_to(made, ParserState::Begin(rule)),
        _ => unexpected((made, rule)),
    }
}

/// Adds a formal to a rule.
fn push_formal(alloc: Global, rule: &mut Rule, text: &[u8]) -> Result<(), Memory>
    ensures { OnOk result (rule.new ≡ with_formal rule.old text.now) }
{
    let name = from_bytes(alloc, text)?;
    rule.formals.push(name)?;
    Ok(())
}

/// Takes a formal of a rule.
fn add_formal(
    alloc: Global,
    made: Module,
    mut rule: Rule,
    text: &[u8],
) -> Result<Parser, ParseFault>
    ensures { AgreesWithStep (machine.continues made (machine.state_after_formal rule text.now)) result }
{
    match push_formal(alloc, &mut rule, text) {
        Ok(()) => go_to(made, ParserState::FormalRead(rule)),
        Err(_) => no_memory((made, rule)),
    }
}

/// Takes a lexeme after the opening bracket of formals.
pub(crate) fn at_formals_open(
    alloc: Global,
    made: Module,
    rule: Rule,
    sign: TokenKind,
    text: &[u8],
) -> Result<Parser, ParseFault>
    ensures { AgreesWithStep (machine.at_formals_open made rule sign text.now) result }
{
    match sign {
        TokenKind::Word => add_formal(alloc, made, rule, text),
        TokenKind::Close => go_to(made, ParserState::FormalsClosed(rule)),
        _ => unexpected((made, rule)),
    }
}

/// Takes a lexeme after a formal.
pub(crate) fn at_formal_read(
    made: Module,
    rule: Rule,
    sign: TokenKind,
) -> Result<Parser, ParseFault>
    ensures { AgreesWithStep (machine.at_formal_read made rule sign) result }
{
    match sign {
        TokenKind::Comma => go_to(made, ParserState::FormalComma(rule)),
        TokenKind::Close => go_to(made, ParserState::FormalsClosed(rule)),
        _ => unexpected((made, rule)),
    }
}

/// Takes a lexeme after a comma of formals.
pub(crate) fn at_formal_comma(
    alloc: Global,
    made: Module,
    rule: Rule,
    sign: TokenKind,
    text: &[u8],
) -> Result<Parser, ParseFault>
    ensures { AgreesWithStep (machine.at_formal_comma made rule sign text.now) result }
{
    match sign {
        TokenKind::Word => add_formal(alloc, made, rule, text),
        _ => unexpected((made, rule)),
    }
}

/// Takes a lexeme after the formals.
pub(crate) fn at_formals_closed(
    made: Module,
    rule: Rule,
    sign: TokenKind,
) -> Result<Parser, ParseFault>
    ensures { AgreesWithStep (machine.at_formals_closed made rule sign) result }
{
    match sign {
        TokenKind::Colon => go_to(made, ParserState::Begin(rule)),
        _ => unexpected((made, rule)),
    }
}

/// The draft at the beginning of a group.
fn draft_of(alloc: Global, rule: Rule) -> RuleDraft
    ensures { result ≡ new_draft rule }
{
    RuleDraft {
        rule,
        productions: Sequence::new(alloc),
        producers: Sequence::new(alloc),
    }
}

/// The same list, in memory for just its items.
pub(crate) fn fitted<T>(list: Sequence<T>) -> Sequence<T>
    ensures { result ≡ list }
{
    let mut items = list.into_vec();
    items.shrink_to_fit();
    Sequence::from_vec(items)
}

/// Takes the items out of a list. They take memory for themselves alone. The list keeps its own memory for the items
/// that come next, unless it has many items, since moving them would take memory twice.
fn taken<T: Drop>(alloc: Global, list: &mut Sequence<T>) -> Result<Sequence<T>, Memory>
    ensures items { IfOk result (λ items. items ≡ list.old) }
    ensures left { OnOk result (list.new ≡ []) }
{
    let mut all = mem::replace(list, Sequence::new(alloc)).into_vec();
    if all.len() > MOST_MOVED {
        return Ok(fitted(Sequence::from_vec(all)));
    }
    match moved(alloc, &mut all) {
        Ok(items) => {
            *list = Sequence::from_vec(all);
            Ok(items)
        }
        Err(_) => Err(lost(all)),
    }
}

/// Moves all items of a list to a new one, in memory for just these items.
fn moved<T: Drop>(alloc: Global, all: &mut Vec<T>) -> Result<Sequence<T>, Memory>
    ensures items { IfOk result (λ items. items ≡ all.old.items) }
    ensures left { OnOk result (all.new.items ≡ []) }
{
    let mut items = Vec::with_capacity(alloc, all.len())?;
    match items.append(all) {
        Ok(()) => Ok(Sequence::from_vec(items)),
        Err(_) => Err(lost(items)),
    }
}

/// Ends a production. Its producers take memory for themselves alone, since a file can have millions of productions.
fn put_production(alloc: Global, draft: &mut RuleDraft, prec: Option<Ref>) -> Result<(), Memory>
    ensures { OnOk result (draft.new ≡ with_production draft.old prec) }
{
    match taken(alloc, &mut draft.producers) {
        Ok(producers) => {
            draft.productions.push(Alternative { producers, prec })?;
            Ok(())
        }
        Err(_) => Err(lost(prec)),
    }
}

/// The draft after a production.
fn end_production(
    alloc: Global,
    mut draft: RuleDraft,
    prec: Option<Ref>,
) -> Result<RuleDraft, Memory>
    ensures { IfOk result (λ d. d ≡ with_production draft prec) }
{
    match put_production(alloc, &mut draft, prec) {
        Ok(()) => Ok(draft),
        Err(_) => Err(lost(draft)),
    }
}

/// Takes a lexeme after a production without a `%prec`. The lexemes that may follow a `%prec` may also follow this
/// production.
fn end_without_prec(
    alloc: Global,
    made: Module,
    draft: RuleDraft,
    sign: TokenKind,
) -> Result<Parser, ParseFault>
    ensures { AgreesWithStep (machine.after_prec made (with_production draft None) sign) result }
{
    match end_production(alloc, draft, None) {
        Ok(draft) => at_closed(made, draft, sign),
        Err(_) => no_memory(made),
    }
}

/// Takes a lexeme in a production.
pub(crate) fn in_production(
    alloc: Global,
    made: Module,
    draft: RuleDraft,
    sign: TokenKind,
    text: &[u8],
) -> Result<Parser, ParseFault>
    ensures { AgreesWithStep (machine.in_production made draft sign text.now) result }
{
    match sign {
        TokenKind::Word => match from_bytes(alloc, text) {
            Ok(name) => go_to(made, ParserState::Named(draft, name)),
            Err(_) => no_memory((made, draft)),
        },
        TokenKind::Quoted => match from_bytes(alloc, text) {
            Ok(name) => {
                let purpose = ActualPurpose::Producer(draft);
                let head = Ref::Alias(name);
                go_to(made, ParserState::Head(purpose, Stack::new(alloc), head))
            }
            Err(_) => no_memory((made, draft)),
        },
        TokenKind::Prec => go_to(made, ParserState::Prec(draft)),
        TokenKind::Bar | TokenKind::Action => end_without_prec(alloc, made, draft, sign),
        _ => unexpected((made, draft)),
    }
}

/// Takes a lexeme after the colon of a rule.
pub(crate) fn at_begin(
    alloc: Global,
    made: Module,
    rule: Rule,
    sign: TokenKind,
    text: &[u8],
) -> Result<Parser, ParseFault>
    ensures { AgreesWithStep (machine.at_begin made rule sign text.now) result }
{
    let begun = draft_of(alloc, rule);
    match sign {
        TokenKind::Bar => go_to(made, ParserState::Production(begun)),
        _ => in_production(alloc, made, begun, sign, text),
    }
}

/// Takes a lexeme after a producer.
pub(crate) fn at_spaced(
    alloc: Global,
    made: Module,
    draft: RuleDraft,
    sign: TokenKind,
    text: &[u8],
) -> Result<Parser, ParseFault>
    ensures { AgreesWithStep (machine.after_producer made draft sign text.now) result }
{
    match sign {
        TokenKind::Semicolon => go_to(made, ParserState::Spaced(draft)),
        _ => in_production(alloc, made, draft, sign, text),
    }
}

/// Takes the name after the `%prec` of a production.
pub(crate) fn at_prec(
    alloc: Global,
    made: Module,
    draft: RuleDraft,
    sign: TokenKind,
    text: &[u8],
) -> Result<Parser, ParseFault>
    ensures { AgreesWithStep (machine.at_prec made draft (ref_by sign text.now)) result }
{
    match reference(alloc, sign, text) {
        Ok(prec) => {
            match end_production(alloc, draft, Some(prec)) {
                Ok(draft) => go_to(made, ParserState::Closed(draft)),
                Err(_) => no_memory(made),
            }
        }
        Err(ParseFault::Unexpected) => unexpected((made, draft)),
        Err(ParseFault::Memory) => no_memory((made, draft)),
    }
}

/// The draft at the beginning of a production. The list of producers keeps its memory.
fn without_producers(draft: RuleDraft) -> RuleDraft
    ensures { result ≡ record draft { producers = [] } }
{
    let RuleDraft {
        rule,
        productions,
        producers,
    } = draft;
    let mut items = producers.into_vec();
    items.clear();
    RuleDraft {
        rule,
        productions,
        producers: Sequence::from_vec(items),
    }
}

/// Takes a lexeme after a production with a `%prec`.
pub(crate) fn at_closed(
    made: Module,
    draft: RuleDraft,
    sign: TokenKind,
) -> Result<Parser, ParseFault>
    ensures { AgreesWithStep (machine.after_prec made draft sign) result }
{
    match sign {
        TokenKind::Bar => go_to(made, ParserState::Production(without_producers(draft))),
        TokenKind::Action => go_to(made, ParserState::Group(draft)),
        _ => unexpected((made, draft)),
    }
}

/// Appends alternatives. The alternatives of a rule's first group are not copied.
fn joined(
    all: Sequence<Alternative>,
    more: Sequence<Alternative>,
) -> Result<Sequence<Alternative>, Memory>
    ensures { IfOk result (λ s. s ≡ all ++ more) }
{
    if all.is_empty() {
        drop(all);
        return Ok(more);
    }
    let mut items = all.into_vec();
    let mut last = more.into_vec();
    match items.append(&mut last) {
        Ok(()) => {
            drop(last);
            Ok(Sequence::from_vec(items))
        }
        Err(_) => Err(lost((items, last))),
    }
}

/// The rule with a group of these productions.
fn with_group(rule: Rule, productions: Sequence<Alternative>) -> Result<Rule, Memory>
    ensures { IfOk result (λ r. r ≡ record rule { alternatives = rule.alternatives ++ productions }) }
{
    match joined(rule.alternatives, productions) {
        Ok(alternatives) => Ok(Rule {
            public: rule.public,
            inlined: rule.inlined,
            name: rule.name,
            formals: rule.formals,
            alternatives,
        }),
        Err(_) => Err(lost((rule.name, rule.formals))),
    }
}

/// The rule with the group of the draft. It fails only for lack of memory.
pub(crate) fn group_of(draft: RuleDraft) -> Result<Rule, Memory>
    ensures { IfOk result (λ r. r ≡ with_productions draft) }
{
    drop(draft.producers);
    with_group(draft.rule, draft.productions)
}

/// The same rule. Its alternatives take memory for themselves alone.
fn fitted_rule(rule: Rule) -> Rule
    ensures { result ≡ rule }
{
    Rule {
        public: rule.public,
        inlined: rule.inlined,
        name: rule.name,
        formals: rule.formals,
        alternatives: fitted(rule.alternatives),
    }
}

/// The module with one more rule. It fails only for lack of memory.
pub(crate) fn add_rule(mut made: Module, rule: Rule) -> Result<Module, Memory>
    ensures { IfOk result (λ m. m ≡ with_rule made rule) }
{
    match made.rules.push(fitted_rule(rule)) {
        Ok(()) => Ok(made),
        Err(_) => Err(lost(made)),
    }
}

/// Takes a lexeme after a group.
pub(crate) fn after_group(
    alloc: Global,
    made: Module,
    rule: Rule,
    sign: TokenKind,
    text: &[u8],
) -> Result<Parser, ParseFault>
    ensures { AgreesWithStep (machine.after_group made rule sign text.now) result }
{
    match sign {
        TokenKind::Bar => go_to(made, ParserState::Production(draft_of(alloc, rule))),
        _ => {
            let made = add_rule(made, rule)?;
            at_rule_end(alloc, made, sign, text)
        }
    }
}

/// Takes a lexeme after the action of a group; it may be a `%prec`.
pub(crate) fn at_group(
    alloc: Global,
    made: Module,
    draft: RuleDraft,
    sign: TokenKind,
    text: &[u8],
) -> Result<Parser, ParseFault>
    ensures { AgreesWithStep (machine.at_group made draft sign text.now) result }
{
    match sign {
        TokenKind::Prec => go_to(made, ParserState::GroupPrec(draft)),
        _ => {
            match group_of(draft) {
                Ok(rule) => after_group(alloc, made, rule, sign, text),
                Err(_) => no_memory(made),
            }
        }
    }
}

fn copied(alloc: Global, name: &Name) -> Result<Name, Memory>
    ensures { IfOk result (λ copy. copy ≡ name.now) }
{
    from_bytes(alloc, name.as_slice())
}

fn copied_ref(alloc: Global, found: &Ref) -> Result<Ref, Memory>
    ensures { IfOk result (λ copy. copy ≡ found.now) }
{
    match found {
        Ref::Plain(name) => {
            let copy = copied(alloc, name)?;
            Ok(Ref::Plain(copy))
        }
        Ref::Alias(name) => {
            let copy = copied(alloc, name)?;
            Ok(Ref::Alias(copy))
        }
    }
}

/// Gives the group's level to a production that has none of its own.
fn give_level(alloc: Global, production: &mut Alternative, group: &Ref) -> Result<(), Memory>
    ensures { OnOk result (production.new ≡ with_prec (Some group.now) production.old) }
{
    if production.prec.is_none() {
        let level = copied_ref(alloc, group)?;
        drop(mem::replace(&mut production.prec, Some(level)));
    }
    Ok(())
}

/// Gives the group's level to each production that has none of its own.
fn give_levels(alloc: Global, productions: &mut [Alternative], group: &Ref) -> Result<(), Memory>
    ensures { OnOk result (productions.new ≡ map (with_prec (Some group.now)) productions.old) }
{
    for production in productions.iter_mut() {
        give_level(alloc, production, group)?;
    }
    Ok(())
}

/// The rule with a group that has this level.
fn levelled_group(alloc: Global, draft: RuleDraft, group: &Ref) -> Result<Rule, Memory>
    ensures { IfOk result (λ r. r ≡ with_productions_of_prec draft group.now) }
{
    drop(draft.producers);
    let mut productions = draft.productions.into_vec();
    match give_levels(alloc, &mut productions, group) {
        Ok(()) => with_group(draft.rule, Sequence::from_vec(productions)),
        Err(_) => Err(lost((draft.rule, productions))),
    }
}

/// Takes the name after the `%prec` of a group.
pub(crate) fn at_group_prec(
    alloc: Global,
    made: Module,
    draft: RuleDraft,
    sign: TokenKind,
    text: &[u8],
) -> Result<Parser, ParseFault>
    ensures { AgreesWithStep (machine.at_group_prec made draft (ref_by sign text.now)) result }
{
    match reference(alloc, sign, text) {
        Ok(prec) => {
            let group = levelled_group(alloc, draft, &prec);
            drop(prec);
            match group {
                Ok(rule) => go_to(made, ParserState::GroupClosed(rule)),
                Err(_) => no_memory(made),
            }
        }
        Err(ParseFault::Unexpected) => unexpected((made, draft)),
        Err(ParseFault::Memory) => no_memory((made, draft)),
    }
}

/// Takes a lexeme after a whole rule; it may be a semicolon.
pub(crate) fn at_rule_end(
    alloc: Global,
    made: Module,
    sign: TokenKind,
    text: &[u8],
) -> Result<Parser, ParseFault>
    ensures { AgreesWithStep (machine.at_rule_end made sign text.now) result }
{
    match sign {
        TokenKind::Semicolon => go_to(made, ParserState::RuleEnd),
        _ => in_rules(alloc, made, sign, text),
    }
}
