//! The parser's steps in actuals, which are names with arguments and suffixes.
ghost use Rattle.std.specs.Prelude.{◌≡◌, ◌+◌, ◌≤◌, ◌∷◌, ◌++◌, [], suc, IfOk, length, nat_le, max};
ghost use Rattle.mh_rules.specs.declared.modules.Ref.TheVariants.{Plain};
ghost use Rattle.mh_rules.specs.Modules.{applied};
ghost use Rattle.mh_reader_parser.specs.declared.parser_states.ParserState.TheVariants as places;
ghost use Rattle.mh_reader_parser.specs.Spelling.{ref_by};
ghost use Rattle.mh_reader_parser.specs.code.ParserSteps as machine;
ghost use Rattle.mh_reader_parser.specs.code.ParserSteps.{AgreesWithStep, with_argument, with_producer};
ghost use Rattle.mh_reader_parser.specs.code.DepthLimit.{AreOpenShallow};
ghost use Rattle.mh_rules.specs.Limits.{max_actual_depth};

use crate::declarations::at_items;
use crate::parser_states::{
    ActualPurpose, OpenActual, OpenList, ParseFault, Parser, ParserState, RuleDraft, go_to,
    no_memory, unexpected,
};
use crate::rules::{at_spaced, fitted, reference};
use crate::stack::Stack;
use crate::token_kinds::TokenKind;
use mh_grammar::{Memory, Name, Sequence, from_bytes, lost};
use mh_rules::{Actual, MAX_DEPTH, Module, Ref};
use std::alloc::Global;

/// An actual with all its arguments, and its depth.
#[derive(Drop)]
pub(crate) struct ActualWithDepth {
    pub actual: Actual,
    pub depth: usize,
}

/// The purpose of an actual, and the brackets that are open around it.
#[derive(Drop)]
pub(crate) struct ActualContext {
    pub purpose: ActualPurpose,
    pub pending: Stack<OpenActual>,
}

/// Returns whether one level more than this depth is within the limit, inside this number of brackets.
fn has_room(depth: usize, brackets: usize) -> bool
    ensures { result ≡ nat_le (suc depth + brackets) max_actual_depth }
{
    brackets < MAX_DEPTH && depth < MAX_DEPTH - brackets
}

fn deeper_of(one: usize, two: usize) -> usize
    ensures { result ≡ max one two }
{
    if one < two { two } else { one }
}

/// Appends an actual.
fn add_actual(mut actuals: Sequence<Actual>, actual: Actual) -> Result<Sequence<Actual>, Memory>
    ensures { IfOk result (λ all. all ≡ actuals ++ actual ∷ []) }
{
    match actuals.push(actual) {
        Ok(()) => Ok(actuals),
        Err(_) => Err(lost(actuals)),
    }
}

/// Appends a producer to a production.
fn add_producer(mut draft: RuleDraft, actual: Actual) -> Result<RuleDraft, Memory>
    ensures { IfOk result (λ d. d ≡ with_producer draft actual) }
{
    match draft.producers.push(actual) {
        Ok(()) => Ok(draft),
        Err(_) => Err(lost(draft)),
    }
}

/// Appends an argument.
fn add_argument(mut inner: OpenActual, argument: ActualWithDepth) -> Result<OpenActual, Memory>
    ensures { IfOk result (λ p. p ≡ with_argument inner argument.actual argument.depth) }
{
    match inner.args.push(argument.actual) {
        Ok(()) => {
            inner.depth = deeper_of(inner.depth, argument.depth);
            Ok(inner)
        }
        Err(_) => Err(lost(inner)),
    }
}

/// A list of one actual, with memory for just this one.
fn alone(alloc: Global, actual: Actual) -> Result<Sequence<Actual>, Memory>
    ensures { IfOk result (λ all. all ≡ actual ∷ []) }
{
    match Vec::with_capacity(alloc, 1) {
        Ok(room) => add_actual(Sequence::from_vec(room), actual),
        Err(_) => Err(lost(actual)),
    }
}

/// A name applied to arguments.
fn call(alloc: Global, name: &[u8], args: Sequence<Actual>) -> Result<Actual, Memory>
    ensures { IfOk result (λ a. a ≡ applied (Plain name.now) args) }
{
    match from_bytes(alloc, name) {
        Ok(name) => Ok(Actual {
            head: Ref::Plain(name),
            args,
        }),
        Err(_) => Err(lost(args)),
    }
}

/// A name applied to one argument, as a suffix does. The list of arguments has room for just this one, so that each
/// byte of suffixes takes little memory.
fn wrapped(alloc: Global, name: &[u8], inner: Actual) -> Result<Actual, Memory>
    ensures { IfOk result (λ a. a ≡ applied (Plain name.now) (inner ∷ [])) }
{
    call(alloc, name, alone(alloc, inner)?)
}

/// Takes a lexeme after a whole producer, or after a whole item of a list.
fn whole(
    alloc: Global,
    made: Module,
    purpose: ActualPurpose,
    actual: Actual,
    sign: TokenKind,
    text: &[u8],
) -> Result<Parser, ParseFault>
    ensures { AgreesWithStep (machine.after_whole made purpose actual sign text.now) result }
{
    match purpose {
        ActualPurpose::Producer(draft) => match add_producer(draft, actual) {
            Ok(draft) => at_spaced(alloc, made, draft, sign, text),
            Err(_) => no_memory(made),
        },
        ActualPurpose::Listed(kept, actuals) => match add_actual(actuals, actual) {
            Ok(actuals) => at_items(alloc, made, OpenList::Actuals(kept, actuals), sign, text),
            Err(_) => no_memory(made),
        },
    }
}

/// The parser continues before the next argument of an open bracket.
fn next_argument(
    made: Module,
    purpose: ActualPurpose,
    outer: Stack<OpenActual>,
    inner: OpenActual,
) -> Result<Parser, ParseFault>
    ensures { AgreesWithStep (machine.continues made (places.Argument purpose (inner ∷ outer))) result }
{
    let mut pending = outer;
    match pending.push(inner) {
        Ok(()) => go_to(made, ParserState::Argument(purpose, pending)),
        Err(_) => no_memory((made, (purpose, pending))),
    }
}

/// Takes a lexeme after a whole argument in a bracket.
fn after_argument(
    made: Module,
    purpose: ActualPurpose,
    rest: Stack<OpenActual>,
    inner: OpenActual,
    argument: ActualWithDepth,
    sign: TokenKind,
) -> Result<Parser, ParseFault>
    requires inner { inner.depth ≤ max_actual_depth }
    requires outer { argument.depth ≤ max_actual_depth }
    ensures { AgreesWithStep (machine.after_argument made purpose inner rest argument.actual argument.depth sign) result }
{
    match add_argument(inner, argument) {
        Ok(inner) => match sign {
            TokenKind::Comma => next_argument(made, purpose, rest, inner),
            TokenKind::Close => {
                let depth = inner.depth + 1;
                let actual = Actual {
                    head: inner.head,
                    args: fitted(inner.args),
                };
                go_to(made, ParserState::After(purpose, rest, actual, depth))
            }
            _ => unexpected((made, (purpose, (rest, inner)))),
        },
        Err(_) => no_memory((made, (purpose, rest))),
    }
}

/// Takes a lexeme after an actual with all its suffixes.
fn above(
    alloc: Global,
    made: Module,
    within: ActualContext,
    read: ActualWithDepth,
    sign: TokenKind,
    text: &[u8],
) -> Result<Parser, ParseFault>
    requires fits { read.depth + length within.pending ≤ max_actual_depth }
    requires deep { AreOpenShallow within.pending }
    ensures { AgreesWithStep (machine.after_suffixes made within.purpose within.pending read.actual read.depth sign text.now) result }
{
    let ActualContext { purpose, pending } = within;
    let mut rest = pending;
    match rest.pop() {
        None => {
            drop(rest);
            whole(alloc, made, purpose, read.actual, sign, text)
        }
        Some(inner) => after_argument(made, purpose, rest, inner, read, sign),
    }
}

/// Takes a suffix after an actual.
fn suffix(
    alloc: Global,
    made: Module,
    within: ActualContext,
    read: ActualWithDepth,
    name: &[u8],
) -> Result<Parser, ParseFault>
    ensures { AgreesWithStep (machine.with_suffix_if_fits made within.purpose within.pending read.actual read.depth (machine.fits_in_depth (suc read.depth) within.pending) name.now) result }
{
    let ActualContext { purpose, pending } = within;
    let ActualWithDepth { actual, depth } = read;
    if has_room(depth, pending.len()) {
        match wrapped(alloc, name, actual) {
            Ok(actual) => go_to(
                made,
                ParserState::After(purpose, pending, actual, depth + 1),
            ),
            Err(_) => no_memory((made, (purpose, pending))),
        }
    } else {
        unexpected((made, (purpose, (pending, actual))))
    }
}

/// Takes a lexeme after an actual; it may be a suffix.
pub(crate) fn after(
    alloc: Global,
    made: Module,
    within: ActualContext,
    read: ActualWithDepth,
    sign: TokenKind,
    text: &[u8],
) -> Result<Parser, ParseFault>
    requires fits { read.depth + length within.pending ≤ max_actual_depth }
    requires deep { AreOpenShallow within.pending }
    ensures { AgreesWithStep (machine.after_actual made within.purpose within.pending read.actual read.depth sign text.now) result }
{
    match sign {
        TokenKind::Question => suffix(alloc, made, within, read, b"option"),
        TokenKind::Star => suffix(alloc, made, within, read, b"list"),
        TokenKind::Plus => suffix(alloc, made, within, read, b"nonempty_list"),
        _ => above(alloc, made, within, read, sign, text),
    }
}

/// Takes an opening bracket of arguments.
fn open(alloc: Global, made: Module, within: ActualContext, head: Ref) -> Result<Parser, ParseFault>
    ensures { AgreesWithStep (machine.with_bracket_if_fits made within.purpose within.pending head (machine.fits_in_depth 2 within.pending)) result }
{
    let ActualContext { purpose, pending } = within;
    if has_room(1, pending.len()) {
        let inner = OpenActual {
            head,
            args: Sequence::new(alloc),
            depth: 0,
        };
        next_argument(made, purpose, pending, inner)
    } else {
        unexpected((made, (purpose, (pending, head))))
    }
}

/// Takes a lexeme after the name of an actual.
pub(crate) fn at_head(
    alloc: Global,
    made: Module,
    within: ActualContext,
    head: Ref,
    sign: TokenKind,
    text: &[u8],
) -> Result<Parser, ParseFault>
    requires fits { 1 + length within.pending ≤ max_actual_depth }
    requires deep { AreOpenShallow within.pending }
    ensures { AgreesWithStep (machine.at_head made within.purpose within.pending head sign text.now) result }
{
    match sign {
        TokenKind::Open => open(alloc, made, within, head),
        _ => {
            let actual = Actual {
                head,
                args: Sequence::new(alloc),
            };
            let read = ActualWithDepth { actual, depth: 1 };
            after(alloc, made, within, read, sign, text)
        }
    }
}

/// Takes a lexeme after a word that may be the name of a producer.
pub(crate) fn at_named(
    alloc: Global,
    made: Module,
    draft: RuleDraft,
    name: Name,
    sign: TokenKind,
    text: &[u8],
) -> Result<Parser, ParseFault>
    ensures { AgreesWithStep (machine.at_named made draft name sign text.now) result }
{
    let purpose = ActualPurpose::Producer(draft);
    let pending = Stack::new(alloc);
    match sign {
        TokenKind::Equals => go_to(made, ParserState::Argument(purpose, pending)),
        _ => {
            let within = ActualContext { purpose, pending };
            at_head(alloc, made, within, Ref::Plain(name), sign, text)
        }
    }
}

/// Takes the first lexeme of an actual.
pub(crate) fn at_argument(
    alloc: Global,
    made: Module,
    purpose: ActualPurpose,
    pending: Stack<OpenActual>,
    sign: TokenKind,
    text: &[u8],
) -> Result<Parser, ParseFault>
    ensures { AgreesWithStep (machine.at_argument made purpose pending (ref_by sign text.now)) result }
{
    match reference(alloc, sign, text) {
        Ok(head) => go_to(made, ParserState::Head(purpose, pending, head)),
        Err(ParseFault::Unexpected) => unexpected((made, (purpose, pending))),
        Err(ParseFault::Memory) => no_memory((made, (purpose, pending))),
    }
}
