//! The states of the parser of grammar files.
ghost use Rattle.std.specs.Prelude.{◌≡◌, Err, None};
ghost use Rattle.mh_reader_parser.specs.code.ParserSteps as machine;
ghost use Rattle.mh_reader_parser.specs.code.ParserSteps.{AgreesWithStep};
ghost use Rattle.mh_reader_parser.specs.declared.parser_states.ParseFault.TheVariants as refusals;

use crate::stack::Stack;
use mh_grammar::{Assoc, Memory, Name, Sequence};
use mh_rules::{Actual, Alternative, Module, Ref, Rule, TokenDecl};
use std::alloc::AllocError;

/// Why the parser does not take a lexeme.
#[derive(Clone, Copy)]
pub enum ParseFault {
    Unexpected,
    Memory,
}

impl From<Memory> for ParseFault {
    ghost from_gives = { λ _ refusal. refusal ≡ refusals.Memory };

    fn from(_: Memory) -> ParseFault {
        ParseFault::Memory
    }
}

impl From<AllocError> for ParseFault {
    ghost from_gives = { λ _ refusal. refusal ≡ refusals.Memory };

    fn from(_: AllocError) -> ParseFault {
        ParseFault::Memory
    }
}

/// An actual whose bracket is open, with the depth of its deepest argument so far.
#[derive(Drop)]
pub struct OpenActual {
    pub head: Ref,
    pub args: Sequence<Actual>,
    pub depth: usize,
}

/// A rule with its finished groups, the finished productions of its last group, and the producers of its last
/// production.
#[derive(Drop)]
pub struct RuleDraft {
    pub rule: Rule,
    pub productions: Sequence<Alternative>,
    pub producers: Sequence<Actual>,
}

/// The list of a declaration. Tokens and starts are added to the module at once. In a list of actuals the flag says
/// whether the module keeps the list: true for `%on_error_reduce`, false for `%type` and `%attribute`.
#[derive(Drop)]
pub enum OpenList {
    Tokens,
    Starts,
    Levels(Assoc, Sequence<Ref>),
    Actuals(bool, Sequence<Actual>),
}

/// The purpose of an actual: a producer of a production, or an item of a list.
#[derive(Drop)]
pub enum ActualPurpose {
    Producer(RuleDraft),
    Listed(bool, Sequence<Actual>),
}

/// What was read last, with everything that is not yet part of the module.
#[derive(Drop)]
pub enum ParserState {
    Declarations,
    /// The keyword of a list; a type may follow it.
    Opening(OpenList),
    /// `%type`; a type has to follow it.
    TypeOf,
    /// The keyword of a list with its type, or an item.
    Items(OpenList),
    Comma(OpenList),
    /// The name of a token, with the first cost after it.
    TokenNamed(Name, Option<u32>),
    /// The name and the alias of a token, with the first cost after either.
    TokenAliased(TokenDecl),
    /// `%parameter`; a type has to follow it.
    ParameterType,
    /// The first `%%`.
    Rules,
    /// Modifiers: whether one is `%public`, and whether one is `%inline`.
    Modified(bool, bool),
    RuleNamed(Rule),
    FormalsOpen(Rule),
    FormalRead(Rule),
    FormalComma(Rule),
    FormalsClosed(Rule),
    /// The colon of a rule; a bar may follow it.
    Begin(Rule),
    /// A bar; a production follows it.
    Production(RuleDraft),
    /// A producer, and semicolons after it.
    Spaced(RuleDraft),
    /// A word that is the name of a producer or its head.
    Named(RuleDraft, Name),
    /// The `=`, `(` or `,` before an actual.
    Argument(ActualPurpose, Stack<OpenActual>),
    /// The name of an actual; arguments may follow it.
    Head(ActualPurpose, Stack<OpenActual>, Ref),
    /// An actual with its arguments and the suffixes so far, and its depth.
    After(ActualPurpose, Stack<OpenActual>, Actual, usize),
    /// The `%prec` of a production.
    Prec(RuleDraft),
    /// A production with its `%prec`.
    Closed(RuleDraft),
    /// The action of a group.
    Group(RuleDraft),
    /// The `%prec` of a group.
    GroupPrec(RuleDraft),
    /// A group with its `%prec`.
    GroupClosed(Rule),
    /// A semicolon after a rule.
    RuleEnd,
    /// The second `%%`.
    Ended,
}

/// The parser: the module that was read so far, and the state.
#[derive(Drop)]
pub struct Parser {
    pub made: Module,
    pub place: ParserState,
}

/// The parser with this module and this state.
pub(crate) fn go_to(made: Module, place: ParserState) -> Result<Parser, ParseFault>
    ensures { AgreesWithStep (machine.continues made place) result }
{
    Ok(Parser { made, place })
}

/// The lexeme may not come here. What was read is dropped in one call, because to drop it in each arm of a step is much
/// more expensive to prove.
pub(crate) fn unexpected<T: Drop, X>(read: T) -> Result<X, ParseFault>
    ensures { AgreesWithStep None result }
{
    drop(read);
    Err(ParseFault::Unexpected)
}

/// There is no memory. What was read is dropped.
pub(crate) fn no_memory<T: Drop, X>(read: T) -> Result<X, ParseFault>
    ensures { result ≡ Err refusals.Memory }
{
    drop(read);
    Err(ParseFault::Memory)
}
