//! The parser's step for one lexeme.
ghost use Rattle.std.specs.Prelude.{◌≡◌};
ghost use Rattle.mh_reader_parser.specs.code.ParserSteps as machine;
ghost use Rattle.mh_reader_parser.specs.code.ParserSteps.{AgreesWithStep};
ghost use Rattle.mh_reader_parser.specs.code.DepthLimit.{IsStateShallow};

use crate::actuals::{ActualContext, ActualWithDepth, after, at_argument, at_head, at_named};
use crate::declarations::{
    at_aliased, at_comma, at_items, at_list_start, at_parameter, at_token, at_type, declare,
};
use crate::parser_states::{ParseFault, Parser, ParserState, unexpected};
use crate::rules::{
    after_group, at_begin, at_closed, at_formal_comma, at_formal_read, at_formals_closed,
    at_formals_open, at_group, at_group_prec, at_modified, at_prec, at_rule_end, at_rule_named,
    at_spaced, in_production, in_rules,
};
use crate::token_kinds::TokenKind;
use mh_rules::Module;
use std::alloc::Global;

/// Returns the module and drops the parser's state, which holds nothing unfinished here. The state is dropped in one
/// call, because to drop it in each arm is much more expensive to prove.
fn made_of(made: Module, place: ParserState) -> Module
    ensures { result ≡ made }
{
    drop(place);
    made
}

/// Returns the parser's state after one more lexeme.
#[tactic(auto, unfolding(crate::specs::code::ParserSteps::next_at))]
pub(crate) fn advance(
    alloc: Global,
    reader: Parser,
    sign: TokenKind,
    text: &[u8],
) -> Result<Parser, ParseFault>
    requires { IsStateShallow reader.place }
    ensures { AgreesWithStep (machine.next_at reader.made reader.place sign text.now) result }
{
    let Parser { made, place } = reader;
    match place {
        ParserState::Declarations => declare(alloc, made_of(made, place), sign),
        ParserState::Opening(listing) => at_list_start(alloc, made, listing, sign, text),
        ParserState::TypeOf => at_type(alloc, made_of(made, place), sign),
        ParserState::Items(listing) => at_items(alloc, made, listing, sign, text),
        ParserState::Comma(listing) => at_comma(alloc, made, listing, sign, text),
        ParserState::TokenNamed(name, cost) => at_token(alloc, made, name, cost, sign, text),
        ParserState::TokenAliased(token) => at_aliased(alloc, made, token, sign, text),
        ParserState::ParameterType => at_parameter(made_of(made, place), sign),
        ParserState::Rules => in_rules(alloc, made_of(made, place), sign, text),
        ParserState::Modified(public, inlined) => {
            at_modified(alloc, made_of(made, place), public, inlined, sign, text)
        }
        ParserState::RuleNamed(rule) => at_rule_named(made, rule, sign),
        ParserState::FormalsOpen(rule) => at_formals_open(alloc, made, rule, sign, text),
        ParserState::FormalRead(rule) => at_formal_read(made, rule, sign),
        ParserState::FormalComma(rule) => at_formal_comma(alloc, made, rule, sign, text),
        ParserState::FormalsClosed(rule) => at_formals_closed(made, rule, sign),
        ParserState::Begin(rule) => at_begin(alloc, made, rule, sign, text),
        ParserState::Production(draft) => in_production(alloc, made, draft, sign, text),
        ParserState::Spaced(draft) => at_spaced(alloc, made, draft, sign, text),
        ParserState::Named(draft, name) => at_named(alloc, made, draft, name, sign, text),
        ParserState::Argument(purpose, pending) => {
            at_argument(alloc, made, purpose, pending, sign, text)
        }
        ParserState::Head(purpose, pending, head) => {
            let within = ActualContext { purpose, pending };
            at_head(alloc, made, within, head, sign, text)
        }
        ParserState::After(purpose, pending, actual, depth) => {
            let within = ActualContext { purpose, pending };
            let read = ActualWithDepth { actual, depth };
            after(alloc, made, within, read, sign, text)
        }
        ParserState::Prec(draft) => at_prec(alloc, made, draft, sign, text),
        ParserState::Closed(draft) => at_closed(made, draft, sign),
        ParserState::Group(draft) => at_group(alloc, made, draft, sign, text),
        ParserState::GroupPrec(draft) => at_group_prec(alloc, made, draft, sign, text),
        ParserState::GroupClosed(rule) => after_group(alloc, made, rule, sign, text),
        ParserState::RuleEnd => at_rule_end(alloc, made_of(made, place), sign, text),
        ParserState::Ended => unexpected((made, place)),
    }
}
