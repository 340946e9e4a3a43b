//! Reads the module that lexemes spell.
ghost use Rattle.std.specs.Prelude.{◌≡◌, ◌<◌, ◌^◌, ◌≤◌, ℕ, List, length, take, drop, IfErr, IfOk, None};
ghost use Rattle.std.specs.List.{All};
ghost use Rattle.mh_lex.specs.Lexing.{IsLexemeWithin, IsPlaceWithin};
ghost use Rattle.mh_lex.specs.LexemeTexts.{bytes_of};
ghost use Rattle.mh_rules.specs.declared.modules.Module.{Module};
ghost use Rattle.mh_reader_parser.specs.TokenKinds.{file_tokens, token_kind_by, text_by};
ghost use Rattle.mh_reader_parser.specs.code.DepthLimit.{IsStateShallow};
ghost use Rattle.mh_rules.specs.Modules.{no_module};
ghost use Rattle.mh_reader_parser.specs.Spelling.{File};
ghost use Rattle.mh_reader_parser.specs.code.ParserSteps.{AgreesWithStep, parser_with_cost, finish_at, start, step_by_lexeme};
ghost use Rattle.mh_reader_parser.specs.Costs as spec;
ghost use Rattle.std.specs.Option.{option_or};
ghost use Rattle.mh_reader_parser.specs.Faults.{ReportsUnexpectedPlace};

use crate::advance::advance;
use crate::costs::cost_of;
use crate::parser_states::{ParseFault, Parser, ParserState, no_memory, unexpected};
use crate::rules::{add_rule, group_of};
use crate::token_kinds::{content_of, token_kind_of};
use mh_grammar::Sequence;
use mh_lex::{Lexeme, PlacedFault};
use mh_rules::Module;
use std::alloc::Global;

/// The parser before the first lexeme.
fn fresh(alloc: Global) -> Parser
    ensures { result ≡ start }
{
    Parser {
        made: Module {
            tokens: Sequence::new(alloc),
            starts: Sequence::new(alloc),
            levels: Sequence::new(alloc),
            on_error: Sequence::new(alloc),
            rules: Sequence::new(alloc),
        },
        place: ParserState::Declarations,
    }
}

/// The module, if the file may end in this state.
#[tactic(auto, unfolding(crate::specs::code::ParserSteps::finish_at))]
fn ended(reader: Parser) -> Result<Module, ParseFault>
    ensures { AgreesWithStep (finish_at reader.made reader.place) result }
{
    let Parser { made, place } = reader;
    match place {
        ParserState::Rules | ParserState::RuleEnd | ParserState::Ended => {
            drop(place);
            Ok(made)
        }
        ParserState::Group(draft) => match group_of(draft) {
            Ok(rule) => Ok(add_rule(made, rule)?),
            Err(_) => no_memory(made),
        },
        ParserState::GroupClosed(rule) => Ok(add_rule(made, rule)?),
        // The state is dropped in one call, because to drop it here is much more expensive to prove.
        _ => unexpected((made, place)),
    }
}

/// The bytes of a lexeme.
fn text_of<'a>(bytes: &'a [u8], lexeme: &Lexeme) -> &'a [u8]
    requires { IsLexemeWithin (length bytes.now) lexeme.now }
    ensures { result.now ≡ bytes_of bytes.now lexeme.now }
{
    &bytes[lexeme.start..lexeme.end]
}

/// The first of two optional costs that is present.
fn first_cost(cost: Option<u32>, other: Option<u32>) -> Option<u32>
    ensures { result ≡ option_or cost other }
{
    cost.or(other)
}

/// The parser after an attribute. The cost counts if a token comes before it and has no cost yet.
fn with_cost(mut reader: Parser, cost: Option<u32>) -> Parser
    ensures { result ≡ parser_with_cost cost reader }
{
    match &mut reader.place {
        ParserState::TokenNamed(_, known) => *known = first_cost(*known, cost),
        ParserState::TokenAliased(token) => token.cost = first_cost(token.cost, cost),
        _ => {}
    }
    reader
}

/// The parser after one more lexeme. Of an attribute only the cost counts.
fn take_lexeme(
    alloc: Global,
    reader: Parser,
    bytes: &[u8],
    lexeme: &Lexeme,
) -> Result<Parser, ParseFault>
    requires within { IsLexemeWithin (length bytes.now) lexeme.now }
    requires shallow { IsStateShallow reader.place }
    ensures { AgreesWithStep (step_by_lexeme reader (token_kind_by lexeme.now.kind (bytes_of bytes.now lexeme.now))
        (text_by lexeme.now.kind (bytes_of bytes.now lexeme.now))
        (spec.cost_of (bytes_of bytes.now lexeme.now))) result }
{
    let text = text_of(bytes, lexeme);
    match token_kind_of(lexeme.kind, text) {
        Some(sign) => advance(alloc, reader, sign, content_of(lexeme.kind, text)),
        None => Ok(with_cost(reader, cost_of(text))),
    }
}

/// The module that the lexemes spell, or the position of the first lexeme with which no file can continue; the end of
/// the file if the file ends too early.
pub fn read_lexemes(alloc: Global, bytes: &[u8], lexemes: &[Lexeme]) -> Result<Module, PlacedFault>
    requires short { length bytes.now < 2 ^ 31 }
    requires within { All (IsLexemeWithin (length bytes.now)) lexemes.now }
    ensures spelled { IfOk result (λ m. File no_module (file_tokens bytes.now lexemes.now) m) }
    ensures bound { IfErr result (IsPlaceWithin (length bytes.now)) }
    ensures fault { ReportsUnexpectedPlace bytes.now lexemes.now result }
{
    let mut reader = fresh(alloc);
    for lexeme in lexemes {
        match take_lexeme(alloc, reader, bytes, lexeme) {
            Ok(next) => reader = next,
            Err(ParseFault::Unexpected) => return Err(PlacedFault::Syntax {
                place: lexeme.start,
            }),
            Err(ParseFault::Memory) => return Err(PlacedFault::Memory),
        }
    }
    match ended(reader) {
        Ok(made) => Ok(made),
        Err(ParseFault::Unexpected) => Err(PlacedFault::Syntax { place: bytes.len() }),
        Err(ParseFault::Memory) => Err(PlacedFault::Memory),
    }
}
