//! The parser's steps in declarations and their lists.
ghost use Rattle.std.specs.Prelude.{◌≡◌, ◌∷◌, ◌++◌, [], IfOk};
ghost use Rattle.mh_reader_parser.specs.TokenKinds.{is_capital};
ghost use Rattle.mh_reader_parser.specs.code.ParserSteps as machine;
ghost use Rattle.mh_reader_parser.specs.code.ParserSteps.{AgreesWithStep};

use crate::parser_states::{
    ActualPurpose, OpenList, ParseFault, Parser, ParserState, go_to, no_memory, unexpected,
};
use crate::rules::fitted;
use crate::stack::Stack;
use crate::token_kinds::{TokenKind, is_capital_word};
use mh_grammar::{Memory, Name, Sequence, from_bytes, lost};
use mh_rules::{Actual, LevelDecl, Module, Ref, TokenDecl};
use std::alloc::Global;

/// Adds a declaration of a level.
fn add_level(mut made: Module, level: LevelDecl) -> Result<Module, Memory>
    ensures { IfOk result (λ m. m ≡ record made { levels = made.levels ++ level ∷ [] }) }
{
    match made.levels.push(level) {
        Ok(()) => Ok(made),
        Err(_) => Err(lost(made)),
    }
}

/// Adds an on-error declaration.
fn add_on_error(mut made: Module, actuals: Sequence<Actual>) -> Result<Module, Memory>
    ensures { IfOk result (λ m. m ≡ record made { on_error = made.on_error ++ actuals ∷ [] }) }
{
    match made.on_error.push(actuals) {
        Ok(()) => Ok(made),
        Err(_) => Err(lost(made)),
    }
}

/// Returns the module after the list has ended. The list takes memory for its items alone.
fn close(made: Module, listing: OpenList) -> Result<Module, Memory>
    ensures { IfOk result (λ m. m ≡ machine.close made listing) }
{
    match listing {
        OpenList::Tokens | OpenList::Starts => {
            drop(listing);
            Ok(made)
        }
        OpenList::Actuals(false, actuals) => {
            drop(actuals);
            Ok(made)
        }
        OpenList::Levels(assoc, names) => {
            let names = fitted(names);
            add_level(made, LevelDecl { assoc, names })
        }
        OpenList::Actuals(true, actuals) => add_on_error(made, fitted(actuals)),
    }
}

/// Takes the first lexeme of a declaration, or the `%%` before the rules.
pub(crate) fn declare(alloc: Global, made: Module, sign: TokenKind) -> Result<Parser, ParseFault>
    ensures { AgreesWithStep (machine.declare made sign) result }
{
    let place = match sign {
        TokenKind::Header | TokenKind::Semicolon => ParserState::Declarations,
        TokenKind::Token => ParserState::Opening(OpenList::Tokens),
        TokenKind::Start => ParserState::Opening(OpenList::Starts),
        TokenKind::Type => ParserState::TypeOf,
        TokenKind::Level(assoc) => ParserState::Items(OpenList::Levels(
            assoc,
            Sequence::new(alloc),
        )),
        TokenKind::OnErrorReduce => ParserState::Items(OpenList::Actuals(
            true,
            Sequence::new(alloc),
        )),
        TokenKind::Parameter => ParserState::ParameterType,
        TokenKind::Attribute => ParserState::Items(OpenList::Actuals(false, Sequence::new(alloc))),
        TokenKind::Percents => ParserState::Rules,
        _ => return unexpected(made),
    };
    go_to(made, place)
}

/// Adds a start.
fn add_start(mut made: Module, name: Name) -> Result<Module, Memory>
    ensures { IfOk result (λ m. m ≡ record made { starts = made.starts ++ name ∷ [] }) }
{
    match made.starts.push(name) {
        Ok(()) => Ok(made),
        Err(_) => Err(lost(made)),
    }
}

/// Adds a name to a level.
fn add_name(mut names: Sequence<Ref>, name: Ref) -> Result<Sequence<Ref>, Memory>
    ensures { IfOk result (λ all. all ≡ names ++ name ∷ []) }
{
    match names.push(name) {
        Ok(()) => Ok(names),
        Err(_) => Err(lost(names)),
    }
}

/// Adds a token.
fn add_token(mut made: Module, token: TokenDecl) -> Result<Module, Memory>
    ensures { IfOk result (λ m. m ≡ machine.with_token made token) }
{
    match made.tokens.push(token) {
        Ok(()) => Ok(made),
        Err(_) => Err(lost(made)),
    }
}

/// Takes a name or a string in a list that may have both.
fn list_item(
    alloc: Global,
    made: Module,
    listing: OpenList,
    item: Ref,
) -> Result<Parser, ParseFault>
    ensures { AgreesWithStep (machine.list_item made listing item) result }
{
    match listing {
        OpenList::Tokens | OpenList::Starts => unexpected((made, (listing, item))),
        OpenList::Levels(assoc, names) => match add_name(names, item) {
            Ok(names) => go_to(made, ParserState::Items(OpenList::Levels(assoc, names))),
            Err(_) => no_memory(made),
        },
        OpenList::Actuals(kept, actuals) => go_to(
            made,
            ParserState::Head(
                ActualPurpose::Listed(kept, actuals),
                Stack::new(alloc),
                item,
            ),
        ),
    }
}

/// Takes a word in a list.
fn list_word(
    alloc: Global,
    made: Module,
    listing: OpenList,
    text: &[u8],
) -> Result<Parser, ParseFault>
    ensures { AgreesWithStep (machine.list_word made listing text.now) result }
{
    match from_bytes(alloc, text) {
        Ok(name) => match listing {
            OpenList::Tokens => {
                if is_capital_word(text) {
                    go_to(made, ParserState::TokenNamed(name, None))
                } else {
                    unexpected((made, name))
                }
            }
            OpenList::Starts => match add_start(made, name) {
                Ok(made) => go_to(made, ParserState::Items(listing)),
                Err(_) => no_memory(listing),
            },
            _ => list_item(alloc, made, listing, Ref::Plain(name)),
        },
        Err(_) => no_memory((made, listing)),
    }
}

/// Takes a string in a list.
fn list_quoted(
    alloc: Global,
    made: Module,
    listing: OpenList,
    text: &[u8],
) -> Result<Parser, ParseFault>
    ensures { AgreesWithStep (machine.list_quoted made listing text.now) result }
{
    match from_bytes(alloc, text) {
        Ok(name) => list_item(alloc, made, listing, Ref::Alias(name)),
        Err(_) => no_memory((made, listing)),
    }
}

/// Takes a lexeme after the keyword of a list, or after an item.
pub(crate) fn at_items(
    alloc: Global,
    made: Module,
    listing: OpenList,
    sign: TokenKind,
    text: &[u8],
) -> Result<Parser, ParseFault>
    ensures { AgreesWithStep (machine.at_items made listing sign text.now) result }
{
    match sign {
        TokenKind::Word => list_word(alloc, made, listing, text),
        TokenKind::Quoted => list_quoted(alloc, made, listing, text),
        TokenKind::Comma => go_to(made, ParserState::Comma(listing)),
        _ => {
            let made = close(made, listing)?;
            declare(alloc, made, sign)
        }
    }
}

/// Takes a lexeme after a comma in a list.
pub(crate) fn at_comma(
    alloc: Global,
    made: Module,
    listing: OpenList,
    sign: TokenKind,
    text: &[u8],
) -> Result<Parser, ParseFault>
    ensures { AgreesWithStep (machine.at_comma made listing sign text.now) result }
{
    match sign {
        TokenKind::Word => list_word(alloc, made, listing, text),
        TokenKind::Quoted => list_quoted(alloc, made, listing, text),
        _ => unexpected((made, listing)),
    }
}

/// Takes a lexeme after the keyword of a list; it may be a type.
pub(crate) fn at_list_start(
    alloc: Global,
    made: Module,
    listing: OpenList,
    sign: TokenKind,
    text: &[u8],
) -> Result<Parser, ParseFault>
    ensures { AgreesWithStep (machine.at_list_start made listing sign text.now) result }
{
    match sign {
        TokenKind::TypeText => go_to(made, ParserState::Items(listing)),
        _ => at_items(alloc, made, listing, sign, text),
    }
}

/// Takes the type before a list of actuals.
pub(crate) fn at_type(alloc: Global, made: Module, sign: TokenKind) -> Result<Parser, ParseFault>
    ensures { AgreesWithStep (machine.at_type made sign) result }
{
    match sign {
        TokenKind::TypeText => go_to(
            made,
            ParserState::Items(OpenList::Actuals(false, Sequence::new(alloc))),
        ),
        _ => unexpected(made),
    }
}

/// Takes the type of a `%parameter`.
pub(crate) fn at_parameter(made: Module, sign: TokenKind) -> Result<Parser, ParseFault>
    ensures { AgreesWithStep (machine.at_parameter made sign) result }
{
    match sign {
        TokenKind::TypeText => go_to(made, ParserState::Declarations),
        _ => unexpected(made),
    }
}

/// Takes a lexeme after the name of a token; it may be the alias.
pub(crate) fn at_token(
    alloc: Global,
    made: Module,
    name: Name,
    cost: Option<u32>,
    sign: TokenKind,
    text: &[u8],
) -> Result<Parser, ParseFault>
    ensures { AgreesWithStep (machine.at_token made name cost sign text.now) result }
{
    match sign {
        TokenKind::Quoted => match from_bytes(alloc, text) {
            Ok(alias) => go_to(
                made,
                ParserState::TokenAliased(TokenDecl {
                    name,
                    alias: Some(alias),
                    cost,
                }),
            ),
            Err(_) => no_memory((made, name)),
        },
        _ => at_aliased(
            alloc,
            made,
            TokenDecl {
                name,
                alias: None,
                cost,
            },
            sign,
            text,
        ),
    }
}

/// Takes a lexeme after a token with its alias, if it has one.
pub(crate) fn at_aliased(
    alloc: Global,
    made: Module,
    token: TokenDecl,
    sign: TokenKind,
    text: &[u8],
) -> Result<Parser, ParseFault>
    ensures { AgreesWithStep (machine.at_aliased made token sign text.now) result }
{
    at_items(alloc, add_token(made, token)?, OpenList::Tokens, sign, text)
}
