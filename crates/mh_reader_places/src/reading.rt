//! Reads a grammar file with the places of its names.
ghost use Rattle.std.specs.Prelude.{◌≡◌, ◌<◌, ◌-◌, ◌^◌, ◌++◌, ◌∷◌, [], length, take, cond, Some, None, IfErr, IfOk, OnOk};
ghost use Rattle.std.specs.List.{All};
ghost use Rattle.mh_lex.specs.declared.kinds.PlacedFault.TheVariants as faults;
ghost use Rattle.mh_lex.specs.LexemeTexts as texts;
ghost use Rattle.mh_lex.specs.Lexing.{IsLexemeWithin, Lexes};
ghost use Rattle.mh_rules.specs.Modules.{no_module};
ghost use Rattle.mh_rules.specs.Ready.{IsModuleReady};
ghost use Rattle.mh_rules.specs.declared.modules.Ref.TheVariants.{Plain, Alias};
ghost use Rattle.mh_reader_parser.specs.Spelling.{File, Spells};
ghost use Rattle.mh_reader_parser.specs.TokenKinds.{file_tokens};
ghost use Rattle.mh_reader_places.specs.Places as places;
ghost use Rattle.mh_reader_places.specs.Places.{ReadsPlaced, ReportsLexedPlace, ReportsSyntaxPlace};
ghost use Rattle.mh_reader_places.specs.code.ScanSteps as steps;
ghost use Rattle.mh_reader_places.specs.code.ScanSteps.{HasRoom};
ghost use Rattle.mh_reader_places.specs.code.Walks as walks;

use crate::mentions::{Mention, Role};
use crate::scan::Scan;
use mh_grammar::{Memory, Sequence, from_bytes};
use mh_lex::{Lexeme, PlacedFault, lex_placed, lexemes_are_unique};
use mh_reader_parser::{TokenKind, content_of, cost_of, read_lexemes, token_kind_of};
use mh_rules::{Module, Ref};
use std::alloc::Global;

/// The module of a grammar file, with places.
#[derive(Drop)]
pub struct PlacedModule {
    pub module: Module,
    /// The names and strings of the module, in the order of the text.
    pub mentions: Sequence<Mention>,
    /// The positions of the attributes that begin with `[@cost` and give no cost, in order.
    pub bad_costs: Sequence<usize>,
}

/// The places of the lexemes so far.
#[derive(Drop)]
struct Places {
    scan: Scan,
    mentions: Vec<Mention>,
    bad_costs: Vec<usize>,
}

/// The bytes of a lexeme.
fn bytes_of<'a>(bytes: &'a [u8], lexeme: &Lexeme) -> &'a [u8]
    requires { IsLexemeWithin (length bytes.now) lexeme.now }
    ensures { result.now ≡ texts.bytes_of bytes.now lexeme.now }
{
    &bytes[lexeme.start..lexeme.end]
}

/// Returns true for the text of an attribute that begins with `[@cost` and gives no cost.
fn is_bad_cost(text: &[u8]) -> bool
    ensures { result ≡ places.is_bad_cost_text text.now }
{
    text.starts_with(b"[@cost") && cost_of(text).is_none()
}

/// The reference to this name.
fn plain(alloc: Global, bytes: &[u8]) -> Result<Option<Ref>, Memory>
    ensures { IfOk result (λ r. r ≡ Some (Plain bytes.now)) }
{
    Ok(Some(Ref::Plain(from_bytes(alloc, bytes)?)))
}

/// The reference to this string.
fn alias(alloc: Global, bytes: &[u8]) -> Result<Option<Ref>, Memory>
    ensures { IfOk result (λ r. r ≡ Some (Alias bytes.now)) }
{
    Ok(Some(Ref::Alias(from_bytes(alloc, bytes)?)))
}

/// The name of a word, the string of a string, or the rule that a suffix applies.
fn reference_of(alloc: Global, sign: TokenKind, text: &[u8]) -> Result<Option<Ref>, Memory>
    ensures { IfOk result (λ r. r ≡ steps.reference_of sign text.now) }
{
    match sign {
        TokenKind::Word => plain(alloc, text),
        TokenKind::Quoted => alias(alloc, text),
        TokenKind::Question => plain(alloc, b"option"),
        TokenKind::Star => plain(alloc, b"list"),
        TokenKind::Plus => plain(alloc, b"nonempty_list"),
        _ => Ok(None),
    }
}

/// Removes the last mention.
fn drop_last(mentions: &mut Vec<Mention>)
    ensures { mentions.new.items ≡ take (length mentions.old.items - 1) mentions.old.items }
{
    drop(mentions.pop());
}

/// Removes the last mention if this lexeme is an equals sign: the name before the sign is that of a producer, which is
/// no part of the module.
fn remove_name(mentions: &mut Vec<Mention>, sign: TokenKind)
    ensures { mentions.new.items ≡ steps.without_name sign mentions.old.items }
{
    match sign {
        TokenKind::Equals => drop_last(mentions),
        _ => {}
    }
}

/// Appends the mention of a name with this role, if there are a role and a name.
fn add_name(
    mentions: &mut Vec<Mention>,
    role: Option<Role>,
    name: Option<Ref>,
    start: usize,
) -> Result<(), Memory>
    ensures { OnOk result (mentions.new.items ≡ steps.with_name (walks.mention_at start) role name mentions.old.items) }
{
    let Some(role) = role else {
        return Ok(());
    };
    let Some(name) = name else {
        return Ok(());
    };
    mentions.push(Mention { start, role, name })?;
    Ok(())
}

impl Places {
    /// Appends what a lexeme of this token kind names.
    fn add_token(
        &mut self,
        alloc: Global,
        sign: TokenKind,
        text: &[u8],
        start: usize,
    ) -> Result<(), Memory>
        requires { HasRoom self.now.scan }
        ensures scan { OnOk result (self.new.scan ≡ steps.taken self.old.scan sign) }
        ensures mentions { OnOk result (self.new.mentions.items ≡ steps.names_after (walks.mention_at start) self.old.scan sign text.now self.old.mentions.items) }
        ensures kept { OnOk result (self.new.bad_costs.items ≡ self.old.bad_costs.items) }
    {
        let section = self.scan.section;
        self.scan.take(sign);
        let name = reference_of(alloc, sign, text)?;
        remove_name(&mut self.mentions, sign);
        add_name(
            &mut self.mentions,
            self.scan.role_in(section, sign),
            name,
            start,
        )
    }

    /// Appends the position of an attribute, if the attribute should give a cost and does not.
    fn add_attribute(&mut self, text: &[u8], start: usize) -> Result<(), Memory>
        ensures kept { OnOk result ((self.new.scan ≡ self.old.scan) × (self.new.mentions.items ≡ self.old.mentions.items)) }
        ensures costs { OnOk result (self.new.bad_costs.items ≡ self.old.bad_costs.items ++ cond (places.is_bad_cost_text text.now) (start ∷ []) []) }
    {
        if is_bad_cost(text) {
            self.bad_costs.push(start)?;
        }
        Ok(())
    }

    /// Appends what a lexeme names, or its position if it is an attribute that should give a cost.
    fn add_lexeme(&mut self, alloc: Global, bytes: &[u8], lexeme: &Lexeme) -> Result<(), Memory>
        requires room { HasRoom self.now.scan }
        requires within { IsLexemeWithin (length bytes.now) lexeme.now }
        ensures scan { OnOk result (self.new.scan ≡ walks.scan_after self.old.scan (walks.kind_in bytes.now lexeme.now)) }
        ensures mentions { OnOk result (self.new.mentions.items ≡ walks.mentions_after lexeme.now.start self.old.scan (walks.kind_in bytes.now lexeme.now) (walks.text_in bytes.now lexeme.now) self.old.mentions.items) }
        ensures costs { OnOk result (self.new.bad_costs.items ≡ self.old.bad_costs.items ++ places.bad_cost_of bytes.now lexeme.now) }
    {
        let text = bytes_of(bytes, lexeme);
        match token_kind_of(lexeme.kind, text) {
            Some(sign) => self.add_token(alloc, sign, content_of(lexeme.kind, text), lexeme.start),
            None => self.add_attribute(text, lexeme.start),
        }
    }
}

/// The places of these lexemes.
fn places_of(alloc: Global, bytes: &[u8], lexemes: &[Lexeme]) -> Result<Places, Memory>
    requires { All (IsLexemeWithin (length bytes.now)) lexemes.now }
    ensures mentions { IfOk result (λ found. found.mentions.items ≡ walks.mentions_from bytes.now steps.start [] lexemes.now) }
    ensures costs { IfOk result (λ found. found.bad_costs.items ≡ places.bad_costs bytes.now lexemes.now) }
{
    let mut places = Places {
        scan: Scan::new(),
        mentions: Vec::new(alloc),
        bad_costs: Vec::new(alloc),
    };
    for lexeme in lexemes {
        places.add_lexeme(alloc, bytes, lexeme)?;
    }
    Ok(places)
}

/// The module of these lexemes with their places.
fn with_places(
    alloc: Global,
    made: Module,
    bytes: &[u8],
    lexemes: &[Lexeme],
) -> Result<PlacedModule, PlacedFault>
    requires within { All (IsLexemeWithin (length bytes.now)) lexemes.now }
    requires lexes { Lexes bytes.now lexemes.now None }
    requires file { File no_module (file_tokens bytes.now lexemes.now) made }
    ensures same { IfOk result (λ placed. placed.module ≡ made) }
    ensures places { IfOk result (ReadsPlaced bytes.now) }
    ensures fault { IfErr result (λ fault. fault ≡ faults.Memory) }
{
    match places_of(alloc, bytes, lexemes) {
        Ok(places) => Ok(PlacedModule {
            module: made,
            mentions: Sequence::from_vec(places.mentions),
            bad_costs: Sequence::from_vec(places.bad_costs),
        }),
        Err(Memory) => Err(PlacedFault::Memory),
    }
}

/// Reads the module that these lexemes spell, with places.
fn read_lexed(alloc: Global, bytes: &[u8], lexemes: &[Lexeme]) -> Result<PlacedModule, PlacedFault>
    requires short { length bytes.now < 2 ^ 31 }
    requires within { All (IsLexemeWithin (length bytes.now)) lexemes.now }
    requires lexes { Lexes bytes.now lexemes.now None }
    ensures spelled { IfOk result (λ placed. Spells bytes.now placed.module) }
    ensures places { IfOk result (ReadsPlaced bytes.now) }
    ensures fault { ReportsLexedPlace bytes.now lexemes.now result }
{
    match read_lexemes(alloc, bytes, lexemes) {
        Ok(made) => with_places(alloc, made, bytes, lexemes),
        Err(fault) => Err(fault),
    }
}

/// Reads the module that a grammar file spells, as `read_module` does, with the position of each name and string of the
/// module: the position at which its lexeme begins. The names come in the order of the text.
///
/// # Errors
///
/// `Syntax` exactly if the bytes spell no module, with the position of the fault; `read_module` reports its line.
/// `Memory` if memory ran out.
pub fn read_placed(alloc: Global, bytes: &[u8]) -> Result<PlacedModule, PlacedFault>
    requires { length bytes.now < 2 ^ 31 }
    ensures spelled { IfOk result (λ placed. Spells bytes.now placed.module) }
    ensures ready { IfOk result (λ placed. IsModuleReady placed.module) }
    ensures places { IfOk result (ReadsPlaced bytes.now) }
    ensures fault { ReportsSyntaxPlace bytes.now result }
{
    // The law that the list of lexemes is unique; the call does nothing else.
    lexemes_are_unique();
    match lex_placed(alloc, bytes) {
        Ok(lexemes) => read_lexed(alloc, bytes, lexemes.as_slice()),
        Err(fault) => Err(fault),
    }
}
