//! The numbers of a grammar's starts and tokens by name.
ghost use Rattle.std.specs.Prelude.{◌≡◌, ◌≤◌, [], length, map, IfOk, OnOk};
ghost use Rattle.mh_grammar.specs.Plain.{plain_of, IsInRange};
ghost use Rattle.mh_msgfile.specs.code.LineSteps.{AreNumbers, InsertsName};
ghost use Rattle.mh_msgfile.specs.StartNames.{start_names, only_one};
ghost use Rattle.mh_msgfile.specs.Sentences.{vocabulary_of, vocabulary_in};
ghost use Rattle.mh_grammar.specs.Limits.{max_numbered};

use mh_grammar::{Grammar, Memory, Token, TokenInfo};
use std::alloc::Global;
use std::collections::HashMap;

/// The numbers of a grammar's starts and tokens by name, made once for many lines. A start has the name of its
/// nonterminal; its number is its index among the starts. If two have the same name, the first is used.
#[derive(Drop)]
pub struct Lexicon {
    starts: HashMap<Vec<u8>, u16>,
    only_start: Option<u16>,
    tokens: HashMap<Vec<u8>, Token>,
}

/// Inserts a name with its number, if the name has no number yet.
fn put_name(
    alloc: Global,
    numbers: &mut HashMap<Vec<u8>, u16>,
    name: &[u8],
    number: u16,
) -> Result<(), Memory>
    ensures { OnOk result (InsertsName name.now number numbers.old.entries numbers.new.entries) }
{
    if numbers.get(name).is_some() {
        return Ok(());
    }
    let key = Vec::from_slice(alloc, name)?;
    numbers.insert(key, number)?;
    Ok(())
}

/// Inserts the names of the tokens. If two have the same name, the first is used.
fn number_tokens(
    alloc: Global,
    numbers: &mut HashMap<Vec<u8>, Token>,
    tokens: &[TokenInfo],
) -> Result<(), Memory>
    requires few { length tokens.now ≤ max_numbered }
    requires none { numbers.old.entries ≡ [] }
    ensures { OnOk result (AreNumbers (map (λ token. token.name) tokens.now) numbers.new.entries) }
{
    for (number, token) in tokens.iter().enumerate() {
        put_name(alloc, numbers, token.name.as_slice(), number as Token)?;
    }
    Ok(())
}

/// Inserts the names of the starts. If two have the same name, the first is used.
fn number_starts(
    alloc: Global,
    numbers: &mut HashMap<Vec<u8>, u16>,
    grammar: &Grammar,
) -> Result<(), Memory>
    requires range { IsInRange (plain_of grammar.now) }
    requires none { numbers.old.entries ≡ [] }
    ensures { OnOk result (AreNumbers (start_names grammar.now) numbers.new.entries) }
{
    for (number, start) in grammar.starts.as_slice().iter().enumerate() {
        let nonterminal = &grammar.nonterminals[usize::from(*start)];
        put_name(alloc, numbers, nonterminal.name.as_slice(), number as u16)?;
    }
    Ok(())
}

/// The number of the only start, if the grammar has exactly one.
fn only_start(grammar: &Grammar) -> Option<u16>
    ensures { result ≡ only_one (start_names grammar.now) }
{
    if grammar.starts.len() == 1 {
        Some(0)
    } else {
        None
    }
}

impl Lexicon {
    /// Collects the names of a grammar's starts and tokens. Fails only if memory runs out.
    pub fn new(alloc: Global, grammar: &Grammar) -> Result<Lexicon, Memory>
        requires { IsInRange (plain_of grammar.now) }
        ensures { IfOk result (λ lexicon. vocabulary_in lexicon ≡ vocabulary_of grammar.now) }
    {
        let mut lexicon = Lexicon {
            starts: HashMap::new(alloc),
            only_start: only_start(grammar),
            tokens: HashMap::new(alloc),
        };
        match lexicon.number(alloc, grammar) {
            Ok(()) => Ok(lexicon),
            Err(memory) => {
                drop(lexicon);
                Err(memory)
            }
        }
    }

    /// Inserts the names of the starts and the tokens.
    fn number(&mut self, alloc: Global, grammar: &Grammar) -> Result<(), Memory>
        requires range { IsInRange (plain_of grammar.now) }
        requires starts { self.old.starts.entries ≡ [] }
        requires only { self.old.only_start ≡ only_one (start_names grammar.now) }
        requires tokens { self.old.tokens.entries ≡ [] }
        ensures { OnOk result (vocabulary_in self.new ≡ vocabulary_of grammar.now) }
    {
        number_starts(alloc, &mut self.starts, grammar)?;
        number_tokens(alloc, &mut self.tokens, grammar.tokens.as_slice())
    }

    /// The number of the start with this name, from 0.
    pub fn start(&self, name: &[u8]) -> Option<u16>
        ensures { result ≡ (vocabulary_in self.now).start_named name.now }
    {
        self.starts.get(name).copied()
    }

    /// The number of the only start, if the grammar has exactly one.
    pub fn only_start(&self) -> Option<u16>
        ensures { result ≡ (vocabulary_in self.now).only_start }
    {
        self.only_start
    }

    /// The token with this name.
    pub fn token(&self, name: &[u8]) -> Option<Token>
        ensures { result ≡ (vocabulary_in self.now).token_named name.now }
    {
        self.tokens.get(name).copied()
    }
}
