//! What gives productions their precedence levels: the rules are inlined once more, with sources in place of levels
//! (`level_sources`).
ghost use Rattle.std.specs.Prelude.{◌≡◌, map, IfOk};
ghost use Rattle.std.specs.List.{enumerate_from};
ghost use Rattle.mh_grammar.specs.declared.types.Grammar.{Grammar as GrammarOf};
ghost use Rattle.mh_inline.specs.Faults.{IsNotMemory};
ghost use Rattle.mh_inline.specs.GrammarOfInstances.{IsGrammarOf};
ghost use Rattle.mh_inline.specs.Inlined.{IsInlined};
ghost use Rattle.mh_rules.specs.Ready.{IsExpandedReady};
ghost use Rattle.mh_lint.specs.LevelSources as spec;

use mh_grammar::{Assoc, Level, Memory, Production, Sequence, TokenInfo};
use mh_inline::{InlineFault, inline_rules};
use mh_rules::{Expanded, Instance, InstanceProduction, Prec};
use std::alloc::Global;

/// What gives a production its level, if something does.
#[derive(Clone, Copy)]
pub(crate) enum LevelSource {
    None,
    /// Its last token.
    Token(u64),
    /// The `%prec` of this alternative of a file; files are counted from 1, and the prelude is file 0.
    Prec { file: u64, alternative: u64 },
}

/// The level that represents a token as a source: `rank` has the token, and `Left` marks it as a token. It is never
/// compared with another level.
fn token_source(token: u64) -> Level
    ensures { result ≡ spec.token_source token }
{
    Level {
        file: 0,
        rank: token,
        assoc: Assoc::Left,
    }
}

/// The level that represents the `%prec` of an alternative as a source; `Right` marks it as a `%prec`. It is never
/// compared with another level.
fn prec_source(file: u64, alternative: u64) -> Level
    ensures { result ≡ spec.prec_source file alternative }
{
    Level {
        file,
        rank: alternative,
        assoc: Assoc::Right,
    }
}

/// The tokens, each with its source as its level.
fn source_tokens(alloc: Global, tokens: &[TokenInfo]) -> Result<Sequence<TokenInfo>, Memory>
    ensures { IfOk result (λ sources. sources ≡ map spec.source_token (enumerate_from 0 tokens.now)) }
{
    let mut sources = Sequence::new(alloc);
    for (number, token) in tokens.iter().enumerate() {
        sources.push(TokenInfo {
            name: token.name.clone()?,
            level: Some(token_source(number as u64)),
            cost: token.cost,
        })?;
    }
    Ok(sources)
}

/// The `%prec` of an alternative as a source.
fn source_prec(file: u64, alternative: u64, prec: Prec) -> Prec
    ensures { result ≡ spec.source_prec file alternative prec }
{
    match prec {
        Prec::Absent => Prec::Absent,
        Prec::Given(_) => Prec::Given(Some(prec_source(file, alternative))),
    }
}

/// A production with its source as the level of its `%prec`.
fn source_production(production: &InstanceProduction) -> Result<InstanceProduction, Memory>
    ensures { IfOk result (λ source. source ≡ spec.source_production production.now) }
{
    Ok(InstanceProduction {
        file: production.file,
        place: production.place,
        rhs: production.rhs.clone()?,
        prec: source_prec(production.file, production.place, production.prec),
    })
}

/// Productions with their sources.
fn source_productions(
    alloc: Global,
    productions: &[InstanceProduction],
) -> Result<Sequence<InstanceProduction>, Memory>
    ensures { IfOk result (λ sources. sources ≡ map spec.source_production productions.now) }
{
    let mut sources = Sequence::new(alloc);
    for production in productions {
        sources.push(source_production(production)?)?;
    }
    Ok(sources)
}

/// An instance with the sources of its productions.
fn source_instance(alloc: Global, instance: &Instance) -> Result<Instance, Memory>
    ensures { IfOk result (λ source. source ≡ spec.source_instance instance.now) }
{
    Ok(Instance {
        name: instance.name.clone()?,
        inlined: instance.inlined,
        on_error: instance.on_error,
        productions: source_productions(alloc, instance.productions.as_slice())?,
    })
}

/// The instances with the sources of their productions.
fn source_instances(alloc: Global, instances: &[Instance]) -> Result<Sequence<Instance>, Memory>
    ensures { IfOk result (λ sources. sources ≡ map spec.source_instance instances.now) }
{
    let mut sources = Sequence::new(alloc);
    for instance in instances {
        sources.push(source_instance(alloc, instance)?)?;
    }
    Ok(sources)
}

/// The expanded rules with the sources of levels in place of the levels.
fn with_sources(alloc: Global, expanded: &Expanded) -> Result<Expanded, Memory>
    ensures { IfOk result (λ sources. sources ≡ spec.with_sources expanded.now) }
{
    Ok(Expanded {
        tokens: source_tokens(alloc, expanded.tokens.as_slice())?,
        starts: expanded.starts.clone()?,
        instances: source_instances(alloc, expanded.instances.as_slice())?,
    })
}

/// The source that a level of this associativity represents.
fn source_by(assoc: Assoc, file: u64, rank: u64) -> LevelSource
    ensures { result ≡ spec.source_by assoc file rank }
{
    match assoc {
        Assoc::Left => LevelSource::Token(rank),
        Assoc::Right => LevelSource::Prec {
            file,
            alternative: rank,
        },
        Assoc::Nonassoc => LevelSource::None,
    }
}

/// The source that this level represents.
fn source_in(level: Option<Level>) -> LevelSource
    ensures { result ≡ spec.source_in level }
{
    match level {
        None => LevelSource::None,
        Some(level) => source_by(level.assoc, level.file, level.rank),
    }
}

/// The sources that the levels of productions represent.
fn sources_in(alloc: Global, productions: &[Production]) -> Result<Vec<LevelSource>, Memory>
    ensures { IfOk result (λ sources. sources.items ≡ map (λ p. spec.source_in p.level) productions.now) }
{
    let mut sources = Vec::with_capacity(alloc, productions.len())?;
    for production in productions {
        sources.push(source_in(production.level))?;
    }
    Ok(sources)
}

/// The lack of memory, where there can be no other fault.
fn only_memory(fault: &InlineFault) -> Memory
    requires { IsNotMemory fault.now → ⊥ }
{
    let _fault = fault;
    Memory
}

/// For each ordinary production of the grammar what gives it its level. Inlining treats all levels alike: so the
/// sources are the levels of the grammar that inlining gives for the sources in place of the levels. Fails only if
/// memory runs out: the instances have a grammar, and their faults do not depend on their levels.
pub(crate) fn level_sources(alloc: Global, expanded: &Expanded) -> Result<Vec<LevelSource>, Memory>
    requires ready { IsExpandedReady expanded.now }
    requires accepted { (g : GrammarOf) × IsGrammarOf expanded.now g }
    ensures { IfOk result (λ sources. (g : GrammarOf) × IsInlined (spec.with_sources expanded.now) g × (sources.items ≡ spec.sources_in g)) }
{
    let sources = with_sources(alloc, expanded)?;
    match inline_rules(alloc, &sources) {
        Ok(grammar) => sources_in(alloc, grammar.productions.as_slice()),
        Err(fault) => Err(only_memory(&fault)),
    }
}
