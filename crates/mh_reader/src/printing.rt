//! The text of a module.
ghost use Rattle.std.specs.Prelude.{◌≡◌, ◌++◌, ◌∷◌, [], ◌≢◌, ℕ, List, Result, IfOk, OnOk, map, codes};
ghost use Rattle.std.specs.List.{flat_map};
ghost use Rattle.mh_reader_parser.specs.code.Pieces.{word, quoted, ref_piece, actual_pieces};
ghost use Rattle.mh_reader.specs.code.Printed.{Writes, keyword, prec_pieces, alternative_pieces, modifier_pieces, formals_pieces, rule_pieces, alias_pieces, cost_pieces, token_pieces, start_pieces, assoc_word, level_pieces, on_error_pieces, module_pieces};
ghost use Rattle.mh_lex.specs.declared.kinds.SyntaxFault.{SyntaxFault};
ghost use Rattle.mh_lex.specs.declared.kinds.SyntaxFault.TheVariants as faults;
ghost use Rattle.mh_rules.specs.declared.modules.Module.{Module};
ghost use Rattle.mh_rules.specs.Ready.{IsModuleReady};
ghost use Rattle.mh_reader_parser.specs.Spelling.{Spells};
ghost use Rattle.mh_reader_parser.specs.Faults.{IsReadResult};

use mh_grammar::{Assoc, Memory, Name, Sequence};
use mh_reader_parser::spelled_once;
use mh_rules::{Actual, Alternative, LevelDecl, Module, Ref, Rule, TokenDecl};
use std::alloc::Global;

/// Writes a lexeme and a space.
fn write_lexeme(text: &mut Vec<u8>, lexeme: &[u8]) -> Result<(), Memory>
    ensures { OnOk result (text.new.items ≡ text.old.items ++ (lexeme.now ++ 32 ∷ [])) }
{
    text.extend_from_slice(lexeme)?;
    text.push(b' ')?;
    Ok(())
}

/// Writes a string in its quotes.
fn write_quoted(text: &mut Vec<u8>, content: &[u8]) -> Result<(), Memory>
    ensures { OnOk result (Writes text.old.items text.new.items (quoted content.now ∷ [])) }
{
    text.push(b'"')?;
    text.extend_from_slice(content)?;
    write_lexeme(text, b"\"")
}

fn write_ref(text: &mut Vec<u8>, reference: &Ref) -> Result<(), Memory>
    ensures { OnOk result (Writes text.old.items text.new.items (ref_piece reference.now ∷ [])) }
{
    match reference {
        Ref::Plain(name) => write_lexeme(text, name.as_slice()),
        Ref::Alias(content) => write_quoted(text, content.as_slice()),
    }
}

/// Writes an actual's head, and its arguments in brackets.
fn write_actual(text: &mut Vec<u8>, actual: &Actual) -> Result<(), Memory>
    ensures { OnOk result (Writes text.old.items text.new.items (actual_pieces actual.now)) }
{
    write_ref(text, &actual.head)?;
    let Some((first, others)) = actual.args.as_slice().split_first() else {
        return Ok(());
    };
    write_lexeme(text, b"(")?;
    write_actual(text, first)?;
    for other in others {
        write_lexeme(text, b",")?;
        write_actual(text, other)?;
    }
    write_lexeme(text, b")")?;
    Ok(())
}

#[tactic(auto, using(crate::proofs::PrintedText::laid_out_append))]
fn write_actuals(text: &mut Vec<u8>, actuals: &[Actual]) -> Result<(), Memory>
    ensures { OnOk result (Writes text.old.items text.new.items (flat_map actual_pieces actuals.now)) }
{
    for actual in actuals {
        write_actual(text, actual)?;
    }
    Ok(())
}

fn write_prec(text: &mut Vec<u8>, prec: &Option<Ref>) -> Result<(), Memory>
    ensures { OnOk result (Writes text.old.items text.new.items (prec_pieces prec.now)) }
{
    let Some(reference) = prec else {
        return Ok(());
    };
    write_lexeme(text, b"%prec")?;
    write_ref(text, reference)?;
    Ok(())
}

/// Writes an alternative as a group by itself, after a bar.
#[tactic(auto, using(crate::proofs::PrintedText::laid_out_append))]
fn write_alternative(text: &mut Vec<u8>, alternative: &Alternative) -> Result<(), Memory>
    ensures { OnOk result (Writes text.old.items text.new.items (alternative_pieces alternative.now)) }
{
    write_lexeme(text, b"|")?;
    write_actuals(text, alternative.producers.as_slice())?;
    write_prec(text, &alternative.prec)?;
    write_lexeme(text, b"{}")?;
    Ok(())
}

#[tactic(auto, using(crate::proofs::PrintedText::laid_out_append))]
fn write_alternatives(text: &mut Vec<u8>, alternatives: &[Alternative]) -> Result<(), Memory>
    ensures { OnOk result (Writes text.old.items text.new.items (flat_map alternative_pieces alternatives.now)) }
{
    for alternative in alternatives {
        write_alternative(text, alternative)?;
    }
    Ok(())
}

fn write_modifiers(text: &mut Vec<u8>, rule: &Rule) -> Result<(), Memory>
    ensures { OnOk result (Writes text.old.items text.new.items
        (modifier_pieces rule.now.public (codes "public") ++ modifier_pieces rule.now.inlined (codes "inline"))) }
{
    if rule.public {
        write_lexeme(text, b"%public")?;
    }
    if rule.inlined {
        write_lexeme(text, b"%inline")?;
    }
    Ok(())
}

#[tactic(auto, using(crate::proofs::PrintedText::laid_out_append))]
fn write_formals(text: &mut Vec<u8>, formals: &[Name]) -> Result<(), Memory>
    ensures { OnOk result (Writes text.old.items text.new.items (formals_pieces formals.now)) }
{
    let Some((first, others)) = formals.split_first() else {
        return Ok(());
    };
    write_lexeme(text, b"(")?;
    write_lexeme(text, first.as_slice())?;
    for other in others {
        write_lexeme(text, b",")?;
        write_lexeme(text, other.as_slice())?;
    }
    write_lexeme(text, b")")?;
    Ok(())
}

#[tactic(auto, using(crate::proofs::PrintedText::laid_out_append))]
fn write_rule(text: &mut Vec<u8>, rule: &Rule) -> Result<(), Memory>
    ensures { OnOk result (Writes text.old.items text.new.items (rule_pieces rule.now)) }
{
    write_modifiers(text, rule)?;
    write_lexeme(text, rule.name.as_slice())?;
    write_formals(text, rule.formals.as_slice())?;
    write_lexeme(text, b":")?;
    write_alternatives(text, rule.alternatives.as_slice())?;
    Ok(())
}

#[tactic(auto, using(crate::proofs::PrintedText::laid_out_append))]
fn write_rules(text: &mut Vec<u8>, rules: &[Rule]) -> Result<(), Memory>
    ensures { OnOk result (Writes text.old.items text.new.items (flat_map rule_pieces rules.now)) }
{
    for rule in rules {
        write_rule(text, rule)?;
    }
    Ok(())
}

fn write_alias(text: &mut Vec<u8>, alias: &Option<Name>) -> Result<(), Memory>
    ensures { OnOk result (Writes text.old.items text.new.items (alias_pieces alias.now)) }
{
    match alias {
        Some(alias) => write_quoted(text, alias.as_slice()),
        None => Ok(()),
    }
}

fn write_cost(alloc: Global, text: &mut Vec<u8>, cost: Option<u32>) -> Result<(), Memory>
    ensures { OnOk result (Writes text.old.items text.new.items (cost_pieces cost)) }
{
    let Some(cost) = cost else {
        return Ok(());
    };
    let number = format!(in alloc; "{cost}")?;
    text.extend_from_slice(b"[@cost ")?;
    text.extend_from_slice(number.as_bytes())?;
    write_lexeme(text, b"]")
}

/// Writes a token's declaration, with its alias and its cost, if it has them.
#[tactic(auto, using(crate::proofs::PrintedText::laid_out_append))]
fn write_token(alloc: Global, text: &mut Vec<u8>, token: &TokenDecl) -> Result<(), Memory>
    ensures { OnOk result (Writes text.old.items text.new.items (token_pieces token.now)) }
{
    write_lexeme(text, b"%token")?;
    write_lexeme(text, token.name.as_slice())?;
    write_alias(text, &token.alias)?;
    write_cost(alloc, text, token.cost)
}

#[tactic(auto, using(crate::proofs::PrintedText::laid_out_append))]
fn write_tokens(alloc: Global, text: &mut Vec<u8>, tokens: &[TokenDecl]) -> Result<(), Memory>
    ensures { OnOk result (Writes text.old.items text.new.items (flat_map token_pieces tokens.now)) }
{
    for token in tokens {
        write_token(alloc, text, token)?;
    }
    Ok(())
}

#[tactic(auto, using(crate::proofs::PrintedText::laid_out_append))]
fn write_starts(text: &mut Vec<u8>, starts: &[Name]) -> Result<(), Memory>
    ensures { OnOk result (Writes text.old.items text.new.items (flat_map start_pieces starts.now)) }
{
    for start in starts {
        write_lexeme(text, b"%start")?;
        write_lexeme(text, start.as_slice())?;
    }
    Ok(())
}

fn assoc_keyword(assoc: Assoc) -> &'static [u8]
    ensures { result.now ≡ 37 ∷ assoc_word assoc }
{
    match assoc {
        Assoc::Left => b"%left",
        Assoc::Right => b"%right",
        Assoc::Nonassoc => b"%nonassoc",
    }
}

#[tactic(auto, using(crate::proofs::PrintedText::laid_out_append))]
fn write_level(text: &mut Vec<u8>, level: &LevelDecl) -> Result<(), Memory>
    ensures { OnOk result (Writes text.old.items text.new.items (level_pieces level.now)) }
{
    write_lexeme(text, assoc_keyword(level.assoc))?;
    for name in level.names.as_slice() {
        write_ref(text, name)?;
    }
    Ok(())
}

#[tactic(auto, using(crate::proofs::PrintedText::laid_out_append))]
fn write_levels(text: &mut Vec<u8>, levels: &[LevelDecl]) -> Result<(), Memory>
    ensures { OnOk result (Writes text.old.items text.new.items (flat_map level_pieces levels.now)) }
{
    for level in levels {
        write_level(text, level)?;
    }
    Ok(())
}

#[tactic(auto, using(crate::proofs::PrintedText::laid_out_append))]
fn write_on_error(text: &mut Vec<u8>, lists: &[Sequence<Actual>]) -> Result<(), Memory>
    ensures { OnOk result (Writes text.old.items text.new.items (flat_map on_error_pieces lists.now)) }
{
    for list in lists {
        write_lexeme(text, b"%on_error_reduce")?;
        write_actuals(text, list.as_slice())?;
    }
    Ok(())
}

/// Writes a declaration for each token, start, level and list of `%on_error_reduce`, and after them the rules.
#[tactic(auto, using(crate::proofs::PrintedText::laid_out_append))]
fn write_module(alloc: Global, text: &mut Vec<u8>, module: &Module) -> Result<(), Memory>
    ensures { OnOk result (Writes text.old.items text.new.items (module_pieces «module».now)) }
{
    write_tokens(alloc, text, module.tokens.as_slice())?;
    write_starts(text, module.starts.as_slice())?;
    write_levels(text, module.levels.as_slice())?;
    write_on_error(text, module.on_error.as_slice())?;
    write_lexeme(text, b"%%")?;
    write_rules(text, module.rules.as_slice())?;
    Ok(())
}

/// Returns bytes that spell the module, provided that some bytes spell it; `read_module` reads it again from them.
/// Every module that bytes spell meets the precondition, by which the recursion over actuals is at most `MAX_DEPTH`
/// deep. It fails only if memory runs out.
pub fn print_module(alloc: Global, module: &Module) -> Result<Vec<u8>, Memory>
    requires { IsModuleReady «module».now }
    ensures spelled { IfOk result (λ text. (bytes : List ℕ) → Spells bytes «module».now → Spells text.items «module».now) }
    ensures again { IfOk result (λ text. (bytes : List ℕ) → Spells bytes «module».now → (answer : Result Module SyntaxFault)
        → IsReadResult text.items answer → answer ≢ Err faults.Memory → answer ≡ Ok «module».now) }
{
    spelled_once();
    let mut text = Vec::new(alloc);
    write_module(alloc, &mut text, module)?;
    Ok(text)
}
