//! The terms of actuals: their printed names, and their numbers of arguments.
ghost use Rattle.std.specs.Prelude.{◌≡◌, ◌↔◌, ◌++◌, map, IsTrue, OnOk};
ghost use Rattle.std.specs.List.{flat_map, list_any};
ghost use Rattle.mh_expand.specs.Expansion.{HasRightArity};
ghost use Rattle.mh_expand.specs.Terms.{head_name, term_of, text as text_of_term};
ghost use Rattle.mh_lint_faults.specs.Terms as spec;
ghost use Rattle.mh_lint_faults.specs.Terms.{heads};
ghost use Rattle.mh_lint_faults.specs.code.Arguments.{arguments_text};

use mh_grammar::Memory;
use mh_rules::{Applied, Head, Joined};

/// Appends the name of a head; a formal has none.
fn write_head(text: &mut Vec<u8>, joined: &Joined, head: Head) -> Result<(), Memory>
    ensures { OnOk result (text.new.items ≡ text.old.items ++ head_name joined.now head) }
{
    match head {
        Head::Token(token) => {
            if let Some(info) = joined.tokens.get(usize::from(token)) {
                text.extend_from_slice(info.name.as_slice())?;
            }
        }
        Head::Rule(number) => {
            if let Some(rule) = joined.rules.get(number as usize) {
                text.extend_from_slice(rule.name.as_slice())?;
            }
        }
        Head::Formal(_) => {}
    }
    Ok(())
}

/// Appends the printed name of a term. The recursion is as deep as the term.
#[cycle(terms)]
pub fn write_term(text: &mut Vec<u8>, joined: &Joined, term: &Applied) -> Result<(), Memory>
    ensures { OnOk result (text.new.items ≡ text.old.items ++ text_of_term joined.now (term_of term.now)) }
{
    write_head(text, joined, term.head)?;
    write_arguments(text, joined, term.args.as_slice())
}

/// Appends the arguments of a term in brackets, if there are any.
#[cycle(terms)]
fn write_arguments(text: &mut Vec<u8>, joined: &Joined, terms: &[Applied]) -> Result<(), Memory>
    ensures { OnOk result (text.new.items ≡ text.old.items ++ arguments_text joined.now (map term_of terms.now)) }
{
    if terms.is_empty() {
        return Ok(());
    }
    let mut before = b'(';
    for term in terms {
        text.push(before)?;
        write_term(text, joined, term)?;
        before = b',';
    }
    text.push(b')')?;
    Ok(())
}

/// Returns true if the head is a formal.
fn is_formal(head: Head) -> bool
    ensures { result ≡ spec.is_formal head }
{
    matches!(head, Head::Formal(_))
}

/// Returns true if a term has formals. The recursion is as deep as the term.
#[cycle(formals)]
pub(crate) fn has_formals(term: &Applied) -> bool
    ensures { result ≡ spec.has_formals term.now }
{
    is_formal(term.head) || have_formals(term.args.as_slice())
}

#[cycle(formals)]
fn have_formals(terms: &[Applied]) -> bool
    ensures { result ≡ list_any spec.is_formal (flat_map heads terms.now) }
{
    for term in terms {
        if has_formals(term) {
            return true;
        }
    }
    false
}

/// Returns true if a term that has no formals has as many arguments as its head takes.
pub(crate) fn has_right_arity(joined: &Joined, term: &Applied) -> bool
    ensures { IsTrue result ↔ HasRightArity joined.now (term_of term.now) }
{
    match term.head {
        Head::Token(_) => term.args.is_empty(),
        Head::Rule(number) => match joined.rules.get(number as usize) {
            Some(rule) => rule.formals == term.args.len() as u64,
            None => false,
        },
        Head::Formal(_) => false,
    }
}
