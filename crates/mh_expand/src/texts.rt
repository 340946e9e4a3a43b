//! The printed names of terms.
ghost use Rattle.std.specs.Prelude.{◌≡◌, ◌<◌, ◌≤◌, ◌++◌, length, take, IfOk, OnOk};
ghost use Rattle.mh_expand.specs.Terms.{head_name};
ghost use Rattle.mh_expand.specs.Terms as spec;
ghost use Rattle.mh_expand.specs.code.SharedTerms.{terms_of, term_at};
ghost use Rattle.mh_expand.specs.code.InstanceSearch.{IsTextWithin};

use crate::terms::Terms;
use mh_grammar::{Memory, Name, from_bytes};
use mh_rules::{Head, Joined};
use std::alloc::Global;

/// The text of a term, if it has at most this number of bytes.
pub(crate) fn text_within(
    alloc: Global,
    joined: &Joined,
    terms: &Terms,
    number: usize,
    most: usize,
) -> Result<Option<Name>, Memory>
    requires number { number < length (terms_of terms.now.nodes.keys) }
    requires most { most < usize.MAX }
    ensures { IfOk result (IsTextWithin most (spec.text joined.now (term_at (terms_of terms.now.nodes.keys) number))) }
{
    let mut text = Vec::new(alloc);
    write_term(&mut text, most + 1, joined, terms, number)?;
    if text.len() > most {
        return Ok(None);
    }
    Ok(Some(from_bytes(alloc, text.as_slice())?))
}

/// Appends the text of a term, as far as there is room. The depth of the recursion is bounded: an actual is at most
/// `MAX_DEPTH` deep, and a term that replaces a formal in the actual is an argument of an instance. The name of an
/// instance has at most `MAX_NAME` bytes, and each level of an argument takes at least one of them.
fn write_term(
    text: &mut Vec<u8>,
    room: usize,
    joined: &Joined,
    terms: &Terms,
    number: usize,
) -> Result<(), Memory>
    requires number { number < length (terms_of terms.now.nodes.keys) }
    requires within { length text.old.items ≤ room }
    ensures { OnOk result (text.new.items
        ≡ take room
        (text.old.items ++ spec.text joined.now (term_at (terms_of terms.now.nodes.keys) number))) }
{
    if text.len() >= room {
        return Ok(());
    }
    let node = terms.at(number);
    write_head(text, room, joined, node.head)?;
    for (place, arg) in node.args.as_slice().iter().enumerate() {
        let separator = if place == 0 { b"(" } else { b"," };
        write_bytes(text, room, separator)?;
        write_term(text, room, joined, terms, *arg)?;
    }
    if !node.args.is_empty() {
        write_bytes(text, room, b")")?;
    }
    Ok(())
}

/// Appends the name of a token or rule, as far as there is room.
fn write_head(text: &mut Vec<u8>, room: usize, joined: &Joined, head: Head) -> Result<(), Memory>
    requires { length text.old.items ≤ room }
    ensures { OnOk result (text.new.items ≡ take room (text.old.items ++ head_name joined.now head)) }
{
    match head {
        Head::Token(token) => {
            if let Some(info) = joined.tokens.get(usize::from(token)) {
                write_bytes(text, room, info.name.as_slice())?;
            }
        }
        Head::Rule(place) => {
            if let Some(rule) = joined.rules.get(place as usize) {
                write_bytes(text, room, rule.name.as_slice())?;
            }
        }
        Head::Formal(_) => {}
    }
    Ok(())
}

/// Appends bytes, as far as there is room.
fn write_bytes(text: &mut Vec<u8>, room: usize, bytes: &[u8]) -> Result<(), Memory>
    requires { length text.old.items ≤ room }
    ensures { OnOk result (text.new.items ≡ take room (text.old.items ++ bytes.now)) }
{
    let left = room - text.len();
    if bytes.len() <= left {
        text.extend_from_slice(bytes)?;
        return Ok(());
    }
    text.extend_from_slice(&bytes[..left])?;
    Ok(())
}
