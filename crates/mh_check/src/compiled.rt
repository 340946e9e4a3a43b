//! The messages of the states of a table.
ghost use Rattle.std.specs.Prelude.{◌≡◌, ◌≤◌, ◌^◌, ◌∷◌, ◌++◌, [], length, map, filter, is_some, slice_get, MatchOption, IfOk, OnOk, Some, None};
ghost use Rattle.mh_check.specs.Compiling.{message_at, is_missing, missing};
ghost use Rattle.mh_check.specs.code.Places.{message_of_place, place_in};

use crate::places::SentencePlace;
use mh_grammar::{Memory, Sequence};
use std::alloc::Global;
use std::marker::Model;

/// A compiled messages file: for each state the message of the sentence that fails there, if there is one. All states
/// of one entry share its message. A table has at most 2^32 states.
#[derive(Drop)]
pub struct Compiled {
    places: Vec<Option<SentencePlace>>,
    messages: Vec<Sequence<u8>>,
}

impl Model for Compiled {
    ghost use Rattle.std.specs.Prelude.{◌≤◌, ◌^◌, List, ℕ, Option, length, map};
    ghost use Rattle.mh_check.specs.code.Places.{message_of_place};

    ghost Value = { List (Option (List ℕ)) };

    ghost view = { λ c. map (message_of_place c.messages.items) c.places.items };

    ghost invariant = { λ c. length (map (message_of_place c.messages.items) c.places.items) ≤ 2 ^ 32 };
}

/// Makes a compiled file of two lists: for each state the place (line and entry) of the sentence that fails there, if
/// there is one, and for each entry its message.
pub(crate) fn compiled_of(
    places: Vec<Option<SentencePlace>>,
    messages: Vec<Sequence<u8>>,
) -> Compiled
    requires { length places.items ≤ 2 ^ 32 }
    ensures { result ≡ map (message_of_place messages.items) places.items }
{
    Compiled { places, messages }
}

/// The place (line and entry) of the sentence that fails in a state, if there is one.
fn place_at(places: &[Option<SentencePlace>], state: u32) -> Option<SentencePlace>
    ensures { result ≡ place_in places.now state }
{
    match places.get(state as usize) {
        Some(place) => *place,
        None => None,
    }
}

/// The message of the entry in which the sentence at this place is.
fn message_at_place(messages: &[Sequence<u8>], place: SentencePlace) -> Option<&[u8]>
    ensures { MatchOption result (slice_get messages.now place.entry ≡ None) (λ message. slice_get messages.now place.entry ≡ Some message.now) }
{
    match messages.get(place.entry) {
        Some(message) => Some(message.as_slice()),
        None => None,
    }
}

impl Compiled {
    /// Returns the message of the entry with a sentence that fails in this state, if there is one, in constant time and
    /// without memory.
    pub fn message(&self, state: u32) -> Option<&[u8]>
        ensures { MatchOption result (message_at self.now state ≡ None) (λ message. message_at self.now state ≡ Some message.now) }
    {
        match place_at(self.places.as_slice(), state) {
            Some(place) => message_at_place(self.messages.as_slice(), place),
            None => None,
        }
    }

    /// True if the state has a message.
    fn has_message(&self, state: u32) -> bool
        ensures { result ≡ is_some (message_at self.now state) }
    {
        self.message(state).is_some()
    }

    /// The number of states of the table, also those without a message: at most 2^32.
    pub fn states(&self) -> usize
        ensures count { result ≡ length self.now }
        ensures few { result ≤ 2 ^ 32 }
    {
        self.places.len()
    }
}

/// Appends the state if the first file has a message for it and the second has none.
fn put_missing(
    states: &mut Vec<u32>,
    left: &Compiled,
    right: &Compiled,
    state: u32,
) -> Result<(), Memory>
    ensures { OnOk result (states.new.items ≡ states.old.items ++ filter (is_missing left.now right.now) (state ∷ [])) }
{
    if left.has_message(state) && !right.has_message(state) {
        states.push(state)?;
    }
    Ok(())
}

/// Returns the states for which the first file has a message and the second has none, in ascending order. Fails only if
/// memory runs out.
pub fn compare(alloc: Global, left: &Compiled, right: &Compiled) -> Result<Vec<u32>, Memory>
    ensures { IfOk result (λ states. states.items ≡ missing left.now right.now) }
{
    let mut states = Vec::new(alloc);
    for state in 0..left.states() {
        put_missing(&mut states, left, right, state as u32)?;
    }
    Ok(states)
}
