//! The spots that are reached. A spot is a state with a next token.
ghost use Rattle.std.specs.Prelude.{◌≡◌, ◌++◌, ◌∷◌, [], None, OnOk};
ghost use Rattle.mh_reach_spots.specs.code.Spots.{arrival_at};

use mh_facts::OrderedMap;
use mh_grammar::Memory;
use mh_reach_words::{Book, StateAndNext};

/// How a spot is reached: the cost of its least sentence, and the number of this sentence. The number of a sentence of
/// the highest cost has no meaning.
#[derive(Clone, Copy, Drop)]
pub struct SpotArrival {
    pub cost: u32,
    pub sentence: usize,
}

/// The spots that are reached, and the book in which their sentences are numbered.
#[derive(Drop)]
pub struct Spots {
    pub spots: OrderedMap<StateAndNext, SpotArrival>,
    pub book: Book,
}

/// The arrival at a spot, if the spot is reached.
pub fn arrival_at(spots: &Spots, spot: StateAndNext) -> Option<SpotArrival>
    ensures { result ≡ arrival_at spots.now.spots spot }
{
    spots.spots.get(&spot).copied()
}

/// Stores the arrival at a spot that was not reached before. Fails only if memory runs out.
pub(crate) fn arrive_at(
    spots: &mut Spots,
    spot: StateAndNext,
    arrival: SpotArrival,
) -> Result<(), Memory>
    requires { arrival_at spots.old.spots spot ≡ None }
    ensures spots { OnOk result (spots.new.spots ≡ spots.old.spots ++ (spot, arrival) ∷ []) }
    ensures book { OnOk result (spots.new.book ≡ spots.old.book) }
{
    spots.spots.push(spot, arrival)?;
    Ok(())
}
