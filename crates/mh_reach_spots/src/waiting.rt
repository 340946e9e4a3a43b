//! Arrivals that wait, and arrivals that are settled. An arrival is settled when it is stored as the least one of its
//! spot.
use mh_reach_words::{StateAndNext, WordParts};

/// An arrival that waits: its spot, and the parts of its sentence.
#[derive(Clone, Copy, Drop)]
pub struct WaitingSpot {
    pub spot: StateAndNext,
    pub made: WordParts,
}

/// A settled arrival: its spot, and the cost and the number of its sentence.
#[derive(Clone, Copy, Drop)]
pub struct SettledSpot {
    pub spot: StateAndNext,
    pub cost: u32,
    pub sentence: usize,
}

/// An arrival that waits, with the number of its sentence.
#[derive(Clone, Copy, Drop)]
pub struct RankedSpot {
    pub coming: WaitingSpot,
    pub sentence: usize,
}
