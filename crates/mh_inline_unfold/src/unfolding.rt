//! Unfoldings: producers after each inline one has been replaced by one of its alternatives.
use crate::double_ended::Deque;
use mh_rules::{Part, Prec};

/// A list of producers that are not inline, and the `%prec` of the rightmost inlined alternative that has one.
#[derive(Drop)]
pub struct Unfolding {
    pub rhs: Deque<Part>,
    pub prec: Prec,
}
