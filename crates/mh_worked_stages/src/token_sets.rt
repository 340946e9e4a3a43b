//! Lookahead sets whose elements are next to the boundaries of the set's 64-bit words, unions of two sets, and the
//! number of words for a number of tokens.
ghost use Rattle.std.specs.Prelude.{◌<◌};

use mh_grammar::Look;
use mh_sets::{TokenSet, with_width};
use std::process::Abort;
use std::test::Fail;

fn check(rt: &impl Abort, found: &[bool], wanted: &[bool]) {
    assert_eq!(rt; found, wanted);
}

/// Inserts the end of the stream twice into an empty set.
fn check_end(rt: &impl Abort, set: &mut TokenSet<2>) {
    let found = [
        set.first().is_none(),
        set.insert(Look::End),
        set.insert(Look::End),
        set.first() == Some(Look::End),
    ];
    check(rt, &found, &[true, true, false, true]);
}

/// Inserts twice a token that is new and lower than all others.
fn check_token(rt: &impl Abort, set: &mut TokenSet<2>, number: u16)
    requires { number < 128 }
{
    let look = Look::Token(number);
    let found = [
        set.contains(look),
        set.insert(look),
        set.insert(look),
        set.contains(look),
        set.first() == Some(look),
    ];
    check(rt, &found, &[false, true, false, true, true]);
}

/// Returns true if a set consists of exactly these looks.
fn are_looks(set: &TokenSet<2>, looks: &[Look]) -> bool {
    let mut left = set.copied();
    for look in looks {
        if left.take_first() != Some(*look) {
            return false;
        }
    }
    left.first().is_none()
}

#[test]
fn edges_of_words(rt: HostRuntime) {
    let mut set = TokenSet::<2>::empty();
    check_end(&rt, &mut set);
    for number in [127u16, 64, 63, 0] {
        check_token(&rt, &mut set, number % 128);
    }
    let looks = [
        Look::Token(0),
        Look::Token(63),
        Look::Token(64),
        Look::Token(127),
        Look::End,
    ];
    let found = [
        set.contains(Look::Token(1)),
        set.contains(Look::Token(65)),
        are_looks(&set, &looks),
    ];
    check(&rt, &found, &[false, false, true]);
}

/// Adds another set to a set twice, and checks before and after whether they meet and which is a subset of which.
fn check_union(rt: &impl Abort, set: &mut TokenSet<8>, other: &TokenSet<8>) {
    let found = [
        set.meets(other),
        other.is_subset(set),
        set.union_into(other),
        set.union_into(other),
        set.meets(other),
        other.is_subset(set),
        set.is_subset(other),
    ];
    check(rt, &found, &[false, false, true, false, true, true, false]);
}

#[test]
fn sets_beside_each_other(rt: HostRuntime) {
    let end = TokenSet::<8>::only(Look::End);
    let empty = TokenSet::<8>::empty();
    let mut both = TokenSet::<8>::only(Look::Token(3));
    check_union(&rt, &mut both, &TokenSet::only(Look::Token(511)));
    check_union(&rt, &mut both, &end);
    let found = [empty.is_subset(&end), empty.meets(&both)];
    check(&rt, &found, &[true, false]);
}

fn words<const W: usize>() -> usize {
    W
}

fn words_for(tokens: usize) -> usize {
    with_width!(tokens; words;;)
}

#[test]
fn widths(rt: HostRuntime) {
    let rows: [(usize, usize); 12] = [
        (0, 1),
        (64, 1),
        (65, 2),
        (128, 2),
        (129, 3),
        (192, 3),
        (193, 4),
        (256, 4),
        (257, 5),
        (384, 6),
        (448, 7),
        (512, 8),
    ];
    for (tokens, wanted) in rows {
        assert_eq!(rt; words_for(tokens), wanted, "{tokens}");
    }
}
