//! The two kinds of names: tokens and rules.

/// Whether a name names a token or a rule.
#[derive(Clone, Copy, PartialEq, Eq)]
pub enum NameKind {
    Token,
    Rule,
}
