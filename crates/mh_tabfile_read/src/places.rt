//! The state of the reader.
use mh_grammar::{Name, Sequence};
use mh_resolve_cells::Mode;
use mh_tabfile_form::{RawCell, RawEdge, RawItem, RawProduction, RawState};

/// The kinds of lines by their first word.
#[derive(Clone, Copy)]
pub(crate) enum LineKind {
    Head,
    Tokens,
    Costs,
    Starts,
    Productions,
    States,
    State,
    Item,
    Edge,
    Cell,
    Default,
    End,
    Other,
}

/// Which line may come next. The number in a variant counts the productions or states that are still to come.
#[derive(Clone, Copy)]
pub(crate) enum ExpectedLine {
    Head,
    Tokens,
    Costs,
    Starts,
    Productions,
    Listing(u32),
    Between(u32),
    Items(u32),
    Edges(u32),
    Cells(u32),
    Ended,
}

/// The content read so far, with the parts of the open state, and which line may come next.
#[derive(Drop)]
pub(crate) struct Reader {
    pub(crate) mode: Mode,
    pub(crate) tokens: Sequence<Name>,
    pub(crate) costs: Option<Sequence<u32>>,
    pub(crate) starts: Sequence<Name>,
    pub(crate) productions: Sequence<RawProduction>,
    pub(crate) states: Sequence<RawState>,
    pub(crate) items: Sequence<RawItem>,
    pub(crate) edges: Sequence<RawEdge>,
    pub(crate) cells: Sequence<RawCell>,
    pub(crate) place: ExpectedLine,
}
