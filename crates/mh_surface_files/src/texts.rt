//! Texts for readers: an automaton with its table, and warnings.
ghost use Rattle.mh_grammar.specs.Plain.{plain_of, IsInRange};
ghost use Rattle.mh_items_kernels.specs.Automaton.{IsAutomaton};
ghost use Rattle.mh_resolve_cells.specs.States.{IsTableOf};
ghost use Rattle.mh_resolve_cells.specs.declared.kinds.Mode.TheVariants.{Merged};

use mh_grammar::{Grammar, Look};
use mh_items::Automaton;
use mh_report::{automaton_text, warning_text};
use mh_resolve::{Conflict, ConflictKind, Mode};
use mh_surface::{A, EOF};
use mh_tables::Halting;
use std::alloc::Global;
use std::process::Abort;
use std::test::Fail;

/// The automaton as `--show-automaton` prints it.
const AUTOMATON: &str = "merged: 4 states
state 0
  s' -> . s [ # ]
  A: shift 1
  s: goto 2
state 1
  s -> A . EOF [ # ]
  EOF: shift 3
state 2
  s' -> s . [ # ]
  default: accept
state 3
  s -> A EOF . [ # ]
  default: reduce s -> A EOF
";

/// An automaton and its table as text for readers.
pub fn automaton_as_text(
    rt: &impl Abort,
    alloc: Global,
    grammar: &Grammar,
    automaton: &Automaton<1>,
    table: &Halting,
) -> Result<(), Fail>
    requires range { IsInRange (plain_of grammar.now) }
    requires automaton { IsAutomaton (plain_of grammar.now) automaton.now }
    requires table { IsTableOf grammar.now automaton.now Merged table.now }
{
    let text = automaton_text(alloc, grammar, automaton, table, Mode::Merged)?;
    check_written(rt, text, AUTOMATON);
    Ok(())
}

/// Fails if a text is not the wanted one.
pub fn check_written(rt: &impl Abort, text: Vec<u8>, wanted: &str) {
    assert_eq!(rt; str::from_utf8(&text).ok(), Some(wanted));
}

/// A conflict that levels solve is not reported.
pub fn warnings(rt: &impl Abort, alloc: Global, grammar: &Grammar) -> Result<(), Fail> {
    let conflicts = [
        Conflict {
            state: 1,
            look: Look::Token(EOF),
            kind: ConflictKind::Solved,
        },
        Conflict {
            state: 5,
            look: Look::Token(A),
            kind: ConflictKind::Unsolved,
        },
        Conflict {
            state: 6,
            look: Look::End,
            kind: ConflictKind::Stream,
        },
    ];
    let text = warning_text(alloc, grammar, &conflicts)?;
    let wanted = "menhir: warning: conflict in state 5 on A\n\
        menhir: warning: end-of-stream conflict in state 6\n";
    check_written(rt, text, wanted);
    Ok(())
}
