//! Reads the module of a grammar file, without places: a fault has the line of its position.
ghost use Rattle.std.specs.Prelude.{◌≡◌, ◌<◌, ◌^◌, length, IfOk};
ghost use Rattle.mh_lex.specs.Lexing.{IsPlaceWithin};
ghost use Rattle.mh_rules.specs.Ready.{IsModuleReady};
ghost use Rattle.mh_reader_parser.specs.Spelling.{Spells};
ghost use Rattle.mh_reader_parser.specs.Faults.{line_fault, ReportsSyntaxLine};

use mh_lex::{PlacedFault, SyntaxFault, lex, lexemes_are_unique, line_of};
use mh_reader_parser::read_lexemes;
use mh_rules::Module;
use std::alloc::Global;

/// The fault with the line of its position.
fn with_line(bytes: &[u8], fault: PlacedFault) -> SyntaxFault
    requires short { length bytes.now < 2 ^ 31 }
    requires within { IsPlaceWithin (length bytes.now) fault }
    ensures { result ≡ line_fault bytes.now fault }
{
    match fault {
        PlacedFault::Syntax { place } => SyntaxFault::Syntax {
            line: line_of(bytes, place),
        },
        PlacedFault::Memory => SyntaxFault::Memory,
    }
}

/// Reads the module that a grammar file spells (Menhir manual, syntax of grammars, of which this project supports a
/// part). Each rule of the module has an alternative. The depth of an actual is at most 1,000: it is 1 without
/// arguments, or one more than that of the deepest argument, and one more for each suffix.
///
/// # Errors
///
/// `Syntax` exactly if the bytes spell no module, with a line, from 1: the line on which the first text begins that is
/// not a lexeme or comment, or is not closed; if there is none, the line of the first lexeme such that no file begins
/// with the lexemes up to it; if the file ends too early, one more than the number of its line feeds. `Memory` if
/// memory ran out.
pub fn read_module(alloc: Global, bytes: &[u8]) -> Result<Module, SyntaxFault>
    requires { length bytes.now < 2 ^ 31 }
    ensures spelled { IfOk result (λ m. Spells bytes.now m) }
    ensures ready { IfOk result IsModuleReady }
    ensures fault { ReportsSyntaxLine bytes.now result }
{
    // The law that the list of lexemes is unique; the call does nothing else.
    lexemes_are_unique();
    match lex(alloc, bytes) {
        Ok(lexemes) => match read_lexemes(alloc, bytes, lexemes.as_slice()) {
            Ok(made) => Ok(made),
            Err(fault) => Err(with_line(bytes, fault)),
        },
        Err(SyntaxFault::Syntax { line }) => Err(SyntaxFault::Syntax { line }),
        Err(SyntaxFault::Memory) => Err(SyntaxFault::Memory),
    }
}
