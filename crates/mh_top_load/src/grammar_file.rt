//! Grammar files: the module that the bytes of a file spell.
ghost use Rattle.std.specs.Prelude.{◌≡◌, ◌<◌, ◌^◌, ◌++◌, length, IfOk, codes, decimal, string_bytes};
ghost use Rattle.mh_top_load.specs.GrammarFile.{IsModule};
ghost use Rattle.mh_top_load.specs.Texts.{syntax_error};
ghost use Rattle.mh_top_drive.specs.code.StageCalls.{StopsWith, StageGives};
ghost use Rattle.mh_top_drive.specs.declared.stop.Cause.TheVariants.{Refused};

use mh_lex::SyntaxFault;
use mh_reader_parser::Module;
use mh_reader_places::read_module;
use mh_top_drive::{FileFormat, Stop, refused};
use std::alloc::{AllocError, Global};

/// The form of grammar files: their content is a module.
pub(crate) struct GrammarFiles;

/// The part of the refusal after the name of the file.
fn place_of(alloc: Global, line: u32) -> Result<String, AllocError>
    ensures { IfOk result (λ text.
        string_bytes text ≡ codes ":" ++ (decimal line ++ codes ": syntax error\n")) }
{
    format!(in alloc; ":{line}: syntax error\n")
}

/// The refusal of a file that spells no module, with the line of the syntax fault, from 1.
fn no_module(alloc: Global, name: &[u8], line: u32) -> Stop
    ensures { StopsWith (Refused (syntax_error name.now line)) result }
{
    match place_of(alloc, line) {
        Ok(place) => refused(alloc, b"menhir: ", name, place.as_bytes()),
        Err(_) => Stop::OutOfMemory,
    }
}

/// The module that the bytes of the named file spell, or the refusal of the file.
pub(crate) fn module_in(alloc: Global, name: &[u8], bytes: &[u8]) -> Result<Module, Stop>
    requires { length bytes.now < 2 ^ 31 }
    ensures { StageGives (IsModule name.now bytes.now) result }
{
    match read_module(alloc, bytes) {
        Ok(made) => Ok(made),
        Err(SyntaxFault::Syntax { line }) => Err(no_module(alloc, name, line)),
        Err(SyntaxFault::Memory) => Err(Stop::OutOfMemory),
    }
}

impl FileFormat<Module> for GrammarFiles {
    ghost use Rattle.mh_top_load.specs.GrammarFile.{IsModule};

    ghost Spells = { λ s. IsModule };

    fn spell(&self, alloc: Global, name: &[u8], bytes: Vec<u8>) -> Result<Module, Stop> {
        module_in(alloc, name, bytes.as_slice())
    }
}
