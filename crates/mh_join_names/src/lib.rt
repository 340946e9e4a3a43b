//! The definition of joining the files of a grammar, and hash tables with the meanings of their names.
#![tactic(auto)]

mod aliases;
mod fault;
mod formals;
mod kinds;
mod maps;
mod name_list;
mod names;
mod numbering;
mod outlines;
mod publics;

pub use aliases::{Aliases, name_by};
pub use fault::JoinFault;
pub use formals::{Formals, formals_of};
pub use kinds::NameKind;
pub use maps::{put_first, put_name};
pub use name_list::NameList;
pub use names::{Costs, DefiningFiles, DefiningFilesOf, Levels, NameKinds, SymbolTables};
pub use numbering::Numbering;
pub use outlines::Outline;
pub use publics::{is_public, marked_public, owner_in};
