//! The law that bytes spell a module or have a syntax error, as a function that does nothing and whose contract states
//! the law.
ghost use Rattle.std.specs.Prelude.{◌⊎◌, ℕ, List};
ghost use Rattle.mh_reader_parser.specs.Faults.{IsSyntaxLine};
ghost use Rattle.mh_reader_parser.specs.Spelling.{Spells};
ghost use Rattle.mh_rules.specs.declared.modules.Module.{Module};

use mh_lex::{lexed_always, lexemes_are_unique};

/// Law: all bytes spell a module, or spell none and have a line with a syntax error.
pub fn module_or_syntax_error()
    ensures { (bytes : List ℕ) →
        ((m : Module) × Spells bytes m) ⊎ ((line : ℕ) × IsSyntaxLine bytes line × ((m : Module) → Spells bytes m → ⊥)) }
{
    lexed_always();
    lexemes_are_unique();
}
