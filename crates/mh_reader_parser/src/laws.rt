//! Laws on bytes and the module that they spell.
ghost use Rattle.std.specs.Prelude.{◌≡◌, ◌↔◌, ℕ, List, Some};
ghost use Rattle.mh_rules.specs.declared.modules.Module.{Module};
ghost use Rattle.mh_reader_parser.specs.Spelling.{Spells};
ghost use Rattle.mh_reader_parser.specs.Faults.{IsSyntaxLine};
ghost use Rattle.mh_reader_parser.specs.Costs.{IsCostText, cost_of};

use mh_lex::lexemes_are_unique;

/// Law: bytes spell at most one module.
pub fn spelled_once()
    ensures { (bytes : List ℕ) (one two : Module) → Spells bytes one → Spells bytes two → one ≡ two }
{
    lexemes_are_unique();
}

/// Law: bytes that spell no module have at most one line of a syntax fault.
pub fn line_once()
    ensures { (bytes : List ℕ) (one two : ℕ) → IsSyntaxLine bytes one → IsSyntaxLine bytes two → one ≡ two }
{}

/// Law: an attribute gives a cost exactly if its text is that of a cost attribute.
pub fn cost_is_spelled()
    ensures { (text : List ℕ) (cost : ℕ) → cost_of text ≡ Some cost ↔ IsCostText text cost }
{}
