//! Laws on what gives productions their levels, each the contract of an empty function.
ghost use Rattle.std.specs.Prelude.{◌≡◌, ◌<◌, ℕ, Some, length, slice_get};
ghost use Rattle.mh_grammar.specs.declared.types.Grammar.{Grammar};
ghost use Rattle.mh_grammar.specs.declared.types.Production.{Production};
ghost use Rattle.mh_inline.specs.Inlined.{IsInlined};
ghost use Rattle.mh_lint.specs.LevelSources.{GivesLevel, HasSource};
ghost use Rattle.mh_lint.specs.declared.sources.LevelSource.{LevelSource};
ghost use Rattle.mh_rules.specs.declared.instances.Expanded.{Expanded};

/// Law: each production of the grammar has a source, and only one.
pub fn productions_have_sources()
    ensures some { (e : Expanded) (g : Grammar) → IsInlined e g → (p : ℕ) → p < length g.productions →
        (source : LevelSource) × HasSource e p source }
    ensures one { (e : Expanded) (p : ℕ) (a b : LevelSource) → HasSource e p a → HasSource e p b → a ≡ b }
{}

/// Law: the level of a production is the level that its source gives.
pub fn sources_give_levels()
    ensures { (e : Expanded) (g : Grammar) → IsInlined e g → (p : ℕ) (production : Production) (source : LevelSource) →
        slice_get g.productions p ≡ Some production → HasSource e p source → GivesLevel e source production.level }
{}
