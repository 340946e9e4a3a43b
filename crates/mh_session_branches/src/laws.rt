//! Laws of session answers: functions without effect whose contracts state lemmas.
ghost use Rattle.std.specs.Prelude.{◌≡◌};
ghost use Rattle.mh_grammar.specs.declared.types.Grammar.{Grammar};
ghost use Rattle.mh_tables_core.specs.Table.{TableData};
ghost use Rattle.mh_grammar.specs.Text.{Text};
ghost use Rattle.mh_msgfile.specs.Sentences.{vocabulary_of};
ghost use Rattle.mh_session_branches.specs.declared.command.Command.{Command};
ghost use Rattle.mh_session_branches.specs.Answers.{Answer, Branches, AreBranchesAfterAnswer};
ghost use Rattle.mh_session_branches.specs.ChangedNames.{MayChange};
ghost use Rattle.mh_session_branches.specs.LineForms.{Asks, LineMeans};
ghost use Rattle.mh_session_branches.specs.Names.{at_name};
ghost use Rattle.mh_session_branches.specs.Replies.{AnswersLine};

/// Law: two answers to the same line of the same branches are equal, and so are the branches after the line.
pub fn one_answer()
    ensures { (g : Grammar) (t : TableData) (branches : Branches) (line a b : Text) (x y : Branches) →
        AnswersLine g t branches line a x → AnswersLine g t branches line b y → (a ≡ b) × (x ≡ y) }
{}

/// Law: a command changes no branch but that of a name that it may change, and a line changes no branch but that of a
/// name that its command may change.
pub fn others_stay()
    ensures command { (t : TableData) (branches after : Branches) (command : Command) (a : Answer) (other : Text) →
        AreBranchesAfterAnswer t a branches command after → (MayChange command other → ⊥) →
        at_name other after ≡ at_name other branches }
    ensures line { (g : Grammar) (t : TableData) (branches : Branches) (line text : Text) (after : Branches) (other : Text) →
        AnswersLine g t branches line text after →
        ((command : Command) → LineMeans (vocabulary_of g) line (Asks command) → MayChange command other → ⊥) →
        at_name other after ≡ at_name other branches }
{}
