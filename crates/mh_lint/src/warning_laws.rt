//! Laws on the lines for warnings, each the contract of an empty function.
ghost use Rattle.std.specs.Prelude.{◌≡◌, ◌↔◌, [], List};
ghost use Rattle.mh_grammar.specs.Text.{Text};
ghost use Rattle.mh_join_names.specs.Faults.{Meanings};
ghost use Rattle.mh_lint_findings.specs.Lines.{Line};
ghost use Rattle.mh_lint_faults.specs.Stages.{Stages};
ghost use Rattle.mh_lint.specs.Built.{Built as BuiltOf};
ghost use Rattle.mh_lint.specs.NoWarnings.{HasNoWarning};
ghost use Rattle.mh_lint.specs.Warnings.{AreWarningLines};

/// Law: there is no line exactly if there is no warning.
pub fn no_line_is_no_warning()
    ensures { (names : List Text) (s : Stages) (b : BuiltOf) (w : Meanings) (lines : List Line) → AreWarningLines names s b w lines → (lines ≡ []) ↔ HasNoWarning names s b w }
{}
