//! Laws on the lines for faults, each the contract of an empty function.
ghost use Rattle.std.specs.Prelude.{◌≡◌, [], Bool, List};
ghost use Rattle.mh_join_names.specs.Faults.{join_faults, meanings};
ghost use Rattle.mh_reader_places.specs.declared.reading.PlacedModule.{PlacedModule};
ghost use Rattle.mh_lint_findings.specs.Lines.{Line};
ghost use Rattle.mh_lint_findings.specs.declared.findings.GrammarFile.{GrammarFile};
ghost use Rattle.mh_lint_faults.specs.FaultLines.{AreFaultLines, join_lines};
ghost use Rattle.mh_lint_faults.specs.Stages.{AreAccepted, AreRead, Stages, modules_of};

/// Law: if there is no line for a fault of names, the files can be joined.
pub fn join_faults_have_lines()
    ensures { (prelude : Bool) (files : List GrammarFile) (found : List PlacedModule) → AreRead files found →
        join_lines (meanings prelude (modules_of found)) found ≡ [] → join_faults prelude (modules_of found) ≡ [] }
{}

/// Law: the files of a grammar have one list of lines for their faults, or one value at each stage of an accepted
/// grammar, and not both.
pub fn files_are_examined_once()
    ensures faulty { (prelude : Bool) (files : List GrammarFile) (left right : List Line) → AreFaultLines prelude files left → AreFaultLines prelude files right → left ≡ right }
    ensures accepted { (prelude : Bool) (files : List GrammarFile) (left right : Stages) → AreAccepted prelude files left → AreAccepted prelude files right → left ≡ right }
    ensures not_both { (prelude : Bool) (files : List GrammarFile) (stages : Stages) (lines : List Line) → AreAccepted prelude files stages → AreFaultLines prelude files lines → ⊥ }
{}
