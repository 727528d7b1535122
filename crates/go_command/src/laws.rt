//! The law of a run.
ghost use Rattle.std.specs.Prelude.{◌≡◌, ℕ, List, Some};
ghost use Rattle.go_base.specs.declared.status.Status.{Status};
ghost use Rattle.go_base.specs.declared.tree.MemFile.{MemFile};
ghost use Rattle.go_command.specs.Headline.{RunOf};
ghost use Rattle.go_command.specs.Words.{Roots};

/// Runs over the same roots of a tree that tells its files, which write their text whole, have one text and one status.
pub fn one_run()
    ensures { (files : List MemFile) (roots : Roots) (text other : List ℕ) (status verdict : Status)
        → RunOf (Some files) roots text status → RunOf (Some files) roots other verdict
        → (text ≡ other) × (status ≡ verdict) }
{}
