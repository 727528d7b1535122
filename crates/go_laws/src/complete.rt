// What an accepted package has (Go specification, "Declarations and scope", "Constant expressions", "Types"). A law is
// the contract of a function that does nothing.
ghost use Rattle.std.specs.Prelude.{◌≡◌, ℕ, Bool, Some, true, List, slice_get};
ghost use Rattle.go_mod.specs.Folders.{Folder};
ghost use Rattle.go_module.specs.Modules.Module.{ModuleData, PackageData};
ghost use Rattle.go_load.specs.Loading.{IsModule};
ghost use Rattle.go_judge.specs.Headers.{Headers};
ghost use Rattle.go_report.specs.Phases.{IsVerdict, ReportOf, imports_accepted, is_accepted};
ghost use Rattle.go_report.specs.Report.{LineData, NamedData, PackageReportData, ReportData, accepted};
ghost use Rattle.go_model.specs.Naming.{names_in};
ghost use Rattle.go_laws.specs.Complete.{IsAcceptedAt, IsComplete, IsReached};

/// Where the check of a module that is loaded comes to a package whose imports are accepted, and accepts it, each
/// declaration of the package has a header, and each node of its types and its expressions that is asked for a record
/// has one, over the headers that are known behind it.
pub fn accepted_is_complete()
    ensures { (own stubs : Folder) (m : ModuleData) → IsModule own stubs m
        → (k : ℕ) (marks : List Bool) (p : PackageData) (before after : Headers)
        → (lines : List LineData) (named : List NamedData)
        → IsReached m k marks before → slice_get m.packages k ≡ Some p → imports_accepted marks p ≡ true
        → IsVerdict m k p before (accepted lines named) after
        → IsComplete (names_in m k p) after p }
{}

/// To each package that the report of a module calls accepted the check comes with its imports accepted, and accepts it
/// with the verdict of the report.
pub fn reports_are_reached()
    ensures { (m : ModuleData) (report : ReportData) → ReportOf m report
        → (k : ℕ) (p : PackageData) (r : PackageReportData)
        → slice_get m.packages k ≡ Some p → slice_get report.packages k ≡ Some r
        → is_accepted r.verdict ≡ true → IsAcceptedAt m k p r.verdict }
{}
