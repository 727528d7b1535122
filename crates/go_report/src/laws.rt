// Laws of the report and of the objects of a module: each is the contract of a function that does nothing.
ghost use Rattle.std.specs.Prelude.{◌≡◌};
ghost use Rattle.go_module.specs.Modules.Module.{ModuleData};
ghost use Rattle.go_report.specs.Phases.{ReportOf};
ghost use Rattle.go_report.specs.Report.{ReportData};
ghost use Rattle.go_report.specs.Laws.{DeclaredEverywhere};

/// A module has at most one report.
pub fn one_report()
    ensures { (m : ModuleData) (a b : ReportData) → ReportOf m a → ReportOf m b → a ≡ b }
{}

/// Each object that an identifier of a module denotes is a universe name or declared in the module: the
/// outline has a place for it.
pub fn declared_everywhere()
    ensures { (m : ModuleData) → DeclaredEverywhere m }
{}
