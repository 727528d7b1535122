// The check of a module (Go specification, "Package initialization", "Packages").
ghost use Rattle.std.specs.Prelude.{◌≡◌, ◌∷◌, ◌++◌, ◌+◌, ◌<◌, [], IfOk, OnOk, length, map};
ghost use Rattle.std.specs.List.{list_all};
ghost use Rattle.go_graph.specs.Graph as marking;
ghost use Rattle.go_module.specs.Modules.Module.{module_view, package_view};
ghost use Rattle.go_report.specs.Outline.{outline_of};
ghost use Rattle.go_model.specs.Outcomes.Walked.{NodesAreNumbered};
ghost use Rattle.go_report.specs.Phases as phases;
ghost use Rattle.go_report.specs.Report.{report_view, verdict_view};
ghost use Rattle.go_report.specs.Report as reports;
ghost use Rattle.go_check.specs.Packages.Names.{AreNames};
ghost use Rattle.go_check.specs.Packages.State.{IsState};
ghost use Rattle.go_check.specs.View.{outline_view};

use crate::declared::declared_objects;
use crate::names::{Names, names_of};
use crate::outline::Outline;
use crate::package::check_package;
use crate::rulebook::Rulebook;
use go_base::{NoMemory, Steps};
use go_graph::is_marked;
use go_model::Headers;
use go_module::{Module, Package};
use go_report::{PackageReport, Report, Verdict};
use std::alloc::Global;
use std::sync::ledger::Ledger;

/// The packages that are checked: which of them are accepted, the rulebook with the headers of their declarations, the
/// same headers, and their reports.
#[derive(Drop)]
pub struct State<'a> {
    pub marks: Vec<bool>,
    pub book: Rulebook<'a>,
    pub known: Headers,
    pub reports: Vec<PackageReport>,
}

/// The report of a module, package after package in import order: what its names break, else what its values break,
/// else its lines; a package is skipped where one that it imports is not accepted. The scopes of all packages are
/// collected before values are asked. It asks that in no package two nodes of types or expressions have one number,
/// as in each module that is loaded. An error is want of memory. Steps are counted, and nothing is said of their
/// count.
pub fn check_module<L: Ledger>(
    alloc: Global,
    module: &Module,
    steps: &mut Steps<L>,
) -> Result<Report, NoMemory>
    requires { NodesAreNumbered (module_view «module».now) }
    ensures { IfOk result (λ report. phases.ReportOf (module_view «module».now) (report_view report)) }
{
    let names = names_of(alloc, module)?;
    let declared = declared_objects(alloc, module)?;
    let outline = Outline {
        packages: &module.packages,
        declared: &declared,
    };
    let reports = check_packages(alloc, module, &names, &outline, steps)?;
    Ok(Report {
        path: module.path.clone()?,
        version: module.version,
        first: Vec::new(alloc),
        packages: reports,
    })
}

// The reports of the packages of a module.
fn check_packages<L: Ledger>(
    alloc: Global,
    module: &Module,
    names: &Names,
    outline: &Outline,
    steps: &mut Steps<L>,
) -> Result<Vec<PackageReport>, NoMemory>
    requires names { AreNames (module_view «module».now) (length «module».now.packages.items) names.now }
    requires outline { outline_view outline.now ≡ outline_of (module_view «module».now) }
    requires numbered { NodesAreNumbered (module_view «module».now) }
    ensures { IfOk result (λ made. phases.AreReports (module_view «module».now) 0 [] phases.no_headers
        (module_view «module».now).packages (map reports.package_view made.items)) }
{
    let mut state = State {
        marks: Vec::new(alloc),
        book: Rulebook::new(alloc, module, &names.scopes),
        known: Headers::new(alloc),
        reports: Vec::new(alloc),
    };
    for place in 0..module.packages.len() {
        check_next(alloc, module, place, names, outline, &mut state, steps)?;
    }
    Ok(state.reports)
}

// Checks one more package.
fn check_next<L: Ledger>(
    alloc: Global,
    module: &Module,
    place: usize,
    names: &Names,
    outline: &Outline,
    state: &mut State,
    steps: &mut Steps<L>,
) -> Result<(), NoMemory>
    requires within { place < length «module».now.packages.items }
    requires names { AreNames (module_view «module».now) (length «module».now.packages.items) names.now }
    requires outline { outline_view outline.now ≡ outline_of (module_view «module».now) }
    requires numbered { NodesAreNumbered (module_view «module».now) }
    requires state { IsState «module».now names.now place state.old }
    ensures { OnOk result (IsState «module».now names.now (place + 1) state.new) }
{
    let own = &module.packages[place];
    if imports_accepted(&state.marks, &own.imports) {
        let book = &mut state.book;
        let known = &mut state.known;
        let verdict = check_package(alloc, names, outline, book, known, place, steps)?;
        add_report(own, verdict, state)
    } else {
        add_report(own, Verdict::Skipped, state)
    }
}

// Adds the report of a package, and the mark of an accepted one.
fn add_report(own: &Package, verdict: Verdict, state: &mut State) -> Result<(), NoMemory>
    ensures marks { OnOk result (state.new.marks.items
        ≡ state.old.marks.items ++ phases.is_accepted (verdict_view verdict) ∷ []) }
    ensures book { OnOk result (state.new.book ≡ state.old.book) }
    ensures known { OnOk result (state.new.known ≡ state.old.known) }
    ensures reports { OnOk result (map reports.package_view state.new.reports.items
        ≡ map reports.package_view state.old.reports.items
        ++ phases.package_report (package_view own.now) (verdict_view verdict) ∷ []) }
{
    state.marks.push(verdict.is_accepted())?;
    state.reports.push(package_report(own, verdict)?)?;
    Ok(())
}

// Whether all these packages are marked.
fn imports_accepted(marks: &[bool], imports: &[usize]) -> bool
    ensures { result ≡ list_all (marking.is_marked marks.now) imports.now }
{
    imports.iter().all(|import| is_marked(marks, *import))
}

fn package_report(own: &Package, verdict: Verdict) -> Result<PackageReport, NoMemory>
    ensures { IfOk result (λ report. reports.package_view report
        ≡ phases.package_report (package_view own.now) (verdict_view verdict)) }
{
    Ok(PackageReport {
        path: own.path.clone()?,
        name: own.name.clone()?,
        verdict,
    })
}
