// Reports of modules. Every place is written out, so that a report needs no module to be read.
ghost use Rattle.std.specs.Prelude.{◌≡◌};
ghost use Rattle.go_report.specs.Phases.{is_accepted};
ghost use Rattle.go_report.specs.Report.{verdict_view};

use crate::lines::Records;
use go_base::Name;
use go_module::Placed;

/// The report of a module: its path, the second number of its version of Go, and either the rules that it
/// breaks before its packages are checked, or a report of each package, in import order.
#[derive(Debug, Drop)]
pub struct Report {
    pub path: Name,
    pub version: u16,
    pub first: Vec<Placed>,
    pub packages: Vec<PackageReport>,
}

/// The report of a package.
#[derive(Debug, Drop)]
pub struct PackageReport {
    pub path: Name,
    pub name: Name,
    pub verdict: Verdict,
}

/// What is said of a package: its lines; the rules that it breaks; or nothing, since a package that it
/// imports is not accepted.
#[derive(Debug, Drop)]
pub enum Verdict {
    Accepted(Records),
    Refused(Vec<Placed>),
    Skipped,
}

impl Verdict {
    /// Whether the package is accepted.
    pub fn is_accepted(&self) -> bool
        ensures { result ≡ is_accepted (verdict_view self.now) }
    {
        match self {
            Verdict::Accepted(_) => true,
            Verdict::Refused(_) => false,
            Verdict::Skipped => false,
        }
    }
}
