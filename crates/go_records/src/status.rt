// The status that a report ends a run with.
ghost use Rattle.std.specs.Prelude.{◌≡◌};
ghost use Rattle.std.specs.List.{list_all, list_any};
ghost use Rattle.go_base.specs.Status.{IsReport};
ghost use Rattle.go_report.specs.Phases.{is_accepted};
ghost use Rattle.go_report.specs.Report.{report_view, verdict_view};
ghost use Rattle.go_report.specs.Status.{broken_in, has_beyond, is_beyond, refusal_of, verdict_of};

use go_base::{Family, Status};
use go_module::Placed;
use go_report::{PackageReport, Report, Verdict};

/// The status that the report of a module ends a run with.
pub fn verdict(report: &Report) -> Status
    ensures verdict { result ≡ verdict_of (report_view report.now) }
    ensures report { IsReport result }
{
    if some_has_beyond(&report.packages) {
        Status::Beyond
    } else if all_accepted(&report.packages) {
        Status::Accepted
    } else {
        Status::Refused
    }
}

/// The status that rules end a run with which are broken before packages are checked.
pub fn refusal(list: &[Placed]) -> Status
    ensures verdict { result ≡ refusal_of list.now }
    ensures report { IsReport result }
{
    if has_beyond(list) {
        Status::Beyond
    } else {
        Status::Refused
    }
}

fn some_has_beyond(packages: &[PackageReport]) -> bool
    ensures { result ≡ list_any (λ own. has_beyond (broken_in (verdict_view own.verdict))) packages.now }
{
    packages.iter().any(|own| verdict_has_beyond(&own.verdict))
}

fn verdict_has_beyond(verdict: &Verdict) -> bool
    ensures { result ≡ has_beyond (broken_in (verdict_view verdict.now)) }
{
    match verdict {
        Verdict::Skipped | Verdict::Accepted(_) => false,
        Verdict::Refused(list) => has_beyond(list),
    }
}

fn all_accepted(packages: &[PackageReport]) -> bool
    ensures { result ≡ list_all (λ own. is_accepted (verdict_view own.verdict)) packages.now }
{
    packages.iter().all(|own| own.verdict.is_accepted())
}

fn has_beyond(list: &[Placed]) -> bool
    ensures { result ≡ has_beyond list.now }
{
    list.iter().any(|broken| is_beyond(broken.rule.family))
}

fn is_beyond(family: Family) -> bool
    ensures { result ≡ is_beyond family }
{
    matches!(family, Family::U | Family::L)
}
