// The text of a report.
ghost use Rattle.std.specs.Prelude.{◌≡◌, ◌++◌, IfOk, OnOk, map};
ghost use Rattle.std.specs.List.{flat_map};
ghost use Rattle.go_report.specs.Report.{line_view, named_view, package_view, report_view};
ghost use Rattle.go_report.specs.Text.Lines.{broken_fields, first_text, line_fields, line_text, report_text, verdict_fields};

use crate::fields::put_line;
use crate::lines::{put_broken, put_module, put_package, put_package_line};
use crate::names::Names;
use go_base::NoMemory;
use go_module::Placed;
use go_report::{Line, PackageReport, Records, Report, Verdict};
use std::alloc::{AllocError, Global};

/// The text of the report of a module.
pub fn report_text(alloc: Global, report: &Report) -> Result<Vec<u8>, NoMemory>
    ensures { IfOk result (λ text. text.items ≡ report_text (report_view report.now)) }
{
    let mut out = Vec::with_capacity(alloc, byte_count(report))?;
    put_module(alloc, &mut out, report)?;
    put_packages(alloc, &mut out, &report.packages)?;
    Ok(out)
}

// About how many bytes the text of a report has: a line has some 50. Room that is taken at once is not moved as
// the text grows.
fn byte_count(report: &Report) -> usize {
    let mut lines: usize = 1;
    for own in &report.packages {
        lines = lines.saturating_add(1);
        if let Verdict::Accepted(records) = &own.verdict {
            lines = lines.saturating_add(records.lines.len());
        }
    }
    lines.saturating_mul(64)
}

/// The text of the rules that are broken before packages are checked.
pub fn first_text(alloc: Global, list: &[Placed]) -> Result<Vec<u8>, NoMemory>
    ensures { IfOk result (λ text. text.items ≡ first_text list.now) }
{
    let mut out = Vec::new(alloc);
    put_line(&mut out, &[b"refused"])?;
    put_list(alloc, &mut out, list)?;
    Ok(out)
}

fn put_packages(
    alloc: Global,
    out: &mut Vec<u8>,
    packages: &[PackageReport],
) -> Result<(), AllocError>
    ensures { OnOk result (out.new.items ≡ out.old.items ++ flat_map (λ own. flat_map line_text (verdict_fields (package_view own) (package_view own).verdict)) packages.now) }
{
    for own in packages {
        put_verdict(alloc, out, own)?;
    }
    Ok(())
}

// The lines of a package.
fn put_verdict(alloc: Global, out: &mut Vec<u8>, own: &PackageReport) -> Result<(), AllocError>
    ensures { OnOk result (out.new.items ≡ out.old.items ++ flat_map line_text (verdict_fields (package_view own.now) (package_view own.now).verdict)) }
{
    match &own.verdict {
        Verdict::Accepted(records) => {
            put_package(out, own, b"accepted")?;
            put_records(alloc, out, records)
        }
        Verdict::Refused(list) => {
            put_package(out, own, b"refused")?;
            put_list(alloc, out, list)
        }
        Verdict::Skipped => put_package(out, own, b"skipped"),
    }
}

// The lines of an accepted package below its own.
fn put_records(alloc: Global, out: &mut Vec<u8>, records: &Records) -> Result<(), AllocError>
    ensures { OnOk result (out.new.items ≡ out.old.items ++ flat_map (λ line. line_text (line_fields (map named_view records.now.named.items) (line_view line))) records.now.lines.items) }
{
    let named = Names::of(alloc, &records.named)?;
    put_package_lines(alloc, out, &named, &records.lines)
}

// The lines of an accepted package, whose types name these objects.
fn put_package_lines(
    alloc: Global,
    out: &mut Vec<u8>,
    named: &Names,
    lines: &[Line],
) -> Result<(), AllocError>
    ensures { OnOk result (out.new.items ≡ out.old.items ++ flat_map (λ line. line_text (line_fields (map named_view named.now) (line_view line))) lines.now) }
{
    for line in lines {
        put_package_line(alloc, out, named, line)?;
    }
    Ok(())
}

fn put_list(alloc: Global, out: &mut Vec<u8>, list: &[Placed]) -> Result<(), AllocError>
    ensures { OnOk result (out.new.items ≡ out.old.items ++ flat_map (λ broken. line_text (broken_fields broken)) list.now) }
{
    for broken in list {
        put_broken(alloc, out, broken)?;
    }
    Ok(())
}
