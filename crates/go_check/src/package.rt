// The check of a package whose imports are accepted (Go specification, "Declarations and scope", "Constant
// declarations").
ghost use Rattle.std.specs.Prelude.{◌≡◌, ◌<◌, [], ℕ, true, IfOk, OnOk, Some, length, slice_get};
ghost use Rattle.go_module.specs.Modules.Module.{ModuleData, PackageData, module_view, package_view};
ghost use Rattle.go_module.specs.Names.Imports.{known_in};
ghost use Rattle.go_module.specs.Names.Rules.BrokenNames.{broken_names};
ghost use Rattle.go_report.specs.Outline.{outline_of};
ghost use Rattle.go_judge.specs.Headers.{Headers as Known};
ghost use Rattle.go_model.specs.Outcomes.Walked.{AreWalked, NodesAreNumbered, nodes_of};
ghost use Rattle.go_report.specs.Phases as phases;
ghost use Rattle.go_report.specs.Report.{verdict_view};
ghost use Rattle.go_judge.specs.HeadersView.{headers_view};
ghost use Rattle.go_judge.specs.Naming.{AreThere, Naming};
ghost use Rattle.go_constructs.specs.Operators.Honest.{AreHonest};
ghost use Rattle.go_model.specs.Naming.{names_in};
ghost use Rattle.go_expr.specs.Walker.{outcomes_view};
ghost use Rattle.go_check.specs.Packages.Book.{book_names, denotes_by, names_at, standing_of};
ghost use Rattle.go_check.specs.Packages.Names.{AreNames, ImportsSound, sound_at};
ghost use Rattle.go_check.specs.Packages.Verdicts.{IsAccepting};
ghost use Rattle.go_check.specs.View.{outline_view};

use crate::lines::lines_of;
use crate::named::named_in;
use crate::names::{Names, NamesVerdict};
use crate::outline::Outline;
use crate::own_file::own_files;
use crate::places::placed_list;
use crate::rulebook::Rulebook;
use crate::values::broken_values;
use go_base::{Broken, NoMemory, Steps};
use go_cycles::shapes;
use go_model::Headers;
use go_module::{Package, breaks_none};
use go_report::{Records, Verdict};
use std::alloc::Global;
use std::sync::ledger::Ledger;

/// The verdict on the package at a place of the module, whose imports are accepted. The rulebook has the headers of the
/// packages before whose values were asked, and `known` the same; both get those of the package where its names break
/// no rule. It asks that each constant that is known is represented by its type, which stays so. An error is want of
/// memory.
pub fn check_package<L: Ledger>(
    alloc: Global,
    names: &Names,
    outline: &Outline,
    book: &mut Rulebook,
    known: &mut Headers,
    place: usize,
    steps: &mut Steps<L>,
) -> Result<Verdict, NoMemory>
    requires within { place < length book.old.judge.«module».now.packages.items }
    requires names { AreNames (module_view book.old.judge.«module».now)
        (length book.old.judge.«module».now.packages.items) names.now }
    requires scopes { book.old.judge.scopes.now ≡ names.now.scopes.items }
    requires outline { outline_view outline.now ≡ outline_of (module_view book.old.judge.«module».now) }
    requires numbered { NodesAreNumbered (module_view book.old.judge.«module».now) }
    requires same { headers_view known.old ≡ headers_view book.old.judge.headers }
    requires honest { AreHonest (headers_view book.old.judge.headers) }
    requires imports { (p : PackageData) → slice_get (module_view book.old.judge.«module».now).packages place ≡ Some p
        → ImportsSound names.now.verdicts.items place p }
    ensures verdict { IfOk result (λ verdict. (p : PackageData)
        → slice_get (module_view book.old.judge.«module».now).packages place ≡ Some p
        → phases.IsVerdict (module_view book.old.judge.«module».now) place p (headers_view book.old.judge.headers)
        (verdict_view verdict) (headers_view book.new.judge.headers)) }
    ensures sound { IfOk result (λ verdict. phases.is_accepted (verdict_view verdict) ≡ true
        → sound_at names.now.verdicts.items place ≡ true) }
    ensures known { OnOk result (headers_view known.new ≡ headers_view book.new.judge.headers) }
    ensures honest { AreHonest (headers_view book.new.judge.headers) }
    ensures module { book.new.judge.«module».now ≡ book.old.judge.«module».now }
    ensures scopes { book.new.judge.scopes.now ≡ book.old.judge.scopes.now }
{
    match &names.verdicts[place] {
        NamesVerdict::Sound => check_shapes(alloc, names, outline, book, known, place, steps),
        NamesVerdict::Broken(list) => {
            let own = &book.judge.module.packages[place];
            Ok(Verdict::Refused(placed_list(alloc, own, list)?))
        }
        NamesVerdict::Unasked => Ok(Verdict::Skipped),
    }
}

// The verdict on the package at a place, whose names break no rule.
fn check_shapes<L: Ledger>(
    alloc: Global,
    names: &Names,
    outline: &Outline,
    book: &mut Rulebook,
    known: &mut Headers,
    place: usize,
    steps: &mut Steps<L>,
) -> Result<Verdict, NoMemory>
    requires within { place < length book.old.judge.«module».now.packages.items }
    requires scoped { place < length names.now.scopes.items }
    requires scopes { book.old.judge.scopes.now ≡ names.now.scopes.items }
    requires there { AreThere (names_at book.old.judge.«module».now book.old.judge.scopes.now place) }
    requires numbered { NodesAreNumbered (module_view book.old.judge.«module».now) }
    requires same { headers_view known.old ≡ headers_view book.old.judge.headers }
    requires honest { AreHonest (headers_view book.old.judge.headers) }
    ensures verdict { IfOk result (λ verdict. (p : PackageData)
        → slice_get (module_view book.old.judge.«module».now).packages place ≡ Some p
        → outline_view outline.now ≡ outline_of (module_view book.old.judge.«module».now)
        → names_at book.old.judge.«module».now book.old.judge.scopes.now place ≡ names_in (module_view book.old.judge.«module».now) place p
        → broken_names (known_in (module_view book.old.judge.«module».now)) place p ≡ []
        → phases.IsVerdict (module_view book.old.judge.«module».now) place p (headers_view book.old.judge.headers)
        (verdict_view verdict) (headers_view book.new.judge.headers)) }
    ensures known { OnOk result (headers_view known.new ≡ headers_view book.new.judge.headers) }
    ensures honest { AreHonest (headers_view book.new.judge.headers) }
    ensures module { book.new.judge.«module».now ≡ book.old.judge.«module».now }
    ensures scopes { book.new.judge.scopes.now ≡ book.old.judge.scopes.now }
{
    let own = &book.judge.module.packages[place];
    let list = shapes(alloc, &names.scopes[place], own)?;
    if breaks_none(&list) {
        check_values(alloc, outline, book, known, place, steps)
    } else {
        Ok(Verdict::Refused(placed_list(alloc, own, &list)?))
    }
}

// The verdict on the package at a place, whose names and type declarations break no rule.
fn check_values<L: Ledger>(
    alloc: Global,
    outline: &Outline,
    book: &mut Rulebook,
    known: &mut Headers,
    place: usize,
    steps: &mut Steps<L>,
) -> Result<Verdict, NoMemory>
    requires within { place < length book.old.judge.«module».now.packages.items }
    requires there { AreThere (names_at book.old.judge.«module».now book.old.judge.scopes.now place) }
    requires numbered { NodesAreNumbered (module_view book.old.judge.«module».now) }
    requires same { headers_view known.old ≡ headers_view book.old.judge.headers }
    requires honest { AreHonest (headers_view book.old.judge.headers) }
    ensures verdict { IfOk result (λ verdict. (p : PackageData)
        → slice_get (module_view book.old.judge.«module».now).packages place ≡ Some p
        → outline_view outline.now ≡ outline_of (module_view book.old.judge.«module».now)
        → names_at book.old.judge.«module».now book.old.judge.scopes.now place ≡ names_in (module_view book.old.judge.«module».now) place p
        → phases.BreaksShapes (module_view book.old.judge.«module».now) place p []
        → phases.IsVerdict (module_view book.old.judge.«module».now) place p (headers_view book.old.judge.headers)
        (verdict_view verdict) (headers_view book.new.judge.headers)) }
    ensures known { OnOk result (headers_view known.new ≡ headers_view book.new.judge.headers) }
    ensures honest { AreHonest (headers_view book.new.judge.headers) }
    ensures module { book.new.judge.«module».now ≡ book.old.judge.«module».now }
    ensures scopes { book.new.judge.scopes.now ≡ book.old.judge.scopes.now }
{
    let module = book.judge.module;
    let scopes = book.judge.scopes;
    book.enter(alloc, place);
    let list = broken_values(alloc, book, known, place, module, scopes, steps)?;
    verdict_by(alloc, outline, book, &module.packages[place], &list)
}

// The verdict on a package, by what its values break.
fn verdict_by(
    alloc: Global,
    outline: &Outline,
    book: &mut Rulebook,
    own: &Package,
    list: &[Broken],
) -> Result<Verdict, NoMemory>
    ensures verdict { IfOk result (λ verdict. (m : ModuleData) (k : ℕ) (before headers : Known)
        → outline_view outline.now ≡ outline_of m → book_names book.old.judge ≡ names_in m k (package_view own.now)
        → headers_view book.old.judge.headers ≡ headers
        → AreWalked (names_in m k (package_view own.now)) headers (nodes_of (package_view own.now))
        (outcomes_view book.old.walker) → phases.BreaksValues m k (package_view own.now) before headers list.now
        → phases.IsVerdict m k (package_view own.now) before (verdict_view verdict) headers) }
    ensures headers { headers_view book.new.judge.headers ≡ headers_view book.old.judge.headers }
    ensures standing { standing_of book.new.judge ≡ standing_of book.old.judge }
{
    if breaks_none(list) {
        accept(alloc, outline, book, own)
    } else {
        Ok(Verdict::Refused(placed_list(alloc, own, list)?))
    }
}

// The verdict on a package that breaks no rule.
fn accept(
    alloc: Global,
    outline: &Outline,
    book: &mut Rulebook,
    own: &Package,
) -> Result<Verdict, NoMemory>
    ensures verdict { IfOk result (λ verdict. (naming : Naming) (headers : Known) (k : ℕ)
        → headers_view book.old.judge.headers ≡ headers
        → AreWalked naming headers (nodes_of (package_view own.now)) (outcomes_view book.old.walker)
        → IsAccepting (outline_view outline.now) k (package_view own.now) (denotes_by book.old.judge) naming headers
        (verdict_view verdict)) }
    ensures headers { headers_view book.new.judge.headers ≡ headers_view book.old.judge.headers }
    ensures standing { standing_of book.new.judge ≡ standing_of book.old.judge }
{
    let files = own_files(alloc, own)?;
    let lines = lines_of(alloc, outline, &files, book)?;
    let named = named_in(alloc, outline, &lines)?;
    Ok(Verdict::Accepted(Records { lines, named }))
}
