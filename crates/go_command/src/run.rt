// The top call: one run of the checker.
ghost use Rattle.std.specs.Prelude.{◌≡◌, ◌≢◌, ◌↔◌, ◌⊎◌, None, IfOk, IfSome, IsErrOf};
ghost use Rattle.std.specs.Option.{option_copied};
ghost use Rattle.go_base.specs.Counters.{Rose};
ghost use Rattle.go_base.specs.Status.{IsReport};
ghost use Rattle.go_base.specs.Sink.{Adds, AddsPrefix};
ghost use Rattle.go_module.specs.Modules.Module.{module_view};
ghost use Rattle.go_model.specs.Outcomes.Walked.{NodesAreNumbered};
ghost use Rattle.go_command.specs.Headline.{IsRunText, WritesReport, WritesFront};
ghost use Rattle.go_command.specs.Runs.{IsFirst, IsWhole};
ghost use Rattle.go_command.specs.Words.{roots_of};

use crate::words::root_words;
use go_base::{NoMemory, Sink, SinkFault, Status, Steps, Tree, TreeFault, Word};
use go_check::check_module;
use go_load::{LoadFault, load};
use go_module::{Module, Placed};
use go_records::{first_text, refusal, report_text, verdict};
use std::alloc::Global;
use std::sync::ledger::Ledger;

/// Checks the module below the root that the words name, over the stubs below the other root that they name, if
/// they do, and writes its report to `out`.
///
/// Usage comes exactly where the words name no root; ReadFault only where the tree counted a fault
/// in this call, and WriteFault only where the sink did. Nothing is written before all is read.
pub fn gocheck<T: Tree, S: Sink, L: Ledger>(
    alloc: Global,
    words: &[Word],
    tree: &mut T,
    out: &mut S,
    steps: &mut Steps<L>,
) -> Status
    // The report of the tree's module is written whole, and the status is its verdict.
    ensures report { IsReport result → IfSome (roots_of words.now) (λ roots.
        WritesReport (T.files tree.old) roots result (S.taken out.old) (S.taken out.new)) }

    // Each other status has its cause, want of memory aside.
    ensures usage { (result ≡ Status.Usage) ↔ (roots_of words.now ≡ None) }
    ensures read_fault { result ≡ Status.ReadFault → Rose (T.faults tree.old) (T.faults tree.new) }
    ensures write_fault { result ≡ Status.WriteFault → Rose (S.faults out.old) (S.faults out.new) }
    ensures complete { roots_of words.now ≢ None → (Rose (T.faults tree.old) (T.faults tree.new) → ⊥) → (Rose (S.faults out.old) (S.faults out.new) → ⊥) → IsReport result ⊎ (result ≡ Status.NoMemory) }

    // A report comes only where no call failed.
    ensures same_tree { IsReport result → T.faults tree.new ≡ T.faults tree.old }
    ensures same_sink { IsReport result → S.faults out.new ≡ S.faults out.old }

    // What the other statuses leave in the sink.
    ensures nothing_on_usage { result ≡ Status.Usage → S.taken out.new ≡ S.taken out.old }
    ensures nothing_on_read_fault { result ≡ Status.ReadFault → S.taken out.new ≡ S.taken out.old }
    ensures front_on_write_fault { result ≡ Status.WriteFault → IfSome (roots_of words.now) (λ roots.
        WritesFront (T.files tree.old) roots (S.taken out.old) (S.taken out.new)) }
    ensures front_on_no_memory { result ≡ Status.NoMemory → IfSome (roots_of words.now) (λ roots.
        WritesFront (T.files tree.old) roots (S.taken out.old) (S.taken out.new)) }
{
    let Some((root, stubs)) = root_words(words) else {
        return Status::Usage;
    };
    match text_and_verdict(alloc, tree, root, stubs, steps) {
        Ok((text, verdict)) => put_report(&text, verdict, out),
        Err(TreeFault::Failed) => Status::ReadFault,
        Err(TreeFault::NoMemory) => Status::NoMemory,
    }
}

// The text of a run over two roots, and its status.
fn text_and_verdict<T: Tree, L: Ledger>(
    alloc: Global,
    tree: &mut T,
    root: &Word,
    stubs: Option<&Word>,
    steps: &mut Steps<L>,
) -> Result<(Vec<u8>, Status), TreeFault>
    ensures text { IfOk result (λ made.
        IsRunText (T.files tree.old) (record { root = root.now; stubs = option_copied stubs.entry }) made.0.items made.1) }
    ensures cause { IsErrOf result TreeFault.Failed → Rose (T.faults tree.old) (T.faults tree.new) }
    ensures stays { (IsErrOf result TreeFault.Failed → ⊥) → T.faults tree.new ≡ T.faults tree.old }
{
    match load(alloc, tree, root, stubs) {
        Ok(module) => Ok(whole(alloc, module, steps)?),
        Err(LoadFault::Broken(list)) => Ok(first(alloc, &list)?),
        Err(LoadFault::ReadFault) => Err(TreeFault::Failed),
        Err(LoadFault::NoMemory) => Err(TreeFault::NoMemory),
    }
}

// The text of the report of a module, and its verdict. The module is given back before its text is made.
fn whole<L: Ledger>(
    alloc: Global,
    module: Module,
    steps: &mut Steps<L>,
) -> Result<(Vec<u8>, Status), NoMemory>
    requires { NodesAreNumbered (module_view «module») }
    ensures { IfOk result (λ made. IsWhole (module_view «module») made.0.items made.1) }
{
    let report = check_module(alloc, &module, steps)?;
    drop(module);
    let text = report_text(alloc, &report)?;
    Ok((text, verdict(&report)))
}

// The text of rules that are broken before packages are checked, and its status.
fn first(alloc: Global, list: &[Placed]) -> Result<(Vec<u8>, Status), NoMemory>
    ensures { IfOk result (λ made. IsFirst list.now made.0.items made.1) }
{
    let text = first_text(alloc, list)?;
    Ok((text, refusal(list)))
}

// Hands the text of a report to the sink.
fn put_report<S: Sink>(text: &[u8], verdict: Status, out: &mut S) -> Status
    requires { IsReport verdict }
    ensures written { IsReport result → (result ≡ verdict) × Adds (S.taken out.old) (S.taken out.new) text.now }
    ensures no_usage { result ≢ Status.Usage }
    ensures no_read_fault { result ≢ Status.ReadFault }
    ensures write_fault { result ≡ Status.WriteFault → Rose (S.faults out.old) (S.faults out.new) }
    ensures same_sink { IsReport result → S.faults out.new ≡ S.faults out.old }
    ensures front { (IsReport result → ⊥) → AddsPrefix (S.taken out.old) (S.taken out.new) text.now }
{
    match out.put(text) {
        Ok(()) => verdict,
        Err(SinkFault::Failed) => Status::WriteFault,
        Err(SinkFault::NoMemory) => Status::NoMemory,
    }
}
