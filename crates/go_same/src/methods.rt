// Methods by name: their order, which of two lists have one name, and whether two sets have the same names.
ghost use Rattle.std.specs.Prelude.{◌≡◌, ◌<◌, ◌≤◌, ◌++◌, ◌&&◌, true, false, IfOk, List, OnErr, OnOk, filter, length, map, slice_index_or};
ghost use Rattle.std.specs.List.{AllWithin, HoldsAt};
ghost use Rattle.std.specs.List.Sorted.{IsPermutation};
ghost use Rattle.go_term.specs.Types.{TypeData};
ghost use Rattle.go_term.specs.declared.term.Term.{Term};
ghost use Rattle.go_judge.specs.Types.SetsFit.{by_name, sets_fit};
ghost use Rattle.go_same.specs.MethodOrder as spec;
ghost use Rattle.go_same.specs.Sets.{method_view, set_view};

use crate::budget::Budget;
use crate::set::{Method, TypeSet};
use go_base::NoMemory;
use std::alloc::Global;
use std::cmp::Ordering;

/// Puts methods in order by name, those of one name as they stood. An error is want of memory.
pub(crate) fn sort_methods(methods: &mut Vec<Method>) -> Result<(), NoMemory>
    ensures same { IsPermutation methods.old.items methods.new.items }
    ensures sorted { OnOk result (spec.AreByName methods.new.items) }
    ensures by_name { OnOk result ((tree : Term → TypeData) → map (method_view tree) methods.new.items ≡ by_name (map (method_view tree) methods.old.items)) }
    ensures failed { OnErr result (methods.new.items ≡ methods.old.items) }
{
    methods.sort_by(compare)?;
    Ok(())
}

/// The places of each of these methods and of each of the others that has its name, in the order of the first and then of
/// the second. An error is want of memory, or that fewer steps are left than there are pairs.
pub(crate) fn pairs_of(
    alloc: Global,
    budget: &mut Budget,
    ms: &[Method],
    ns: &[Method],
) -> Result<Vec<(usize, usize)>, NoMemory>
    requires first { spec.AreByName ms.now }
    requires second { spec.AreByName ns.now }
    ensures in_range { IfOk result (λ pairs. spec.AreInRange ms.now ns.now pairs.items) }
    ensures pairs { IfOk result (λ pairs. (tree : Term → TypeData) (other : Method) → map (spec.pair_at tree ms.now ns.now other) pairs.items ≡ spec.named_pairs (map (method_view tree) ms.now) (map (method_view tree) ns.now)) }
{
    let mut pairs = Vec::new(alloc);
    let mut from = 0;
    for (i, m) in ms.iter().enumerate() {
        from = first_not_before(ns, from, m);
        add_named(budget, &mut pairs, ms, i, ns, from)?;
    }
    Ok(pairs)
}

// Adds the places of a method and of each of the others that has its name, of which the first can stand at `from`.
fn add_named(
    budget: &mut Budget,
    pairs: &mut Vec<(usize, usize)>,
    ms: &[Method],
    i: usize,
    ns: &[Method],
    from: usize,
) -> Result<(), NoMemory>
    requires here { i < length ms.now }
    requires start { from ≤ length ns.now }
    requires second { spec.AreByName ns.now }
    requires passed { spec.AreBefore ns.now from ms.now i }
    requires rest { (other : Method) → from < length ns.now → spec.stands_before (slice_index_or ns.now from other) (slice_index_or ms.now i other) ≡ false }
    requires range { spec.AreInRange ms.now ns.now pairs.old.items }
    ensures in_range { spec.AreInRange ms.now ns.now pairs.new.items }
    ensures pairs { OnOk result ((other : Method) → map (spec.both_at ms.now ns.now other) pairs.new.items ≡ map (spec.both_at ms.now ns.now other) pairs.old.items ++ map (λ n. (slice_index_or ms.now i other, n)) (filter (spec.is_named_as (slice_index_or ms.now i other)) ns.now)) }
{
    for k in from..ns.len() {
        if !is_named_as(&ms[i], &ns[k]) {
            return Ok(());
        }
        budget.spend(1)?;
        pairs.push((i, k))?;
    }
    Ok(())
}

/// Whether two sets have methods of the same names, unions in both or in neither, and where there are none `comparable` in
/// both or in neither.
pub(crate) fn sets_fit(a: &TypeSet, b: &TypeSet) -> bool
    requires first { spec.AreByName a.now.methods.items }
    requires second { spec.AreByName b.now.methods.items }
    ensures { (tree : Term → TypeData) → result ≡ sets_fit (set_view tree a.now) (set_view tree b.now) }
{
    have_same_names(&a.methods, &b.methods) && fit_besides(a, b)
}

// Whether two sets fit but for their methods.
fn fit_besides(a: &TypeSet, b: &TypeSet) -> bool
    ensures { result ≡ spec.fit_besides a.now b.now }
{
    if leaves_all(a) {
        leaves_all(b) && a.comparable == b.comparable
    } else {
        !leaves_all(b)
    }
}

// Whether no union leaves a type out.
fn leaves_all(set: &TypeSet) -> bool
    ensures { result ≡ spec.is_none set.now.unions.items }
{
    set.unions.is_empty()
}

// Whether methods have the same names.
fn have_same_names(ms: &[Method], ns: &[Method]) -> bool
    requires first { spec.AreByName ms.now }
    requires second { spec.AreByName ns.now }
    ensures { result ≡ (spec.have_names_of ms.now ns.now && spec.have_names_of ns.now ms.now) }
{
    have_names_of(ms, ns) && have_names_of(ns, ms)
}

// Whether each of the second methods has the name of one of the first.
fn have_names_of(ms: &[Method], ns: &[Method]) -> bool
    requires first { spec.AreByName ms.now }
    requires second { spec.AreByName ns.now }
    ensures { result ≡ spec.have_names_of ms.now ns.now }
{
    let mut from = 0;
    for n in ns {
        from = first_not_before(ms, from, n);
        if from == ms.len() || !is_named_as(n, &ms[from]) {
            return false;
        }
    }
    true
}

// The first place, from one on, of a method that does not stand before this one; how many methods there are if there is none.
fn first_not_before(methods: &[Method], from: usize, method: &Method) -> usize
    requires { from ≤ length methods.now }
    ensures low { from ≤ result }
    ensures high { result ≤ length methods.now }
    ensures passed { AllWithin (λ m. spec.stands_before m method.now ≡ true) methods.now from result }
    ensures here { result < length methods.now → HoldsAt (λ m. spec.stands_before m method.now ≡ false) methods.now result }
{
    for i in from..methods.len() {
        if !stands_before(&methods[i], method) {
            return i;
        }
    }
    methods.len()
}

// Whether the name of the one is before that of the other, or the same and its package is.
fn stands_before(a: &Method, b: &Method) -> bool
    ensures { result ≡ spec.stands_before a.now b.now }
{
    compare(a, b).is_lt()
}

// Whether both have one name, and one package where it is not exported.
fn is_named_as(a: &Method, b: &Method) -> bool
    ensures { result ≡ spec.is_named_as a.now b.now }
{
    a.name == b.name && a.home == b.home
}

// By the names, and where these are the same by the packages.
fn compare(a: &Method, b: &Method) -> Ordering
    ensures { result ≡ spec.method_cmp a.now b.now }
{
    match a.name.cmp(&b.name) {
        Ordering::Less => Ordering::Less,
        Ordering::Equal => a.home.cmp(&b.home),
        Ordering::Greater => Ordering::Greater,
    }
}
