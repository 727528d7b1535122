// Methods that an interface gets with two types (Go specification, "Interface types", "Embedded interfaces").
ghost use Rattle.std.specs.Prelude.{◌≡◌, ◌↔◌, ◌<◌, ◌&&◌, IfOk, length, true};
ghost use Rattle.std.specs.List.{AllByRecursion};
ghost use Rattle.go_model.specs.Obligations.Methods.{GetsTwo};
ghost use Rattle.go_judge.specs.Types.Own.{Keeps};
ghost use Rattle.go_obligations.specs.Conflicts.{AreInConflict, ConflictsAt, conflicts, differ, differs_from_any, is_further};
ghost use Rattle.go_obligations.specs.Firsts.{AreFirsts, key_of, same_key};
ghost use Rattle.go_obligations.specs.Methods.{AreOwnMethods, IsOwnMethod};

use crate::firsts::{Firsts, are_named_alike, first_of, firsts_of};
use crate::methods::{Method, methods_got};
use go_base::NoMemory;
use go_model::{Answer, Same};
use go_term::Ty;
use std::alloc::Global;

/// Whether an interface literal gets one method with two types (Go specification, "Interface types", "Embedded
/// interfaces"): one that it has itself or that what it embeds has, of which the type is known to differ from that of a
/// method of the same name before which none of the name is declared. Where a header is lacking that the answer needs,
/// two types do not differ. An error is want of memory, also past the limits on types and questions.
pub(crate) fn gets_two<J: Same>(alloc: Global, judge: &mut J, t: &Ty) -> Result<bool, NoMemory>
    requires { J.is_type judge.old t.now }
    ensures two { IfOk result (λ yes. (yes ≡ true) ↔ GetsTwo (J.headers judge.old) (J.tree judge.old t.now)) }
    ensures keeps { Keeps (J.headers judge.old) (J.headers judge.new) (J.names judge.old) (J.names judge.new)
        (J.outcomes judge.old) (J.outcomes judge.new) (J.is_spent judge.old) (J.is_spent judge.new)
        (J.world judge.old) (J.world judge.new) (J.is_type judge.old) (J.is_type judge.new)
        (J.tree judge.old) (J.tree judge.new) }
{
    let methods = methods_got(alloc, judge, t)?;
    are_in_conflict(alloc, judge, &methods)
}

// Whether one of the methods differs from a first of its name.
fn are_in_conflict<J: Same>(
    alloc: Global,
    judge: &mut J,
    methods: &[Method],
) -> Result<bool, NoMemory>
    requires { AreOwnMethods (J.is_type judge.old) (J.tree judge.old) methods.now }
    ensures conflict { IfOk result (λ yes. (yes ≡ true)
        ↔ AreInConflict (differ (J.headers judge.old) (J.tree judge.old)) methods.now) }
    ensures keeps { Keeps (J.headers judge.old) (J.headers judge.new) (J.names judge.old) (J.names judge.new)
        (J.outcomes judge.old) (J.outcomes judge.new) (J.is_spent judge.old) (J.is_spent judge.new)
        (J.world judge.old) (J.world judge.new) (J.is_type judge.old) (J.is_type judge.new)
        (J.tree judge.old) (J.tree judge.new) }
{
    let firsts = firsts_of(alloc, methods)?;
    any_conflicts(alloc, judge, methods, &firsts)
}

// The same by the firsts of all names.
fn any_conflicts<J: Same>(
    alloc: Global,
    judge: &mut J,
    methods: &[Method],
    firsts: &Firsts,
) -> Result<bool, NoMemory>
    requires own { AreOwnMethods (J.is_type judge.old) (J.tree judge.old) methods.now }
    requires firsts { AreFirsts methods.now (length methods.now) firsts.now.entries }
    ensures conflict { IfOk result (λ yes. (yes ≡ true)
        ↔ AreInConflict (differ (J.headers judge.old) (J.tree judge.old)) methods.now) }
    ensures keeps { Keeps (J.headers judge.old) (J.headers judge.new) (J.names judge.old) (J.names judge.new)
        (J.outcomes judge.old) (J.outcomes judge.new) (J.is_spent judge.old) (J.is_spent judge.new)
        (J.world judge.old) (J.world judge.new) (J.is_type judge.old) (J.is_type judge.new)
        (J.tree judge.old) (J.tree judge.new) }
{
    for place in 0..methods.len() {
        if conflicts_at(alloc, judge, methods, firsts, place)? {
            return Ok(true);
        }
    }
    Ok(false)
}

// Whether the method at a place differs from the first of its name, or another from it where it is a further first.
fn conflicts_at<J: Same>(
    alloc: Global,
    judge: &mut J,
    methods: &[Method],
    firsts: &Firsts,
    place: usize,
) -> Result<bool, NoMemory>
    requires own { AreOwnMethods (J.is_type judge.old) (J.tree judge.old) methods.now }
    requires firsts { AreFirsts methods.now (length methods.now) firsts.now.entries }
    requires within { place < length methods.now }
    ensures conflict { IfOk result (ConflictsAt (differ (J.headers judge.old) (J.tree judge.old)) methods.now firsts.now.entries place) }
    ensures keeps { Keeps (J.headers judge.old) (J.headers judge.new) (J.names judge.old) (J.names judge.new)
        (J.outcomes judge.old) (J.outcomes judge.new) (J.is_spent judge.old) (J.is_spent judge.new)
        (J.world judge.old) (J.world judge.new) (J.is_type judge.old) (J.is_type judge.new)
        (J.tree judge.old) (J.tree judge.new) }
{
    let at = first_of(alloc, methods, firsts, place)?;
    let (method, first) = (&methods[place], &methods[at]);
    let further = is_further(at, first, place, method);
    conflicts(alloc, judge, methods, first, further, method)
}

// Whether a method stands elsewhere than a first, and is declared there too.
fn is_further(at: usize, first: &Method, place: usize, method: &Method) -> bool
    ensures { result ≡ is_further at first.now place method.now }
{
    place != at && method.object.0 == first.object.0
}

// Whether a method differs from a first or, where it is a further first, another of its name from it.
fn conflicts<J: Same>(
    alloc: Global,
    judge: &mut J,
    methods: &[Method],
    first: &Method,
    further: bool,
    method: &Method,
) -> Result<bool, NoMemory>
    requires own { AreOwnMethods (J.is_type judge.old) (J.tree judge.old) methods.now }
    requires own_first { IsOwnMethod (J.is_type judge.old) (J.tree judge.old) first.now }
    requires own_method { IsOwnMethod (J.is_type judge.old) (J.tree judge.old) method.now }
    ensures conflict { IfOk result (λ yes. yes
        ≡ conflicts (differ (J.headers judge.old) (J.tree judge.old)) methods.now first.now further method.now) }
    ensures keeps { Keeps (J.headers judge.old) (J.headers judge.new) (J.names judge.old) (J.names judge.new)
        (J.outcomes judge.old) (J.outcomes judge.new) (J.is_spent judge.old) (J.is_spent judge.new)
        (J.world judge.old) (J.world judge.new) (J.is_type judge.old) (J.is_type judge.new)
        (J.tree judge.old) (J.tree judge.new) }
{
    if differ(alloc, judge, first, method)? {
        return Ok(true);
    }
    if !further {
        return Ok(false);
    }
    differs_from_any(alloc, judge, methods, method)
}

// Whether a method of the name of this one differs from it.
fn differs_from_any<J: Same>(
    alloc: Global,
    judge: &mut J,
    methods: &[Method],
    method: &Method,
) -> Result<bool, NoMemory>
    requires own { AreOwnMethods (J.is_type judge.old) (J.tree judge.old) methods.now }
    requires own_method { IsOwnMethod (J.is_type judge.old) (J.tree judge.old) method.now }
    ensures conflict { IfOk result (λ yes. yes
        ≡ differs_from_any (differ (J.headers judge.old) (J.tree judge.old)) methods.now method.now) }
    ensures keeps { Keeps (J.headers judge.old) (J.headers judge.new) (J.names judge.old) (J.names judge.new)
        (J.outcomes judge.old) (J.outcomes judge.new) (J.is_spent judge.old) (J.is_spent judge.new)
        (J.world judge.old) (J.world judge.new) (J.is_type judge.old) (J.is_type judge.new)
        (J.tree judge.old) (J.tree judge.new) }
{
    for other in methods {
        if named_alike_differ(alloc, judge, method, other)? {
            return Ok(true);
        }
    }
    Ok(false)
}

// Whether two methods have one name, and differ.
fn named_alike_differ<J: Same>(
    alloc: Global,
    judge: &mut J,
    a: &Method,
    b: &Method,
) -> Result<bool, NoMemory>
    requires a_own { J.is_type judge.old a.now.signature }
    requires b_own { J.is_type judge.old b.now.signature }
    ensures differ { IfOk result (λ yes. yes ≡ (same_key (key_of a.now) (key_of b.now)
        && differ (J.headers judge.old) (J.tree judge.old) a.now b.now)) }
    ensures keeps { Keeps (J.headers judge.old) (J.headers judge.new) (J.names judge.old) (J.names judge.new)
        (J.outcomes judge.old) (J.outcomes judge.new) (J.is_spent judge.old) (J.is_spent judge.new)
        (J.world judge.old) (J.world judge.new) (J.is_type judge.old) (J.is_type judge.new)
        (J.tree judge.old) (J.tree judge.new) }
{
    if are_named_alike(a, b) {
        differ(alloc, judge, a, b)
    } else {
        Ok(false)
    }
}

// Whether the types of two methods are known to differ.
fn differ<J: Same>(alloc: Global, judge: &mut J, a: &Method, b: &Method) -> Result<bool, NoMemory>
    requires a_own { J.is_type judge.old a.now.signature }
    requires b_own { J.is_type judge.old b.now.signature }
    ensures differ { IfOk result (λ yes. yes ≡ differ (J.headers judge.old) (J.tree judge.old) a.now b.now) }
    ensures keeps { Keeps (J.headers judge.old) (J.headers judge.new) (J.names judge.old) (J.names judge.new)
        (J.outcomes judge.old) (J.outcomes judge.new) (J.is_spent judge.old) (J.is_spent judge.new)
        (J.world judge.old) (J.world judge.new) (J.is_type judge.old) (J.is_type judge.new)
        (J.tree judge.old) (J.tree judge.new) }
{
    match judge.identical(alloc, &a.signature, &b.signature)? {
        Answer::No => Ok(true),
        Answer::Yes => Ok(false),
        Answer::Unknown(_) => Ok(false),
    }
}
