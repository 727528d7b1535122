// What an interface embeds, directly or indirectly (Go specification, "Embedded interfaces").
ghost use Rattle.std.specs.Prelude.{◌≡◌, ◌↔◌, ◌<◌, ◌∷◌, ◌++◌, [], Some, Contains, IfOk, IfSome, OnOk, length, map, slice_get};
ghost use Rattle.std.specs.List.{AllByRecursion};
ghost use Rattle.go_term.specs.Types.{TypeData, made, named, no_parts};
ghost use Rattle.go_model.specs.Obligations.Embedded.{Embeds, embedded_in};
ghost use Rattle.go_judge.specs.Types.Own.{Keeps};
ghost use Rattle.go_obligations.specs.EmbeddedSearch.{IsSearch, Opens, is_opened, types_of_form, underlying_types};

use crate::elements::types_in;
use crate::layer::name_in;
use crate::opened::Opened;
use go_base::NoMemory;
use go_model::{Form, Forms};
use go_module::ObjId;
use go_term::Ty;
use std::alloc::Global;

/// The type, and the underlying types of what it embeds, directly or indirectly, as far as these are known: one that is
/// not known, or that there is not, embeds nothing. An error is want of memory.
pub(crate) fn embedded_types<F: Forms>(
    alloc: Global,
    judge: &mut F,
    t: Ty,
) -> Result<Vec<Ty>, NoMemory>
    requires { F.is_type judge.old t }
    ensures own { IfOk result (λ found. AllByRecursion (F.is_type judge.new) found.items) }
    ensures exact { IfOk result (λ found. (u : TypeData) → Contains (map (F.tree judge.new) found.items) u
        ↔ Embeds (F.headers judge.old) (F.tree judge.old t) u) }
    ensures keeps { Keeps (F.headers judge.old) (F.headers judge.new) (F.names judge.old) (F.names judge.new)
        (F.outcomes judge.old) (F.outcomes judge.new) (F.is_spent judge.old) (F.is_spent judge.new)
        (F.world judge.old) (F.world judge.new) (F.is_type judge.old) (F.is_type judge.new)
        (F.tree judge.old) (F.tree judge.new) }
{
    let mut found = vec![in alloc; t]?;
    let mut opened = Opened::new(alloc);
    let mut next = 0;
    while next < found.len() {
        open_embedded(alloc, judge, next, &mut found, &mut opened)?;
        next += 1;
    }
    Ok(found)
}

// Opens what the found type at a place embeds directly.
fn open_embedded<F: Forms>(
    alloc: Global,
    judge: &mut F,
    place: usize,
    found: &mut Vec<Ty>,
    opened: &mut Opened,
) -> Result<(), NoMemory>
    requires within { place < length found.old.items }
    requires search { IsSearch (F.headers judge.old) (F.is_type judge.old) (F.tree judge.old) found.old.items (is_opened opened.old) }
    ensures search { OnOk result (IsSearch (F.headers judge.new) (F.is_type judge.new) (F.tree judge.new)
        found.new.items (is_opened opened.new)) }
    ensures opens { OnOk result ((t : TypeData) → slice_get (map (F.tree judge.old) found.old.items) place ≡ Some t
        → Opens (F.headers judge.old) (embedded_in t) (map (F.tree judge.old) found.old.items)
        (map (F.tree judge.new) found.new.items)) }
    ensures keeps { Keeps (F.headers judge.old) (F.headers judge.new) (F.names judge.old) (F.names judge.new)
        (F.outcomes judge.old) (F.outcomes judge.new) (F.is_spent judge.old) (F.is_spent judge.new)
        (F.world judge.old) (F.world judge.new) (F.is_type judge.old) (F.is_type judge.new)
        (F.tree judge.old) (F.tree judge.new) }
{
    let types = types_of(alloc, judge, &found[place])?;
    open_all(alloc, judge, &types, found, opened)
}

// The types that a type embeds directly.
fn types_of<F: Forms>(alloc: Global, judge: &mut F, t: &Ty) -> Result<Vec<Ty>, NoMemory>
    requires { F.is_type judge.old t.now }
    ensures own { IfOk result (λ types. AllByRecursion (F.is_type judge.new) types.items) }
    ensures types { IfOk result (λ types. map (F.tree judge.new) types.items ≡ embedded_in (F.tree judge.old t.now)) }
    ensures keeps { Keeps (F.headers judge.old) (F.headers judge.new) (F.names judge.old) (F.names judge.new)
        (F.outcomes judge.old) (F.outcomes judge.new) (F.is_spent judge.old) (F.is_spent judge.new)
        (F.world judge.old) (F.world judge.new) (F.is_type judge.old) (F.is_type judge.new)
        (F.tree judge.old) (F.tree judge.new) }
{
    let shape = judge.see(alloc, t)?;
    types_in(alloc, shape)
}

// Opens these types.
fn open_all<F: Forms>(
    alloc: Global,
    judge: &mut F,
    types: &[Ty],
    found: &mut Vec<Ty>,
    opened: &mut Opened,
) -> Result<(), NoMemory>
    requires own { AllByRecursion (F.is_type judge.old) types.now }
    requires search { IsSearch (F.headers judge.old) (F.is_type judge.old) (F.tree judge.old) found.old.items (is_opened opened.old) }
    ensures search { OnOk result (IsSearch (F.headers judge.new) (F.is_type judge.new) (F.tree judge.new)
        found.new.items (is_opened opened.new)) }
    ensures opens { OnOk result (Opens (F.headers judge.old) (map (F.tree judge.old) types.now)
        (map (F.tree judge.old) found.old.items) (map (F.tree judge.new) found.new.items)) }
    ensures keeps { Keeps (F.headers judge.old) (F.headers judge.new) (F.names judge.old) (F.names judge.new)
        (F.outcomes judge.old) (F.outcomes judge.new) (F.is_spent judge.old) (F.is_spent judge.new)
        (F.world judge.old) (F.world judge.new) (F.is_type judge.old) (F.is_type judge.new)
        (F.tree judge.old) (F.tree judge.new) }
{
    for t in types {
        open_type(alloc, judge, t, found, opened)?;
    }
    Ok(())
}

// Opens a type: adds its underlying type, unless it is named alone and was opened before.
fn open_type<F: Forms>(
    alloc: Global,
    judge: &mut F,
    t: &Ty,
    found: &mut Vec<Ty>,
    opened: &mut Opened,
) -> Result<(), NoMemory>
    requires own { F.is_type judge.old t.now }
    requires search { IsSearch (F.headers judge.old) (F.is_type judge.old) (F.tree judge.old) found.old.items (is_opened opened.old) }
    ensures search { OnOk result (IsSearch (F.headers judge.new) (F.is_type judge.new) (F.tree judge.new)
        found.new.items (is_opened opened.new)) }
    ensures opens { OnOk result (Opens (F.headers judge.old) (F.tree judge.old t.now ∷ [])
        (map (F.tree judge.old) found.old.items) (map (F.tree judge.new) found.new.items)) }
    ensures keeps { Keeps (F.headers judge.old) (F.headers judge.new) (F.names judge.old) (F.names judge.new)
        (F.outcomes judge.old) (F.outcomes judge.new) (F.is_spent judge.old) (F.is_spent judge.new)
        (F.world judge.old) (F.world judge.new) (F.is_type judge.old) (F.is_type judge.new)
        (F.tree judge.old) (F.tree judge.new) }
{
    let shape = judge.see(alloc, t)?;
    open_by_name(alloc, judge, t, name_in(&shape), found, opened)
}

fn open_by_name<F: Forms>(
    alloc: Global,
    judge: &mut F,
    t: &Ty,
    name: Option<ObjId>,
    found: &mut Vec<Ty>,
    opened: &mut Opened,
) -> Result<(), NoMemory>
    requires own { F.is_type judge.old t.now }
    requires name { IfSome name (λ d. F.tree judge.old t.now ≡ made (named d) no_parts) }
    requires search { IsSearch (F.headers judge.old) (F.is_type judge.old) (F.tree judge.old) found.old.items (is_opened opened.old) }
    ensures search { OnOk result (IsSearch (F.headers judge.new) (F.is_type judge.new) (F.tree judge.new)
        found.new.items (is_opened opened.new)) }
    ensures opens { OnOk result (Opens (F.headers judge.old) (F.tree judge.old t.now ∷ [])
        (map (F.tree judge.old) found.old.items) (map (F.tree judge.new) found.new.items)) }
    ensures keeps { Keeps (F.headers judge.old) (F.headers judge.new) (F.names judge.old) (F.names judge.new)
        (F.outcomes judge.old) (F.outcomes judge.new) (F.is_spent judge.old) (F.is_spent judge.new)
        (F.world judge.old) (F.world judge.new) (F.is_type judge.old) (F.is_type judge.new)
        (F.tree judge.old) (F.tree judge.new) }
{
    match name {
        Some(d) => open_named(alloc, judge, t, d, found, opened),
        None => push_underlying(alloc, judge, t, found),
    }
}

// Opens the type that a declaration defines, which has no type arguments, once.
fn open_named<F: Forms>(
    alloc: Global,
    judge: &mut F,
    t: &Ty,
    d: ObjId,
    found: &mut Vec<Ty>,
    opened: &mut Opened,
) -> Result<(), NoMemory>
    requires own { F.is_type judge.old t.now }
    requires name { F.tree judge.old t.now ≡ made (named d) no_parts }
    requires search { IsSearch (F.headers judge.old) (F.is_type judge.old) (F.tree judge.old) found.old.items (is_opened opened.old) }
    ensures search { OnOk result (IsSearch (F.headers judge.new) (F.is_type judge.new) (F.tree judge.new)
        found.new.items (is_opened opened.new)) }
    ensures opens { OnOk result (Opens (F.headers judge.old) (F.tree judge.old t.now ∷ [])
        (map (F.tree judge.old) found.old.items) (map (F.tree judge.new) found.new.items)) }
    ensures keeps { Keeps (F.headers judge.old) (F.headers judge.new) (F.names judge.old) (F.names judge.new)
        (F.outcomes judge.old) (F.outcomes judge.new) (F.is_spent judge.old) (F.is_spent judge.new)
        (F.world judge.old) (F.world judge.new) (F.is_type judge.old) (F.is_type judge.new)
        (F.tree judge.old) (F.tree judge.new) }
{
    if opened.has(d) {
        return Ok(());
    }
    push_underlying(alloc, judge, t, found)?;
    opened.add(d)
}

// Adds the underlying type of a type, where it is known.
fn push_underlying<F: Forms>(
    alloc: Global,
    judge: &mut F,
    t: &Ty,
    found: &mut Vec<Ty>,
) -> Result<(), NoMemory>
    requires type_own { F.is_type judge.old t.now }
    requires own { AllByRecursion (F.is_type judge.old) found.old.items }
    ensures own { OnOk result (AllByRecursion (F.is_type judge.new) found.new.items) }
    ensures pushed { OnOk result (map (F.tree judge.new) found.new.items ≡ map (F.tree judge.old) found.old.items
        ++ underlying_types (F.headers judge.old) (F.tree judge.old t.now)) }
    ensures keeps { Keeps (F.headers judge.old) (F.headers judge.new) (F.names judge.old) (F.names judge.new)
        (F.outcomes judge.old) (F.outcomes judge.new) (F.is_spent judge.old) (F.is_spent judge.new)
        (F.world judge.old) (F.world judge.new) (F.is_type judge.old) (F.is_type judge.new)
        (F.tree judge.old) (F.tree judge.new) }
{
    let form = judge.underlying(alloc, t)?;
    push_form(form, found)
}

fn push_form(form: Form, found: &mut Vec<Ty>) -> Result<(), NoMemory>
    ensures { OnOk result (found.new.items ≡ found.old.items ++ types_of_form form) }
{
    if let Form::Is(t) = form {
        found.push(t)?;
    }
    Ok(())
}
