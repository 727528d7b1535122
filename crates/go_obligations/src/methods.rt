// The methods that an interface gets (Go specification, "Interface types", "Embedded interfaces").
ghost use Rattle.std.specs.Prelude.{◌≡◌, ◌++◌, ◌↔◌, Contains, IfOk, OnOk, map};
ghost use Rattle.std.specs.List.{AllByRecursion, flat_map};
ghost use Rattle.go_term.specs.Shapes.{elem_tree, func_parts, shape_tree};
ghost use Rattle.go_term.specs.Types.{method, made};
ghost use Rattle.go_model.specs.Obligations.Methods.{Gets, OwnMethod, method_in, methods_in};
ghost use Rattle.go_judge.specs.Types.Own.{AreOwn, AreOwnFunc, IsOwnElem, Keeps};
ghost use Rattle.go_obligations.specs.Methods.{AreOwnMethods, elements_in, method_view};

use crate::embedded::embedded_types;
use go_base::{Name, NoMemory};
use go_model::Forms;
use go_module::ObjId;
use go_term::{ElemShape, FuncShape, Shape, Ty};
use std::alloc::Global;

/// A method of an interface: its object, its name, the path of the package where it stands, whether it is variadic, and
/// the type of a function with its parameters and results.
#[derive(Debug, Drop)]
pub(crate) struct Method {
    pub object: ObjId,
    pub name: Name,
    pub package: Name,
    pub variadic: bool,
    pub signature: Ty,
}

/// The methods that an interface literal has itself and those that what it embeds has, as far as it is known (Go
/// specification, "Interface types", "Embedded interfaces"). Another type has none. An error is want of memory, or that
/// the type of a function would be too deep or too large.
pub(crate) fn methods_got<F: Forms>(
    alloc: Global,
    judge: &mut F,
    t: &Ty,
) -> Result<Vec<Method>, NoMemory>
    requires { F.is_type judge.old t.now }
    ensures own { IfOk result (λ methods. AreOwnMethods (F.is_type judge.new) (F.tree judge.new) methods.items) }
    ensures exact { IfOk result (λ methods. (m : OwnMethod)
        → Contains (map (method_view (F.tree judge.new)) methods.items) m
        ↔ Gets (F.headers judge.old) (F.tree judge.old t.now) m) }
    ensures keeps { Keeps (F.headers judge.old) (F.headers judge.new) (F.names judge.old) (F.names judge.new)
        (F.outcomes judge.old) (F.outcomes judge.new) (F.is_spent judge.old) (F.is_spent judge.new)
        (F.world judge.old) (F.world judge.new) (F.is_type judge.old) (F.is_type judge.new)
        (F.tree judge.old) (F.tree judge.new) }
{
    let copy = copied(alloc, judge, t)?;
    methods_of(alloc, judge, copy)
}

// The type once more.
fn copied<F: Forms>(alloc: Global, judge: &mut F, t: &Ty) -> Result<Ty, NoMemory>
    requires { F.is_type judge.old t.now }
    ensures own { IfOk result (F.is_type judge.new) }
    ensures same { IfOk result (λ copy. F.tree judge.new copy ≡ F.tree judge.old t.now) }
    ensures keeps { Keeps (F.headers judge.old) (F.headers judge.new) (F.names judge.old) (F.names judge.new)
        (F.outcomes judge.old) (F.outcomes judge.new) (F.is_spent judge.old) (F.is_spent judge.new)
        (F.world judge.old) (F.world judge.new) (F.is_type judge.old) (F.is_type judge.new)
        (F.tree judge.old) (F.tree judge.new) }
{
    let shape = judge.see(alloc, t)?;
    made_type(alloc, judge, shape)
}

// The type of this form.
fn made_type<F: Forms>(alloc: Global, judge: &mut F, shape: Shape) -> Result<Ty, NoMemory>
    requires { AreOwn (F.is_type judge.old) shape }
    ensures own { IfOk result (F.is_type judge.new) }
    ensures made { IfOk result (λ t. F.tree judge.new t ≡ shape_tree (F.tree judge.old) shape) }
    ensures keeps { Keeps (F.headers judge.old) (F.headers judge.new) (F.names judge.old) (F.names judge.new)
        (F.outcomes judge.old) (F.outcomes judge.new) (F.is_spent judge.old) (F.is_spent judge.new)
        (F.world judge.old) (F.world judge.new) (F.is_type judge.old) (F.is_type judge.new)
        (F.tree judge.old) (F.tree judge.new) }
{
    match judge.make(alloc, shape) {
        Ok(t) => Ok(t),
        Err(_) => Err(NoMemory),
    }
}

// The methods of the type and of what it embeds.
fn methods_of<F: Forms>(alloc: Global, judge: &mut F, t: Ty) -> Result<Vec<Method>, NoMemory>
    requires { F.is_type judge.old t }
    ensures own { IfOk result (λ methods. AreOwnMethods (F.is_type judge.new) (F.tree judge.new) methods.items) }
    ensures exact { IfOk result (λ methods. (m : OwnMethod)
        → Contains (map (method_view (F.tree judge.new)) methods.items) m
        ↔ Gets (F.headers judge.old) (F.tree judge.old t) m) }
    ensures keeps { Keeps (F.headers judge.old) (F.headers judge.new) (F.names judge.old) (F.names judge.new)
        (F.outcomes judge.old) (F.outcomes judge.new) (F.is_spent judge.old) (F.is_spent judge.new)
        (F.world judge.old) (F.world judge.new) (F.is_type judge.old) (F.is_type judge.new)
        (F.tree judge.old) (F.tree judge.new) }
{
    let parts = embedded_types(alloc, judge, t)?;
    methods_of_all(alloc, judge, &parts)
}

// The methods that each of these types has itself.
fn methods_of_all<F: Forms>(
    alloc: Global,
    judge: &mut F,
    parts: &[Ty],
) -> Result<Vec<Method>, NoMemory>
    requires { AllByRecursion (F.is_type judge.old) parts.now }
    ensures own { IfOk result (λ methods. AreOwnMethods (F.is_type judge.new) (F.tree judge.new) methods.items) }
    ensures methods { IfOk result (λ methods. map (method_view (F.tree judge.new)) methods.items
        ≡ flat_map methods_in (map (F.tree judge.old) parts.now)) }
    ensures keeps { Keeps (F.headers judge.old) (F.headers judge.new) (F.names judge.old) (F.names judge.new)
        (F.outcomes judge.old) (F.outcomes judge.new) (F.is_spent judge.old) (F.is_spent judge.new)
        (F.world judge.old) (F.world judge.new) (F.is_type judge.old) (F.is_type judge.new)
        (F.tree judge.old) (F.tree judge.new) }
{
    let mut methods = Vec::new(alloc);
    for part in parts {
        push_methods(alloc, judge, part, &mut methods)?;
    }
    Ok(methods)
}

// Pushes the methods that a type has itself.
fn push_methods<F: Forms>(
    alloc: Global,
    judge: &mut F,
    t: &Ty,
    methods: &mut Vec<Method>,
) -> Result<(), NoMemory>
    requires own { F.is_type judge.old t.now }
    requires methods { AreOwnMethods (F.is_type judge.old) (F.tree judge.old) methods.old.items }
    ensures own { OnOk result (AreOwnMethods (F.is_type judge.new) (F.tree judge.new) methods.new.items) }
    ensures methods { OnOk result (map (method_view (F.tree judge.new)) methods.new.items
        ≡ map (method_view (F.tree judge.old)) methods.old.items ++ methods_in (F.tree judge.old t.now)) }
    ensures keeps { Keeps (F.headers judge.old) (F.headers judge.new) (F.names judge.old) (F.names judge.new)
        (F.outcomes judge.old) (F.outcomes judge.new) (F.is_spent judge.old) (F.is_spent judge.new)
        (F.world judge.old) (F.world judge.new) (F.is_type judge.old) (F.is_type judge.new)
        (F.tree judge.old) (F.tree judge.new) }
{
    let shape = judge.see(alloc, t)?;
    push_methods_at(alloc, judge, shape, methods)
}

// Pushes those of a type of this form.
fn push_methods_at<F: Forms>(
    alloc: Global,
    judge: &mut F,
    shape: Shape,
    methods: &mut Vec<Method>,
) -> Result<(), NoMemory>
    requires own { AreOwn (F.is_type judge.old) shape }
    requires methods { AreOwnMethods (F.is_type judge.old) (F.tree judge.old) methods.old.items }
    ensures own { OnOk result (AreOwnMethods (F.is_type judge.new) (F.tree judge.new) methods.new.items) }
    ensures methods { OnOk result (map (method_view (F.tree judge.new)) methods.new.items
        ≡ map (method_view (F.tree judge.old)) methods.old.items ++ methods_in (shape_tree (F.tree judge.old) shape)) }
    ensures keeps { Keeps (F.headers judge.old) (F.headers judge.new) (F.names judge.old) (F.names judge.new)
        (F.outcomes judge.old) (F.outcomes judge.new) (F.is_spent judge.old) (F.is_spent judge.new)
        (F.world judge.old) (F.world judge.new) (F.is_type judge.old) (F.is_type judge.new)
        (F.tree judge.old) (F.tree judge.new) }
{
    push_each(alloc, judge, elements_in(alloc, shape), methods)
}

// The elements of an interface of this form; another type has none.
fn elements_in(alloc: Global, shape: Shape) -> Vec<ElemShape>
    ensures { result.items ≡ elements_in shape }
{
    match shape {
        Shape::Interface(elems) => elems,
        Shape::Basic(_) => Vec::new(alloc),
        Shape::Pointer(_) => Vec::new(alloc),
        Shape::Slice(_) => Vec::new(alloc),
        Shape::Array(_, _) => Vec::new(alloc),
        Shape::Map(_, _) => Vec::new(alloc),
        Shape::Chan(_, _) => Vec::new(alloc),
        Shape::Func(_) => Vec::new(alloc),
        Shape::Struct(_) => Vec::new(alloc),
        Shape::Tuple(_) => Vec::new(alloc),
        Shape::Named(_, _) => Vec::new(alloc),
        Shape::Param(_, _) => Vec::new(alloc),
        Shape::Bound(_) => Vec::new(alloc),
    }
}

// Pushes the methods among these elements.
fn push_each<F: Forms>(
    alloc: Global,
    judge: &mut F,
    elems: Vec<ElemShape>,
    methods: &mut Vec<Method>,
) -> Result<(), NoMemory>
    requires own { AllByRecursion (IsOwnElem (F.is_type judge.old)) elems.items }
    requires methods { AreOwnMethods (F.is_type judge.old) (F.tree judge.old) methods.old.items }
    ensures own { OnOk result (AreOwnMethods (F.is_type judge.new) (F.tree judge.new) methods.new.items) }
    ensures methods { OnOk result (map (method_view (F.tree judge.new)) methods.new.items
        ≡ map (method_view (F.tree judge.old)) methods.old.items
        ++ flat_map method_in (map (elem_tree (F.tree judge.old)) elems.items)) }
    ensures keeps { Keeps (F.headers judge.old) (F.headers judge.new) (F.names judge.old) (F.names judge.new)
        (F.outcomes judge.old) (F.outcomes judge.new) (F.is_spent judge.old) (F.is_spent judge.new)
        (F.world judge.old) (F.world judge.new) (F.is_type judge.old) (F.is_type judge.new)
        (F.tree judge.old) (F.tree judge.new) }
{
    for elem in elems {
        push_elem(alloc, judge, elem, methods)?;
    }
    Ok(())
}

// Pushes an element, if it is a method.
fn push_elem<F: Forms>(
    alloc: Global,
    judge: &mut F,
    elem: ElemShape,
    methods: &mut Vec<Method>,
) -> Result<(), NoMemory>
    requires own { IsOwnElem (F.is_type judge.old) elem }
    requires methods { AreOwnMethods (F.is_type judge.old) (F.tree judge.old) methods.old.items }
    ensures own { OnOk result (AreOwnMethods (F.is_type judge.new) (F.tree judge.new) methods.new.items) }
    ensures methods { OnOk result (map (method_view (F.tree judge.new)) methods.new.items
        ≡ map (method_view (F.tree judge.old)) methods.old.items ++ method_in (elem_tree (F.tree judge.old) elem)) }
    ensures keeps { Keeps (F.headers judge.old) (F.headers judge.new) (F.names judge.old) (F.names judge.new)
        (F.outcomes judge.old) (F.outcomes judge.new) (F.is_spent judge.old) (F.is_spent judge.new)
        (F.world judge.old) (F.world judge.new) (F.is_type judge.old) (F.is_type judge.new)
        (F.tree judge.old) (F.tree judge.new) }
{
    match elem {
        ElemShape::Method(object, name, package, signature) => {
            push_method(alloc, judge, object, name, package, signature, methods)
        }
        ElemShape::Union(_) => Ok(()),
    }
}

// Pushes a method.
fn push_method<F: Forms>(
    alloc: Global,
    judge: &mut F,
    object: ObjId,
    name: Name,
    package: Name,
    signature: FuncShape,
    methods: &mut Vec<Method>,
) -> Result<(), NoMemory>
    requires own { AreOwnFunc (F.is_type judge.old) signature }
    requires methods { AreOwnMethods (F.is_type judge.old) (F.tree judge.old) methods.old.items }
    ensures own { OnOk result (AreOwnMethods (F.is_type judge.new) (F.tree judge.new) methods.new.items) }
    ensures methods { OnOk result (map (method_view (F.tree judge.new)) methods.new.items
        ≡ map (method_view (F.tree judge.old)) methods.old.items
        ++ method_in (made (method (record { object = object; name = name; «package» = «package»; variadic = signature.variadic }))
        (func_parts (F.tree judge.old) signature))) }
    ensures keeps { Keeps (F.headers judge.old) (F.headers judge.new) (F.names judge.old) (F.names judge.new)
        (F.outcomes judge.old) (F.outcomes judge.new) (F.is_spent judge.old) (F.is_spent judge.new)
        (F.world judge.old) (F.world judge.new) (F.is_type judge.old) (F.is_type judge.new)
        (F.tree judge.old) (F.tree judge.new) }
{
    let variadic = signature.variadic;
    let signature = made_type(alloc, judge, Shape::Func(signature))?;
    methods.push(Method {
        object,
        name,
        package,
        variadic,
        signature,
    })?;
    Ok(())
}
