// Types that the judge makes, none of which can be too deep or too large (Go specification, "Types").
ghost use Rattle.std.specs.Prelude.{◌≡◌, [], None, IfOk};
ghost use Rattle.go_term.specs.Shapes.{shape_tree};
ghost use Rattle.go_term.specs.Size.{size_fault};
ghost use Rattle.go_term.specs.Types.{basic_type, interface_type, named, of_list};
ghost use Rattle.go_judge.specs.Types.Own.{AreOwn, Keeps};

use go_base::NoMemory;
use go_model::Judge;
use go_module::ObjId;
use go_term::{Basic, Shape, TermFault, Ty};
use std::alloc::Global;

/// A predeclared type, or the kind of an untyped constant. An error is want of memory.
pub fn basic_type<J: Judge>(alloc: Global, judge: &mut J, basic: Basic) -> Result<Ty, NoMemory>
    ensures made { IfOk result (λ ty. J.tree judge.new ty ≡ basic_type basic) }
    ensures own { IfOk result (J.is_type judge.new) }
    ensures keeps { Keeps (J.headers judge.old) (J.headers judge.new) (J.names judge.old) (J.names judge.new)
        (J.outcomes judge.old) (J.outcomes judge.new) (J.is_spent judge.old) (J.is_spent judge.new)
        (J.world judge.old) (J.world judge.new) (J.is_type judge.old) (J.is_type judge.new)
        (J.tree judge.old) (J.tree judge.new) }
{
    made(alloc, judge, Shape::Basic(basic))
}

/// The type that a declaration defines, without type arguments. An error is want of memory.
pub fn named_type<J: Judge>(alloc: Global, judge: &mut J, d: ObjId) -> Result<Ty, NoMemory>
    ensures made { IfOk result (λ ty. J.tree judge.new ty ≡ of_list (named d) []) }
    ensures own { IfOk result (J.is_type judge.new) }
    ensures keeps { Keeps (J.headers judge.old) (J.headers judge.new) (J.names judge.old) (J.names judge.new)
        (J.outcomes judge.old) (J.outcomes judge.new) (J.is_spent judge.old) (J.is_spent judge.new)
        (J.world judge.old) (J.world judge.new) (J.is_type judge.old) (J.is_type judge.new)
        (J.tree judge.old) (J.tree judge.new) }
{
    made(alloc, judge, Shape::Named(d, Vec::new(alloc)))
}

/// The interface without elements, for which `any` stands. An error is want of memory.
pub fn any_type<J: Judge>(alloc: Global, judge: &mut J) -> Result<Ty, NoMemory>
    ensures made { IfOk result (λ ty. J.tree judge.new ty ≡ of_list interface_type []) }
    ensures own { IfOk result (J.is_type judge.new) }
    ensures keeps { Keeps (J.headers judge.old) (J.headers judge.new) (J.names judge.old) (J.names judge.new)
        (J.outcomes judge.old) (J.outcomes judge.new) (J.is_spent judge.old) (J.is_spent judge.new)
        (J.world judge.old) (J.world judge.new) (J.is_type judge.old) (J.is_type judge.new)
        (J.tree judge.old) (J.tree judge.new) }
{
    made(alloc, judge, Shape::Interface(Vec::new(alloc)))
}

// The type of a form that fits. An error is want of memory.
fn made<J: Judge>(alloc: Global, judge: &mut J, shape: Shape) -> Result<Ty, NoMemory>
    requires own { AreOwn (J.is_type judge.old) shape }
    requires fits { size_fault (shape_tree (J.tree judge.old) shape) ≡ None }
    ensures made { IfOk result (λ ty. J.tree judge.new ty ≡ shape_tree (J.tree judge.old) shape) }
    ensures own { IfOk result (J.is_type judge.new) }
    ensures keeps { Keeps (J.headers judge.old) (J.headers judge.new) (J.names judge.old) (J.names judge.new)
        (J.outcomes judge.old) (J.outcomes judge.new) (J.is_spent judge.old) (J.is_spent judge.new)
        (J.world judge.old) (J.world judge.new) (J.is_type judge.old) (J.is_type judge.new)
        (J.tree judge.old) (J.tree judge.new) }
{
    match judge.make(alloc, shape) {
        Ok(ty) => Ok(ty),
        Err(TermFault::NoMemory) => Err(NoMemory),
        Err(TermFault::Deep) => unreachable!(),
        Err(TermFault::Large) => unreachable!(),
    }
}
