// Types that operations give (Go specification, "Types", "Constants").
ghost use Rattle.std.specs.Prelude.{◌≡◌, IfOk};
ghost use Rattle.go_term.specs.Types.{basic_type};
ghost use Rattle.go_judge.specs.Types.Own.{Keeps};

use go_base::NoMemory;
use go_judge::Forms;
use go_term::{Basic, Shape, TermFault, Ty};
use std::alloc::Global;

/// A predeclared type, or the kind of an untyped value. An error is want of memory.
pub(crate) fn basic_type<F: Forms>(
    alloc: Global,
    judge: &mut F,
    basic: Basic,
) -> Result<Ty, NoMemory>
    ensures made { IfOk result (λ ty. F.tree judge.new ty ≡ basic_type basic) }
    ensures own { IfOk result (F.is_type judge.new) }
    ensures keeps { Keeps (F.headers judge.old) (F.headers judge.new) (F.names judge.old) (F.names judge.new)
        (F.outcomes judge.old) (F.outcomes judge.new) (F.is_spent judge.old) (F.is_spent judge.new)
        (F.world judge.old) (F.world judge.new) (F.is_type judge.old) (F.is_type judge.new)
        (F.tree judge.old) (F.tree judge.new) }
{
    match judge.make(alloc, Shape::Basic(basic)) {
        Ok(ty) => Ok(ty),
        Err(TermFault::NoMemory) => Err(NoMemory),
        Err(TermFault::Deep) => unreachable!(),
        Err(TermFault::Large) => unreachable!(),
    }
}
