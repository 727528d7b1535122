// The layers of two types, and whether one is declared.
ghost use Rattle.std.specs.Prelude.{◌≡◌, false, IfOk};
ghost use Rattle.go_term.specs.Shapes.{shape_tree};
ghost use Rattle.go_judge.specs.Types.Own.{AreOwn, Keeps};
ghost use Rattle.go_judge.specs.Types.TypeIdentity.{is_declared};
ghost use Rattle.go_judge.specs.Types.TypeSets.{plain};

use crate::kind::is_name;
use go_base::NoMemory;
use go_judge::Forms;
use go_term::{Shape, Ty};
use std::alloc::Global;

/// The layers of two types. An error is want of memory.
pub(crate) fn see_both<J: Forms>(
    alloc: Global,
    judge: &mut J,
    a: &Ty,
    b: &Ty,
) -> Result<(Shape, Shape), NoMemory>
    requires a_own { J.is_type judge.old a.now }
    requires b_own { J.is_type judge.old b.now }
    ensures a_shape { IfOk result (λ seen. shape_tree (J.tree judge.new) seen.0 ≡ J.tree judge.old a.now) }
    ensures b_shape { IfOk result (λ seen. shape_tree (J.tree judge.new) seen.1 ≡ J.tree judge.old b.now) }
    ensures a_parts { IfOk result (λ seen. AreOwn (J.is_type judge.new) seen.0) }
    ensures b_parts { IfOk result (λ seen. AreOwn (J.is_type judge.new) seen.1) }
    ensures unspent { IfOk result (λ seen. J.is_spent judge.old ≡ false) }
    ensures keeps { Keeps (J.headers judge.old) (J.headers judge.new) (J.names judge.old) (J.names judge.new)
        (J.outcomes judge.old) (J.outcomes judge.new) (J.is_spent judge.old) (J.is_spent judge.new)
        (J.world judge.old) (J.world judge.new) (J.is_type judge.old) (J.is_type judge.new)
        (J.tree judge.old) (J.tree judge.new) }
{
    let x = judge.see(alloc, a)?;
    let y = judge.see(alloc, b)?;
    Ok((x, y))
}

/// Whether a declaration defines a type, or it is a type parameter. An error is want of memory.
pub(crate) fn is_declared<J: Forms>(alloc: Global, judge: &mut J, t: &Ty) -> Result<bool, NoMemory>
    requires { J.is_type judge.old t.now }
    ensures declared { IfOk result (λ yes. yes ≡ is_declared (plain (J.tree judge.old t.now))) }
    ensures keeps { Keeps (J.headers judge.old) (J.headers judge.new) (J.names judge.old) (J.names judge.new)
        (J.outcomes judge.old) (J.outcomes judge.new) (J.is_spent judge.old) (J.is_spent judge.new)
        (J.world judge.old) (J.world judge.new) (J.is_type judge.old) (J.is_type judge.new)
        (J.tree judge.old) (J.tree judge.new) }
{
    let shape = judge.see(alloc, t)?;
    Ok(is_name(&shape))
}
