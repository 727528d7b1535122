// Who judges expressions, level above level: a call of one level is answered by those below alone.
ghost use Rattle.std.specs.Prelude.{◌≡◌, ℕ, [], ◌∷◌, true, false, None, Some, IfErr, IfOk, IsSome, OnErr, OnOk, length, map};
ghost use Rattle.std.specs.List.{AllByRecursion};
ghost use Rattle.go_term.specs.Shapes.{IsCause, shape_tree};
ghost use Rattle.go_term.specs.Size.{size_fault};
ghost use Rattle.go_term.specs.Substitution.{subst};
ghost use Rattle.go_term.specs.declared.fault.TermFault.TheVariants as fault;
ghost use Rattle.go_judge.specs.Types.Forms.{IsOwnForm, answer_as, form_as, underlying_over};
ghost use Rattle.go_judge.specs.Types.Own.{AreOwn, Keeps};
ghost use Rattle.go_judge.specs.Types.TypeIdentity.{identical};
ghost use Rattle.go_judge.specs.Quests.{run};

use crate::ask::Ask;
use crate::form::Form;
use crate::outcome::Answer;
use go_base::{Name, NoMemory};
use go_module::{ObjId, Object};
use go_term::{Shape, TermFault, Ty};
use go_tree::NodeId;
use std::alloc::Global;

/// What is known of identifiers and objects (Go specification, "Declarations and scope"), and of types: they are read
/// and made by `see`, `make` and `subst` alone. An error is want of memory where nothing else is said; each call leaves
/// the headers, the names, the outcomes, the types that it had, whether it is spent, and what else stays as they were,
/// also on an error.
pub trait Forms: Ask {
    /// The object that an identifier of the package denotes, by its node, None exactly where it denotes none.
    fn resolve(&self, id: NodeId) -> Option<ObjId>
        ensures { result ≡ (Self.names self.now).denotes id.0 };

    /// The number of the constant spec around an identifier `iota`, by its node (Go specification, "Iota"), None
    /// exactly where none stands around it.
    fn iota_of(&self, id: NodeId) -> Option<usize>
        ensures { result ≡ (Self.names self.now).iota id.0 };

    /// The object of that number, which must be there.
    fn object(&self, d: ObjId) -> &Object
        requires { IsSome ((Self.names self.now).objects d.0) }
        ensures { (Self.names self.now).objects d.0 ≡ Some result.now };

    /// The path of the package in which a node stands that is judged.
    fn package_of(&self, id: NodeId) -> &Name
        ensures { result.now ≡ (Self.names self.now).home };

    /// The outer form of a type.
    fn see(&mut self, alloc: Global, t: &Ty) -> Result<Shape, NoMemory>
        requires { Self.is_type self.old t.now }
        ensures shape { IfOk result (λ shape. shape_tree (Self.tree self.new) shape ≡ Self.tree self.old t.now) }
        ensures own { IfOk result (AreOwn (Self.is_type self.new)) }
        ensures unspent { IfOk result (λ shape. Self.is_spent self.old ≡ false) }
        ensures keeps { Keeps (Self.headers self.old) (Self.headers self.new) (Self.names self.old) (Self.names self.new)
            (Self.outcomes self.old) (Self.outcomes self.new) (Self.is_spent self.old) (Self.is_spent self.new)
            (Self.world self.old) (Self.world self.new) (Self.is_type self.old) (Self.is_type self.new)
            (Self.tree self.old) (Self.tree self.new) };

    /// The type of this form. Besides want of memory an error is Deep where it is deeper than 256, else Large where it
    /// has more than 65,536 nodes.
    fn make(&mut self, alloc: Global, shape: Shape) -> Result<Ty, TermFault>
        requires { AreOwn (Self.is_type self.old) shape }
        ensures made { IfOk result (λ t. Self.tree self.new t ≡ shape_tree (Self.tree self.old) shape) }
        ensures own { IfOk result (Self.is_type self.new) }
        ensures fits { IfOk result (λ t. size_fault (shape_tree (Self.tree self.old) shape) ≡ None) }
        ensures cause { IfErr result (λ fault. IsCause fault (shape_tree (Self.tree self.old) shape)) }
        ensures spent { Self.is_spent self.old ≡ true → IfErr result (λ f. f ≡ fault.NoMemory) }
        ensures unspent { IfOk result (λ t. Self.is_spent self.old ≡ false) }
        ensures keeps { Keeps (Self.headers self.old) (Self.headers self.new) (Self.names self.old) (Self.names self.new)
            (Self.outcomes self.old) (Self.outcomes self.new) (Self.is_spent self.old) (Self.is_spent self.new)
            (Self.world self.old) (Self.world self.new) (Self.is_type self.old) (Self.is_type self.new)
            (Self.tree self.old) (Self.tree self.new) };

    /// The type with arguments in the place of type parameters, each known by its declaration and its place there
    /// ("Instantiations"). It asks for one argument for each parameter. Besides want of memory an error is Deep where the
    /// type that it would be is deeper than 256, else Large where it has more than 65,536 nodes.
    fn subst(
        &mut self,
        alloc: Global,
        t: &Ty,
        from: &[(ObjId, usize)],
        to: &[Ty],
    ) -> Result<Ty, TermFault>
        requires long { length from.now ≡ length to.now }
        requires own { Self.is_type self.old t.now }
        requires arguments { AllByRecursion (Self.is_type self.old) to.now }
        ensures made { IfOk result (λ made. Self.tree self.new made
            ≡ subst from.now (map (Self.tree self.old) to.now) (Self.tree self.old t.now)) }
        ensures own { IfOk result (Self.is_type self.new) }
        ensures fits { IfOk result (λ made. size_fault
            (subst from.now (map (Self.tree self.old) to.now) (Self.tree self.old t.now)) ≡ None) }
        ensures cause { IfErr result (λ fault. IsCause fault
            (subst from.now (map (Self.tree self.old) to.now) (Self.tree self.old t.now))) }
        ensures spent { Self.is_spent self.old ≡ true → IfErr result (λ f. f ≡ fault.NoMemory) }
        ensures unspent { IfOk result (λ made. Self.is_spent self.old ≡ false) }
        ensures keeps { Keeps (Self.headers self.old) (Self.headers self.new) (Self.names self.old) (Self.names self.new)
            (Self.outcomes self.old) (Self.outcomes self.new) (Self.is_spent self.old) (Self.is_spent self.new)
            (Self.world self.old) (Self.world self.new) (Self.is_type self.old) (Self.is_type self.new)
            (Self.tree self.old) (Self.tree self.new) };

    /// The underlying type of a type ("Underlying types"). Absent exactly where the chain of right sides returns or
    /// leads to a type that is too deep or too large, Unknown with the first header that the chain lacks.
    fn underlying(&mut self, alloc: Global, t: &Ty) -> Result<Form, NoMemory>
        requires { Self.is_type self.old t.now }
        ensures answer { IfOk result (λ form. form_as (Self.tree self.new) form
            ≡ underlying_over (Self.headers self.old) (Self.tree self.old t.now)) }
        ensures own { IfOk result (IsOwnForm (Self.is_type self.new)) }
        ensures unspent { IfOk result (λ form. Self.is_spent self.old ≡ false) }
        ensures keeps { Keeps (Self.headers self.old) (Self.headers self.new) (Self.names self.old) (Self.names self.new)
            (Self.outcomes self.old) (Self.outcomes self.new) (Self.is_spent self.old) (Self.is_spent self.new)
            (Self.world self.old) (Self.world self.new) (Self.is_type self.old) (Self.is_type self.new)
            (Self.tree self.old) (Self.tree self.new) };
}

/// Which types are identical (Go specification, "Type identity").
pub trait Same: Forms {
    /// Whether two types are identical, Unknown with the first header that the answer lacks. No where more than 32 names
    /// would have to be opened on one path: names that interfaces embed, and underlying types of their terms. An error is
    /// want of memory, also past as many steps as are taken for one answer; the call leaves what calls of `Forms` leave.
    fn identical(&mut self, alloc: Global, a: &Ty, b: &Ty) -> Result<Answer, NoMemory>
        requires first { Self.is_type self.old a.now }
        requires second { Self.is_type self.old b.now }
        ensures answer { IfOk result (λ answer. answer_as answer
            ≡ run (Self.headers self.old) (identical (Self.tree self.old a.now) (Self.tree self.old b.now))) }
        ensures unspent { IfOk result (λ answer. Self.is_spent self.old ≡ false) }
        ensures keeps { Keeps (Self.headers self.old) (Self.headers self.new) (Self.names self.old) (Self.names self.new)
            (Self.outcomes self.old) (Self.outcomes self.new) (Self.is_spent self.old) (Self.is_spent self.new)
            (Self.world self.old) (Self.world self.new) (Self.is_type self.old) (Self.is_type self.new)
            (Self.tree self.old) (Self.tree self.new) };
}

/// Fields and methods of types (Go specification, "Selectors", "Method sets"). None is judged yet.
pub trait Finds: Same {}

/// Type sets and core types (Go specification, "Interface types", "Core types"). None is judged yet.
pub trait Sets: Finds {}

/// Assignability, conversion and inference (Go specification, "Assignability", "Conversions", "Type inference"). None
/// is judged yet.
pub trait Judge: Sets {}
