// Who judges the expressions of a module, by the headers that are known and the scopes of its packages.
ghost use Rattle.std.specs.Prelude.{◌≡◌, false, refl};
ghost use Rattle.go_judge.specs.Headers.{no_outcomes};
ghost use Rattle.go_judge.specs.HeadersView.{headers_view};
ghost use Rattle.go_term.specs.View.{type_of};
ghost use Rattle.go_check.specs.Packages.Book.{Standing, book_names, standing_of};

use go_base::{Name, NoMemory};
use go_model::{Answer, Ask, Finds, Form, Forms, Header, Headers, Judge, Same, Sets};
use go_module::{Module, ObjId, Object, Scopes};
use go_same::same;
use go_subst::{subst, underlying_type};
use go_term::{Shape, TermFault, Ty};
use go_tree::NodeId;
use std::alloc::Global;

/// The headers of a module that are known, and the scopes of its packages, of which one is entered: the identifiers
/// that it speaks of are those of this package.
#[derive(Drop)]
pub struct ModuleJudge<'a> {
    pub(crate) module: &'a Module,
    pub(crate) scopes: &'a [Scopes],
    pub(crate) place: usize,
    pub(crate) headers: Headers,
}

impl Ask for ModuleJudge<'_> {
    ghost headers = { λ judge. headers_view judge.headers };

    ghost names = { λ judge. book_names judge };

    // A judge does not walk.
    ghost outcomes = { λ _. no_outcomes };

    ghost is_spent = { λ _. false };

    ghost World = { Standing };

    ghost world = { λ judge. standing_of judge };

    // Any type is its own.
    ghost is_type = { λ _ _. Unit {0} };

    ghost tree = { λ _ t. type_of t };

    ghost copies = { λ _ _ _ same _. (tt, same) };

    ghost plain = { λ _ _ _. refl };

    fn ask(&mut self, d: ObjId) -> Result<Option<Header>, NoMemory> {
        self.headers.ask(d)
    }
}

impl Forms for ModuleJudge<'_> {
    fn resolve(&self, id: NodeId) -> Option<ObjId> {
        match self.scopes.get(self.place) {
            Some(scopes) => scopes.resolve(id),
            None => None,
        }
    }

    fn iota_of(&self, id: NodeId) -> Option<usize> {
        match self.scopes.get(self.place) {
            Some(scopes) => scopes.iota_of(id),
            None => None,
        }
    }

    fn object(&self, d: ObjId) -> &Object {
        self.scopes[self.place].object(d)
    }

    fn package_of(&self, _id: NodeId) -> &Name {
        match self.module.packages.get(self.place) {
            Some(own) => &own.path,
            None => &self.module.path,
        }
    }

    fn see(&mut self, alloc: Global, t: &Ty) -> Result<Shape, NoMemory> {
        t.shape(alloc)
    }

    fn make(&mut self, alloc: Global, shape: Shape) -> Result<Ty, TermFault> {
        shape.make(alloc)
    }

    fn subst(
        &mut self,
        alloc: Global,
        t: &Ty,
        from: &[(ObjId, usize)],
        to: &[Ty],
    ) -> Result<Ty, TermFault> {
        subst(alloc, t, from, to)
    }

    fn underlying(&mut self, alloc: Global, t: &Ty) -> Result<Form, NoMemory> {
        underlying_type(alloc, &mut self.headers, t)
    }
}

impl Same for ModuleJudge<'_> {
    fn identical(&mut self, alloc: Global, a: &Ty, b: &Ty) -> Result<Answer, NoMemory> {
        same(alloc, self, a, b)
    }
}

impl Finds for ModuleJudge<'_> {}

impl Sets for ModuleJudge<'_> {}

impl Judge for ModuleJudge<'_> {}
