// Who judges the expressions of a module, walks over them, and is told the headers of its declarations.
ghost use Rattle.std.specs.Prelude.{◌≡◌, ◌∷◌, [], ℕ, None, false, refl, OnErr, OnOk};
ghost use Rattle.go_judge.specs.Records.{header_view};
ghost use Rattle.go_judge.specs.Headers.{no_outcomes, headers_of};
ghost use Rattle.go_judge.specs.HeadersView.{headers_view};
ghost use Rattle.go_expr.specs.Walker.{outcomes_view};
ghost use Rattle.go_term.specs.View.{type_of};
ghost use Rattle.go_check.specs.Packages.Book.{Standing, book_names, standing_of};

use crate::module_judge::ModuleJudge;
use go_base::{Name, NoMemory};
use go_expr::Walker;
use go_model::{
    Answer, Ask, ExprWalk, Finds, Form, Forms, Header, Headers, Judge, Outcome, Rules, Same, Sets,
};
use go_module::{Module, ObjId, Object, Scopes};
use go_term::{Shape, TermFault, Ty};
use go_tree::{Node, NodeId};
use std::alloc::Global;

/// The rules over a module: a judge, and a walker, to which walks lend the judge. Once want of memory was met while a
/// header was told, each call that can answer it does.
#[derive(Drop)]
pub struct Rulebook<'a> {
    pub(crate) judge: ModuleJudge<'a>,
    pub(crate) walker: Walker,
    pub(crate) is_spent: bool,
}

impl<'a> Rulebook<'a> {
    /// No header is known, no node is walked, and the first package is entered.
    pub fn new(alloc: Global, module: &'a Module, scopes: &'a [Scopes]) -> Rulebook<'a>
        ensures headers { (d : ℕ) → headers_view result.judge.headers d ≡ None }
        ensures outcomes { (n : ℕ) → outcomes_view result.walker n ≡ None }
        ensures standing { standing_of result.judge
            ≡ record { «module» = «module».now; scopes = scopes.now; place = 0 } }
        ensures spent { result.is_spent ≡ false }
    {
        Rulebook {
            judge: ModuleJudge {
                module,
                scopes,
                place: 0,
                headers: Headers::new(alloc),
            },
            walker: Walker::new(alloc),
            is_spent: false,
        }
    }

    /// Enters the package at a place: from now on identifiers are its own. The headers stay, the outcomes do not.
    pub fn enter(&mut self, alloc: Global, package: usize)
        ensures headers { self.new.judge.headers ≡ self.old.judge.headers }
        ensures outcomes { (n : ℕ) → outcomes_view self.new.walker n ≡ None }
        ensures standing { standing_of self.new.judge ≡ record (standing_of self.old.judge) { place = «package» } }
        ensures spent { self.new.is_spent ≡ self.old.is_spent }
    {
        self.judge.place = package;
        self.walker = Walker::new(alloc);
    }
}

impl Ask for Rulebook<'_> {
    ghost headers = { λ book. headers_view book.judge.headers };

    ghost names = { λ book. book_names book.judge };

    ghost outcomes = { λ book. outcomes_view book.walker };

    ghost is_spent = { λ book. book.is_spent };

    ghost World = { Standing };

    ghost world = { λ book. standing_of book.judge };

    // Any type is its own.
    ghost is_type = { λ _ _. Unit {0} };

    ghost tree = { λ _ t. type_of t };

    ghost copies = { λ _ _ _ same _. (tt, same) };

    ghost plain = { λ _ _ _. refl };

    fn ask(&mut self, d: ObjId) -> Result<Option<Header>, NoMemory> {
        if self.is_spent {
            return Err(NoMemory);
        }
        self.judge.ask(d)
    }
}

impl Forms for Rulebook<'_> {
    fn resolve(&self, id: NodeId) -> Option<ObjId> {
        self.judge.resolve(id)
    }

    fn iota_of(&self, id: NodeId) -> Option<usize> {
        self.judge.iota_of(id)
    }

    fn object(&self, d: ObjId) -> &Object {
        self.judge.object(d)
    }

    fn package_of(&self, id: NodeId) -> &Name {
        self.judge.package_of(id)
    }

    fn see(&mut self, alloc: Global, t: &Ty) -> Result<Shape, NoMemory> {
        if self.is_spent {
            return Err(NoMemory);
        }
        self.judge.see(alloc, t)
    }

    fn make(&mut self, alloc: Global, shape: Shape) -> Result<Ty, TermFault> {
        if self.is_spent {
            return Err(TermFault::NoMemory);
        }
        self.judge.make(alloc, shape)
    }

    fn subst(
        &mut self,
        alloc: Global,
        t: &Ty,
        from: &[(ObjId, usize)],
        to: &[Ty],
    ) -> Result<Ty, TermFault> {
        if self.is_spent {
            return Err(TermFault::NoMemory);
        }
        self.judge.subst(alloc, t, from, to)
    }

    fn underlying(&mut self, alloc: Global, t: &Ty) -> Result<Form, NoMemory> {
        if self.is_spent {
            return Err(NoMemory);
        }
        self.judge.underlying(alloc, t)
    }
}

impl Same for Rulebook<'_> {
    fn identical(&mut self, alloc: Global, a: &Ty, b: &Ty) -> Result<Answer, NoMemory> {
        if self.is_spent {
            return Err(NoMemory);
        }
        self.judge.identical(alloc, a, b)
    }
}

impl Finds for Rulebook<'_> {}

impl Sets for Rulebook<'_> {}

impl Judge for Rulebook<'_> {}

impl ExprWalk for Rulebook<'_> {
    fn walk(&mut self, alloc: Global, node: &Node, want: Option<Ty>) -> Result<Outcome, NoMemory> {
        if self.is_spent {
            return Err(NoMemory);
        }
        self.walker.walk_node(alloc, &mut self.judge, node, want)
    }

    fn outcome(&self, id: NodeId) -> Option<&Outcome> {
        self.walker.outcome(id)
    }
}

impl Rules for Rulebook<'_> {
    fn learn(&mut self, d: ObjId, header: &Header) -> Result<(), NoMemory> {
        if self.is_spent {
            return Err(NoMemory);
        }
        let learned = add_copy(&mut self.judge.headers, d, header);
        self.is_spent = learned.is_err();
        learned
    }
}

// Adds the header of a declaration that has none once more. An error is want of memory.
fn add_copy(headers: &mut Headers, d: ObjId, header: &Header) -> Result<(), NoMemory>
    requires { headers_view headers.old d.0 ≡ None }
    ensures added { OnOk result ((e : ℕ) → headers_view headers.new e
        ≡ headers_of (headers_view headers.old) ((d.0, header_view header.now) ∷ []) e) }
    ensures err { OnErr result ((e : ℕ) → headers_view headers.new e ≡ headers_view headers.old e) }
{
    headers.add(d, header.clone()?)
}
