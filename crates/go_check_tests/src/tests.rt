// A rulebook that is told a header, and a declaration that no package has, where memory is ample.
ghost use Rattle.std.specs.Prelude.{◌≡◌, [], IfOk};

use go_base::{Name, NoMemory, ObjId, Steps};
use go_check::Rulebook;
use go_decl::{Elaborated, elaborate};
use go_model::{Ask, Header, Rules};
use go_module::Module;
use go_num::Value;
use go_term::{Basic, Term};
use std::alloc::Global;
use std::marker::Brand;
use std::sync::ledger::{Blank, Ledger};
use std::test::Fail;

/// A module without packages.
pub(crate) fn no_packages(alloc: Global) -> Result<Module, NoMemory>
    ensures { IfOk result (λ made. made.packages.items ≡ []) }
{
    Ok(Module {
        path: Name::new(String::from_str(alloc, "m")?),
        version: 21,
        packages: Vec::new(alloc),
    })
}

#[test]
fn a_rulebook_tells_what_it_was_told(rt: HostRuntime) -> Result<(), Fail> {
    let module = no_packages(rt.alloc())?;
    let mut book = Rulebook::new(rt.alloc(), &module, &[]);
    let header = Header::Const(Term::Basic(Basic::UntypedInt), Value::Int(7));
    book.learn(ObjId(45), &header)?;
    let told = book.ask(ObjId(45))?;
    assert!(rt; matches!(told, Some(Header::Const(_, Value::Int(7)))));
    Ok(())
}

// What a number comes to that no declaration has, with a new ledger.
fn counted<L: Ledger>(alloc: Global, blank: Blank) -> Result<Elaborated, NoMemory>
    requires name { blank.name ≡ L.name }
    requires parts { blank.parts ≡ L.parts }
    requires some { blank.parts ≡ 1 }
{
    let mut steps = Steps::<L>::new(blank);
    let module = no_packages(alloc)?;
    let mut book = Rulebook::new(alloc, &module, &[]);
    elaborate(alloc, ObjId(45), &module, &[], &mut book, &mut steps)
}

#[test]
fn what_is_not_declared_has_no_header(rt: HostRuntime) -> Result<(), Fail> {
    let made = counted::<Brand>(rt.alloc(), Blank::new(1))?;
    assert!(rt; made.header.is_none());
    assert_eq!(rt; made.broken.len(), 0);
    Ok(())
}
