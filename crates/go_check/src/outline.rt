// What the lines of a package need of the module around it (Go specification, "Declarations and scope", "Import
// declarations").
ghost use Rattle.std.specs.Prelude.{◌≡◌, [], false, IfOk, None};
ghost use Rattle.go_report.specs.Outline as spec;
ghost use Rattle.go_report.specs.Report.{named_view};
ghost use Rattle.go_check.specs.View.{outline_view};

use crate::declared::DeclaredObjects;
use go_base::{Name, NoMemory};
use go_module::{At, FIRST_NUMBER, ObjId, Package, universe};
use go_report::NamedObject;
use std::alloc::Global;

/// The packages of a module, and where its objects are declared.
#[derive(Clone, Copy)]
pub struct Outline<'a> {
    pub packages: &'a [Package],
    pub declared: &'a DeclaredObjects,
}

impl Outline<'_> {
    /// Where an object is declared: nowhere exactly for a universe name. An error is want of memory.
    pub fn declared_at(&self, alloc: Global, d: ObjId) -> Result<Option<At>, NoMemory>
        ensures { IfOk result (λ at. at ≡ spec.declared_at (outline_view self.now) d) }
    {
        if d.0 < FIRST_NUMBER {
            return Ok(None);
        }
        Ok(Some(self.place_of(alloc, d)?))
    }

    // Where an object stands that is no universe name.
    fn place_of(&self, alloc: Global, d: ObjId) -> Result<At, NoMemory>
        ensures { IfOk result (λ at. at ≡ (spec.declaration_of (outline_view self.now) d).at) }
    {
        match self.declared.get(&d) {
            Some(declared) => copy_at(&declared.at),
            None => Ok(nowhere(alloc)),
        }
    }

    /// What types name an object by: of a universe name no path and no place. An error is want of memory.
    pub fn named_by(&self, alloc: Global, d: ObjId) -> Result<NamedObject, NoMemory>
        ensures { IfOk result (λ named. named_view named ≡ spec.named_by (outline_view self.now) d) }
    {
        if d.0 < FIRST_NUMBER {
            return named_universe(alloc, d);
        }
        let Declared { name, home } = self.declared_by(alloc, d)?;
        Ok(NamedObject {
            object: d,
            path: self.path_at(alloc, home)?,
            name,
            at: Some(self.place_of(alloc, d)?),
            local: false,
            params: Vec::new(alloc),
        })
    }

    // The name of an object that is no universe name, and the place of its package.
    fn declared_by(&self, alloc: Global, d: ObjId) -> Result<Declared, NoMemory>
        ensures name { IfOk result (λ found. found.name ≡ (spec.declaration_of (outline_view self.now) d).name) }
        ensures home { IfOk result (λ found. found.home ≡ (spec.declaration_of (outline_view self.now) d).home) }
    {
        match self.declared.get(&d) {
            Some(declared) => Ok(Declared {
                name: declared.name.clone()?,
                home: declared.home,
            }),
            None => Ok(Declared {
                name: Name::new(String::new(alloc)),
                home: 0,
            }),
        }
    }

    /// The path of the package at a place of the module. An error is want of memory.
    pub fn path_at(&self, alloc: Global, place: usize) -> Result<Name, NoMemory>
        ensures { IfOk result (λ path. path ≡ spec.path_at (outline_view self.now) place) }
    {
        match self.packages.get(place) {
            Some(own) => Ok(own.path.clone()?),
            None => Ok(Name::new(String::new(alloc))),
        }
    }
}

// The name of an object, and the place of its package.
#[derive(Drop)]
struct Declared {
    name: Name,
    home: usize,
}

// What types name a universe name by.
fn named_universe(alloc: Global, d: ObjId) -> Result<NamedObject, NoMemory>
    ensures { IfOk result (λ named. named_view named ≡ record {
      object = d;
      path = [];
      name = spec.universe_name d;
      at = None;
      local = false;
      params = [];
    }) }
{
    Ok(NamedObject {
        object: d,
        path: Name::new(String::new(alloc)),
        name: universe_name(alloc, d)?,
        at: None,
        local: false,
        params: Vec::new(alloc),
    })
}

fn universe_name(alloc: Global, d: ObjId) -> Result<Name, NoMemory>
    ensures { IfOk result (λ name. name ≡ spec.universe_name d) }
{
    let block = universe(alloc)?;
    match block.get(d.0) {
        Some(region) => Ok(region.object.name.clone()?),
        None => Ok(Name::new(String::new(alloc))),
    }
}

fn copy_at(at: &At) -> Result<At, NoMemory>
    ensures { IfOk result (λ copy. copy ≡ at.now) }
{
    Ok(At {
        stub: at.stub,
        file: at.file.clone()?,
        line: at.line,
        col: at.col,
    })
}

// The place of what no file declares.
fn nowhere(alloc: Global) -> At
    ensures { result ≡ record { stub = false; file = []; line = 0; col = 0 } }
{
    At {
        stub: false,
        file: Name::new(String::new(alloc)),
        line: 0,
        col: 0,
    }
}
