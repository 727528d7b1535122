// Maps of headers (Go specification, "Declarations and scope").
ghost use Rattle.std.specs.Prelude.{◌≡◌, ◌==◌, ℕ, None, Some, false, if◌then◌else◌, refl, OnErr, OnOk};
ghost use Rattle.std.specs.Option.{option_map};
ghost use Rattle.go_judge.specs.Headers.{no_outcomes};
ghost use Rattle.go_judge.specs.HeadersView.{header_in, headers_view};
ghost use Rattle.go_judge.specs.Naming.{no_names};
ghost use Rattle.go_term.specs.View.{type_of};

use crate::ask::Ask;
use crate::header::Header;
use crate::number_hasher::NumberHasher;
use go_base::NoMemory;
use go_module::ObjId;
use indexmap::IndexMap;
use std::alloc::Global;

/// Headers by the numbers of their declarations, each once.
#[derive(Drop)]
pub struct Headers {
    table: IndexMap<ObjId, Header, NumberHasher>,
}

impl Headers {
    /// No header.
    pub fn new(alloc: Global) -> Headers
        ensures { (d : ℕ) → header_in result d ≡ None }
    {
        Headers {
            table: IndexMap::with_hasher(alloc, NumberHasher::new()),
        }
    }

    /// The header of a declaration, None exactly where it has none.
    pub fn get(&self, d: ObjId) -> Option<&Header>
        ensures { option_map (λ header. header.now) result ≡ header_in self.now d.0 }
    {
        self.table.get(&d)
    }

    /// Adds the header of a declaration that has none. An error is want of memory, and leaves the headers as they were.
    pub fn add(&mut self, d: ObjId, header: Header) -> Result<(), NoMemory>
        requires { header_in self.old d.0 ≡ None }
        ensures added { OnOk result ((e : ℕ) → header_in self.new e
            ≡ (if d.0 == e then Some header else header_in self.old e)) }
        ensures err { OnErr result ((e : ℕ) → header_in self.new e ≡ header_in self.old e) }
    {
        self.table.insert(d, header)?;
        Ok(())
    }
}

impl Ask for Headers {
    ghost headers = { headers_view };

    // A map alone knows no identifiers.
    ghost names = { λ _. no_names };

    // Nor does it walk.
    ghost outcomes = { λ _. no_outcomes };

    // Want of memory in `add` leaves it as it was.
    ghost is_spent = { λ _. false };

    ghost World = { Unit {0} };

    ghost world = { λ _. tt };

    // Any type is its own.
    ghost is_type = { λ _ _. Unit {0} };

    ghost tree = { λ _ t. type_of t };

    ghost copies = { λ _ _ _ same _. (tt, same) };

    ghost plain = { λ _ _ _. refl };

    fn ask(&mut self, d: ObjId) -> Result<Option<Header>, NoMemory> {
        match self.table.get(&d) {
            Some(header) => Ok(Some(header.clone()?)),
            None => Ok(None),
        }
    }
}
