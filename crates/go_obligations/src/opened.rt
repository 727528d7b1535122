// Objects whose types were opened (Go specification, "Embedded interfaces").
ghost use Rattle.std.specs.Prelude.{◌≡◌, ◌||◌, false, OnOk};
ghost use Rattle.go_base.specs.declared.ids.ObjId.{ObjId};
ghost use Rattle.go_module.specs.Scopes.{same_object};
ghost use Rattle.go_obligations.specs.EmbeddedSearch.{is_opened};

use go_base::NoMemory;
use go_model::NumberHasher;
use go_module::ObjId;
use indexmap::IndexSet;
use std::alloc::Global;

/// Objects, each once: those whose types without type arguments were opened.
#[derive(Drop)]
pub(crate) struct Opened {
    objects: IndexSet<ObjId, NumberHasher>,
}

impl Opened {
    /// No object.
    pub(crate) fn new(alloc: Global) -> Opened
        ensures { (d : ObjId) → is_opened result d ≡ false }
    {
        Opened {
            objects: IndexSet::with_hasher(alloc, NumberHasher::new()),
        }
    }

    /// Whether the object is among them.
    pub(crate) fn has(&self, d: ObjId) -> bool
        ensures { result ≡ is_opened self.now d }
    {
        self.objects.contains(&d)
    }

    /// Adds an object. An error is want of memory.
    pub(crate) fn add(&mut self, d: ObjId) -> Result<(), NoMemory>
        ensures { OnOk result ((e : ObjId) → is_opened self.new e ≡ (is_opened self.old e || same_object e d)) }
    {
        self.objects.insert(d)?;
        Ok(())
    }
}
