// Answers about named types that are kept (Go specification, "Struct types", "General interfaces").
ghost use Rattle.std.specs.Prelude.{◌≡◌, None, Some, if◌then◌else◌, OnOk};
ghost use Rattle.go_obligations.specs.Answers.{answer_kept, same_key};
ghost use Rattle.go_obligations.specs.declared.answers.NamedKey.{NamedKey};

use go_base::NoMemory;
use go_model::NumberHasher;
use go_module::ObjId;
use indexmap::IndexMap;
use std::alloc::Global;

/// What is demanded of a named type without type arguments: that it is no constraint; that it may be embedded as it
/// stands; that it may be embedded behind a `*`.
#[derive(Clone, Copy, Debug, PartialEq, Eq, Hash)]
pub(crate) enum NamedDemand {
    NoConstraint,
    Embeddable,
    EmbeddableBehindStar,
}

/// A demand on a named type without type arguments, by the object of the name. The object comes last, since a
/// `NumberHasher` keeps what is written last: keys of one object have one hash.
#[derive(Clone, Copy, Debug, PartialEq, Eq, Hash)]
pub(crate) struct NamedKey {
    pub demand: NamedDemand,
    pub object: ObjId,
}

/// Answers: of demands on named types without type arguments, whether the type does not meet the demand.
#[derive(Drop)]
pub(crate) struct Answers {
    table: IndexMap<NamedKey, bool, NumberHasher>,
}

impl Answers {
    /// No answer.
    pub(crate) fn new(alloc: Global) -> Answers
        ensures { (key : NamedKey) → answer_kept result key ≡ None }
    {
        Answers {
            table: IndexMap::with_hasher(alloc, NumberHasher::new()),
        }
    }

    /// The answer that is kept, if any.
    pub(crate) fn get(&self, key: NamedKey) -> Option<bool>
        ensures { result ≡ answer_kept self.now key }
    {
        self.table.get(&key).copied()
    }

    /// Adds an answer, in place of one that is kept. An error is want of memory.
    pub(crate) fn add(&mut self, key: NamedKey, fails: bool) -> Result<(), NoMemory>
        ensures { OnOk result ((other : NamedKey) → answer_kept self.new other
            ≡ (if same_key key other then Some fails else answer_kept self.old other)) }
    {
        self.table.insert(key, fails)?;
        Ok(())
    }
}
