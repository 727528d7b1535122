// Import paths.
ghost use Rattle.std.specs.Prelude.{◌≡◌, Some, nat_eq, refl};
ghost use Rattle.std.proofs.Common.{rules};
ghost use Rattle.std.specs.Cmp.Rules.{comparing};
ghost use Rattle.std.specs.Cmp.Lexicographic.{pointwise, slice_cmp};
ghost use Rattle.std.specs.Cmp.Lexicographic.{nat_list_cmp_total, texts_po, texts_ties};
ghost use Rattle.std.specs.Ordering.{nat_cmp};

use std::alloc::AllocError;
use std::cmp::Ordering;
use std::marker::Model;

/// The path by which a package is imported. Paths are compared by their bytes.
#[derive(Debug, Drop)]
pub struct ImportPath {
    bytes: Vec<u8>,
}

impl Model for ImportPath {
    ghost use Rattle.std.specs.Prelude.{ℕ, List};

    ghost Value = { List ℕ };

    ghost view = { λ path. path.bytes.items };
}

impl ImportPath {
    /// The path with these bytes.
    pub fn new(bytes: Vec<u8>) -> Self
        ensures { result ≡ bytes.items }
    {
        ImportPath { bytes }
    }

    /// The bytes of the path.
    pub fn as_bytes(&self) -> &[u8]
        ensures { result.now ≡ self.now }
    {
        &self.bytes
    }
}

impl Clone for ImportPath {
    ghost is_clone = { λ path copy. copy ≡ path };

    fn clone(&self) -> Result<ImportPath, AllocError> {
        Ok(ImportPath {
            bytes: self.bytes.clone()?,
        })
    }
}

impl PartialEq for ImportPath {
    ghost eq = { pointwise nat_eq };

    ghost laws = { Prim.search (comparing, rules) };

    fn eq(&self, other: &ImportPath) -> bool {
        self.bytes == other.bytes
    }
}

impl Eq for ImportPath {
    ghost laws = { Prim.search (comparing, rules) };
}

/// By bytes.
impl PartialOrd for ImportPath {
    ghost partial_cmp = { λ a b. Some (slice_cmp nat_cmp a b) };

    ghost laws = { texts_po };

    fn partial_cmp(&self, other: &ImportPath) -> Option<Ordering> {
        Some(self.cmp(other))
    }
}

/// By bytes.
impl Ord for ImportPath {
    ghost cmp = { slice_cmp nat_cmp };

    ghost total = { nat_list_cmp_total };

    ghost matches_partial_cmp = { λ _ _. refl };

    ghost matches_eq = { texts_ties };

    fn cmp(&self, other: &ImportPath) -> Ordering {
        self.as_bytes().cmp(other.as_bytes())
    }
}
