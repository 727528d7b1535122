// Laws of what is read of a file.
ghost use Rattle.std.specs.Prelude.{◌≡◌, ◌≢◌, ℕ, List};
ghost use Rattle.go_tree.specs.Tree.{Tree};
ghost use Rattle.go_text.specs.declared.fault.ParseFault.{ParseFault};
ghost use Rattle.go_text.specs.declared.fault.ParseFault.TheVariants.{NoMemory};
ghost use Rattle.go_text.specs.Files.{IsFileOf};
ghost use Rattle.go_text.specs.Faults.{IsFaultOf};

/// A text is at most one file.
pub fn one_file()
    ensures { (bytes : List ℕ) (first : ℕ) (a b : Tree) → IsFileOf bytes first a → IsFileOf bytes first b → a ≡ b }
{}

/// A text has at most one fault, want of memory apart.
pub fn one_fault()
    ensures { (bytes : List ℕ) (a b : ParseFault) → IsFaultOf bytes a → IsFaultOf bytes b → a ≢ NoMemory → b ≢ NoMemory → a ≡ b }
{}

/// A file has no fault, want of memory apart.
pub fn file_or_fault()
    ensures { (bytes : List ℕ) (first : ℕ) (t : Tree) (fault : ParseFault) → IsFileOf bytes first t → IsFaultOf bytes fault → fault ≢ NoMemory → ⊥ }
{}
