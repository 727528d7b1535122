// Why a package has no scopes.
ghost use Rattle.std.specs.Prelude.{◌≡◌};
ghost use Rattle.go_scope.specs.declared.scope_fault.ScopeFault.TheVariants.{NoMemory as OutOfMemory};

use go_base::{Broken as BrokenRule, NoMemory};

/// Why a package has no scopes.
#[derive(Debug, Drop)]
pub enum ScopeFault {
    /// Comes where the names of the package break a rule: all that they break, in the order of a report. The
    /// place of a broken rule has the number of its file.
    Broken(Vec<BrokenRule>),
    /// Comes where memory runs out.
    NoMemory,
}

impl From<NoMemory> for ScopeFault {
    ghost from_gives = { λ _ made. made ≡ OutOfMemory };

    fn from(_fault: NoMemory) -> ScopeFault {
        ScopeFault::NoMemory
    }
}
