// Who judges expressions, walks over them, and is told headers.
ghost use Rattle.std.specs.Prelude.{◌≡◌, ℕ, [], ◌∷◌, true, false, None, OnErr, OnOk};
ghost use Rattle.go_judge.specs.Headers.{headers_of};
ghost use Rattle.go_judge.specs.Records.{header_as};
ghost use Rattle.go_judge.specs.Types.Own.{IsOwnHeader, KeepsTypes};

use crate::expr_walk::ExprWalk;
use go_base::NoMemory;
use go_judge::{Header, Judge};
use go_module::ObjId;

/// A judge that walks over expressions and is told headers.
pub trait Rules: Judge + ExprWalk {
    /// Adds the header of a declaration that has none; its types must be of its own. The names, the outcomes, its types, and
    /// what else stays are as before. An error is want of memory, and leaves the headers as they were; behind it each call
    /// that can answer it does.
    fn learn(&mut self, d: ObjId, header: &Header) -> Result<(), NoMemory>
        requires vacant { Self.headers self.old d.0 ≡ None }
        requires own { IsOwnHeader (Self.is_type self.old) header.now }
        ensures learned { OnOk result ((e : ℕ) → Self.headers self.new e
            ≡ headers_of (Self.headers self.old) ((d.0, header_as (Self.tree self.old) header.now) ∷ []) e) }
        ensures err { OnErr result ((e : ℕ) → Self.headers self.new e ≡ Self.headers self.old e) }
        ensures names { Self.names self.new ≡ Self.names self.old }
        ensures unspent { OnOk result (Self.is_spent self.old ≡ false) }
        ensures kept { OnOk result (Self.is_spent self.new ≡ false) }
        ensures spent { OnErr result (Self.is_spent self.new ≡ true) }
        ensures outcomes { Self.outcomes self.new ≡ Self.outcomes self.old }
        ensures world { Self.world self.new ≡ Self.world self.old }
        ensures types { KeepsTypes (Self.is_type self.old) (Self.is_type self.new)
            (Self.tree self.old) (Self.tree self.new) };
}
