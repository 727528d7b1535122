// Laws of substitution and of underlying types: each is the contract of a function that does nothing.
ghost use Rattle.std.specs.Prelude.{◌≡◌, ℕ, [], Option};
ghost use Rattle.go_term.specs.Substitution.{subst};
ghost use Rattle.go_term.specs.Types.{TypeData};
ghost use Rattle.go_judge.specs.Records.{HeaderData};
ghost use Rattle.go_judge.specs.Types.UnderlyingType.{under};
ghost use Rattle.go_judge.specs.Quests.{IsPart, Stays, run};

/// Substituting nothing changes nothing.
pub fn substitution_of_nothing()
    ensures { (t : TypeData) → subst [] [] t ≡ t }
{}

/// Where a chain of right sides leads is decided over more headers as it is over some; where a header is lacking over
/// some, it is lacking over more as long as it is missing.
pub fn underlying_types_stay()
    ensures { (known more : ℕ → Option HeaderData) → IsPart known more
        → (t : TypeData) → Stays more (run known (under t)) (run more (under t)) }
{}
