// Laws of type identity, which hold of all types over all headers, and of what questions about types lack: each is the
// contract of a function that does nothing.
ghost use Rattle.std.specs.Prelude.{◌≡◌, ℕ, true, Bool, Option};
ghost use Rattle.go_term.specs.Types.{TypeData};
ghost use Rattle.go_judge.specs.Records.{HeaderData};
ghost use Rattle.go_judge.specs.Headers.{Headers};
ghost use Rattle.go_judge.specs.Types.TypeIdentity.{identical};
ghost use Rattle.go_judge.specs.Quests.{Decided, IsPart, Stays, run};
ghost use Rattle.go_same_laws.specs.Laws.{Chains, ChainsThrough};
ghost use Rattle.go_same_laws.specs.Named.{AreGood, LacksNamed};

/// Each type is identical to itself, whatever headers are known.
pub fn identity_is_reflexive()
    ensures { (headers : Headers) (t : TypeData) → run headers (identical t t) ≡ Decided true }
{}

/// Where one type is identical to another, the other is identical to the one, over the same headers.
pub fn identity_is_symmetric()
    ensures { (headers : Headers) (a b : TypeData)
        → run headers (identical a b) ≡ Decided true → run headers (identical b a) ≡ Decided true }
{}

/// Where it is decided in both orders whether two types are identical, both answers are one.
pub fn identity_is_decided_once()
    ensures { (headers : Headers) (a b : TypeData) (r q : Bool)
        → run headers (identical a b) ≡ Decided r → run headers (identical b a) ≡ Decided q → r ≡ q }
{}

/// Whether two types are identical is decided over more headers as it is over some; where a header is lacking over
/// some, it is lacking over more as long as it is missing.
pub fn identity_stays()
    ensures { (known more : ℕ → Option HeaderData) → IsPart known more
        → (a b : TypeData) → Stays more (run known (identical a b)) (run more (identical a b)) }
{}

/// Where a type is identical to another and that to a third, the first is identical to the third, where that is decided
/// and as many names may be opened on a path as for both questions together.
pub fn identity_chains()
    ensures { (headers : Headers) (a b c : TypeData) (r : Bool) → Chains headers a b c r }
{}

/// Where a type is identical to one in whose interfaces no union leaves a type out, and that one to a third, the first is
/// identical to the third where as many names may be opened on a path as for both questions together.
pub fn identity_chains_without_unions()
    ensures { (headers : Headers) (a b c : TypeData) → ChainsThrough headers a b c }
{}

/// Where the types in the headers of good objects, as far as they are known, name good objects only, whichever these are,
/// what a question about types that do so too lacks is the header of a good object.
pub fn lacks_what_is_named()
    ensures { (good : ℕ → Bool) (headers : Headers)
        → AreGood (λ d. good d ≡ true) headers → LacksNamed (λ d. good d ≡ true) headers }
{}
