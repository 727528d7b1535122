// Laws of questions and of how nodes are judged, which hold of every map of headers: each is the contract of a function
// that does nothing.
ghost use Rattle.std.specs.Prelude.{◌≡◌, ℕ, List, Option};
ghost use Rattle.go_judge.specs.Exactly.{JudgedExactly};
ghost use Rattle.go_judge.specs.Judged.{Construct, OutcomeData};
ghost use Rattle.go_judge.specs.Quests.{IsPart, Quest, Stays, run};

/// A question that is decided over some headers is decided alike over more, and one that lacks a
/// header lacks it as long as it is missing.
pub fn decided_stays<H, A>()
    ensures { (known more : ℕ → Option H) → IsPart known more
        → (q : Quest H A) → Stays more (run known q) (run more q) }
{}

/// A node has a record exactly where its operands have, its tests are all Yes and what its record asks is decided. It
/// breaks a rule exactly where its operands have records, the tests before are Yes and that one is No, at exactly the
/// places where it is No. It waits exactly where its first operand without a record does and none has failed, or
/// where its first test that is not Yes is No nowhere and lacks a header, or where what its record asks lacks one. It
/// has nothing exactly where an operand has failed or nothing is asked.
pub fn judged_exactly<H, R>()
    ensures { (headers : ℕ → Option H) (construct : Construct H R) (parts : List (OutcomeData R))
        → JudgedExactly headers construct parts }
{}
