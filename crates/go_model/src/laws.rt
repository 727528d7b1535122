// Laws of the outcomes of nodes: each is the contract of a function that does nothing.
ghost use Rattle.go_tree.specs.Tree.{Tree};
ghost use Rattle.go_judge.specs.Quests.{IsPart};
ghost use Rattle.go_judge.specs.Naming.{Naming};
ghost use Rattle.go_judge.specs.Headers.{Headers};
ghost use Rattle.go_model.specs.Outcomes.Exactly.{OutcomeExactly};
ghost use Rattle.go_model.specs.Outcomes.Stays.{OutcomeStays};

/// The outcome of a node over some headers and over more: a record stays, a broken rule stays, at its places and
/// maybe more, and `Nothing` stays `Nothing`. What a node waits for is missing; it waits for that or has failed as
/// long as that is missing.
pub fn outcomes_stay()
    ensures { (naming : Naming) (known more : Headers) → IsPart known more
        → (t : Tree) → OutcomeStays naming known more t }
{}

/// The outcome of a node is that of its construct, by the outcomes of its operands: where it has a record, breaks a rule,
/// waits and has nothing is that of `judged_exactly`.
pub fn outcomes_exactly()
    ensures { (naming : Naming) (headers : Headers) (t : Tree)
        → OutcomeExactly naming headers t }
{}
