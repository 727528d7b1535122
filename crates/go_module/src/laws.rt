// The law of the lists of broken rules: the contract of a function that does nothing.
ghost use Rattle.std.specs.Prelude.{◌≡◌, List};
ghost use Rattle.go_base.specs.declared.rule.Broken.{Broken};
ghost use Rattle.go_module.specs.Order.{IsListOf};

/// There is at most one list of what was found.
pub fn one_list()
    ensures { (found a b : List Broken) → IsListOf found a → IsListOf found b → a ≡ b }
{}
