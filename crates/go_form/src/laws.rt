// The law of what a file breaks by its form: the contract of a function that does nothing.
ghost use Rattle.std.specs.Prelude.{◌≡◌, ℕ, List};
ghost use Rattle.go_base.specs.declared.rule.Broken.{Broken};
ghost use Rattle.go_form.specs.Whole.{AreBrokenForms};
ghost use Rattle.go_tree.specs.Tree.{Tree};

/// There is at most one list of what a file breaks by its form.
pub fn one_list_of_forms()
    ensures { (file : ℕ) (bytes : List ℕ) (t : Tree) (a b : List Broken)
        → AreBrokenForms file bytes t a → AreBrokenForms file bytes t b → a ≡ b }
{}
