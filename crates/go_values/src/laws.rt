// A law of headers: the contract of a function that does nothing.
ghost use Rattle.std.specs.Prelude.{List};
ghost use Rattle.go_judge.specs.Headers.{Headers};
ghost use Rattle.go_judge.specs.Naming.{Naming};
ghost use Rattle.go_module.specs.Names.Declarations.{Declaration};
ghost use Rattle.go_values.specs.Laws.{OneHeader};

/// A declaration has at most one header, whatever headers are known before.
pub fn one_header()
    ensures { (before : Headers) (naming : Naming) (declarations : List Declaration)
        → OneHeader before naming declarations }
{}
