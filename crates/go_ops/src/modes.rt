// What expressions stand for (Go specification, "Expressions").
ghost use Rattle.std.specs.Prelude.{◌≡◌};
ghost use Rattle.go_judge.specs.Operands.{is_constant_mode, is_value_mode};

use go_judge::Mode;

/// Whether what stands for that is a value.
pub(crate) fn is_value(mode: Mode) -> bool
    ensures { result ≡ is_value_mode mode }
{
    !matches!(mode, Mode::NoValue | Mode::Builtin | Mode::IsType)
}

/// Whether what stands for that is a constant.
pub(crate) fn is_constant(mode: Mode) -> bool
    ensures { result ≡ is_constant_mode mode }
{
    matches!(mode, Mode::Const)
}
