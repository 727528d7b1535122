// Lists of broken rules.
ghost use Rattle.std.specs.Prelude.{◌≡◌, ◌≢◌, true, false, []};

/// Whether a list of broken rules, with or without their places, has none.
pub fn breaks_none<T>(list: &[T]) -> bool
    ensures none { result ≡ true → list.now ≡ [] }
    ensures some { result ≡ false → list.now ≢ [] }
{
    match list {
        [] => true,
        [_, ..] => false,
    }
}
