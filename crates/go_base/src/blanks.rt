// Blanks (Go specification, "Tokens": white space).
ghost use Rattle.std.specs.Prelude.{◌≡◌};
ghost use Rattle.go_base.specs.Place.{is_blank};

/// Whether a byte is a blank: white space that ends no line.
pub fn is_blank(byte: u8) -> bool
    ensures { result ≡ is_blank byte }
{
    matches!(byte, b' ' | b'\t' | b'\r')
}
