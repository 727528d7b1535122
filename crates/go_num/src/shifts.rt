// Shifts of integer constants (Go specification, "Operators", "Integer operators").
ghost use Rattle.std.specs.Prelude.{◌≡◌, true, false};
ghost use Rattle.go_num.specs.Arithmetic.{limited};
ghost use Rattle.go_num.specs.Shifts.{shift_result, shift_value};

use crate::arithmetic::NumFault;

/// The exact value of `a << count` if left, or else of `a >> count`; Count exactly where the count is negative or above
/// 2^64-1, else Wide exactly where the value is outside -2^127 to 2^127-1.
pub fn int_shift(left: bool, a: i128, count: i128) -> Result<i128, NumFault>
    ensures { result ≡ shift_result left a count }
{
    match u64::try_from(count) {
        Ok(count) if left => shifted_left(a, count).ok_or(NumFault::Wide),
        Ok(count) => Ok(shifted_right(a, count)),
        Err(_) => Err(NumFault::Count),
    }
}

fn shifted_left(a: i128, count: u64) -> Option<i128>
    ensures { result ≡ limited (shift_value true a count) }
{
    if count < 127 {
        a.checked_mul(1 << count)
    } else if a == 0 {
        Some(0)
    } else if a == -1 && count == 127 {
        Some(i128::MIN)
    } else {
        None
    }
}

// From a count of 127 on only the sign is left.
fn shifted_right(a: i128, count: u64) -> i128
    ensures { result ≡ shift_value false a count }
{
    a >> count.min(127)
}
