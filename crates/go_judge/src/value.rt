// Values of constants, once more.
ghost use Rattle.std.specs.Prelude.{◌≡◌, IfOk};

use go_num::Value;
use std::alloc::AllocError;

/// The value once more. An error is want of memory.
pub fn copy_of(value: &Value) -> Result<Value, AllocError>
    ensures { IfOk result (λ copy. copy ≡ value.now) }
{
    Ok(match value {
        Value::Bool(truth) => Value::Bool(*truth),
        Value::Int(number) => Value::Int(*number),
        Value::Text(bytes) => Value::Text(bytes.clone()?),
    })
}
