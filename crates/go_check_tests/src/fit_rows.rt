// How constants fit types, at the borders of each.
use go_base::Bytes;
use go_num::{IntType, NumKind, Value};
use go_ops::{Fit, FloatType, Sort, fit_of};
use std::test::Fail;

#[test]
fn integers(rt: HostRuntime) -> Result<(), Fail> {
    let rows = [
        (127, Sort::Int(IntType::Int8), Fit::Fits),
        (128, Sort::Int(IntType::Int8), Fit::Overflows),
        (-128, Sort::Int(IntType::Int8), Fit::Fits),
        (-1, Sort::Int(IntType::Uint), Fit::Overflows),
        (16_777_216, Sort::Float(FloatType::Float32), Fit::Fits),
        (-16_777_217, Sort::Float(FloatType::Float32), Fit::Unkept),
        (16_777_217, Sort::Float(FloatType::Float64), Fit::Fits),
        (
            9_007_199_254_740_993,
            Sort::Float(FloatType::Float64),
            Fit::Unkept,
        ),
        (-1, Sort::Untyped(NumKind::Rune), Fit::Fits),
        (0, Sort::Untyped(NumKind::Bool), Fit::Differs),
        (0, Sort::Interface, Fit::Differs),
    ];
    for (v, sort, fit) in rows {
        assert_eq!(rt; fit_of(&Value::Int(v), sort), fit, "{v}");
    }
    Ok(())
}

#[test]
fn strings(rt: HostRuntime) -> Result<(), Fail> {
    let rows = [
        (0, Sort::Text, Fit::Fits),
        (1_048_576, Sort::Untyped(NumKind::Text), Fit::Fits),
        (1_048_577, Sort::Text, Fit::Long),
        (0, Sort::Bool, Fit::Differs),
    ];
    for (size, sort, fit) in rows {
        let text = Value::Text(Bytes::new(vec![in rt.alloc(); b'a'; size]?));
        assert_eq!(rt; fit_of(&text, sort), fit, "{size}");
    }
    Ok(())
}
