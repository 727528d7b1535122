// Lines of text as lists of fields.
ghost use Rattle.std.specs.Prelude.{◌≡◌, ◌++◌, ◌∷◌, OnOk, map, codes};
ghost use Rattle.std.specs.List.{join_with_byte};
ghost use Rattle.go_report.specs.Text.Lines.{line_text};

use std::alloc::AllocError;

/// Appends a line: its fields, which a tab joins and a newline ends.
pub fn put_line(out: &mut Vec<u8>, fields: &[&[u8]]) -> Result<(), AllocError>
    ensures { OnOk result (out.new.items ≡ out.old.items ++ line_text (map (λ field. field.now) fields.now)) }
{
    put_fields(out, fields)?;
    out.push(b'\n')?;
    Ok(())
}

/// Appends fields, which a tab joins.
pub fn put_fields(out: &mut Vec<u8>, fields: &[&[u8]]) -> Result<(), AllocError>
    ensures { OnOk result (out.new.items ≡ out.old.items ++ join_with_byte 9 (map (λ field. field.now) fields.now)) }
{
    let Some((first, others)) = fields.split_first() else {
        return Ok(());
    };
    out.extend_from_slice(first)?;
    for field in others {
        put_field(out, field)?;
    }
    Ok(())
}

/// Appends a tab and a field.
pub fn put_field(out: &mut Vec<u8>, field: &[u8]) -> Result<(), AllocError>
    ensures { OnOk result (out.new.items ≡ out.old.items ++ (9 ∷ field.now)) }
{
    out.push(b'\t')?;
    out.extend_from_slice(field)
}
