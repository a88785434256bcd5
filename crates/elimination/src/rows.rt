// Rows of codes: subtracting a multiple of one from another.
ghost use Rattle.std.specs.Prelude.{◌≡◌, OnOk};
ghost use Rattle.algebra.specs.Frames.{Codes};
ghost use Rattle.elimination.specs.Rows.{Subtractable, less_multiple, subtract_answer, subtract_after};

use super::codes::check_pair;
use super::fault::RowsFault;
use field::Field;
use field::fault::FieldFault;

// Takes from each code of `target` the factor times the code of `source` at the same place.
pub fn subtract_multiple<F: Field>(
    field: &F,
    target: &mut [u16],
    factor: u16,
    source: &[u16],
) -> Result<(), RowsFault>
    ensures answer { result ≡ subtract_answer (F.ops field.now).size target.old factor source.now }
    ensures after { target.new ≡ subtract_after (F.ops field.now) target.old factor source.now result }
    ensures codes { OnOk result (Codes (F.ops field.now).size target.new) }
{
    check_subtraction(field.size(), target, factor, source)?;
    subtract_codes(field, target, factor, source);
    Ok(())
}

// Refuses rows of two lengths, then a number that is no code.
fn check_subtraction(q: u32, target: &[u16], factor: u16, source: &[u16]) -> Result<(), RowsFault>
    ensures { result ≡ subtract_answer q target.now factor source.now }
{
    check_pair(q, target, source)?;
    if u32::from(factor) >= q {
        return Err(RowsFault::Field(FieldFault::CodeTooLarge));
    }
    Ok(())
}

// Subtracts likewise, for rows of one length whose codes are known to be below q; codes stay codes. That codes are below q is said in
// each contract and is no type's invariant, since q is the field's, known as the program runs.
pub(crate) fn subtract_codes<F: Field>(field: &F, target: &mut [u16], factor: u16, source: &[u16])
    requires { Subtractable (F.ops field.now).size target.old factor source.now }
    ensures after { target.new ≡ less_multiple (F.ops field.now) target.old factor source.now }
    ensures codes { Codes (F.ops field.now).size target.new }
{
    // With an index into the source, since an invariant cannot say what a loop over `zip` wrote.
    for (i, code) in target.iter_mut().enumerate() {
        let product = field.product(factor, source[i]).unwrap();
        *code = field.difference(*code, product).unwrap();
    }
}
