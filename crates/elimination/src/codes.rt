// Tests of rows: that their numbers are codes, and that two have one length.
ghost use Rattle.std.specs.Prelude.{◌≡◌};
ghost use Rattle.elimination.specs.Rows.{codes_answer, pair_answer};

use super::fault::RowsFault;
use field::fault::FieldFault;

// Refuses a row that has a code not below q.
pub(crate) fn check_codes(q: u32, row: &[u16]) -> Result<(), FieldFault>
    ensures { result ≡ codes_answer q row.now }
{
    if !row.iter().all(|code| u32::from(*code) < q) {
        return Err(FieldFault::CodeTooLarge);
    }
    Ok(())
}

// Refuses rows of two lengths, then a number that is no code.
pub(crate) fn check_pair(q: u32, first: &[u16], second: &[u16]) -> Result<(), RowsFault>
    ensures { result ≡ pair_answer q first.now second.now }
{
    if second.len() != first.len() {
        return Err(RowsFault::WrongLength);
    }
    check_codes(q, first)?;
    check_codes(q, second)?;
    Ok(())
}
