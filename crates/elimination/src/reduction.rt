// Reducing a frame by rows.
ghost use Rattle.std.specs.Prelude.{◌≡◌, ℕ, ◌<◌, ◌≤◌, length, MatchBool, MatchOption};
ghost use Rattle.algebra.specs.Frames.{code_at, Codes, Frame};
ghost use Rattle.elimination.specs.Rows.{less_multiple};
ghost use Rattle.elimination.specs.Reduction.{lists, Reducible, rest_row, NoCoefficient, FirstCoefficient, multiple, Insertable, with_row, Spanned, NewRow};

use super::rows::subtract_codes;
use field::Field;

// What is left of a frame when from it is taken each row times the frame's coefficient at that row's lead.
pub(crate) fn reduce<F: Field>(field: &F, table: &[Vec<u16>], frame: &[u16], rest: &mut [u16])
    requires { Reducible (F.ops field.now).size (lists table.now) frame.now rest.old }
    ensures value { rest.new ≡ rest_row (F.ops field.now) (lists table.now) frame.now }
    ensures codes { Codes (F.ops field.now).size rest.new }
{
    rest.copy_from_slice(frame);
    for (row, factor) in table.iter().zip(frame) {
        subtract_codes(field, rest, *factor, row.as_slice());
    }
}

// The first place at which a row is not 0.
pub(crate) fn first_coefficient(row: &[u16]) -> Option<usize>
    ensures { MatchOption result (NoCoefficient (length row.now) row.now) (FirstCoefficient (length row.now) row.now) }
{
    row.iter().position(|code| *code != 0)
}

// Multiplies each code of a row.
pub(crate) fn scale<F: Field>(field: &F, factor: u16, row: &mut [u16])
    requires factor_code { factor < (F.ops field.now).size }
    requires row_codes { Codes (F.ops field.now).size row.old }
    ensures value { row.new ≡ multiple (F.ops field.now) factor row.old }
    ensures codes { Codes (F.ops field.now).size row.new }
{
    for code in row.iter_mut() {
        *code = field.product(factor, *code).unwrap();
    }
}

// Puts a row in as row a, and takes it from every other row as often as that row has packet a.
pub(crate) fn insert<F: Field>(field: &F, table: &mut [Vec<u16>], a: usize, row: &[u16])
    requires { Insertable (F.ops field.now).size (lists table.old) a row.now }
    ensures { lists table.new ≡ with_row (F.ops field.now) (lists table.old) a row.now }
{
    for old in table.iter_mut() {
        clear(field, old, a, row);
    }
    overwrite(&mut table[a], row);
}

// Takes a row from an old one as often as that has packet a.
fn clear<F: Field>(field: &F, old: &mut Vec<u16>, a: usize, row: &[u16])
    requires old_frame { Frame (F.ops field.now).size (length row.now) old.old.items }
    requires codes { Codes (F.ops field.now).size row.now }
    requires wide { a < length row.now }
    ensures { old.new.items ≡ less_multiple (F.ops field.now) old.old.items (code_at old.old.items a) row.now }
{
    let factor = old[a];
    subtract_codes(field, old.as_mut_slice(), factor, row);
}

// Writes a row over an old one.
fn overwrite(old: &mut Vec<u16>, row: &[u16])
    requires { length old.old.items ≡ length row.now }
    ensures { old.new.items ≡ row.now }
{
    old.as_mut_slice().copy_from_slice(row);
}

// The row that a frame puts in: what is left of it, scaled to 1 at its first coefficient, and the place of that. Where no
// coefficient is left, `rest` has what is left.
pub(crate) fn new_row<F: Field>(
    field: &F,
    table: &[Vec<u16>],
    frame: &[u16],
    rest: &mut [u16],
) -> Option<usize>
    requires { Reducible (F.ops field.now).size (lists table.now) frame.now rest.old }
    ensures { MatchOption result (Spanned (F.ops field.now) (lists table.now) frame.now rest.new) (NewRow (F.ops field.now) (lists table.now) frame.now rest.new) }
{
    reduce(field, table, frame, rest);
    let lead = first_coefficient(&rest[..table.len()])?;
    let factor = field.inverse(rest[lead]).unwrap();
    scale(field, factor, rest);
    Some(lead)
}

// Whether a row is 0 throughout.
pub(crate) fn all_zero(row: &[u16]) -> bool
    ensures { MatchBool result (NoCoefficient (length row.now) row.now) ((a : ℕ) × FirstCoefficient (length row.now) row.now a) }
{
    first_coefficient(row).is_none()
}
