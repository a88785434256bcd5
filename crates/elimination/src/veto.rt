// The code that a relay vetoes.
ghost use Rattle.std.specs.Prelude.{◌≡◌, length};
ghost use Rattle.algebra.specs.Frames.{Codes};
ghost use Rattle.elimination.specs.Veto.{veto, veto_answer};

use super::codes::check_pair;
use super::fault::RowsFault;
use field::Field;

// The sum of the coefficients that a frame has before a packet, each times the code that a relay's row with that lead has at
// the packet; `column` has these codes. Two slices, as the one stands in a frame and the other is read off rows: pairs would have to
// be made first.
pub fn veto_sum<F: Field>(field: &F, coefficients: &[u16], column: &[u16]) -> Result<u16, RowsFault>
    ensures { result ≡ veto_answer (F.ops field.now) coefficients.now column.now }
{
    check_pair(field.size(), coefficients, column)?;
    Ok(sum_products(field, coefficients, column))
}

// The same for slices of one length whose codes are known to be below q.
fn sum_products<F: Field>(field: &F, coefficients: &[u16], column: &[u16]) -> u16
    requires long { length column.now ≡ length coefficients.now }
    requires coefficients { Codes (F.ops field.now).size coefficients.now }
    requires column { Codes (F.ops field.now).size column.now }
    ensures { result ≡ veto (F.ops field.now) coefficients.now column.now }
{
    let mut sum = 0;
    for (coefficient, code) in coefficients.iter().zip(column) {
        let product = field.product(*coefficient, *code).unwrap();
        sum = field.sum(sum, product).unwrap();
    }
    sum
}
