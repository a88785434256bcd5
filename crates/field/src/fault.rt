// The faults of a field.
ghost use Rattle.field.specs.Faults.{field_refusal};

use faults::{Fault, Layer, Refusal};

#[derive(Clone, Copy, PartialEq, Eq, Debug)]
pub enum FieldFault {
    // A code is not below q.
    CodeTooLarge,
    // 0 has no inverse.
    InverseOfZero,
}

impl Fault for FieldFault {
    ghost told = { field_refusal };

    fn refusal(&self) -> Refusal {
        match self {
            FieldFault::CodeTooLarge => Refusal::plain(Layer::Field, 5),
            FieldFault::InverseOfZero => Refusal::plain(Layer::Field, 6),
        }
    }
}
