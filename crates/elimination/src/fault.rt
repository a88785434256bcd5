// The faults of rows.
ghost use Rattle.std.specs.Prelude.{◌≡◌};
ghost use Rattle.elimination.specs.Faults.{rows_refusal};
ghost use Rattle.elimination.specs.declared.fault.RowsFault.TheVariants.{Field, NoMemory};

use faults::{Fault, Layer, Refusal};
use field::fault::FieldFault;
use std::alloc::AllocError;

#[derive(Clone, Copy, PartialEq, Eq, Debug)]
pub enum RowsFault {
    // There is nothing here that was started for this field.
    NotStarted,
    // A size is outside its range.
    WrongSize,
    // A row, a frame or a buffer is not as long as it has to be.
    WrongLength,
    // No packet has this number.
    NoPacket,
    // The frame's coefficients are in the span, and its symbols are not the same combination.
    Conflict,
    // The packet is not determined.
    NotDetermined,
    // No memory is left.
    NoMemory,
    // What the field refused.
    Field(FieldFault),
}

impl Fault for RowsFault {
    ghost told = { rows_refusal };

    fn refusal(&self) -> Refusal {
        match self {
            RowsFault::NotStarted => Refusal::plain(Layer::Rows, 1),
            RowsFault::WrongSize => Refusal::plain(Layer::Rows, 2),
            RowsFault::WrongLength => Refusal::plain(Layer::Rows, 4),
            RowsFault::NoPacket => Refusal::plain(Layer::Rows, 8),
            RowsFault::Conflict => Refusal::plain(Layer::Rows, 16),
            RowsFault::NotDetermined => Refusal::plain(Layer::Rows, 17),
            RowsFault::NoMemory => Refusal::plain(Layer::Rows, 0),
            RowsFault::Field(lower) => lower.refusal(),
        }
    }
}

impl From<FieldFault> for RowsFault {
    ghost from_gives = { λ e r. r ≡ Field e };

    fn from(fault: FieldFault) -> RowsFault {
        RowsFault::Field(fault)
    }
}

impl From<AllocError> for RowsFault {
    ghost from_gives = { λ _ r. r ≡ NoMemory };

    fn from(_: AllocError) -> RowsFault {
        RowsFault::NoMemory
    }
}
