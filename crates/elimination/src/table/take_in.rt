// A table takes in a frame.
ghost use Rattle.std.specs.Prelude.{◌≡◌, ◌+◌};
ghost use Rattle.algebra.specs.Frames.{Frame};
ghost use Rattle.elimination.specs.Reduction.{lists};
ghost use Rattle.elimination.specs.Tables.{held, frame_answer, TakenIn, Taken, TakesIn};

use super::super::codes::check_codes;
use super::super::fault::RowsFault;
use super::super::heard::Heard;
use super::super::reduction::{all_zero, insert, new_row};
use super::Table;
use field::Field;

impl Table {
    // Takes in a frame, or refuses what is none.
    pub fn hear<F: Field>(&mut self, field: &F, frame: &[u16]) -> Result<Heard, RowsFault>
        ensures { TakesIn (F.ops field.now) (held self.old) frame.now result (held self.new) }
    {
        self.check_frame(field, frame)?;
        Ok(self.take_in(field, frame))
    }

    // Refuses a frame that is none for this table.
    fn check_frame<F: Field>(&self, field: &F, frame: &[u16]) -> Result<(), RowsFault>
        ensures { result ≡ frame_answer (F.ops field.now) (held self.now) frame.now }
    {
        if !self.fits(field) {
            return Err(RowsFault::NotStarted);
        }
        if frame.len() != self.shape.width() {
            return Err(RowsFault::WrongLength);
        }
        check_codes(self.q, frame)?;
        Ok(())
    }

    // Takes in a frame that is one for this table.
    pub(crate) fn take_in<F: Field>(&mut self, field: &F, frame: &[u16]) -> Heard
        requires field { self.old.q ≡ (F.ops field.now).size }
        requires frame { Frame self.old.q (self.old.shape.packets + self.old.shape.symbols) frame.now }
        ensures rows { TakenIn (F.ops field.now) (lists self.old.rows.items) frame.now result (lists self.new.rows.items) }
        ensures size { self.new.q ≡ self.old.q }
        ensures shape { self.new.shape ≡ self.old.shape }
        ensures taken { Taken (F.ops field.now) (held self.old) frame.now result (held self.new) }
    {
        // Room for the widest frame, since memory is got when a table is built and at no other time.
        let mut buffer = [0; 64];
        let row = &mut buffer[..self.shape.width()];
        let Some(lead) = new_row(field, self.rows.as_slice(), frame, row) else {
            return if all_zero(row) {
                Heard::Spanned
            } else {
                Heard::Conflict
            };
        };
        insert(field, self.rows.as_mut_slice(), lead, row);
        Heard::New(lead)
    }
}
