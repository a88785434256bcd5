// Reading a line of numbers.
ghost use Rattle.std.specs.Prelude.{◌≡◌, ◌≤◌, true, length};
ghost use Rattle.text.specs.Lines.{are_digits, number_after, field_answer, fits, line_answer, ReadAs};

use super::fault::{LineFault, Unread};
use std::alloc::Global;

// Whether every byte is a digit.
fn all_digits(field: &[u8]) -> bool
    ensures { result ≡ are_digits field.now }
{
    field.iter().all(u8::is_ascii_digit)
}

// The number that at most three digits write.
fn number(field: &[u8]) -> u16
    requires digits { are_digits field.now ≡ true }
    requires short { length field.now ≤ 3 }
    ensures { result ≡ number_after 0 field.now }
{
    // A loop: a `fold` would be no plainer, as its closure has to require that the number fits.
    let mut number = 0;
    for byte in field {
        number = number * 10 + u16::from(*byte - b'0');
    }
    number
}

// How a line has to look.
#[derive(Clone, Copy, Drop)]
pub(crate) struct LineForm {
    // How many digits a number has at most.
    pub(crate) digits: usize,
    // How many numbers there are; at most 8 where nothing is said.
    pub(crate) width: Option<usize>,
    ghost short: { digits ≤ 3 },
}

impl LineForm {
    // The number in the field of number k.
    fn read_field(self, field: &[u8], k: usize) -> Result<u16, LineFault>
        ensures { result ≡ field_answer self.digits k field.now }
    {
        if !field.first().is_some_and(u8::is_ascii_digit) {
            return Err(LineFault::NoDigit(k));
        }
        if field.len() > self.digits || !all_digits(field) {
            return Err(LineFault::NoEnd(k));
        }
        Ok(number(field))
    }

    // Whether a line may have this many fields.
    fn allows(self, count: usize) -> bool
        ensures { result ≡ fits self.width count }
    {
        match self.width {
            Some(fields) => count == fields,
            None => count <= 8,
        }
    }

    // The numbers of a line, or its first fault; the count of fields is looked at last.
    pub(crate) fn read(self, heap: Global, line: &[u8]) -> Result<Vec<u16>, Unread<LineFault>>
        ensures { ReadAs (line_answer self.digits self.width line.now) result }
    {
        let mut numbers = Vec::new(heap);
        for field in line.split(|byte| *byte == b',') {
            let number = self.read_field(field, numbers.len() + 1)?;
            numbers.push(number)?;
        }
        if !self.allows(numbers.len()) {
            return Err(LineFault::WrongCount(numbers.len()).into());
        }
        Ok(numbers)
    }
}
