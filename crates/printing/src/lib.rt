// How the programs print a row of codes.
#![tactic(auto)]

ghost use Rattle.std.specs.Prelude.{Some};
ghost use Rattle.printing.specs.Codes.{codes_text};

use std::fmt;

// Codes, each after a blank and padded on the left to three characters.
#[derive(Clone, Copy)]
pub struct Codes<'a>(pub &'a [u16]);

impl fmt::Display for Codes<'_> {
    ghost output = { λ c. Some (codes_text c.0.now) };

    fn fmt<W: fmt::Write>(&self, f: &mut fmt::Formatter<W>) -> fmt::Result {
        for code in self.0 {
            write!(f, " {code:>3}")?;
        }
        Ok(())
    }
}
