// The integers modulo 257.
ghost use Rattle.std.specs.Prelude.{refl};
ghost use Rattle.std.proofs.Common.{lit<, lit≤};
ghost use Rattle.field.specs.Residues.{modulo_257};
ghost use Rattle.field.specs.Remainders.{residues_lawful};

use super::Field;
use super::fault::FieldFault;
use super::residues::{self, Modulus};

#[derive(Clone, Copy)]
pub struct Modulo257;

impl Modulus for Modulo257 {
    const Q: u16 = 257;

    // 255 is eight ones in binary.
    const TURNS: u32 = 8;

    ghost Q = { modulo_257.size };

    ghost TURNS = { 8 };

    ghost least = { lit< tt };

    ghost most = { lit≤ tt };

    ghost turned = { refl };

    ghost inverses = { refl };
}

impl Field for Modulo257 {
    ghost ops = { λ _. modulo_257 };

    ghost lawful = { λ f. residues_lawful 257 8 (lit< tt) (lit≤ tt) refl refl };

    fn size(&self) -> u32 {
        residues::size::<Modulo257>()
    }

    fn sum(&self, a: u16, b: u16) -> Result<u16, FieldFault> {
        residues::sum::<Modulo257>(a, b)
    }

    fn difference(&self, a: u16, b: u16) -> Result<u16, FieldFault> {
        residues::difference::<Modulo257>(a, b)
    }

    fn product(&self, a: u16, b: u16) -> Result<u16, FieldFault> {
        residues::product::<Modulo257>(a, b)
    }

    fn inverse(&self, a: u16) -> Result<u16, FieldFault> {
        residues::inverse::<Modulo257>(a)
    }
}
