// GF(2), the field of two elements.
ghost use Rattle.std.specs.Prelude.{refl};
ghost use Rattle.std.proofs.Common.{lit<, lit≤};
ghost use Rattle.field.specs.Residues.{gf2};
ghost use Rattle.field.specs.Remainders.{residues_lawful};

use super::Field;
use super::fault::FieldFault;
use super::residues::{self, Modulus};

#[derive(Clone, Copy)]
pub struct Gf2;

impl Modulus for Gf2 {
    const Q: u16 = 2;

    // 0 has no ones: 1 is its own inverse, and the only code that has one.
    const TURNS: u32 = 0;

    ghost Q = { gf2.size };

    ghost TURNS = { 0 };

    ghost least = { lit< tt };

    ghost most = { lit≤ tt };

    ghost turned = { refl };

    ghost inverses = { refl };
}

impl Field for Gf2 {
    ghost ops = { λ _. gf2 };

    ghost lawful = { λ f. residues_lawful 2 0 (lit< tt) (lit≤ tt) refl refl };

    fn size(&self) -> u32 {
        residues::size::<Gf2>()
    }

    fn sum(&self, a: u16, b: u16) -> Result<u16, FieldFault> {
        residues::sum::<Gf2>(a, b)
    }

    fn difference(&self, a: u16, b: u16) -> Result<u16, FieldFault> {
        residues::difference::<Gf2>(a, b)
    }

    fn product(&self, a: u16, b: u16) -> Result<u16, FieldFault> {
        residues::product::<Gf2>(a, b)
    }

    fn inverse(&self, a: u16) -> Result<u16, FieldFault> {
        residues::inverse::<Gf2>(a)
    }
}
