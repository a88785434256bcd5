// The integers modulo q as a field, for every `Modulus`.
ghost use Rattle.std.proofs.Common.{lit≤, le_trans};
ghost use Rattle.field.specs.Residues.{residues};
ghost use Rattle.field.specs.Remainders.{residues_lawful};

use super::Field;
use super::fault::FieldFault;
use super::residues::{self, Modulus};
use std::marker::PhantomData;

// The field of a modulus M, which is written `ResidueField::<M>(PhantomData)`: every `Modulus` has one, with nothing more to write or
// to prove. A type of its own, since an impl of `Field` for M itself would match every type.
#[derive_where(Clone, Copy)]
pub struct ResidueField<M>(pub PhantomData<M>);

impl<M: Modulus> Field for ResidueField<M> {
    ghost ops = { λ _. residues M.Q };

    ghost lawful = { λ f. residues_lawful M.Q M.TURNS M.least (le_trans M.most (lit≤ tt)) M.turned M.inverses };

    fn size(&self) -> u32 {
        residues::size::<M>()
    }

    fn sum(&self, a: u16, b: u16) -> Result<u16, FieldFault> {
        residues::sum::<M>(a, b)
    }

    fn difference(&self, a: u16, b: u16) -> Result<u16, FieldFault> {
        residues::difference::<M>(a, b)
    }

    fn product(&self, a: u16, b: u16) -> Result<u16, FieldFault> {
        residues::product::<M>(a, b)
    }

    fn inverse(&self, a: u16) -> Result<u16, FieldFault> {
        residues::inverse::<M>(a)
    }
}
