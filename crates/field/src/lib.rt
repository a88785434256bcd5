// Fields by their meaning, and the three that are delivered. Code above this crate is written once, for every lawful field.
#![tactic(auto)]

ghost use Rattle.std.specs.Prelude.{◌≡◌};
ghost use Rattle.field.specs.Fields.{Ops, Lawful};
ghost use Rattle.field.specs.Answers.{two_answer, sum_answer, difference_answer, product_answer, inverse_answer};
ghost use Rattle.field.specs.Cases.{FieldCases};

pub mod fault;
pub mod gf2;
pub mod gf256;
pub mod modulo_257;
pub mod residue_field;
pub mod residues;

use fault::FieldFault;

// A field of q elements, named by the codes 0 to q - 1. Its calls alter nothing.
pub trait Field {
    ghost ops: { Self → Ops };

    fn size(&self) -> u32
        ensures { result ≡ (ops self.now).size };

    fn sum(&self, a: u16, b: u16) -> Result<u16, FieldFault>
        ensures { result ≡ sum_answer (ops self.now) a b };

    fn difference(&self, a: u16, b: u16) -> Result<u16, FieldFault>
        ensures { result ≡ difference_answer (ops self.now) a b };

    fn product(&self, a: u16, b: u16) -> Result<u16, FieldFault>
        ensures { result ≡ product_answer (ops self.now) a b };

    fn inverse(&self, a: u16) -> Result<u16, FieldFault>
        ensures { result ≡ inverse_answer (ops self.now) a };

    ghost lawful: { (f : Self) → Lawful (ops f) };
}

// Refuses two numbers of which one is no code.
pub(crate) fn check_two(q: u16, a: u16, b: u16) -> Result<(), FieldFault>
    ensures { result ≡ two_answer q a b }
{
    if a >= q || b >= q {
        return Err(FieldFault::CodeTooLarge);
    }
    Ok(())
}

// The worked cases hold of the definitions that the fields' contracts cite.
pub fn field_cases()
    ensures { FieldCases }
{}
