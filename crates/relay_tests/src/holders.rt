// Types of a caller's own over a field: a holder of a relay that asks nothing of its field, a type with a fact about the field's size,
// and a field that another crate than `field` implements. Each is used at a field by name.
ghost use Rattle.std.specs.Prelude.{◌<◌, refl};
ghost use Rattle.std.proofs.Common.{lit<, lit≤};
ghost use Rattle.field.specs.Residues.{gf2};
ghost use Rattle.field.specs.Remainders.{residues_lawful};

use crate::moduli::Modulo5;
use field::Field;
use field::fault::FieldFault;
use field::gf2::Gf2;
use field::gf256::Gf256;
use field::modulo_257::Modulo257;
use field::residue_field::ResidueField;
use relay::Relay;
use std::marker::PhantomData;

#[derive(Drop)]
struct Site<F> {
    relay: Relay<F>,
}

#[derive(Drop)]
struct Code<F: Field> {
    field: F,
    code: u16,
    ghost within: { code < (F.ops field).size },
}

// GF(2) once more.
#[derive(Clone, Copy)]
struct Bits;

impl Field for Bits {
    ghost ops = { λ _. gf2 };

    ghost lawful = { λ f. residues_lawful 2 0 (lit< tt) (lit≤ tt) refl refl };

    fn size(&self) -> u32 {
        Gf2.size()
    }

    fn sum(&self, a: u16, b: u16) -> Result<u16, FieldFault> {
        Gf2.sum(a, b)
    }

    fn difference(&self, a: u16, b: u16) -> Result<u16, FieldFault> {
        Gf2.difference(a, b)
    }

    fn product(&self, a: u16, b: u16) -> Result<u16, FieldFault> {
        Gf2.product(a, b)
    }

    fn inverse(&self, a: u16) -> Result<u16, FieldFault> {
        Gf2.inverse(a)
    }
}

#[test]
fn held_relay(rt: HostRuntime) {
    let mut site = Site {
        relay: Relay::empty(),
    };
    assert_eq!(rt; site.relay.start(rt.alloc(), Gf256, 1, 1), Ok(()));
    assert_eq!(rt; site.relay.hear(&[0x57, 0xc1]), Ok(1));
    assert_eq!(rt; site.relay.seen(), Ok(1));
}

#[test]
fn codes_of_fields(rt: HostRuntime) {
    let byte = Code {
        field: Gf256,
        code: 255,
    };
    let last = Code {
        field: Modulo257,
        code: 256,
    };
    assert_eq!(rt; byte.field.sum(byte.code, byte.code), Ok(0));
    assert_eq!(rt; last.field.sum(last.code, 1), Ok(0));
}

#[test]
fn code_of_a_modulus(rt: HostRuntime) {
    let last = Code {
        field: ResidueField::<Modulo5>(PhantomData),
        code: 4,
    };
    assert_eq!(rt; last.field.sum(last.code, 1), Ok(0));
}

#[test]
fn own_field(rt: HostRuntime) {
    let mut relay = Relay::empty();
    assert_eq!(rt; relay.start(rt.alloc(), Bits, 2, 1), Ok(()));
    assert_eq!(rt; relay.hear(&[1, 1, 1]), Ok(1));
    assert_eq!(rt; relay.hear(&[0, 1, 1]), Ok(2));
    assert_eq!(rt; relay.seen(), Ok(3));
}
