// Callers that are generic over moduli, and a modulus of a caller's own: its field is had with nothing more to prove.
ghost use Rattle.std.specs.Prelude.{refl};
ghost use Rattle.std.proofs.Common.{lit<, lit≤};
ghost use Rattle.field.specs.Fields.{Lawful};
ghost use Rattle.field.specs.Residues.{residues};
ghost use Rattle.relay.specs.Calls.{Starts};
ghost use Rattle.relay.specs.States.{state};

use elimination::fault::RowsFault;
use field::Field;
use field::residue_field::ResidueField;
use field::residues::Modulus;
use relay::Relay;
use std::alloc::Global;
use std::marker::PhantomData;
use std::test::Fail;

pub(crate) struct Modulo5;

impl Modulus for Modulo5 {
    const Q: u16 = 5;

    // 3 is two ones in binary.
    const TURNS: u32 = 2;

    ghost Q = { 5 };

    ghost TURNS = { 2 };

    ghost least = { lit< tt };

    ghost most = { lit≤ tt };

    ghost turned = { refl };

    ghost inverses = { refl };
}

// Every field is lawful.
fn law_of_field<F: Field>(field: &F)
    ensures { Lawful (F.ops field.now) }
{}

// So the residues by any modulus are a lawful field.
fn law_of_modulus<M: Modulus>()
    ensures { Lawful (residues M.Q) }
{
    law_of_field(&ResidueField::<M>(PhantomData));
}

// Starts a relay over the residues by any modulus.
fn start_over<M: Modulus>(
    heap: Global,
    relay: &mut Relay<ResidueField<M>>,
    packets: usize,
    symbols: usize,
) -> Result<(), RowsFault>
    ensures { Starts (residues M.Q) packets symbols (state (λ _. residues M.Q) relay.old) result (state (λ _. residues M.Q) relay.new) }
{
    relay.start(heap, ResidueField(PhantomData), packets, symbols)
}

// The packets 2 and 4, by their sum and by the first with twice the second.
#[test]
fn own_modulus(rt: HostRuntime) -> Result<(), Fail> {
    law_of_modulus::<Modulo5>();
    let mut relay = Relay::empty();
    start_over::<Modulo5>(rt.alloc(), &mut relay, 2, 1)?;
    assert_eq!(rt; relay.hear(&[1, 1, 1]), Ok(1));
    assert_eq!(rt; relay.hear(&[1, 2, 0]), Ok(2));
    let mut packet = [0];
    relay.fetch(1, &mut packet)?;
    assert_eq!(rt; packet, [2]);
    relay.fetch(2, &mut packet)?;
    assert_eq!(rt; packet, [4]);
    Ok(())
}
