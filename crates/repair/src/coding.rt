// A coded sum of packets, and the repair of a lost one by row subtraction and an inverse.
ghost use Rattle.repair.specs.Coding.{Added, RefusedForCodes, Coded, Scaled, Rebuilt, coefficients, packets};
ghost use Rattle.repair.specs.Repair.{Survived};
ghost use Rattle.std.specs.Prelude.{◌≡◌};

use elimination::fault::RowsFault;
use elimination::rows::subtract_multiple;
use field::Field;

// Four symbols, each a code.
pub type Packet = [u16; 4];

// A packet, or what arrived of it, and its coefficient in the coded sum.
#[derive(Clone, Copy)]
pub struct Term<P> {
    pub coefficient: u16,
    pub packet: P,
}

impl<P: Copy> Term<P> {
    // A packet with this coefficient.
    pub fn new(coefficient: u16, packet: P) -> Term<P>
        ensures { result ≡ record { coefficient = coefficient; packet = packet } }
    {
        Term {
            coefficient,
            packet,
        }
    }
}

// Adds the factor times the row. Taking away a negative multiple adds the multiple.
fn add_multiple<F: Field>(
    field: &F,
    target: &mut Packet,
    factor: u16,
    row: &Packet,
) -> Result<(), RowsFault>
    ensures added { Added (F.ops field.now) target.old factor row.now result target.new }
    ensures refused { RefusedForCodes (F.ops field.now).size target.old factor row.now result target.new }
{
    let negative = field.difference(0, factor)?;
    subtract_multiple(field, target, negative, row)
}

// The coded sum: each packet times its coefficient, summed.
fn coded_sum<F: Field>(field: &F, terms: &[Term<Packet>]) -> Result<Packet, RowsFault>
    ensures { Coded (F.ops field.now) (coefficients terms.now) (packets terms.now) result }
{
    let mut sum = [0; 4];
    for term in terms {
        add_multiple(field, &mut sum, term.coefficient, &term.packet)?;
    }
    Ok(sum)
}

// The factor times the row.
fn scaled<F: Field>(field: &F, factor: u16, row: &Packet) -> Result<Packet, RowsFault>
    ensures { Scaled (F.ops field.now) factor row.now result }
{
    let mut product = [0; 4];
    add_multiple(field, &mut product, factor, row)?;
    Ok(product)
}

// The lost packet: every packet that arrived is taken out of the coded sum, and the rest divided by the lost one's coefficient.
fn rebuild<F: Field>(
    field: &F,
    received: &[Term<Option<Packet>>],
    coded: &Packet,
) -> Result<Packet, RowsFault>
    ensures { Rebuilt (F.ops field.now) (coefficients received.now) (packets received.now) coded.now result }
{
    let mut rest = *coded;
    // 0 where no packet is lost: its inverse is then refused.
    let mut lost = 0;
    for term in received {
        match &term.packet {
            Some(packet) => subtract_multiple(field, &mut rest, term.coefficient, packet)?,
            None => lost = term.coefficient,
        }
    }
    let inverse = field.inverse(lost)?;
    scaled(field, inverse, &rest)
}

// Three packets, and the coefficient of each in the coded sum.
#[derive(Clone, Copy)]
pub struct Load {
    pub terms: [Term<Packet>; 3],
}

// What the receiver has of a load: the coded sum, and the packet that it rebuilt.
#[derive(Clone, Copy)]
pub struct Repaired {
    pub coded: Packet,
    pub rebuilt: Packet,
}

// Sends the packets and their coded sum, loses the second packet, and rebuilds it from the rest.
pub fn send_with_loss<F: Field>(field: &F, load: &Load) -> Result<Repaired, RowsFault>
    ensures { Survived (F.ops field.now) (coefficients load.now.terms) (packets load.now.terms) result }
{
    let coded = coded_sum(field, &load.terms)?;
    let [first, second, third] = load.terms;
    let received = [
        Term::new(first.coefficient, Some(first.packet)),
        Term::new(second.coefficient, None),
        Term::new(third.coefficient, Some(third.packet)),
    ];
    let rebuilt = rebuild(field, &received, &coded)?;
    Ok(Repaired { coded, rebuilt })
}
