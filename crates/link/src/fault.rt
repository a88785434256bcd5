// The faults of a link.
ghost use Rattle.link.specs.Faults.{link_refusal};

use faults::{Fault, Layer, Refusal};

#[derive(Clone, Copy, PartialEq, Eq, Debug)]
pub enum LinkFault {
    // A frame has not 1 to 64 codes, or a buffer is not as long as the frame.
    WrongLength,
    // Relays are numbered from 1 to 8.
    NoSuchRelay,
    // The link has no slot left.
    NoSlotLeft,
    // No copy of the frame reached this relay.
    NoCopy,
}

impl Fault for LinkFault {
    ghost told = { link_refusal };

    fn refusal(&self) -> Refusal {
        match self {
            LinkFault::WrongLength => Refusal::plain(Layer::Link, 4),
            LinkFault::NoSuchRelay => Refusal::plain(Layer::Link, 7),
            LinkFault::NoSlotLeft => Refusal::plain(Layer::Link, 13),
            LinkFault::NoCopy => Refusal::plain(Layer::Link, 15),
        }
    }
}
