// A layer made, and its calls.
ghost use Rattle.std.specs.Prelude.{◌≡◌};
ghost use Rattle.link.specs.Erased.{erased, erased_for, nothing_to_read};
ghost use Rattle.link.specs.Erasures.{erased_lawful};

use super::super::fault::LinkFault;
use super::super::{Link, relay_index};
use super::{Erasing, Periods};

impl Periods {
    // Whether the period of a relay erases a slot.
    fn erase(&self, relay: usize, slot: u16) -> bool
        ensures { result ≡ erased_for self.now.of slot relay }
    {
        let Ok(place) = relay_index(relay) else {
            return false;
        };
        let period = u16::from(self.of[place]);
        period > 0 && slot % period == 0
    }
}

impl<L: Link> Erasing<L> {
    // A layer over a link.
    pub fn new(lower: L, periods: Periods) -> Erasing<L>
        ensures lower { result.lower ≡ lower }
        ensures periods { result.periods ≡ periods }
    {
        Erasing { lower, periods }
    }

    // Whether the copies for a relay are erased. Where there is no such relay the link below is not asked for its slots: in a pile
    // of layers each question goes down to the bottom.
    fn erased(&self, relay: usize) -> bool
        ensures { result ≡ erased_for self.now.periods.of (L.meaning self.now.lower).carried relay }
    {
        relay_index(relay).is_ok() && self.periods.erase(relay, self.lower.slots_carried())
    }

    // Why a relay whose copies are erased is refused: the link below tells whether the buffer has the frame's length. The room is
    // needed since a link has no call for that length, and the buffer stays as it was.
    fn refusal(&self, relay: usize, len: usize) -> LinkFault
        ensures { result ≡ nothing_to_read (L.meaning self.now.lower).frame len }
    {
        if len > 64 {
            return LinkFault::WrongLength;
        }
        let mut room = [0; 64];
        match self.lower.read(relay, &mut room[0..len]) {
            Err(LinkFault::WrongLength) => LinkFault::WrongLength,
            _ => LinkFault::NoCopy,
        }
    }
}

impl<L: Link> Link for Erasing<L> {
    ghost meaning = { λ s. erased s.periods.of (L.meaning s.lower) };

    // The periods stay, and the link below goes as it goes.
    ghost goes = { λ s frame t. (t.periods ≡ s.periods) × L.goes s.lower frame t.lower };

    ghost lawful = { λ s. erased_lawful s.periods.of (L.meaning s.lower) (L.lawful s.lower) };

    fn slots_carried(&self) -> u16 {
        self.lower.slots_carried()
    }

    fn slots_left(&self) -> u16 {
        self.lower.slots_left()
    }

    fn send(&mut self, frame: &[u16]) -> Result<(), LinkFault> {
        self.lower.send(frame)
    }

    #[tactic(auto, using(crate::specs::Erasures::copies_erased, crate::specs::Erasures::copies_kept))]
    fn copies(&self, relay: usize) -> Result<u8, LinkFault> {
        if self.erased(relay) {
            return Ok(0);
        }
        self.lower.copies(relay)
    }

    #[tactic(auto, using(crate::specs::Erasures::read_erased, crate::specs::Erasures::copies_kept))]
    fn read(&self, relay: usize, buffer: &mut [u16]) -> Result<(), LinkFault> {
        if self.erased(relay) {
            return Err(self.refusal(relay, buffer.len()));
        }
        self.lower.read(relay, buffer)
    }
}
