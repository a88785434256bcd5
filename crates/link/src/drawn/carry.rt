// A drawn link made, and its calls.
ghost use Rattle.link.specs.Drawn.{drawn_meaning, DrawnGoes, DrawnNew};
ghost use Rattle.link.specs.Laws.{slots_lawful, single_few};

use super::super::fault::LinkFault;
use super::super::slots::Slots;
use super::super::{Link, relay_index};
use super::{Drawn, Generator};

impl Drawn {
    // A link from a seed and a loss figure; the generator cannot start at 0, so a seed of 0 is taken as 1.
    pub fn new(seed: u32, loss: u16) -> Drawn
        ensures { DrawnNew seed loss result }
    {
        let state = seed.max(1);
        Drawn {
            generator: Generator { state, loss },
            counts: [0; 8],
            slots: Slots::new(65535),
        }
    }
}

// `Scripted` shares only three one-line calls: its counts are read off a line when asked for, these are drawn by `send`.
impl Link for Drawn {
    ghost meaning = { drawn_meaning };

    ghost goes = { DrawnGoes };

    ghost lawful = { λ d. slots_lawful d.slots d.counts d.eight (single_few d.counts d.single) d.fresh };

    fn slots_carried(&self) -> u16 {
        self.slots.carried
    }

    fn slots_left(&self) -> u16 {
        self.slots.left
    }

    #[tactic(auto, using(crate::proofs::Draws::drawn_length, crate::proofs::Draws::drawn_single))]
    fn send(&mut self, frame: &[u16]) -> Result<(), LinkFault> {
        self.slots.send(frame)?;
        self.generator.draw(&mut self.counts);
        Ok(())
    }

    fn copies(&self, relay: usize) -> Result<u8, LinkFault> {
        Ok(self.counts[relay_index(relay)?])
    }

    fn read(&self, relay: usize, buffer: &mut [u16]) -> Result<(), LinkFault> {
        self.slots.read(self.copies(relay), buffer)
    }
}
