// Slots are taken by sending frames, and the last frame can be read.
ghost use Rattle.std.specs.Prelude.{◌≡◌, []};
ghost use Rattle.link.specs.Calls.{FrameRead};
ghost use Rattle.link.specs.Carried.{frame_of, SlotSent};

use super::super::fault::LinkFault;
use super::Slots;
use arrayvec::ArrayVec;

impl Slots {
    // So many slots, and none carried.
    pub(crate) fn new(left: u16) -> Slots
        ensures carried { result.carried ≡ 0 }
        ensures left { result.left ≡ left }
        ensures frame { frame_of result ≡ [] }
    {
        Slots {
            carried: 0,
            left,
            frame: ArrayVec::new(),
        }
    }

    // Takes the next slot for a frame.
    pub(crate) fn send(&mut self, frame: &[u16]) -> Result<(), LinkFault>
        ensures { SlotSent self.old frame.now result self.new }
    {
        if frame.is_empty() || frame.len() > self.frame.capacity() {
            return Err(LinkFault::WrongLength);
        }
        if self.left == 0 {
            return Err(LinkFault::NoSlotLeft);
        }
        // Made anew, since clearing the old one would write blanks over its codes first.
        self.frame = ArrayVec::try_from(frame).unwrap();
        self.left -= 1;
        self.carried += 1;
        Ok(())
    }

    // Writes the last frame into the buffer, for a relay with these copies of it.
    pub(crate) fn read(
        &self,
        copies: Result<u8, LinkFault>,
        buffer: &mut [u16],
    ) -> Result<(), LinkFault>
        ensures { FrameRead (frame_of self.now) copies buffer.old result buffer.new }
    {
        if buffer.len() != self.frame.len() {
            return Err(LinkFault::WrongLength);
        }
        if copies? == 0 {
            return Err(LinkFault::NoCopy);
        }
        buffer.copy_from_slice(&self.frame);
        Ok(())
    }
}
