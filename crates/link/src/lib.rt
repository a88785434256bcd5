// Links: a frame sent in a slot reaches each of eight relays in some number of copies. Code above a link knows its meaning alone.
#![tactic(auto)]

ghost use Rattle.std.specs.Prelude.{◌≡◌, ℕ, List, OnOk};
ghost use Rattle.link.specs.Calls.{Sent, relay_answer, copies_answer, ReadInto};
ghost use Rattle.link.specs.Meanings.{Meaning, Lawful};

use fault::LinkFault;

pub mod drawn;
pub mod erasing;
pub mod fault;
pub mod scripted;
mod slots;

// A lawful link. Its meaning is the slots carried, the slots left, the current frame and the counts of copies; `goes` says
// how the whole link goes over an accepted send, and with it which counts come.
pub trait Link {
    ghost meaning: { Self → Meaning };

    ghost goes: { Self → List ℕ → Self → Type 0 };

    // How many slots were carried.
    fn slots_carried(&self) -> u16
        ensures { result ≡ (meaning self.now).carried };

    // How many slots are left.
    fn slots_left(&self) -> u16
        ensures { result ≡ (meaning self.now).left };

    // Sends a frame in the next slot.
    fn send(&mut self, frame: &[u16]) -> Result<(), LinkFault>
        ensures sent { Sent (meaning self.old) frame.now result (meaning self.new) }
        ensures own { OnOk result (goes self.old frame.now self.new) };

    // How many copies of the current frame reached a relay.
    fn copies(&self, relay: usize) -> Result<u8, LinkFault>
        ensures { result ≡ copies_answer (meaning self.now).counts relay };

    // Writes the current frame into the buffer, for a relay that a copy reached.
    fn read(&self, relay: usize, buffer: &mut [u16]) -> Result<(), LinkFault>
        ensures { ReadInto (meaning self.now) relay buffer.old result buffer.new };

    ghost lawful: { (l : Self) → Lawful (meaning l) };
}

// The place of a relay, counted from 0.
fn relay_index(relay: usize) -> Result<usize, LinkFault>
    ensures { result ≡ relay_answer relay }
{
    if !(1..=8).contains(&relay) {
        return Err(LinkFault::NoSuchRelay);
    }
    Ok(relay - 1)
}
