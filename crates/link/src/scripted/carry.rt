// A scripted link made, and its calls.
ghost use Rattle.std.specs.Prelude.{◌≡◌, ◌<◌, IfOk, slice_index};
ghost use Rattle.text.specs.Scripts.{script_lines, whole_lines};
ghost use Rattle.link.specs.Scripted.{scripted_counts, scripted_meaning, ScriptedGoes, ScriptedNew};
ghost use Rattle.link.specs.Laws.{slots_lawful, script_eight, script_few, script_none};

use super::super::fault::LinkFault;
use super::super::slots::Slots;
use super::super::{Link, relay_index};
use super::Scripted;
use std::alloc::{AllocError, Global};
use text::script::Script;

impl Scripted {
    // A link with a slot for each line of the script; a cast, since a script has at most 1,024 lines.
    pub fn new(script: Script) -> Scripted
        ensures { ScriptedNew (script_lines script) result }
    {
        let slots = Slots::new(script.lines() as u16);
        Scripted { script, slots }
    }

    // A link from an unchecked text: the whole lines before its first fault, none where it is too long.
    pub fn from_text(heap: Global, text: &[u8]) -> Result<Scripted, AllocError>
        ensures { IfOk result (ScriptedNew (whole_lines text.now)) }
    {
        Ok(Scripted::new(Script::before_fault(heap, text)?))
    }

    // The count for the relay at this place, counted from 0.
    fn count(&self, place: usize) -> u8
        requires { place < 8 }
        ensures { result ≡ slice_index (scripted_counts self.now) place }
    {
        usize::from(self.slots.carried)
            .checked_sub(1)
            .map_or(0, |line| self.script.digit(line, place))
    }
}

impl Link for Scripted {
    ghost meaning = { scripted_meaning };

    ghost goes = { ScriptedGoes };

    ghost lawful = { λ s.
        let t = s.slots.carried in
        slots_lawful s.slots (scripted_counts s) (script_eight s.script t) (script_few s.script t) (script_none s.script t) };

    fn slots_carried(&self) -> u16 {
        self.slots.carried
    }

    fn slots_left(&self) -> u16 {
        self.slots.left
    }

    fn send(&mut self, frame: &[u16]) -> Result<(), LinkFault> {
        self.slots.send(frame)
    }

    fn copies(&self, relay: usize) -> Result<u8, LinkFault> {
        Ok(self.count(relay_index(relay)?))
    }

    fn read(&self, relay: usize, buffer: &mut [u16]) -> Result<(), LinkFault> {
        self.slots.read(self.copies(relay), buffer)
    }
}
