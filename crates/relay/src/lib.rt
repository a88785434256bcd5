// A relay: a place that hears coded frames, tells which packets it has seen, and reads those that are determined.
#![tactic(auto)]

ghost use Rattle.std.specs.Prelude.{◌≡◌, List, Some, None, Option, IfOk, IfErr, OnOk};
ghost use Rattle.elimination.specs.Tables.{held};
ghost use Rattle.elimination.specs.declared.fault.RowsFault.TheVariants.{NotStarted};
ghost use Rattle.relay.specs.Calls.{Starts, Hears, seen_answer, Fetches};
ghost use Rattle.relay.specs.Promise.{Hearing, Reached, Promise};
ghost use Rattle.relay.specs.States.{State, state};

mod started;

use elimination::fault::RowsFault;
use elimination::heard::Heard;
use elimination::table::Table;
use field::Field;
use started::Started;
use std::alloc::Global;

#[derive(Drop)]
pub struct Relay<F> {
    place: Option<Started<F>>,
}

impl<F: Field + Drop> Relay<F> {
    // An empty place.
    pub fn empty() -> Relay<F>
        ensures { state F.ops result ≡ None }
    {
        Relay { place: None }
    }

    // Sets the relay up, a started one anew, for frames of this many coefficients and symbols: two numbers, since sizes outside their
    // range are refused here. All memory is got here.
    pub fn start(
        &mut self,
        heap: Global,
        field: F,
        packets: usize,
        symbols: usize,
    ) -> Result<(), RowsFault>
        ensures started { Starts (F.ops field) packets symbols (state F.ops self.old) result (state F.ops self.new) }
        ensures promise { OnOk result ((hs : List Hearing) (t : Option State) → Reached (state F.ops self.new) hs t → Promise (F.ops field) packets symbols hs t) }
    {
        let table = Table::for_field(heap, &field, packets, symbols)?;
        self.place = Some(Started { field, table });
        Ok(())
    }

    // Hears a frame, and answers the packet newly seen by it, or 0: a number and no `Option`, since that is how it is told.
    pub fn hear(&mut self, frame: &[u16]) -> Result<usize, RowsFault>
        ensures { Hears (state F.ops self.old) frame.now result (state F.ops self.new) }
    {
        let started = self.place.as_mut().ok_or(RowsFault::NotStarted)?;
        match started.table.hear(&started.field, frame)? {
            Heard::New(lead) => Ok(lead + 1),
            Heard::Spanned => Ok(0),
            Heard::Conflict => Err(RowsFault::Conflict),
        }
    }

    // The packets seen, as a set: bit k - 1 for packet k.
    pub fn seen(&self) -> Result<u32, RowsFault>
        ensures { result ≡ seen_answer (state F.ops self.now) }
    {
        let started = self.started()?;
        Ok(started.table.seen())
    }

    // Writes a determined packet into a buffer.
    pub fn fetch(&self, packet: usize, buffer: &mut [u16]) -> Result<(), RowsFault>
        ensures { Fetches (state F.ops self.now) packet buffer.old result buffer.new }
    {
        let started = self.started()?;
        started.table.fetch(packet, buffer)
    }

    // The relay that is started, with a table that was built for a field of the size of its own.
    fn started(&self) -> Result<&Started<F>, RowsFault>
        ensures fits { IfOk result (λ s. (F.ops s.now.field).size ≡ s.now.table.q) }
        ensures found { IfOk result (λ s. state F.ops self.now ≡ Some (record { ops = F.ops s.now.field; table = held s.now.table })) }
        ensures refused { IfErr result (λ e. (e ≡ NotStarted) × (state F.ops self.now ≡ None)) }
    {
        self.place
            .as_ref()
            .filter(|started| started.table.fits(&started.field))
            .ok_or(RowsFault::NotStarted)
    }
}
