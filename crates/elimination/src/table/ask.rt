// Questions to a table.
ghost use Rattle.std.specs.Prelude.{◌≡◌, ◌<◌, length, MatchBool, ◌==◌};
ghost use Rattle.algebra.specs.Packets.{Bare};
ghost use Rattle.elimination.specs.Reduction.{lists};
ghost use Rattle.elimination.specs.Tables.{held, seen_set, packet_answer, Fetched};

use super::super::fault::RowsFault;
use super::Table;
use field::Field;

impl Table {
    // Whether the table was built for a field of this size.
    pub fn fits<F: Field>(&self, field: &F) -> bool
        ensures { result ≡ ((F.ops field.now).size == (held self.now).size) }
    {
        field.size() == self.q
    }

    // The packets that are seen, as a set: bit m for packet m, counted from 0.
    pub fn seen(&self) -> u32
        ensures { result ≡ seen_set (lists self.now.rows.items) self.now.shape.packets }
    {
        let mut seen = 0;
        for (m, row) in self.rows.iter().enumerate() {
            if row[m] != 0 {
                seen |= 1 << m;
            }
        }
        seen
    }

    // Writes a packet, by its number from 1, into a buffer, where its row has no other coefficient.
    pub fn fetch(&self, packet: usize, buffer: &mut [u16]) -> Result<(), RowsFault>
        ensures { Fetched (held self.now) packet buffer.old result buffer.new }
    {
        self.check_packet(packet, buffer.len())?;
        if !self.is_bare(packet - 1) {
            return Err(RowsFault::NotDetermined);
        }
        let row = self.rows[packet - 1].as_slice();
        let (_, symbols) = row.split_at(self.shape.packets);
        buffer.copy_from_slice(symbols);
        Ok(())
    }

    // Refuses a buffer of the wrong length, then a number that no packet has.
    fn check_packet(&self, packet: usize, len: usize) -> Result<(), RowsFault>
        ensures { result ≡ packet_answer (held self.now) packet len }
    {
        if len != self.shape.symbols {
            return Err(RowsFault::WrongLength);
        }
        if !(1..=self.shape.packets).contains(&packet) {
            return Err(RowsFault::NoPacket);
        }
        Ok(())
    }

    // Whether row m is there and has no coefficient but its lead.
    fn is_bare(&self, m: usize) -> bool
        requires { m < self.now.shape.packets }
        ensures { MatchBool result (Bare (held self.now).packets (held self.now).rows m) (Bare (held self.now).packets (held self.now).rows m → ⊥) }
    {
        let row = self.rows[m].as_slice();
        row[m] == 1
            && row[..self.shape.packets]
                .iter()
                .enumerate()
                .all(|(i, code)| i == m || *code == 0)
    }
}
