// What the program writes of a decoding.
ghost use Rattle.std.specs.Prelude.{◌≡◌, Some, IfOk, string_bytes};
ghost use Rattle.decode.specs.Listing.{answer_text, set_text, line_text, packet_text, decoding_text, listing_text, refused_text};

use super::decoding::{Decoding, Line};
use elimination::fault::RowsFault;
use faults::Fault;
use printing::Codes;
use std::alloc::{AllocError, Global};
use std::fmt;

// The name of the field, a line for each frame heard, and one for each packet.
pub fn listing(heap: Global, name: &str, decoding: &Decoding) -> Result<String, AllocError>
    ensures { IfOk result (λ t. string_bytes t ≡ listing_text name.now decoding.now) }
{
    format!(in heap; "{name}\n{decoding}")
}

// The line of a decoding that was refused.
pub fn refused(heap: Global, name: &str, fault: &RowsFault) -> Result<String, AllocError>
    ensures { IfOk result (λ t. string_bytes t ≡ refused_text name.now fault.now) }
{
    let refusal = fault.refusal();
    format!(in heap; "{name}  {refusal}\n")
}

// The frames heard, and then the packets, a line for each.
impl fmt::Display for Decoding<'_> {
    ghost output = { λ d. Some (decoding_text d) };

    fn fmt<W: fmt::Write>(&self, f: &mut fmt::Formatter<W>) -> fmt::Result {
        for line in &self.lines {
            write!(f, "{line}")?;
        }
        for (k, symbols) in self.packets.iter().enumerate() {
            let number = k + 1;
            let packet = Packet { number, symbols };
            write!(f, "{packet}")?;
        }
        Ok(())
    }
}

// The frame, what the relay answered to it, and the packets that it had then seen.
impl fmt::Display for Line<'_> {
    ghost output = { λ x. Some (line_text x) };

    fn fmt<W: fmt::Write>(&self, f: &mut fmt::Formatter<W>) -> fmt::Result {
        let frame = Codes(self.frame);
        let answer = Answer(self.answer);
        let seen = Seen(self.seen);
        writeln!(f, "  heard  {frame}  {answer}  seen{seen}")
    }
}

// What a frame was answered: the packet newly seen, or 0, or a refusal.
#[derive(Clone, Copy)]
struct Answer(Result<usize, RowsFault>);

impl fmt::Display for Answer {
    ghost output = { λ a. Some (answer_text a.0) };

    fn fmt<W: fmt::Write>(&self, f: &mut fmt::Formatter<W>) -> fmt::Result {
        match self.0 {
            Ok(packet) => write!(f, "new {packet}"),
            Err(fault) => {
                let refusal = fault.refusal();
                write!(f, "{refusal}")
            }
        }
    }
}

// The packets of a set: bit k - 1 stands for packet k.
#[derive(Clone, Copy)]
struct Seen(u32);

impl fmt::Display for Seen {
    ghost output = { λ s. Some (set_text s.0) };

    fn fmt<W: fmt::Write>(&self, f: &mut fmt::Formatter<W>) -> fmt::Result {
        for k in 0u32..32 {
            if (self.0 >> k) % 2 == 1 {
                let packet = k + 1;
                write!(f, " {packet}")?;
            }
        }
        Ok(())
    }
}

// A packet by its number from 1, and its symbols if it could be read.
#[derive(Clone, Copy)]
struct Packet<'a> {
    number: usize,
    symbols: &'a Option<Vec<u16>>,
}

impl fmt::Display for Packet<'_> {
    ghost output = { λ p. Some (packet_text (p.number, p.symbols.now)) };

    fn fmt<W: fmt::Write>(&self, f: &mut fmt::Formatter<W>) -> fmt::Result {
        let number = self.number;
        match self.symbols {
            Some(symbols) => {
                let symbols = Codes(symbols.as_slice());
                writeln!(f, "  packet {number}{symbols}")
            }
            None => writeln!(f, "  packet {number} is not determined"),
        }
    }
}
