// A relay hears frames, one after another, and then reads what packets it can.
ghost use Rattle.std.specs.Prelude.{◌≡◌, true, is_some, IfOk};
ghost use Rattle.elimination.specs.Reduction.{lists};
ghost use Rattle.relay.specs.States.{state};
ghost use Rattle.decode.specs.Decoding.{Decodes, frames_of_lines, Listed, ReadAs, ReadOff};

use elimination::fault::RowsFault;
use field::Field;
use relay::Relay;
use std::alloc::{AllocError, Global};

// A frame, what the relay answered to it, and the packets that it had then seen.
#[derive(Clone, Copy)]
pub struct Line<'a> {
    pub frame: &'a [u16],
    pub answer: Result<usize, RowsFault>,
    pub seen: u32,
}

// A line for each frame, and then each packet that could be read.
#[derive(Drop)]
pub struct Decoding<'a> {
    pub lines: Vec<Line<'a>>,
    pub packets: Vec<Option<Vec<u16>>>,
}

// Starts a relay, has it hear the frames, and reads its packets. Sizes are two numbers, as the relay takes and refuses them.
pub fn decode<F: Field + Drop>(
    heap: Global,
    field: F,
    packets: usize,
    symbols: usize,
    frames: &[Vec<u16>],
) -> Result<Decoding<'_>, RowsFault>
    ensures { Decodes (F.ops field) packets symbols (lists frames.now) result }
{
    let mut relay = Relay::empty();
    relay.start(heap, field, packets, symbols)?;
    let lines = hear_all(heap, &mut relay, frames)?;
    let packets = read_all(heap, &relay, packets, symbols)?;
    Ok(Decoding { lines, packets })
}

// Has a started relay hear the frames.
fn hear_all<'a, F: Field + Drop>(
    heap: Global,
    relay: &mut Relay<F>,
    frames: &'a [Vec<u16>],
) -> Result<Vec<Line<'a>>, AllocError>
    requires { is_some (state F.ops relay.old) ≡ true }
    ensures started { is_some (state F.ops relay.new) ≡ true }
    ensures frames { IfOk result (λ v. frames_of_lines v.items ≡ lists frames.now) }
    ensures listed { IfOk result (λ v. Listed (state F.ops relay.old) v.items (state F.ops relay.new)) }
{
    let mut lines = Vec::new(heap);
    for frame in frames {
        let frame = frame.as_slice();
        let answer = relay.hear(frame);
        let seen = relay.seen().unwrap();
        lines.push(Line {
            frame,
            answer,
            seen,
        })?;
    }
    Ok(lines)
}

// Reads each of the first packets that the relay has determined.
fn read_all<F: Field + Drop>(
    heap: Global,
    relay: &Relay<F>,
    packets: usize,
    symbols: usize,
) -> Result<Vec<Option<Vec<u16>>>, AllocError>
    ensures { IfOk result (λ v. ReadOff (state F.ops relay.now) symbols v.items packets) }
{
    let mut read = Vec::new(heap);
    for packet in 1..=packets {
        read.push(read_packet(heap, relay, packet, symbols)?)?;
    }
    Ok(read)
}

// Reads one packet, by its number from 1, if the relay gives it.
fn read_packet<F: Field + Drop>(
    heap: Global,
    relay: &Relay<F>,
    packet: usize,
    symbols: usize,
) -> Result<Option<Vec<u16>>, AllocError>
    ensures { IfOk result (ReadAs (state F.ops relay.now) symbols packet) }
{
    let mut buffer = vec![in heap; 0; symbols]?;
    let read = relay.fetch(packet, buffer.as_mut_slice()).is_ok();
    Ok(read.then_some(buffer))
}
