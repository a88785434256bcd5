// A relay hears recorded frames, and reads the packets that they determine.
#![tactic(auto)]

ghost use Rattle.std.specs.Prelude.{IfOk, string_bytes};
ghost use Rattle.decode.specs.Listing.{Told};

mod decoding;
mod listing;
mod recording;

use decoding::decode;
use field::Field;
use field::gf256::Gf256;
use field::modulo_257::Modulo257;
use listing::{listing, refused};
use recording::read_frames;
use std::alloc::{AllocError, Global};
use std::{fs, io};

// Decodes a recording of frames for four packets of three symbols, and says what came of it.
fn told<F: Field + Drop>(
    heap: Global,
    name: &str,
    bytes: &[u8],
    field: F,
) -> Result<String, AllocError>
    ensures { IfOk result (λ t. Told (F.ops field) name.now bytes.now (string_bytes t)) }
{
    let frames = read_frames(heap, bytes, 7)?;
    match decode(heap, field, 4, 3, frames.as_slice()) {
        Ok(decoding) => listing(heap, name, &decoding),
        Err(fault) => refused(heap, name, &fault),
    }
}

// Reads a recording by the name of its file, and prints what is told of it.
fn tell<F: Field + Drop>(rt: &HostRuntime, file: &str, name: &str, field: F) -> io::Result<()> {
    let bytes = fs::read(rt, file)?;
    rt.print(told(rt.alloc(), name, bytes.as_slice(), field)?)
}

fn main(rt: HostRuntime) -> io::Result<()> {
    tell(&rt, "modulo_257.bin", "modulo 257", Modulo257)?;
    tell(&rt, "gf256.bin", "GF(256)", Gf256)
}
