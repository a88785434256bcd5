// A recording of frames, as bytes: frame after frame, two bytes for a code, the higher one first.
ghost use Rattle.std.specs.Prelude.{◌≡◌, ◌<◌, IfOk};
ghost use Rattle.elimination.specs.Reduction.{lists};
ghost use Rattle.decode.specs.Recordings.{codes_of, frames_of, recorded};

use std::alloc::{AllocError, Global};

// The frames of a recording, each this many codes wide; what is left past the last whole frame is not read.
pub fn read_frames(heap: Global, bytes: &[u8], width: usize) -> Result<Vec<Vec<u16>>, AllocError>
    ensures { IfOk result (λ v. lists v.items ≡ recorded bytes.now width) }
{
    if width == 0 {
        return Ok(Vec::new(heap));
    }
    let codes = read_codes(heap, bytes)?;
    cut(heap, codes.as_slice(), width)
}

// The codes that the bytes write.
fn read_codes(heap: Global, bytes: &[u8]) -> Result<Vec<u16>, AllocError>
    ensures { IfOk result (λ v. v.items ≡ codes_of bytes.now) }
{
    let (pairs, _) = bytes.as_chunks::<2>();
    pairs
        .iter()
        .map(|pair| u16::from_be_bytes(*pair))
        .collect(heap)
}

// Whole frames, one after another.
#[tactic(auto, using(crate::proofs::Cutting::frames_turn, std::proofs::lemmas::Grind::common_steps))]
fn cut(heap: Global, codes: &[u16], width: usize) -> Result<Vec<Vec<u16>>, AllocError>
    requires { 0 < width }
    ensures { IfOk result (λ v. lists v.items ≡ frames_of codes.now width) }
{
    let mut frames = Vec::new(heap);
    for frame in codes.chunks_exact(width) {
        frames.push(Vec::from_slice(heap, frame)?)?;
    }
    Ok(frames)
}
