// The drawn link: its counts come from a xorshift32 generator and a loss figure.
ghost use Rattle.std.specs.Prelude.{◌≡◌, ℕ, ◌≤◌, length, slice_index};
ghost use Rattle.link.specs.Meanings.{no_copies};

use super::slots::Slots;

mod carry;
mod draw;

// A state that is stepped on for each count, and the loss figure that the state is held against.
#[derive(Drop)]
struct Generator {
    state: u32,
    loss: u16,
}

#[derive(Drop)]
pub struct Drawn {
    generator: Generator,
    counts: [u8; 8],
    slots: Slots,
    ghost eight: { length counts ≡ 8 },
    ghost single: { (i : ℕ) → slice_index counts i ≤ 1 },
    ghost fresh: { slots.carried ≡ 0 → counts ≡ no_copies },
}
