// The erasing layer: a link over another one, in which periods erase copies.

mod carry;

// A period for each relay: 0 erases nothing, any other period erases the slots that it divides.
#[derive(Clone, Copy)]
pub struct Periods {
    pub of: [u8; 8],
}

#[derive(Drop)]
pub struct Erasing<L> {
    lower: L,
    periods: Periods,
}
