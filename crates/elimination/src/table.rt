// The rows of one relay, by lead: row m is the row with lead m, or zeros where there is none.
ghost use Rattle.std.specs.Prelude.{◌≡◌, ◌≤◌, vec_len};
ghost use Rattle.elimination.specs.Reduction.{lists};
ghost use Rattle.elimination.specs.Sound.{Sound};

mod ask;
mod build;
mod take_in;

// How many coefficients a frame has, one for each packet, and how many symbols: 1 to 32 of each.
#[derive(Clone, Copy)]
pub(crate) struct Shape {
    packets: usize,
    symbols: usize,
    ghost some_packets: { 1 ≤ packets },
    ghost few_packets: { packets ≤ 32 },
    ghost some_symbols: { 1 ≤ symbols },
    ghost few_symbols: { symbols ≤ 32 },
}

#[derive(Drop)]
pub struct Table {
    q: u32,
    shape: Shape,
    rows: Vec<Vec<u16>>,
    ghost tall: { vec_len rows ≡ shape.packets },
    ghost sound: { ∥ Sound q shape.packets shape.symbols (lists rows.items) ∥₁ },
}
