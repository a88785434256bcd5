// Loss scripts: for each slot a line, and in it for each relay a digit.
ghost use Rattle.std.specs.Prelude.{ℕ, ◌≤◌, vec_len};
ghost use Rattle.text.specs.Tables.{lists, number_at};

mod ask;
mod parse;

#[derive(Drop)]
pub struct Script {
    lines: Vec<Vec<u16>>,
    ghost few: { vec_len lines ≤ 1024 },
    ghost digits: { (i k : ℕ) → number_at (lists lines.items) i k ≤ 9 },
}
