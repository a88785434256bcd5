// What became of a frame that a table took in.
#[derive(Clone, Copy, PartialEq, Eq, Debug)]
pub enum Heard {
    // It put in a row with this lead, counted from 0.
    New(usize),
    // It is already in the span.
    Spanned,
    // Its coefficients are in the span, and its symbols are not the same combination.
    Conflict,
}
