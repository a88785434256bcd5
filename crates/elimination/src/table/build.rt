// A table without rows.
ghost use Rattle.std.specs.Prelude.{◌≡◌, ◌+◌, ◌≤◌, replicate, IfOk};
ghost use Rattle.elimination.specs.Reduction.{lists};
ghost use Rattle.elimination.specs.Tables.{held, Shaped, empty_table, Built};

use super::super::fault::RowsFault;
use super::{Shape, Table};
use field::Field;
use std::alloc::{AllocError, Global};

impl Table {
    // A table for frames of this many coefficients and symbols; all its memory is got here. Two numbers and no `Shape`, since sizes
    // outside their range are this call's to refuse.
    pub fn for_field<F: Field>(
        heap: Global,
        field: &F,
        packets: usize,
        symbols: usize,
    ) -> Result<Table, RowsFault>
        ensures { Built (F.ops field.now) packets symbols result }
    {
        let shape = Shape::new(packets, symbols)?;
        Ok(Table::new(heap, field.size(), shape)?)
    }

    // The same for a shape that is known.
    pub(crate) fn new(heap: Global, q: u32, shape: Shape) -> Result<Table, AllocError>
        requires { 1 ≤ q }
        ensures size { IfOk result (λ t. t.q ≡ q) }
        ensures shape { IfOk result (λ t. t.shape ≡ shape) }
        ensures rows { IfOk result (λ t. lists t.rows.items ≡ replicate shape.packets (replicate (shape.packets + shape.symbols) 0)) }
        ensures table { IfOk result (λ t. held t ≡ empty_table q shape.packets shape.symbols) }
    {
        let zeros = vec![in heap; 0; shape.width()]?;
        let rows = vec![in heap; zeros; shape.packets]?;
        Ok(Table { q, shape, rows })
    }
}

impl Shape {
    // Refuses sizes outside 1 to 32.
    fn new(packets: usize, symbols: usize) -> Result<Shape, RowsFault>
        ensures { Shaped packets symbols result }
    {
        if !(1..=32).contains(&packets) || !(1..=32).contains(&symbols) {
            return Err(RowsFault::WrongSize);
        }
        Ok(Shape { packets, symbols })
    }

    // How long a frame is.
    pub(crate) fn width(&self) -> usize
        ensures { result ≡ self.now.packets + self.now.symbols }
    {
        self.packets + self.symbols
    }
}
