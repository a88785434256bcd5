// A relay that is started.
use elimination::table::Table;

// Its field, and the rows that it has of the frames accepted.
#[derive(Drop)]
pub(crate) struct Started<F> {
    pub(crate) field: F,
    pub(crate) table: Table,
}
