// GF(2): its whole tables.
use crate::cases::{Case, Tables, check_tables};
use field::gf2::Gf2;

// A difference is the same as the sum, since 1 + 1 = 0.
const SUMS: [Case; 4] = [(0, 0, 0), (0, 1, 1), (1, 0, 1), (1, 1, 0)];

const PRODUCTS: [Case; 4] = [(0, 0, 0), (0, 1, 0), (1, 0, 0), (1, 1, 1)];

#[test]
fn whole_tables(rt: HostRuntime) {
    let tables = Tables {
        sums: &SUMS,
        differences: &SUMS,
        products: &PRODUCTS,
        inverses: &[(1, 1)],
    };
    check_tables(&rt, &Gf2, tables);
}
