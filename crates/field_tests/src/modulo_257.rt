// The integers modulo 257 against remainders worked out apart from the code.
use crate::cases::{Case, Inverse, Tables, check_tables};
use field::modulo_257::Modulo257;

const SUMS: [Case; 7] = [
    (0, 0, 0),
    (0, 256, 256),
    (1, 256, 0),
    (128, 128, 256),
    (128, 129, 0),
    (200, 100, 43),
    (256, 256, 255),
];

const DIFFERENCES: [Case; 7] = [
    (0, 0, 0),
    (0, 1, 256),
    (0, 256, 1),
    (20, 50, 227),
    (50, 20, 30),
    (256, 0, 256),
    (256, 256, 0),
];

const PRODUCTS: [Case; 8] = [
    (0, 256, 0),
    (1, 256, 256),
    (2, 129, 1),
    (16, 16, 256),
    (16, 17, 15),
    (100, 200, 211),
    (255, 256, 2),
    (256, 256, 1),
];

const INVERSES: [Inverse; 9] = [
    (1, 1),
    (2, 129),
    (3, 86),
    (5, 103),
    (7, 147),
    (16, 241),
    (100, 18),
    (128, 255),
    (256, 256),
];

#[test]
fn remainders(rt: HostRuntime) {
    let tables = Tables {
        sums: &SUMS,
        differences: &DIFFERENCES,
        products: &PRODUCTS,
        inverses: &INVERSES,
    };
    check_tables(&rt, &Modulo257, tables);
}
