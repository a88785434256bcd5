// The field of a modulus of a caller's own: the integers modulo 17, against remainders worked out apart from the code.
ghost use Rattle.std.specs.Prelude.{refl};
ghost use Rattle.std.proofs.Common.{lit<, lit≤};

use crate::cases::{Case, Inverse, Tables, check_tables};
use field::residue_field::ResidueField;
use field::residues::Modulus;
use std::marker::PhantomData;

pub(crate) struct Modulo17;

impl Modulus for Modulo17 {
    const Q: u16 = 17;

    // 15 is four ones in binary.
    const TURNS: u32 = 4;

    ghost Q = { 17 };

    ghost TURNS = { 4 };

    ghost least = { lit< tt };

    ghost most = { lit≤ tt };

    ghost turned = { refl };

    ghost inverses = { refl };
}

const SUMS: [Case; 5] = [(0, 0, 0), (0, 16, 16), (1, 16, 0), (9, 12, 4), (16, 16, 15)];

const DIFFERENCES: [Case; 5] = [(0, 1, 16), (3, 5, 15), (5, 3, 2), (16, 0, 16), (16, 16, 0)];

const PRODUCTS: [Case; 5] = [
    (0, 16, 0),
    (1, 16, 16),
    (4, 13, 1),
    (11, 12, 13),
    (16, 16, 1),
];

const INVERSES: [Inverse; 9] = [
    (1, 1),
    (2, 9),
    (3, 6),
    (4, 13),
    (5, 7),
    (8, 15),
    (10, 12),
    (11, 14),
    (16, 16),
];

#[test]
fn remainders_by_17(rt: HostRuntime) {
    let tables = Tables {
        sums: &SUMS,
        differences: &DIFFERENCES,
        products: &PRODUCTS,
        inverses: &INVERSES,
    };
    check_tables(&rt, &ResidueField::<Modulo17>(PhantomData), tables);
}
