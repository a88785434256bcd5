// GF(256) against FIPS 197. What is not printed there was worked out apart from the code.
use crate::cases::{Case, Inverse, Tables, check_tables};
use field::Field;
use field::fault::FieldFault;
use field::gf256::Gf256;
use std::process::Abort;
use std::test::Fail;

// A column of four codes, or a row of a matrix.
type Column = [u8; 4];

// A column, and what MixColumns makes of it.
type Mixed = (Column, Column);

// The worked sum, and sums at the edges. A difference is the same as the sum: both are the exclusive or.
const SUMS: [Case; 4] = [
    (0x57, 0x83, 0xd4),
    (0xff, 0xff, 0x00),
    (0xff, 0x00, 0xff),
    (0x00, 0x80, 0x80),
];

// The worked product, the chain by 02 that leads to 57 times 13, and products by 1 and 0.
const PRODUCTS: [Case; 9] = [
    (0x57, 0x83, 0xc1),
    (0x57, 0x02, 0xae),
    (0x57, 0x04, 0x47),
    (0x57, 0x08, 0x8e),
    (0x57, 0x10, 0x07),
    (0x57, 0x13, 0xfe),
    (0x57, 0x01, 0x57),
    (0x57, 0x00, 0x00),
    (0x00, 0x00, 0x00),
];

// Inverses behind the S-box.
const INVERSES: [Inverse; 6] = [
    (0x01, 0x01),
    (0x02, 0x8d),
    (0x03, 0xf6),
    (0x53, 0xca),
    (0x80, 0x83),
    (0xff, 0x1c),
];

// The S-box, a line for each first digit.
const S_BOX: &[u8; 256] = b"\
    \x63\x7c\x77\x7b\xf2\x6b\x6f\xc5\x30\x01\x67\x2b\xfe\xd7\xab\x76\
    \xca\x82\xc9\x7d\xfa\x59\x47\xf0\xad\xd4\xa2\xaf\x9c\xa4\x72\xc0\
    \xb7\xfd\x93\x26\x36\x3f\xf7\xcc\x34\xa5\xe5\xf1\x71\xd8\x31\x15\
    \x04\xc7\x23\xc3\x18\x96\x05\x9a\x07\x12\x80\xe2\xeb\x27\xb2\x75\
    \x09\x83\x2c\x1a\x1b\x6e\x5a\xa0\x52\x3b\xd6\xb3\x29\xe3\x2f\x84\
    \x53\xd1\x00\xed\x20\xfc\xb1\x5b\x6a\xcb\xbe\x39\x4a\x4c\x58\xcf\
    \xd0\xef\xaa\xfb\x43\x4d\x33\x85\x45\xf9\x02\x7f\x50\x3c\x9f\xa8\
    \x51\xa3\x40\x8f\x92\x9d\x38\xf5\xbc\xb6\xda\x21\x10\xff\xf3\xd2\
    \xcd\x0c\x13\xec\x5f\x97\x44\x17\xc4\xa7\x7e\x3d\x64\x5d\x19\x73\
    \x60\x81\x4f\xdc\x22\x2a\x90\x88\x46\xee\xb8\x14\xde\x5e\x0b\xdb\
    \xe0\x32\x3a\x0a\x49\x06\x24\x5c\xc2\xd3\xac\x62\x91\x95\xe4\x79\
    \xe7\xc8\x37\x6d\x8d\xd5\x4e\xa9\x6c\x56\xf4\xea\x65\x7a\xae\x08\
    \xba\x78\x25\x2e\x1c\xa6\xb4\xc6\xe8\xdd\x74\x1f\x4b\xbd\x8b\x8a\
    \x70\x3e\xb5\x66\x48\x03\xf6\x0e\x61\x35\x57\xb9\x86\xc1\x1d\x9e\
    \xe1\xf8\x98\x11\x69\xd9\x8e\x94\x9b\x1e\x87\xe9\xce\x55\x28\xdf\
    \x8c\xa1\x89\x0d\xbf\xe6\x42\x68\x41\x99\x2d\x0f\xb0\x54\xbb\x16";

// The matrix of MixColumns.
const MIX: [Column; 4] = [
    [0x02, 0x03, 0x01, 0x01],
    [0x01, 0x02, 0x03, 0x01],
    [0x01, 0x01, 0x02, 0x03],
    [0x03, 0x01, 0x01, 0x02],
];

// The matrix that undoes it.
const UNMIX: [Column; 4] = [
    [0x0e, 0x0b, 0x0d, 0x09],
    [0x09, 0x0e, 0x0b, 0x0d],
    [0x0d, 0x09, 0x0e, 0x0b],
    [0x0b, 0x0d, 0x09, 0x0e],
];

// Well known test columns, and then the columns of round 1 in Appendix B.
const MIXED: [Mixed; 10] = [
    ([0xdb, 0x13, 0x53, 0x45], [0x8e, 0x4d, 0xa1, 0xbc]),
    ([0xf2, 0x0a, 0x22, 0x5c], [0x9f, 0xdc, 0x58, 0x9d]),
    ([0x01, 0x01, 0x01, 0x01], [0x01, 0x01, 0x01, 0x01]),
    ([0xc6, 0xc6, 0xc6, 0xc6], [0xc6, 0xc6, 0xc6, 0xc6]),
    ([0xd4, 0xd4, 0xd4, 0xd5], [0xd5, 0xd5, 0xd7, 0xd6]),
    ([0x2d, 0x26, 0x31, 0x4c], [0x4d, 0x7e, 0xbd, 0xf8]),
    ([0xd4, 0xbf, 0x5d, 0x30], [0x04, 0x66, 0x81, 0xe5]),
    ([0xe0, 0xb4, 0x52, 0xae], [0xe0, 0xcb, 0x19, 0x9a]),
    ([0xb8, 0x41, 0x11, 0xf1], [0x48, 0xf8, 0xd3, 0x7a]),
    ([0x1e, 0x27, 0x98, 0xe5], [0x28, 0x06, 0x26, 0x4c]),
];

#[test]
fn tables(rt: HostRuntime) {
    let tables = Tables {
        sums: &SUMS,
        differences: &SUMS,
        products: &PRODUCTS,
        inverses: &INVERSES,
    };
    check_tables(&rt, &Gf256, tables);
}

#[test]
fn mix_columns(rt: HostRuntime) -> Result<(), Fail> {
    for &(plain, mixed) in &MIXED {
        check_times(&rt, &MIX, &plain, &mixed)?;
        check_times(&rt, &UNMIX, &mixed, &plain)?;
    }
    Ok(())
}

// The S-box takes the inverse of each code but 0, so every inverse is tested.
#[test]
fn s_box(rt: HostRuntime) -> Result<(), Fail> {
    for code in 0..=255 {
        let printed = S_BOX[usize::from(code)];
        assert_eq!(rt; substitute(code)?, printed, "code {code:02x}");
    }
    Ok(())
}

// Checks that the matrix takes the column to the answer.
fn check_times(
    rt: &impl Abort,
    matrix: &[Column; 4],
    column: &Column,
    answer: &Column,
) -> Result<(), Fail> {
    for (row, code) in matrix.iter().zip(answer) {
        assert_eq!(rt;
            dot(row, column)?,
            u16::from(*code),
            "{row:?} by {column:?}"
        );
    }
    Ok(())
}

// The sum of the products of the codes of a row and a column.
fn dot(row: &Column, column: &Column) -> Result<u16, FieldFault> {
    let mut total = 0;
    for (a, b) in row.iter().zip(column) {
        let product = Gf256.product(u16::from(*a), u16::from(*b))?;
        total = Gf256.sum(total, product)?;
    }
    Ok(total)
}

// What the S-box puts in the place of a code: the affine map of its inverse, with 0 for the inverse of 0.
fn substitute(code: u8) -> Result<u8, Fail> {
    let inverse = match code {
        0 => 0,
        _ => u8::try_from(Gf256.inverse(u16::from(code))?)?,
    };
    let turned = inverse.rotate_left(1)
        ^ inverse.rotate_left(2)
        ^ inverse.rotate_left(3)
        ^ inverse.rotate_left(4);
    Ok(inverse ^ turned ^ 0x63)
}
