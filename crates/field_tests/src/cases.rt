// Tables of cases, and the walks that hold a field to them.
use field::Field;
use field::fault::FieldFault;
use std::process::Abort;

// Two codes, and the answer for them in this order.
pub(crate) type Case = (u16, u16, u16);

// A code and its inverse.
pub(crate) type Inverse = (u16, u16);

// The cases of a field, by operation.
#[derive(Clone, Copy)]
pub(crate) struct Tables<'a> {
    pub(crate) sums: &'a [Case],
    pub(crate) differences: &'a [Case],
    pub(crate) products: &'a [Case],
    pub(crate) inverses: &'a [Inverse],
}

// Checks each operation of a field by its cases. Each product is asked for in both orders, and each inverse both ways.
pub(crate) fn check_tables<F: Field>(rt: &impl Abort, field: &F, tables: Tables<'_>) {
    let Tables {
        sums,
        differences,
        products,
        inverses,
    } = tables;
    check(rt, "a + b", |a, b| field.sum(a, b), sums);
    check(rt, "a - b", |a, b| field.difference(a, b), differences);
    check(rt, "a * b", |a, b| field.product(a, b), products);
    check(rt, "b * a", |a, b| field.product(b, a), products);
    for &(a, b) in inverses {
        assert_eq!(rt; field.inverse(a), Ok(b), "the inverse of {a}");
        assert_eq!(rt; field.inverse(b), Ok(a), "the inverse of {b}");
    }
}

// Checks an operation of two codes, which messages call by this name.
fn check<O>(rt: &impl Abort, name: &str, operation: O, cases: &[Case])
where
    O: Fn(u16, u16) -> Result<u16, FieldFault>,
    requires { O.IsAlwaysCallable operation }
{
    for &(a, b, answer) in cases {
        assert_eq!(rt; operation(a, b), Ok(answer), "{name} at {a} and {b}");
    }
}
