// What each field refuses, and how the refusal is told.
use crate::residue_field::Modulo17;
use faults::{Fault, Layer, Refusal};
use field::Field;
use field::fault::FieldFault;
use field::gf2::Gf2;
use field::gf256::Gf256;
use field::modulo_257::Modulo257;
use field::residue_field::ResidueField;
use std::marker::PhantomData;
use std::process::Abort;

const LAYERS: [(Layer, &str); 7] = [
    (Layer::Field, "field"),
    (Layer::Link, "link"),
    (Layer::Rows, "rows"),
    (Layer::Sender, "sender"),
    (Layer::Script, "script"),
    (Layer::Settings, "settings"),
    (Layer::Run, "run"),
];

#[test]
fn modulo_257_refuses(rt: HostRuntime) {
    check_edges(&rt, &Modulo257, 257);
}

#[test]
fn gf256_refuses(rt: HostRuntime) {
    check_edges(&rt, &Gf256, 256);
}

#[test]
fn gf2_refuses(rt: HostRuntime) {
    check_edges(&rt, &Gf2, 2);
}

#[test]
fn modulo_17_refuses(rt: HostRuntime) {
    check_edges(&rt, &ResidueField::<Modulo17>(PhantomData), 17);
}

#[test]
fn layers_by_name(rt: HostRuntime) {
    for &(layer, name) in &LAYERS {
        assert_eq!(rt; layer.name(), name);
    }
}

// Checks the size of a field, the first and the last code past it, and the inverse of 0.
fn check_edges<F: Field>(rt: &impl Abort, field: &F, size: u16) {
    assert_eq!(rt; field.size(), u32::from(size));
    check_too_large(rt, field, size);
    check_too_large(rt, field, u16::MAX);
    check_fault(rt, field.inverse(0), FieldFault::InverseOfZero, 6);
}

// Checks that every operation refuses the code, in each place.
fn check_too_large<F: Field>(rt: &impl Abort, field: &F, code: u16) {
    let answers = [
        field.sum(code, 1),
        field.sum(1, code),
        field.difference(code, 1),
        field.difference(1, code),
        field.product(code, 1),
        field.product(1, code),
        field.inverse(code),
    ];
    for answer in answers {
        check_fault(rt, answer, FieldFault::CodeTooLarge, 5);
    }
}

// Checks that the answer is this fault, told as the field's with this number, and with no line or field of a text.
fn check_fault(rt: &impl Abort, answer: Result<u16, FieldFault>, fault: FieldFault, number: u8) {
    let told = Refusal {
        layer: Layer::Field,
        number,
        line: 0,
        field: 0,
    };
    assert_eq!(rt; answer, Err(fault));
    assert_eq!(rt; fault.refusal(), told);
}
