// What a relay refuses, how it is told, and that a refusal alters nothing.
use elimination::fault::RowsFault;
use faults::{Fault, Layer, Refusal};
use field::fault::FieldFault;
use field::modulo_257::Modulo257;
use relay::Relay;
use std::test::Fail;

// Every fault with its layer and number.
const TOLD: [(RowsFault, Layer, u8); 9] = [
    (RowsFault::NotStarted, Layer::Rows, 1),
    (RowsFault::WrongSize, Layer::Rows, 2),
    (RowsFault::WrongLength, Layer::Rows, 4),
    (RowsFault::Field(FieldFault::CodeTooLarge), Layer::Field, 5),
    (RowsFault::Field(FieldFault::InverseOfZero), Layer::Field, 6),
    (RowsFault::NoPacket, Layer::Rows, 8),
    (RowsFault::Conflict, Layer::Rows, 16),
    (RowsFault::NotDetermined, Layer::Rows, 17),
    (RowsFault::NoMemory, Layer::Rows, 0),
];

#[test]
fn numbers_and_layers(rt: HostRuntime) {
    for &(fault, layer, number) in &TOLD {
        let told = Refusal {
            layer,
            number,
            line: 0,
            field: 0,
        };
        assert_eq!(rt; fault.refusal(), told);
    }
}

#[test]
fn an_empty_place(rt: HostRuntime) {
    let mut relay: Relay<Modulo257> = Relay::empty();
    assert_eq!(rt; relay.hear(&[1, 1]), Err(RowsFault::NotStarted));
    assert_eq!(rt; relay.seen(), Err(RowsFault::NotStarted));
    assert_eq!(rt; relay.fetch(1, &mut [0]), Err(RowsFault::NotStarted));
}

#[test]
fn sizes(rt: HostRuntime) -> Result<(), Fail> {
    let mut relay = Relay::empty();
    relay.start(rt.alloc(), Modulo257, 32, 32)?;
    assert_eq!(rt; relay.hear(&[1; 64]), Ok(1));
    for (packets, symbols) in [(0, 1), (33, 1), (1, 0), (1, 33)] {
        assert_eq!(rt;
            relay.start(rt.alloc(), Modulo257, packets, symbols),
            Err(RowsFault::WrongSize)
        );
        assert_eq!(rt; relay.seen(), Ok(1));
    }
    relay.start(rt.alloc(), Modulo257, 1, 1)?;
    assert_eq!(rt; relay.seen(), Ok(0));
    Ok(())
}

#[test]
fn frames_and_packets(rt: HostRuntime) -> Result<(), Fail> {
    let mut relay = Relay::empty();
    relay.start(rt.alloc(), Modulo257, 2, 1)?;
    assert_eq!(rt; relay.hear(&[1, 2, 3]), Ok(1));
    assert_eq!(rt; relay.hear(&[1, 2]), Err(RowsFault::WrongLength));
    assert_eq!(rt; relay.hear(&[257, 0, 0, 0]), Err(RowsFault::WrongLength));
    assert_eq!(rt;
        relay.hear(&[257, 0, 0]),
        Err(RowsFault::Field(FieldFault::CodeTooLarge))
    );
    assert_eq!(rt; relay.hear(&[2, 4, 7]), Err(RowsFault::Conflict));
    assert_eq!(rt; relay.hear(&[2, 4, 6]), Ok(0));
    assert_eq!(rt; relay.seen(), Ok(1));
    assert_eq!(rt; relay.fetch(3, &mut [0, 0]), Err(RowsFault::WrongLength));
    assert_eq!(rt; relay.fetch(0, &mut [0]), Err(RowsFault::NoPacket));
    assert_eq!(rt; relay.fetch(3, &mut [0]), Err(RowsFault::NoPacket));
    assert_eq!(rt; relay.fetch(1, &mut [0]), Err(RowsFault::NotDetermined));
    Ok(())
}
