// Frames heard by a relay, the packets that they show, and the packets that it can then read.
use elimination::fault::RowsFault;
use field::Field;
use field::gf2::Gf2;
use field::gf256::Gf256;
use field::modulo_257::Modulo257;
use relay::Relay;
use std::alloc::Global;
use std::process::Abort;
use std::test::Fail;

// A frame of three coefficients and one symbol, the packet that it shows, and the packets that can be read after it: their
// symbols, or none.
type Step = ([u16; 4], usize, [Option<u16>; 3]);

const MODULO_257: [Step; 4] = [
    ([1, 1, 0, 30], 1, [None, None, None]),
    ([0, 1, 1, 50], 2, [None, None, None]),
    ([2, 2, 0, 60], 0, [None, None, None]),
    ([0, 1, 2, 80], 3, [Some(10), Some(20), Some(30)]),
];

const GF256: [Step; 4] = [
    ([0, 0x57, 0, 0xc1], 2, [None, Some(0x83), None]),
    ([2, 1, 3, 0x98], 1, [None, Some(0x83), None]),
    ([2, 0, 3, 0x1b], 0, [None, Some(0x83), None]),
    ([1, 0, 1, 0x74], 3, [Some(0x87), Some(0x83), Some(0xf3)]),
];

const GF2: [Step; 4] = [
    ([1, 1, 1, 1], 1, [None, None, None]),
    ([1, 0, 1, 1], 2, [None, Some(0), None]),
    ([0, 1, 0, 0], 0, [None, Some(0), None]),
    ([0, 1, 1, 1], 3, [Some(0), Some(0), Some(1)]),
];

#[test]
fn modulo_257(rt: HostRuntime) -> Result<(), Fail> {
    check_steps(&rt, rt.alloc(), Modulo257, &MODULO_257)
}

#[test]
fn gf256(rt: HostRuntime) -> Result<(), Fail> {
    check_steps(&rt, rt.alloc(), Gf256, &GF256)
}

#[test]
fn gf2(rt: HostRuntime) -> Result<(), Fail> {
    check_steps(&rt, rt.alloc(), Gf2, &GF2)
}

// Checks a relay that is started over the field, step after step.
fn check_steps<F: Field + Drop>(
    rt: &impl Abort,
    heap: Global,
    field: F,
    steps: &[Step],
) -> Result<(), Fail> {
    let mut relay = Relay::empty();
    relay.start(heap, field, 3, 1)?;
    let mut seen = 0;
    for (frame, shown, read) in steps {
        assert_eq!(rt; relay.hear(frame), Ok(*shown));
        if *shown > 0 && *shown < 32 {
            seen |= 1 << (*shown - 1);
        }
        assert_eq!(rt; relay.seen(), Ok(seen));
        for (k, symbol) in read.iter().enumerate() {
            check_packet(rt, &relay, k + 1, *symbol);
        }
    }
    Ok(())
}

// Checks that the packet is read as this symbol, or is refused and the buffer left as it was.
fn check_packet<F: Field + Drop>(
    rt: &impl Abort,
    relay: &Relay<F>,
    packet: usize,
    symbol: Option<u16>,
) {
    let mut buffer = [999];
    let answer = relay.fetch(packet, &mut buffer);
    let (expected, code) = match symbol {
        Some(code) => (Ok(()), code),
        None => (Err(RowsFault::NotDetermined), 999),
    };
    assert_eq!(rt; answer, expected);
    assert_eq!(rt; buffer, [code]);
}
