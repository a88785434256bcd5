// Worked cases: texts and where they are at fault, and what links refuse.
use faults::{Fault, Layer, Refusal};
use link::Link;
use link::drawn::Drawn;
use link::erasing::{Erasing, Periods};
use link::fault::LinkFault;
use link::scripted::Scripted;
use std::test::Fail;
use text::script::Script;
use text::settings::Settings;

// A text at fault, and the number, the line and the field that it is refused by.
type Faulty = (&'static [u8], u8, usize, usize);

const SCRIPTS: [Faulty; 12] = [
    (b"1,0\r\n1", 22, 2, 1),
    (b"1,0\r\n1,2,3\r\nx", 22, 2, 3),
    (b"1,1,1,1,1,1,1,1,1", 22, 1, 9),
    (b"1,1,1,1,1,1,1,1,x", 21, 1, 9),
    (b"\r\n", 21, 1, 1),
    (b"1\r\n\r\n", 21, 2, 1),
    (b"1,,2", 21, 1, 2),
    (b"1,", 21, 1, 2),
    (b"12", 23, 1, 1),
    (b"1\r2", 23, 1, 1),
    (b"1\n2", 23, 1, 1),
    (b"1,2\r", 23, 1, 2),
];

const SETTINGS: [Faulty; 5] = [
    (b"", 21, 1, 1),
    (b"257,,3", 21, 1, 2),
    (b"257,1", 22, 1, 2),
    (b"257,1,3,4", 22, 1, 4),
    (b"2570,1,3", 23, 1, 1),
];

// What a text is refused by, if it is.
fn refusal_of<T: Drop, E: Fault + Drop>(read: Result<T, E>) -> Option<Refusal> {
    read.err().map(|fault| fault.refusal())
}

#[test]
fn scripts(rt: HostRuntime) {
    let heap = rt.alloc();
    assert_eq!(rt; refusal_of(Script::parse(heap, b"")), None);
    assert_eq!(rt; refusal_of(Script::parse(heap, b"1,0\r\n0,9")), None);
    assert_eq!(rt; refusal_of(Script::parse(heap, b"1,0\r\n0,9\r\n")), None);
    for (text, number, line, field) in SCRIPTS {
        let told = Refusal::in_text(Layer::Script, number, line, field);
        assert_eq!(rt; refusal_of(Script::parse(heap, text)), Some(told));
    }
}

#[test]
fn long_scripts(rt: HostRuntime) -> Result<(), Fail> {
    let heap = rt.alloc();
    let long = vec![in heap; b'1'; 16385]?;
    assert_eq!(rt;
        refusal_of(Script::parse(heap, long.as_slice())),
        Some(Refusal::plain(Layer::Script, 24))
    );
    assert_eq!(rt; Scripted::from_text(heap, long.as_slice())?.slots_left(), 0);
    assert_eq!(rt; Scripted::from_text(heap, b"1\r\n2\r\nx")?.slots_left(), 2);
    Ok(())
}

#[test]
fn settings(rt: HostRuntime) {
    let heap = rt.alloc();
    assert_eq!(rt; refusal_of(Settings::parse(heap, b"257,1,3")), None);
    assert_eq!(rt;
        refusal_of(Settings::parse(heap, b"257,1,3\r\nwhatever")),
        None
    );
    for (text, number, line, field) in SETTINGS {
        let told = Refusal::in_text(Layer::Settings, number, line, field);
        assert_eq!(rt; refusal_of(Settings::parse(heap, text)), Some(told));
    }
}

#[test]
fn link_refusals(rt: HostRuntime) -> Result<(), Fail> {
    let mut link = Scripted::from_text(rt.alloc(), b"1,0")?;
    let mut buffer = [7, 7];
    assert_eq!(rt; link.read(1, &mut buffer), Err(LinkFault::WrongLength));
    assert_eq!(rt; link.send(&[]), Err(LinkFault::WrongLength));
    assert_eq!(rt; link.send(&[0; 65]), Err(LinkFault::WrongLength));
    assert_eq!(rt; link.send(&[5, 6]), Ok(()));
    assert_eq!(rt; link.send(&[5, 6]), Err(LinkFault::NoSlotLeft));
    assert_eq!(rt; link.copies(0), Err(LinkFault::NoSuchRelay));
    assert_eq!(rt; link.copies(9), Err(LinkFault::NoSuchRelay));
    assert_eq!(rt; link.read(9, &mut buffer), Err(LinkFault::NoSuchRelay));
    assert_eq!(rt; link.read(2, &mut buffer), Err(LinkFault::NoCopy));
    assert_eq!(rt; buffer, [7, 7]);
    assert_eq!(rt; link.read(1, &mut buffer), Ok(()));
    assert_eq!(rt; buffer, [5, 6]);
    Ok(())
}

#[test]
fn layer_refusals(rt: HostRuntime) {
    let mut link = Erasing::new(Drawn::new(1, 0), Periods { of: [1; 8] });
    let mut buffer = [7, 7];
    assert_eq!(rt; link.send(&[5, 6]), Ok(()));
    assert_eq!(rt; link.copies(3), Ok(0));
    assert_eq!(rt;
        link.read(3, &mut buffer[0..1]),
        Err(LinkFault::WrongLength)
    );
    assert_eq!(rt; link.read(3, &mut buffer), Err(LinkFault::NoCopy));
    assert_eq!(rt; buffer, [7, 7]);
}
