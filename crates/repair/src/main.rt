// One repair from beginning to end, at each of the three fields: three packets are sent, and one coded sum of them;
// the second packet is lost, and rebuilt from what arrived.
#![tactic(auto)]

mod coding;
mod listing;

use coding::{Load, Term, send_with_loss};
use faults::Fault;
use field::Field;
use field::gf2::Gf2;
use field::gf256::Gf256;
use field::modulo_257::Modulo257;
use listing::lines;
use std::io;

fn print_repair<F: Field>(rt: &HostRuntime, name: &str, field: &F, load: &Load) -> io::Result<()> {
    println!(rt; "{name}")?;
    let repaired = match send_with_loss(field, load) {
        Ok(repaired) => repaired,
        Err(fault) => return println!(rt; "  {}", fault.refusal()),
    };
    for line in lines(load, &repaired) {
        println!(rt; "{line}")?;
    }
    Ok(())
}

// The fields are of three types, so no loop goes over them.
fn main(rt: HostRuntime) -> io::Result<()> {
    let settings = Load {
        terms: [
            Term::new(1, [10, 20, 30, 256]),
            Term::new(2, [0, 128, 255, 77]),
            Term::new(3, [5, 4, 3, 2]),
        ],
    };
    let bytes = Load {
        terms: [
            Term::new(1, [0x57, 0x83, 0x13, 0xff]),
            Term::new(2, [0x53, 0xca, 0x00, 0x01]),
            Term::new(3, [0xd4, 0xbf, 0x5d, 0x30]),
        ],
    };
    let bits = Load {
        terms: [
            Term::new(1, [1, 0, 1, 1]),
            Term::new(1, [0, 1, 1, 0]),
            Term::new(1, [1, 1, 1, 0]),
        ],
    };
    print_repair(&rt, "modulo 257", &Modulo257, &settings)?;
    print_repair(&rt, "GF(256)", &Gf256, &bytes)?;
    print_repair(&rt, "GF(2)", &Gf2, &bits)
}
