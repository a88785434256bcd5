// Sends frames over a scripted link, a drawn link and piles of layers over them, and prints the counts slot by slot.
#![tactic(auto)]

ghost use Rattle.std.specs.Prelude.{◌≡◌, ◌<◌, IfOk};
ghost use Rattle.link_tests.specs.Piles.{Over, OverDrawn, OverScripted};

use link::Link;
use link::drawn::Drawn;
use link::erasing::{Erasing, Periods};
use link::fault::LinkFault;
use link::scripted::Scripted;
use std::{array, io};

#[cfg(test)]
mod tests;

const SCRIPT: &[u8] = b"1,0,2\r\n0,9,1\r\n3,1,1\r\n1,1,0\r\n0,0,4";

const INNER: Periods = Periods {
    of: [2, 0, 3, 0, 1, 0, 0, 255],
};

const OUTER: Periods = Periods {
    of: [3, 4, 0, 0, 0, 5, 0, 0],
};

// The counts of all eight relays, as any link answers them.
fn all_copies<L: Link>(link: &L) -> [u8; 8]
    ensures { result ≡ (L.meaning link.now).counts }
{
    array::from_fn(
        |place| -> u8
            requires { place < 8 }
        { link.copies(place + 1).unwrap() },
    )
}

// Sends a frame over two layers over any link: the counts are those that come to the link, less what the layers erase.
fn send_over<L: Link>(pile: &mut Erasing<Erasing<L>>, frame: &[u16]) -> Result<[u8; 8], LinkFault>
    ensures { IfOk result (Over L.meaning L.goes pile.old frame.now pile.new) }
{
    pile.send(frame)?;
    Ok(all_copies(pile))
}

// Over a drawn link the counts that come are those drawn. It is here, as is the next, for what its contract says.
fn send_over_drawn(pile: &mut Erasing<Erasing<Drawn>>, frame: &[u16]) -> Result<[u8; 8], LinkFault>
    ensures { IfOk result (OverDrawn pile.old) }
{
    send_over(pile, frame)
}

// Over a scripted link they are those of the script's line.
fn send_over_script(
    pile: &mut Erasing<Erasing<Scripted>>,
    frame: &[u16],
) -> Result<[u8; 8], LinkFault>
    ensures { IfOk result (OverScripted pile.old) }
{
    send_over(pile, frame)
}

// A line for each slot, up to so many, as long as the link has slots left.
fn show<L: Link>(rt: &HostRuntime, name: &str, link: &mut L, slots: u16) -> io::Result<()> {
    println!(rt; "{name}")?;
    for _slot in 0..slots {
        if link.send(&[1, 2, 3]).is_err() {
            break;
        }
        let slot = link.slots_carried();
        let [a, b, c, d, e, f, g, h] = all_copies(link);
        println!(rt; "{slot},{a},{b},{c},{d},{e},{f},{g},{h}")?;
    }
    Ok(())
}

fn main(rt: HostRuntime) -> io::Result<()> {
    let heap = rt.alloc();
    let mut scripted = Scripted::from_text(heap, SCRIPT)?;
    show(&rt, "scripted", &mut scripted, 9)?;
    let scripted = Scripted::from_text(heap, SCRIPT)?;
    let mut pile = Erasing::new(Erasing::new(scripted, INNER), OUTER);
    show(&rt, "scripted under two layers", &mut pile, 9)?;
    let mut drawn = Drawn::new(2463534242, 20000);
    show(&rt, "drawn", &mut drawn, 6)?;
    let drawn = Drawn::new(2463534242, 20000);
    let mut pile = Erasing::new(Erasing::new(drawn, INNER), OUTER);
    show(&rt, "drawn under two layers", &mut pile, 6)?;
    let mut drawn = Drawn::new(0, 32768);
    show(&rt, "drawn from seed 0", &mut drawn, 6)
}
