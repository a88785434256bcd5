// What the program lists of a repair: a line for each frame.
ghost use Rattle.std.specs.Prelude.{◌≡◌, Some};
ghost use Rattle.std.specs.Fmt.{padded};
ghost use Rattle.repair.specs.Listing.{word_text, remark_text, line_text, line_of, Compared, Listed};

use super::coding::{Load, Packet, Repaired};
use printing::Codes;
use std::fmt;

// A frame: three coefficients, then four symbols.
pub type Frame = [u16; 7];

// What a frame is.
#[derive(Clone, Copy)]
pub enum Word {
    Sent,
    Coded,
    Rebuilt,
}

// What is to be said of it.
#[derive(Clone, Copy)]
pub enum Remark {
    Lost,
    Equal,
    Different,
}

#[derive(Clone, Copy)]
pub struct Line {
    pub word: Word,
    pub frame: Frame,
    pub remark: Option<Remark>,
}

impl Word {
    // The word that is printed.
    pub fn text(self) -> &'static str
        ensures { result.now ≡ word_text self }
    {
        match self {
            Word::Sent => "sent",
            Word::Coded => "coded",
            Word::Rebuilt => "rebuilt",
        }
    }
}

impl fmt::Display for Word {
    ghost output = { λ w. Some (word_text w) };

    ghost styled_output = { λ w spec. Some (padded spec (word_text w)) };

    fn fmt<W: fmt::Write>(&self, f: &mut fmt::Formatter<W>) -> fmt::Result {
        f.pad(self.text())
    }
}

impl Remark {
    // The remark as it is printed, set off by two spaces.
    pub fn text(self) -> &'static str
        ensures { result.now ≡ remark_text self }
    {
        match self {
            Remark::Lost => "  lost on the way",
            Remark::Equal => "  equals what was sent",
            Remark::Different => "  differs from what was sent",
        }
    }
}

impl fmt::Display for Remark {
    ghost output = { λ r. Some (remark_text r) };

    fn fmt<W: fmt::Write>(&self, f: &mut fmt::Formatter<W>) -> fmt::Result {
        f.write_str(self.text())
    }
}

impl Line {
    // A line whose frame has these coefficients and, as symbols, this packet.
    fn new(word: Word, coefficients: &[u16; 3], packet: &Packet, remark: Option<Remark>) -> Line
        ensures { result ≡ line_of word coefficients.now packet.now remark }
    {
        let [a, b, c] = *coefficients;
        let [w, x, y, z] = *packet;
        let frame = [a, b, c, w, x, y, z];
        Line {
            word,
            frame,
            remark,
        }
    }
}

impl fmt::Display for Line {
    ghost output = { λ line. Some (line_text line) };

    #[tactic(auto, using(std::proofs::lemmas::Grind::common_steps, crate::proofs::Columns::word_at_left))]
    fn fmt<W: fmt::Write>(&self, f: &mut fmt::Formatter<W>) -> fmt::Result {
        let word = self.word;
        let frame = Codes(&self.frame);
        write!(f, "  {word:<8}{frame}")?;
        match self.remark {
            Some(remark) => write!(f, "{remark}"),
            None => Ok(()),
        }
    }
}

// Whether the rebuilt packet is the one that was sent.
fn compare(rebuilt: &Packet, sent: &Packet) -> Remark
    ensures { Compared rebuilt.now sent.now result }
{
    if rebuilt == sent {
        Remark::Equal
    } else {
        Remark::Different
    }
}

// The five frames of a load with its second packet lost: three sent, one coded, one rebuilt.
pub fn lines(load: &Load, repaired: &Repaired) -> [Line; 5]
    ensures { Listed load.now repaired.now result }
{
    let [first, second, third] = load.terms;
    let coefficients = [first.coefficient, second.coefficient, third.coefficient];
    let remark = compare(&repaired.rebuilt, &second.packet);
    [
        Line::new(Word::Sent, &[1, 0, 0], &first.packet, None),
        Line::new(Word::Sent, &[0, 1, 0], &second.packet, Some(Remark::Lost)),
        Line::new(Word::Sent, &[0, 0, 1], &third.packet, None),
        Line::new(Word::Coded, &coefficients, &repaired.coded, None),
        Line::new(Word::Rebuilt, &[0, 1, 0], &repaired.rebuilt, Some(remark)),
    ]
}
