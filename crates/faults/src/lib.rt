// What a refusal is: which layer found it, its number, and, for a fault in a text, the line and the field.
// Every layer has a fault enum of its own; what they share is the trait `Fault`.
#![tactic(auto)]

ghost use Rattle.std.specs.Prelude.{◌≡◌, Some};
ghost use Rattle.faults.specs.declared.Refusal.{Refusal};
ghost use Rattle.faults.specs.Refusals.{layer_name, refusal_text, plain, in_text};

use std::fmt;

// The layers, each by the name that is printed for it.
#[derive(Clone, Copy, PartialEq, Eq, Debug)]
pub enum Layer {
    Field,
    Link,
    Rows,
    Sender,
    Script,
    Settings,
    Run,
}

impl Layer {
    // The name that is printed for the layer.
    pub fn name(self) -> &'static str
        ensures { result.now ≡ layer_name self }
    {
        match self {
            Layer::Field => "field",
            Layer::Link => "link",
            Layer::Rows => "rows",
            Layer::Sender => "sender",
            Layer::Script => "script",
            Layer::Settings => "settings",
            Layer::Run => "run",
        }
    }
}

impl fmt::Display for Layer {
    ghost output = { λ l. Some (layer_name l) };

    fn fmt<W: fmt::Write>(&self, f: &mut fmt::Formatter<W>) -> fmt::Result {
        f.write_str(self.name())
    }
}

// A refusal as it is told. Formats fix these numbers, so they stay numbers: lines and fields count from 1, and are 0 for a fault
// outside texts.
#[derive(Clone, Copy, PartialEq, Eq, Debug)]
pub struct Refusal {
    pub layer: Layer,
    pub number: u8,
    pub line: usize,
    pub field: usize,
}

impl Refusal {
    // A refusal that no text is to blame for.
    pub fn plain(layer: Layer, number: u8) -> Refusal
        ensures { result ≡ plain layer number }
    {
        Refusal::in_text(layer, number, 0, 0)
    }

    // A refusal of a text, found at this line and field.
    pub fn in_text(layer: Layer, number: u8, line: usize, field: usize) -> Refusal
        ensures { result ≡ in_text layer number line field }
    {
        Refusal {
            layer,
            number,
            line,
            field,
        }
    }
}

// In words, as programs print it for a person.
impl fmt::Display for Refusal {
    ghost output = { λ r. Some (refusal_text r) };

    fn fmt<W: fmt::Write>(&self, f: &mut fmt::Formatter<W>) -> fmt::Result {
        let Refusal { layer, number, .. } = *self;
        write!(f, "refused by {layer}, number {number}")
    }
}

// A fault of any layer: it tells its refusal. A trait and no `From`, so that code over any fault knows the very refusal.
pub trait Fault {
    ghost told: { Self → Refusal };

    fn refusal(&self) -> Refusal
        ensures { result ≡ told self.now };
}
