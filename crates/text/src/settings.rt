// The settings of a load, one line of text: the field's size q, the symbols L in a packet, the packets Q in the queue.
ghost use Rattle.text.specs.Configured.{ParsedSettings};

use super::cut::Lines;
use super::fault::SettingsFault;
use super::line::LineForm;
use std::alloc::Global;

#[derive(Clone, Copy, PartialEq, Eq, Debug)]
pub struct Settings {
    pub q: u16,
    pub symbols: u16,
    pub queue: u16,
}

impl Settings {
    // The settings that the first line of a text says: three numbers of one to three digits each.
    pub fn parse(heap: Global, text: &[u8]) -> Result<Settings, SettingsFault>
        ensures { ParsedSettings text.now result }
    {
        let form = LineForm {
            digits: 3,
            width: Some(3),
        };
        let line = Lines::of(text).next().unwrap_or(&[]);
        let numbers = form.read(heap, line)?;
        Ok(Settings {
            q: numbers[0],
            symbols: numbers[1],
            queue: numbers[2],
        })
    }
}
