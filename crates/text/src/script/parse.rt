// Reading a script.
ghost use Rattle.std.specs.Prelude.{◌≡◌, [], IfOk};
ghost use Rattle.text.specs.Scripts.{too_long, whole_lines, script_lines, ParsedScript, ReadLines, ReadText};

use super::super::cut::Lines;
use super::super::fault::{ScriptFault, Unread};
use super::super::line::LineForm;
use super::Script;
use std::alloc::{AllocError, Global};

// Whether a text has more bytes or lines than a script may have.
fn is_too_long(text: &[u8]) -> bool
    ensures { result ≡ too_long text.now }
{
    text.len() > 16384 || Lines::of(text).count() > 1024
}

// Reads the lines of a text into `lines`, up to the first fault.
fn read_lines(
    heap: Global,
    text: &[u8],
    lines: &mut Vec<Vec<u16>>,
) -> Result<(), Unread<ScriptFault>>
    requires { lines.old.items ≡ [] }
    ensures { ReadLines text.now lines.new.items result }
{
    let mut width = None;
    for line in Lines::of(text) {
        let form = LineForm { digits: 1, width };
        let number = lines.len() + 1;
        let numbers = form
            .read(heap, line)
            .map_err(|unread| unread.at_line(number))?;
        width = Some(numbers.len());
        lines.push(numbers)?;
    }
    Ok(())
}

// The same, but nothing is read of a text that is too long.
fn read_text(
    heap: Global,
    text: &[u8],
    lines: &mut Vec<Vec<u16>>,
) -> Result<(), Unread<ScriptFault>>
    requires { lines.old.items ≡ [] }
    ensures { ReadText text.now lines.new.items result }
{
    if is_too_long(text) {
        return Err(Unread::Faulty(ScriptFault::TooLong));
    }
    read_lines(heap, text, lines)
}

impl Script {
    // The script that a text is, or the first fault of the text.
    pub fn parse(heap: Global, text: &[u8]) -> Result<Script, ScriptFault>
        ensures { ParsedScript text.now result }
    {
        let mut lines = Vec::new(heap);
        read_text(heap, text, &mut lines)?;
        Ok(Script { lines })
    }

    // The whole lines of a text before its first fault; none where the text is too long.
    pub fn before_fault(heap: Global, text: &[u8]) -> Result<Script, AllocError>
        ensures { IfOk result (λ s. script_lines s ≡ whole_lines text.now) }
    {
        let mut lines = Vec::new(heap);
        match read_text(heap, text, &mut lines) {
            Err(Unread::NoMemory(error)) => Err(error),
            _ => Ok(Script { lines }),
        }
    }
}
