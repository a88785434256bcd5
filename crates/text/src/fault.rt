// The faults of a script and of settings. Lines and fields count from 1.
ghost use Rattle.std.specs.Prelude.{◌≡◌, alloc_error};
ghost use Rattle.text.specs.Faults.{line_refusal, script_refusal, settings_refusal, at_line, in_script, in_settings};
ghost use Rattle.text.specs.declared.fault.SettingsFault.TheVariants.{Line as SettingsLine, NoMemory as SettingsNoMemory};
ghost use Rattle.text.specs.declared.fault.ScriptFault.TheVariants.{NoMemory as ScriptNoMemory};
ghost use Rattle.text.specs.declared.fault.Unread.TheVariants.{Faulty, NoMemory as UnreadNoMemory};

use faults::{Fault, Layer, Refusal};
use std::alloc::{AllocError, AllocFailed};

// What is wrong in a line, and at which field.
#[derive(Clone, Copy, PartialEq, Eq, Debug)]
pub enum LineFault {
    // This field begins with no digit.
    NoDigit(usize),
    // The line has this many fields, which is the wrong number.
    WrongCount(usize),
    // Neither a comma nor the line's end follows this field.
    NoEnd(usize),
}

// The faults of a loss script.
#[derive(Clone, Copy, PartialEq, Eq, Debug)]
pub enum ScriptFault {
    // In the line of this number.
    Line(usize, LineFault),
    // More bytes or lines than a script may have.
    TooLong,
    // No memory for the lines.
    NoMemory,
}

// The faults of settings.
#[derive(Clone, Copy, PartialEq, Eq, Debug)]
pub enum SettingsFault {
    // In the first line, the only one that is read.
    Line(LineFault),
    // No memory for the fields.
    NoMemory,
}

// Why a line or a text was not read. Want of memory is a case apart from faults, so that it is handed on as it came.
#[derive(Clone, Copy)]
pub(crate) enum Unread<E> {
    // It has this fault.
    Faulty(E),
    // No memory for its numbers.
    NoMemory(AllocError),
}

impl LineFault {
    // The refusal of a text that has this fault in the line of this number.
    fn refusal(self, layer: Layer, line: usize) -> Refusal
        ensures { result ≡ line_refusal layer line self }
    {
        match self {
            LineFault::NoDigit(field) => Refusal::in_text(layer, 21, line, field),
            LineFault::WrongCount(fields) => Refusal::in_text(layer, 22, line, fields),
            LineFault::NoEnd(field) => Refusal::in_text(layer, 23, line, field),
        }
    }
}

impl Unread<LineFault> {
    // The same, told of the script that has this line, by the line's number.
    pub(crate) fn at_line(self, line: usize) -> Unread<ScriptFault>
        ensures { result ≡ at_line line self }
    {
        match self {
            Unread::Faulty(fault) => Unread::Faulty(ScriptFault::Line(line, fault)),
            Unread::NoMemory(error) => Unread::NoMemory(error),
        }
    }
}

impl Fault for ScriptFault {
    ghost told = { script_refusal };

    fn refusal(&self) -> Refusal {
        match *self {
            ScriptFault::Line(line, fault) => fault.refusal(Layer::Script, line),
            ScriptFault::TooLong => Refusal::plain(Layer::Script, 24),
            ScriptFault::NoMemory => Refusal::plain(Layer::Script, 0),
        }
    }
}

impl Fault for SettingsFault {
    ghost told = { settings_refusal };

    fn refusal(&self) -> Refusal {
        match *self {
            SettingsFault::Line(fault) => fault.refusal(Layer::Settings, 1),
            SettingsFault::NoMemory => Refusal::plain(Layer::Settings, 0),
        }
    }
}

impl From<AllocError> for ScriptFault {
    ghost from_gives = { λ _ r. r ≡ ScriptNoMemory };

    fn from(_: AllocError) -> ScriptFault {
        ScriptFault::NoMemory
    }
}

impl From<AllocError> for SettingsFault {
    ghost from_gives = { λ _ r. r ≡ SettingsNoMemory };

    fn from(_: AllocError) -> SettingsFault {
        SettingsFault::NoMemory
    }
}

impl From<LineFault> for SettingsFault {
    ghost from_gives = { λ e r. r ≡ SettingsLine e };

    fn from(fault: LineFault) -> SettingsFault {
        SettingsFault::Line(fault)
    }
}

impl From<Unread<ScriptFault>> for ScriptFault {
    ghost from_gives = { λ e r. r ≡ in_script e };

    fn from(unread: Unread<ScriptFault>) -> ScriptFault {
        match unread {
            Unread::Faulty(fault) => fault,
            Unread::NoMemory(error) => error.into(),
        }
    }
}

impl From<Unread<LineFault>> for SettingsFault {
    ghost from_gives = { λ e r. r ≡ in_settings e };

    fn from(unread: Unread<LineFault>) -> SettingsFault {
        match unread {
            Unread::Faulty(fault) => fault.into(),
            Unread::NoMemory(error) => error.into(),
        }
    }
}

impl From<LineFault> for Unread<LineFault> {
    ghost from_gives = { λ e r. r ≡ Faulty e };

    fn from(fault: LineFault) -> Unread<LineFault> {
        Unread::Faulty(fault)
    }
}

impl<T: Drop, E> From<AllocFailed<T>> for Unread<E> {
    ghost from_gives = { λ _ r. r ≡ UnreadNoMemory alloc_error };

    fn from(failed: AllocFailed<T>) -> Unread<E> {
        Unread::NoMemory(failed.into())
    }
}
