// The scripted link: its counts come line by line from a loss script.
ghost use Rattle.std.specs.Prelude.{◌≡◌, ◌+◌, length};
ghost use Rattle.text.specs.Scripts.{script_lines};

use super::slots::Slots;
use text::script::Script;

mod carry;

#[derive(Drop)]
pub struct Scripted {
    script: Script,
    slots: Slots,
    ghost paced: { slots.carried + slots.left ≡ length (script_lines script) },
}
