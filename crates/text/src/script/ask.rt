// Questions to a script.
ghost use Rattle.std.specs.Prelude.{◌≡◌, length};
ghost use Rattle.text.specs.Tables.{number_at};
ghost use Rattle.text.specs.Scripts.{script_lines};

use super::Script;

impl Script {
    // How many lines there are.
    pub fn lines(&self) -> usize
        ensures { result ≡ length (script_lines self.now) }
    {
        self.lines.len()
    }

    // The digit in a field of a line, both counted from 0; 0 where there is none.
    pub fn digit(&self, line: usize, field: usize) -> u8
        ensures { result ≡ number_at (script_lines self.now) line field }
    {
        let digit = self
            .lines
            .get(line)
            .and_then(|numbers| numbers.get(field))
            .copied()
            .unwrap_or(0);
        // A cast, since `try_from` would have a case that never comes: the numbers are digits.
        digit as u8
    }
}
