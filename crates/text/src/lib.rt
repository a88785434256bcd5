// Texts of digits: loss scripts and settings. A text is cut into lines at CR LF, and a line into fields at commas.
#![tactic(auto)]

ghost use Rattle.text.specs.Written.{ScriptsReadBack, ScriptsWritten, SettingsReadBack};

mod cut;
pub mod fault;
mod line;
pub mod script;
pub mod settings;

// A text made by writing lines out is read back as those lines, and no other text is.
pub fn texts_read_back()
    ensures scripts { ScriptsReadBack }
    ensures written { ScriptsWritten }
    ensures settings { SettingsReadBack }
{}
