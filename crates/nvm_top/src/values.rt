// The numbers and bytes of a history.
ghost use Rattle.script_player.specs.script_walks.Texts.{AreValues};

use nvm_flash::History;
use nvm_script::entry_value;

/// The numbers of a history's entries and the bytes of their contents are those of their types, as its text needs them.
pub fn history_values(history: &History)
    ensures { AreValues history.now.entries }
{
    for i in 0..history.len() {
        if let Some(entry) = history.entry(i) {
            entry_value(entry);
        }
    }
}
