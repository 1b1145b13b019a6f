// The history of a text.
ghost use Rattle.std.specs.Prelude.{◌≡◌, ◌≤◌, IfOk, length, take};
ghost use Rattle.nvm_script.specs.Printed.{history_text};

use crate::entries::read_entry;
use block_machine::block_config::Config;
use block_machine::nv_base::History;
use nvm_script::line_length;
use std::alloc::{AllocError, Global};

/// A history that was printed, and how many bytes of the text its lines have.
#[derive(Drop)]
pub struct Printed {
    pub history: History,
    pub length: usize,
}

/// The history whose lines a text begins with. It ends before the first line that is none of an entry.
pub fn read_history(alloc: Global, config: &Config, text: &[u8]) -> Result<Printed, AllocError>
    ensures lines { IfOk result (λ p. history_text p.history.entries ≡ take p.length text.now) }
    ensures within { IfOk result (λ p. p.length ≤ length text.now) }
{
    let mut history = History::make(alloc, u32::MAX);
    let mut at = 0;
    while at < text.len() && history.len() < u32::MAX {
        let next = at + line_length(&text[at..]);
        let Some(entry) = read_entry(alloc, config, &text[at..next])? else {
            break;
        };
        history.reserve(1)?;
        history.add(entry);
        at = next;
    }
    Ok(Printed {
        history,
        length: at,
    })
}
