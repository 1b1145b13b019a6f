// The measures of a configuration.
ghost use Rattle.std.specs.Prelude.{◌≡◌, IfOk, string_bytes};
ghost use Rattle.nvm_top.specs.Measures.{measures_line as measures_text};

use nvm_flash::Config;
use std::alloc::{AllocError, Global};

/// The line that tells how many blocks and instances a configuration has, how many pages a bank needs and how many it
/// has, with its newline.
pub fn measures_line(alloc: Global, config: &Config) -> Result<String, AllocError>
    ensures { IfOk result (λ t. string_bytes t ≡ measures_text config.now) }
{
    let blocks = config.blocks();
    let instances = config.instances();
    let need = config.need_pages();
    let bank = config.bank_pages();
    format!(in alloc; "config ok blocks {blocks} instances {instances} need {need} bank {bank}\n")
}
