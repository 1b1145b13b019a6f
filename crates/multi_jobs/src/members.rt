// The members of a sweep.
ghost use Rattle.std.specs.Prelude.{◌≡◌, ◌-◌, ◌≤◌, [], ◌∷◌, MatchOption};
ghost use Rattle.block_machine.specs.block_config.Config.{block_of};
ghost use Rattle.multi_jobs.specs.Members.{is_member, is_member_at, ids_from};

use block_machine::block_config::{BlockDesc, Config};

fn is_member(desc: &BlockDesc, writes: bool) -> bool
    ensures { result ≡ is_member writes desc.now }
{
    if writes { desc.writeall } else { desc.readall }
}

fn is_member_at(config: &Config, id: u16, writes: bool) -> bool
    ensures { result ≡ is_member_at writes (block_of config.now id) }
{
    match config.block(id) {
        Some(desc) => is_member(desc, writes),
        None => false,
    }
}

/// The first member behind block 1 and so many blocks more. It looks at each of the others once at most.
pub fn member_behind(config: &Config, passed: u16, writes: bool) -> Option<u16>
    ensures { let ids = ids_from config.now writes in MatchOption result (ids passed ≡ []) (λ m. (2 ≤ m) × (ids passed ≡ m ∷ ids (m - 1))) }
{
    for i in passed..config.blocks() {
        if is_member_at(config, i + 2, writes) {
            return Some(i + 2);
        }
    }
    None
}
