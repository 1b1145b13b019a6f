// The entries that requests on all blocks reserve.
ghost use Rattle.std.specs.Prelude.{◌≡◌, ◌≤◌, if◌then◌else◌};
ghost use Rattle.block_machine.specs.block_config.Config.{block_of};
ghost use Rattle.block_machine.specs.Sweeps.{member_entries, sweep_entries, sweep_at};
ghost use Rattle.multi_jobs.specs.Members.{is_member_at};

use crate::described::records;
use block_machine::block_config::Config;

/// What a WriteAll reserves, or else a ReadAll: its Pick, the entries of each member, and the Post of id 0.
pub fn sweep_share(config: &Config, writes: bool) -> u32
    ensures { result ≡ sweep_entries config.now (sweep_at config.now 0 writes) }
{
    let mut share = 2 + member_entries(config, writes, 1);
    for i in 1..config.blocks() {
        share += entries_on(config, writes, i + 1);
    }
    share
}

// The entries of a block behind block 1, none where it is no member.
fn entries_on(config: &Config, writes: bool, id: u16) -> u32
    ensures value { result ≡ (if is_member_at writes (block_of config.now id) then member_entries config.now writes id else 0) }
    ensures few { result ≤ 4 }
{
    match config.block(id) {
        Some(desc) if desc.writeall && writes => member_entries(config, true, id),
        Some(desc) if desc.readall && !writes => member_entries(config, false, id),
        _ => 0,
    }
}

/// The entries of a member: its Pick, a Wrote for each record of a write, and its Post.
pub fn member_entries(config: &Config, writes: bool, id: u16) -> u32
    ensures value { result ≡ member_entries config.now writes id }
    ensures few { result ≤ 4 }
{
    if writes {
        2 + u32::from(records(config, id))
    } else {
        2
    }
}
