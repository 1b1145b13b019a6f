// How many jobs have room.
ghost use Rattle.std.specs.Prelude.{◌≡◌, ◌≤◌, ℕ, count_by, length};
ghost use Rattle.job_pending.specs.Room.{HasRoom, HavePriorities};

use crate::waiting::priority_of;
use block_machine::block_config::Config;

/// How many jobs have room at once: in all, and in each queue.
#[derive(Clone, Copy)]
pub struct Room {
    pub all: u16,
    pub immediate: u16,
    pub standard: u16,
}

/// The room for the jobs on so many blocks, by id from 0 on: one on each, or where these are fewer as many as the queues take, and
/// of each priority one that was interrupted.
pub fn room_for(config: &Config, ids: u16) -> Room
    ensures { HasRoom config.now ids result.all result.immediate result.standard }
{
    let (standard, immediate) = config.queue_sizes();
    let interrupted = priorities(config, ids);
    let all = fewer(ids, immediate + standard + interrupted);
    let in_standard = fewer(ids, standard + interrupted);
    let in_immediate = fewer(ids, immediate);
    Room {
        all,
        immediate: in_immediate,
        standard: in_standard,
    }
}

fn fewer(one: u16, other: u16) -> u16
    ensures { (n : ℕ) → n ≤ one → n ≤ other → n ≤ result }
{
    if one < other { one } else { other }
}

// How many priorities so many blocks have, by id from 0 on.
fn priorities(config: &Config, ids: u16) -> u16
    ensures have { HavePriorities config.now ids result }
    ensures few { result ≤ 256 }
{
    let mut found = [false; 256];
    for id in 0..ids {
        found[usize::from(priority_of(config, id))] = true;
    }
    count(&found)
}

// How many of these are true.
fn count(found: &[bool]) -> u16
    requires { length found.now ≤ 256 }
    ensures count { result ≡ count_by (λ is. is) found.now }
    ensures few { result ≤ length found.now }
{
    let mut count = 0;
    for is in found {
        if *is {
            count += 1;
        }
    }
    count
}
