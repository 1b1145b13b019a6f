// Where a job may begin, and how long it may be.
ghost use Rattle.std.specs.Prelude.{◌≡◌, ◌<◌, MatchResult};
ghost use Rattle.nv_base.specs.Geometry.{IsLegal};
ghost use Rattle.fls_jobs.specs.Reach.{read_reach, write_reach, compare_reach, erase_reach, IsPlace, IsLength};

use crate::FlsRefusal;
use nv_base::Geometry;

/// Places in multiples of `unit` below `size`, and lengths in multiples of `unit` up to `most`.
#[derive(Clone, Copy)]
pub(crate) struct Reach {
    pub unit: u32,
    pub most: u32,
    pub size: u32,
}

/// Of a read or a blank check.
pub(crate) fn of_read(geometry: Geometry) -> Reach
    requires { IsLegal geometry }
    ensures { result ≡ read_reach geometry }
{
    Reach {
        unit: 1,
        most: 65_536,
        size: geometry.size(),
    }
}

/// Of a write.
pub(crate) fn of_write(geometry: Geometry) -> Reach
    requires { IsLegal geometry }
    ensures { result ≡ write_reach geometry }
{
    Reach {
        unit: geometry.page,
        most: geometry.page,
        size: geometry.size(),
    }
}

/// Of a compare.
pub(crate) fn of_compare(geometry: Geometry) -> Reach
    requires { IsLegal geometry }
    ensures { result ≡ compare_reach geometry }
{
    Reach {
        unit: 1,
        most: geometry.page,
        size: geometry.size(),
    }
}

/// Of an erase, in sectors.
pub(crate) fn of_erase(geometry: Geometry) -> Reach
    ensures { result ≡ erase_reach geometry }
{
    Reach {
        unit: 1,
        most: geometry.sectors,
        size: geometry.sectors,
    }
}

/// Refuses a place that isn't aligned or lies outside.
pub(crate) fn check_place(reach: Reach, at: u32) -> Result<(), FlsRefusal>
    requires { 0 < reach.unit }
    ensures { MatchResult result (λ _. IsPlace reach at) (λ e. (e ≡ FlsRefusal.BadAddress) × (¬ IsPlace reach at)) }
{
    if at >= reach.size || at % reach.unit != 0 {
        return Err(FlsRefusal::BadAddress);
    }
    Ok(())
}

/// Refuses a length that is 0, isn't a multiple of the unit, passes the most, or reaches outside.
pub(crate) fn check_length(reach: Reach, at: u32, length: usize) -> Result<(), FlsRefusal>
    requires unit { 0 < reach.unit }
    requires place { IsPlace reach at }
    ensures { MatchResult result (λ _. IsLength reach at length) (λ e. (e ≡ FlsRefusal.BadLength) × (¬ IsLength reach at length)) }
{
    let whole = length > 0 && length % reach.unit as usize == 0;
    let most = reach.most.min(reach.size - at);
    if !whole || length > most as usize {
        return Err(FlsRefusal::BadLength);
    }
    Ok(())
}
