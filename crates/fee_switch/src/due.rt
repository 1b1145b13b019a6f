// What the next step of a switch is about.
ghost use Rattle.std.specs.Prelude.{◌≡◌, ◌<◌, ◌≤◌, ℕ, IfSome};
ghost use Rattle.fee_course.specs.Copies.{NoneLeft, next_copy};
ghost use Rattle.fee_course.specs.Course.{flag_due};
ghost use Rattle.fee_switch.specs.Start.{IsSameShape};
ghost use Rattle.fee_switch.specs.Banks.{flagged_by, reads_place, target_after};

use crate::ActiveBank;
use fee_course::{Course, Source, next_copy};
use fee_image::Place;
use fee_log::Log;

/// The target of the next switch: the bank behind the active one, or the first.
pub(crate) fn target_of(active: Option<ActiveBank>, banks: u32) -> u32
    requires banks { 2 ≤ banks }
    requires few { banks ≤ 8 }
    requires active { IfSome active (λ a. a.bank < banks) }
    ensures inside { result < banks }
    ensures other { IfSome active (λ a. a.bank ≡ result → ⊥) }
    ensures value { result ≡ target_after banks active }
{
    match active {
        None => 0,
        Some(active) if active.bank + 1 == banks => 0,
        Some(active) => active.bank + 1,
    }
}

/// Whether a copy of what stands at a place begins with a read.
pub(crate) fn reads_place(place: Place) -> bool
    ensures { result ≡ reads_place place }
{
    match place {
        Place::Content { .. } => true,
        _ => false,
    }
}

/// Sets the flag that the next operation of a course sets, if any.
#[tactic(auto, using(crate::proofs::Flags::flag_keeps))]
pub(crate) fn set_flag_due(log: &mut Log, course: Course)
    ensures log { log.new ≡ flagged_by log.old (flag_due course) }
    ensures first { (n : ℕ) → NoneLeft n log.old.places log.old.flags → NoneLeft n log.new.places log.new.flags }
    ensures shape { IsSameShape log.old log.new }
    ensures bank { log.new.bank ≡ log.old.bank }
{
    let Some(index) = course.flag_due() else {
        return;
    };
    let Some(&(number, _)) = log.lists().0.as_slice().get(index) else {
        return;
    };
    log.set_flag(number, true);
}

/// The number that is copied next, where none of the first ones, so many, is. From now on none before it is.
pub(crate) fn next_source(log: &Log, first: &mut usize) -> Option<Source>
    requires { NoneLeft first.old log.now.places log.now.flags }
    ensures next { result ≡ next_copy log.now.numbers log.now.places log.now.flags }
    ensures first { NoneLeft first.new log.now.places log.now.flags }
{
    let (numbers, places, flags) = log.lists();
    let next = next_copy(numbers, places, flags, *first);
    if let Some(source) = next {
        *first = source.index;
    }
    next
}
