// The program of one caller.
use crate::DeedList;

/// A caller, and what it does, in order.
#[derive(Drop)]
pub struct Program {
    pub caller: u8,
    pub deeds: DeedList,
}
