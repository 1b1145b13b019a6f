// A plan of a power cut.

/// A plan to cut the power: at which changing operation from now, from 1, and how many bytes of it are done.
#[derive(Clone, Copy)]
pub struct Plan {
    pub left: u32,
    pub keep: u32,
}
