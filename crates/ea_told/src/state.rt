// What is kept of a number.
use ea_image::SlotMemory;

/// Its slots, and since how many operations it is worn out, if it is.
#[derive(Clone, Copy)]
pub struct SlotState {
    pub memory: SlotMemory,
    pub worn: Option<u64>,
}
