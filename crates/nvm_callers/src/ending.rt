// How callers end.
/// How a caller ended: it did all, a request had no room in the history, or there was no memory. Of several callers it is the
/// last of these that one of them came to.
#[derive(Clone, Copy, Debug, PartialEq)]
pub enum Ending {
    All,
    NoRoom,
    Memory,
}
