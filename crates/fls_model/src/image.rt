// What a cut may leave, as a test.
ghost use Rattle.std.specs.Prelude.{◌≡◌, ◌↔◌, ◌≤◌, ◌+◌, IsTrue, length};
ghost use Rattle.fls_model.specs.Bytes.{Grown, SameOutside, piece};
ghost use Rattle.fls_model.specs.Call.{op_of, IsCall, IsInside};
ghost use Rattle.fls_model.specs.Op.{MayLeave};

use crate::Call;
use nv_base::Geometry;

fn has_grown(old: &[u8], new: &[u8]) -> bool
    requires { length new.now ≡ length old.now }
    ensures { IsTrue result ↔ Grown old.now new.now }
{
    for i in 0..old.len() {
        if old[i] & new[i] != old[i] {
            return false;
        }
    }
    true
}

fn is_same(old: &[u8], new: &[u8]) -> bool
    ensures { IsTrue result ↔ (new.now ≡ old.now) }
{
    new == old
}

fn is_same_outside(address: usize, count: usize, old: &[u8], new: &[u8]) -> bool
    requires { address + count ≤ length old.now }
    ensures { IsTrue result ↔ SameOutside address count old.now new.now }
{
    if new.len() != old.len() || !is_same(&old[..address], &new[..address]) {
        return false;
    }
    is_same(&old[address + count..], &new[address + count..])
}

fn has_grown_inside(address: usize, count: usize, old: &[u8], new: &[u8]) -> bool
    requires { address + count ≤ length old.now }
    ensures { IsTrue result ↔ (SameOutside address count old.now new.now × Grown (piece address count old.now) (piece address count new.now)) }
{
    let end = address + count;
    is_same_outside(address, count, old, new) && has_grown(&old[address..end], &new[address..end])
}

/// Whether a cut before or within a changing operation may leave these bytes.
pub fn may_leave(geometry: Geometry, call: &Call, before: &[u8], image: &[u8]) -> bool
    requires call { IsCall call.now }
    requires inside { IsInside (op_of geometry call.now) (length before.now) }
    ensures { IsTrue result ↔ MayLeave (op_of geometry call.now) before.now image.now }
{
    match call {
        Call::Page {
            address,
            length,
            page,
        } => {
            let page = &page[..*length as usize];
            is_same_outside(*address as usize, page.len(), before, image)
        }
        Call::Sector { sector } => {
            let length = geometry.sector as usize;
            has_grown_inside(*sector as usize * length, length, before, image)
        }
    }
}
