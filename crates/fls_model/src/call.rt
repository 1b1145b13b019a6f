// A call of a changing operation.
ghost use Rattle.std.specs.Prelude.{◌≡◌, ◌≤◌, ℕ, length};
ghost use Rattle.nv_base.specs.declared.geometry.Geometry.{Geometry};
ghost use Rattle.fls_model.specs.Call.{op_of, IsCall};
ghost use Rattle.fls_model.specs.Step.{programs};

/// A call of a changing operation, in memory of its own: a program of the first `length` bytes of `page`, or an erase
/// of a sector by its number.
#[derive(Clone, Copy)]
pub enum Call {
    Page {
        address: u32,
        length: u32,
        page: [u8; 256],
    },
    Sector {
        sector: u32,
    },
}

/// A program of a page.
pub fn program_call(address: u32, page: &[u8]) -> Call
    requires { length page.now ≤ 256 }
    ensures op { (g : Geometry) → op_of g result ≡ programs address page.now }
    ensures call { IsCall result }
{
    let mut copy = [0; 256];
    let length = page.len();
    copy[..length].copy_from_slice(page);
    Call::Page {
        address,
        length: length as u32,
        page: copy,
    }
}
