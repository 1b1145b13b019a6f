// Why a flash isn't attached.
ghost use Rattle.std.specs.Prelude.{Err};
ghost use Rattle.nvm_flash.specs.nv_base.Geometry.{IsLegal, size_of};
ghost use Rattle.nvm_flash.specs.fls_model.Told.{Told};
ghost use Rattle.nvm_flash.specs.fls_model.Attach.{IsAttach};
ghost use Rattle.nvm_top.specs.Play.{IsPlayEnd, IsAttachStop};
ghost use Rattle.nvm_lines.specs.Stop.{status_of};

use nvm_flash::{AttachFault, Geometry};
use nvm_lines::Stop;

/// The stop of an attach that failed.
pub fn attach_stop(fault: AttachFault, geometry: Geometry) -> Stop
    requires { IsLegal geometry }
    ensures end { (s t : Told) → IsAttach geometry s (Err fault) t → IsPlayEnd (size_of geometry) s t (status_of result) }
    ensures size { (s t : Told) → IsAttach geometry s (Err fault) t → IsAttachStop (size_of geometry) s.bytes result }
{
    match fault {
        AttachFault::Failed => Stop::FlashFault,
        AttachFault::InUse => Stop::InUse,
        AttachFault::WrongSize { found } => Stop::WrongSize {
            found,
            need: u64::from(geometry.sector) * u64::from(geometry.sectors),
        },
        AttachFault::Memory => Stop::Memory,
    }
}
