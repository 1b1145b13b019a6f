// The driver of a flash in memory of the smallest geometry.
use fls_jobs::{Fls, FlsResult};
use nvm_flash::{MemFlash, mem_flash};
use nvm_laws::Geometry;
use std::alloc::Global;

const SMALLEST: Geometry = Geometry {
    page: 16,
    sector: 64,
    sectors: 2,
};

// Whether the second page is written in a turn.
fn is_written(fls: &mut Fls<MemFlash>) -> bool {
    if fls.start_write(16, &[0x3c; 16]).is_err() {
        return false;
    }
    fls.turn(&mut []);
    matches!(fls.result(), FlsResult::JobOk)
}

// Whether four bytes round its beginning are read in a turn.
fn is_read(fls: &mut Fls<MemFlash>) -> bool {
    let mut bytes = [0; 4];
    if fls.start_read(14, 4).is_err() {
        return false;
    }
    fls.turn(&mut bytes);
    matches!(fls.result(), FlsResult::JobOk) && matches!(bytes, [0xff, 0xff, 0x3c, 0x3c])
}

fn works(alloc: Global) -> bool {
    let Ok(flash) = mem_flash(alloc, &[], 0) else {
        return false;
    };
    let mut fls = Fls::make(flash, SMALLEST);
    fls.attach(alloc).is_ok() && is_written(&mut fls) && is_read(&mut fls)
}

#[test]
fn writes_and_reads_in_turns(rt: HostRuntime) {
    assert!(rt; works(rt.alloc()));
}
