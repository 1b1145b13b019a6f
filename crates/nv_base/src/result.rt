// The results of requests.
ghost use Rattle.std.specs.Prelude.{◌≡◌};
ghost use Rattle.nv_base.specs.Result.{code_of};

/// The result of a request, and so the status of a block: of those of the NVRAM Manager (NvM_RequestResultType) the
/// nine that this profile has.
#[derive(Clone, Copy, PartialEq, Eq)]
pub enum ReqResult {
    /// NVM_REQ_OK: the job was done.
    Fine,
    /// NVM_REQ_NOT_OK: the job failed.
    NotOk,
    /// NVM_REQ_PENDING: a job was accepted and hasn't ended.
    Pending,
    /// NVM_REQ_INTEGRITY_FAILED: nothing is stored, and the block has no defaults.
    IntegrityFailed,
    /// NVM_REQ_BLOCK_SKIPPED: a write of all blocks left this one out.
    BlockSkipped,
    /// NVM_REQ_NV_INVALIDATED: the stored instance was invalidated.
    Invalidated,
    /// NVM_REQ_CANCELED: the write of all blocks was canceled.
    Canceled,
    /// NVM_REQ_REDUNDANCY_FAILED: one of a redundant block's two copies failed.
    RedundancyFailed,
    /// NVM_REQ_RESTORED_FROM_ROM: the defaults were given in place of a stored content.
    Restored,
}

/// The number of a result, 0 to 8 in the order of the variants.
pub fn result_code(result_of: ReqResult) -> u8
    ensures { result ≡ code_of result_of }
{
    result_of as u8
}
