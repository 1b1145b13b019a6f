// Why requests of a call fail.
ghost use Rattle.uds_calls.specs.Causes.{CallsHaveCauses};

/// Where in the run of a call no fault is counted, the power stays on and no copy is refused: a read is answered 22 only by a refusal,
/// or by a mark that is Invalid or that is Erased without defaults; and a write is answered 72 only where the flash was worn out.
pub fn answers_of_calls_have_causes()
    ensures { CallsHaveCauses }
{}
