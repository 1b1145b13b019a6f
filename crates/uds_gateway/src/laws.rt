// Laws of answers and of jobs, over legal histories.
ghost use Rattle.uds_gateway.specs.Codes.{CodesHaveCases};
ghost use Rattle.uds_gateway.specs.Causes.{ReadsFailByMarks, WritesSucceed};

/// Each negative code comes exactly by its case.
pub fn codes_come_by_their_cases()
    ensures { CodesHaveCases }
{}

/// Where no operation of a request's job failed, a read that gives nothing found a mark that has no content, and a write is posted
/// with 0.
pub fn failures_have_causes()
    ensures reads { ReadsFailByMarks }
    ensures writes { WritesSucceed }
{}
