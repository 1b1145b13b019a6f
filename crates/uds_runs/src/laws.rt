// Why requests fail.
ghost use Rattle.uds_runs.specs.Causes.{AnswersHaveCauses};
ghost use Rattle.uds_runs.specs.Given.{PostsGiveLengths, NoneGivesTooMuch};

/// Where no fault is counted, the power stays on and no copy is refused: a read is answered 22 only by a refusal, or by a mark that is
/// Invalid or that is Erased without defaults; and a write is answered 72 only where the device was worn out.
pub fn answers_have_causes()
    ensures { AnswersHaveCauses }
{}

/// What the Post of a request gives has its block's length, in a legal history: no answer is longer than there is room for.
pub fn posts_give_lengths()
    ensures exact { PostsGiveLengths }
    ensures most { NoneGivesTooMuch }
{}
