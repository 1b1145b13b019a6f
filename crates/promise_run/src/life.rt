// The life of a unit.
ghost use Rattle.promise_run.specs.Life.{UnitsHoldMarks};

/// Over the runs of a unit, each from the image that the one before it left, whether at its end or at a power cut: each
/// instance holds the mark that was acknowledged last in whichever run, or one that was taken since.
pub fn units_hold_marks()
    ensures { UnitsHoldMarks }
{}
