// Runs in which copies are refused as `refuse` steps ask, and runs in which they aren't.
ghost use Rattle.std.specs.Prelude.{Some, None, true, false};
ghost use Rattle.block_machine.specs.Words.{Fine, NotOk, TookContent, TookRefused, TookStale};
ghost use Rattle.promise_run.specs.Cases.{one};
ghost use Rattle.promise_run.specs.RefusedCases.{WriteComes, LaterComes, RestoreComes, SecondComes, CallersGet};

/// Each copy is tried twice. A write of RAM is refused where two copies are to be, also behind a start-up, and where one is to
/// be it isn't: its second try is made. A write of one's own content makes no copy, nor does a restore to one's own buffer. Three are one copy
/// that is refused, and one that is made behind it.
pub fn copies_refused_as_asked()
    ensures both { WriteComes 2 2 None (TookRefused 2) }
    ensures first { WriteComes 2 1 None (TookContent one 0) }
    ensures none { WriteComes 2 0 None (TookContent one 0) }
    ensures own_content { WriteComes 2 2 (Some one) (TookContent one 0) }
    ensures of_another_block { WriteComes 1 2 None (TookContent one 0) }
    ensures behind_a_start_up { LaterComes 2 (TookRefused 2) }
    ensures copy_in { RestoreComes 2 true NotOk None 2 }
    ensures copy_in_made { RestoreComes 1 true Fine (Some one) 0 }
    ensures own_buffer { RestoreComes 2 false Fine (Some one) 0 }
    ensures one_left { SecondComes 3 (TookContent one 0) }
    ensures two_left { SecondComes 4 (TookRefused 2) }
    ensures callers { CallersGet (TookContent one 0) }
{}

/// A `refuse` that refuses nothing, or one copy too few or too many, or those of another block, or none behind a start-up, breaks
/// it; so does one that forgets what it refused, and a refused copy beside callers.
pub fn copies_not_refused_as_asked()
    ensures nothing { ¬ WriteComes 2 2 None (TookContent one 0) }
    ensures stale { ¬ WriteComes 2 2 None (TookStale 1 0 2) }
    ensures too_many { ¬ WriteComes 2 1 None (TookRefused 2) }
    ensures of_another_block { ¬ WriteComes 1 2 None (TookRefused 2) }
    ensures miscounted { ¬ WriteComes 2 2 None (TookRefused 1) }
    ensures forgotten { ¬ LaterComes 2 (TookContent one 0) }
    ensures copy_in_made { ¬ RestoreComes 2 true Fine (Some one) 0 }
    ensures copy_in_refused { ¬ RestoreComes 1 true NotOk None 2 }
    ensures too_few { ¬ SecondComes 4 (TookContent one 0) }
    ensures not_spent { ¬ SecondComes 3 (TookRefused 2) }
    ensures callers { ¬ CallersGet (TookRefused 2) }
{}
