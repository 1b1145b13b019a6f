// What every request is replied to, while one thing stands in its way.
ghost use Rattle.std.specs.Prelude.{◌≡◌, [], ◌∷◌, true};
ghost use Rattle.block_machine.specs.Words.{Fine, Pending, SetIndex, SetProtection, SetLock, ReadAll, WriteAll, Accepted, Refused, StatusIs, IndexIs, UnknownBlock, NotStarted, WrongType, NoRam, NoDefaults, NotImmediate, MultiPending, BlockPending, Locked, Protected, RomIndex, NothingToCancel, QueueFull, HistoryFull, Off, Found};
ghost use Rattle.block_machine.specs.Cases.{cap, first, with_queues, ok, read, write, bytes_1, each_reply, rows_config};

/// By what its block is.
pub fn each_block_has_its_replies()
    ensures all_that_a_native_block_takes { each_reply rows_config cap first 2
        ≡ Accepted ∷ Accepted ∷ Accepted ∷ Accepted ∷ Accepted ∷ Accepted ∷ Accepted ∷ Accepted ∷ Refused WrongType ∷ Refused WrongType ∷ Accepted ∷ Accepted
        ∷ Accepted ∷ Accepted ∷ StatusIs Fine ∷ Accepted ∷ Accepted ∷ Refused NothingToCancel ∷ [] }
    ensures neither_ram_nor_defaults { each_reply rows_config cap first 4
        ≡ Accepted ∷ Refused NoRam ∷ Accepted ∷ Refused NoRam ∷ Refused NoDefaults ∷ Refused NoRam ∷ Refused NotImmediate ∷ Accepted ∷ Refused WrongType
        ∷ Refused WrongType ∷ Accepted ∷ Accepted ∷ Refused NoRam ∷ Refused NoRam ∷ StatusIs Fine ∷ Accepted ∷ Accepted ∷ Refused NothingToCancel ∷ [] }
    ensures dataset { each_reply rows_config cap first 5 ≡ Accepted ∷ Accepted ∷ Accepted ∷ Accepted ∷ Refused WrongType ∷ Refused WrongType ∷ Accepted ∷ Accepted ∷ Accepted ∷ IndexIs 0 ∷ Accepted ∷ Accepted ∷ Accepted ∷ Accepted ∷ StatusIs Fine ∷ Accepted ∷ Accepted ∷ Refused NothingToCancel ∷ [] }
    ensures block_1 { each_reply rows_config cap first 1
        ≡ Accepted ∷ Refused NoRam ∷ Refused WrongType ∷ Refused WrongType ∷ Accepted ∷ Refused NoRam ∷ Refused WrongType ∷ Refused WrongType
        ∷ Refused WrongType ∷ Refused WrongType ∷ Refused WrongType ∷ Refused WrongType ∷ Refused WrongType ∷ Refused WrongType ∷ StatusIs Fine ∷ Accepted
        ∷ Accepted ∷ Refused NothingToCancel ∷ [] }
    ensures no_such_block { each_reply rows_config cap first 6
        ≡ Refused UnknownBlock ∷ Refused UnknownBlock ∷ Refused UnknownBlock ∷ Refused UnknownBlock ∷ Refused UnknownBlock ∷ Refused UnknownBlock
        ∷ Refused UnknownBlock ∷ Refused UnknownBlock ∷ Refused UnknownBlock ∷ Refused UnknownBlock ∷ Refused UnknownBlock ∷ Refused UnknownBlock
        ∷ Refused UnknownBlock ∷ Refused UnknownBlock ∷ Refused UnknownBlock ∷ Accepted ∷ Accepted ∷ Refused NothingToCancel ∷ [] }
{}

/// By what its block's state is.
pub fn each_state_has_its_replies()
    ensures locked { each_reply rows_config cap (Found [] 0 ∷ ok (SetLock 2 true) ∷ []) 2
        ≡ Accepted ∷ Accepted ∷ Refused Locked ∷ Refused Locked ∷ Accepted ∷ Accepted ∷ Refused Locked ∷ Refused Locked ∷ Refused WrongType
        ∷ Refused WrongType ∷ Accepted ∷ Accepted ∷ Accepted ∷ Accepted ∷ StatusIs Fine ∷ Accepted ∷ Accepted ∷ Refused NothingToCancel ∷ [] }
    ensures protected { each_reply rows_config cap (Found [] 0 ∷ ok (SetProtection 2 true) ∷ []) 2
        ≡ Accepted ∷ Accepted ∷ Refused Protected ∷ Refused Protected ∷ Accepted ∷ Accepted ∷ Refused Protected ∷ Refused Protected ∷ Refused WrongType
        ∷ Refused WrongType ∷ Accepted ∷ Accepted ∷ Accepted ∷ Accepted ∷ StatusIs Fine ∷ Accepted ∷ Accepted ∷ Refused NothingToCancel ∷ [] }
    ensures at_rom { each_reply rows_config cap (Found [] 0 ∷ ok (SetIndex 5 2) ∷ []) 5
        ≡ Accepted ∷ Accepted ∷ Refused RomIndex ∷ Refused RomIndex ∷ Refused WrongType ∷ Refused WrongType ∷ Refused RomIndex ∷ Refused RomIndex ∷ Accepted
        ∷ IndexIs 2 ∷ Accepted ∷ Accepted ∷ Accepted ∷ Accepted ∷ StatusIs Fine ∷ Accepted ∷ Accepted ∷ Refused NothingToCancel ∷ [] }
    ensures pending { each_reply rows_config cap (Found [] 0 ∷ ok (read 2) ∷ []) 2
        ≡ Refused BlockPending ∷ Refused BlockPending ∷ Refused BlockPending ∷ Refused BlockPending ∷ Refused BlockPending ∷ Refused BlockPending
        ∷ Refused BlockPending ∷ Refused BlockPending ∷ Refused WrongType ∷ Refused WrongType ∷ Refused BlockPending ∷ Refused BlockPending
        ∷ Refused BlockPending ∷ Refused BlockPending ∷ StatusIs Pending ∷ Accepted ∷ Accepted ∷ Refused NothingToCancel ∷ [] }
    ensures pending_dataset { each_reply rows_config cap (Found [] 0 ∷ ok (read 5) ∷ []) 5
        ≡ Refused BlockPending ∷ Refused BlockPending ∷ Refused BlockPending ∷ Refused BlockPending ∷ Refused WrongType ∷ Refused WrongType
        ∷ Refused BlockPending ∷ Refused BlockPending ∷ Refused BlockPending ∷ IndexIs 0 ∷ Refused BlockPending ∷ Refused BlockPending ∷ Refused BlockPending
        ∷ Refused BlockPending ∷ StatusIs Pending ∷ Accepted ∷ Accepted ∷ Refused NothingToCancel ∷ [] }
{}

/// By what else is going on.
pub fn each_time_has_its_replies()
    ensures off { each_reply rows_config cap (Found [] 0 ∷ Off 0 ∷ []) 5
        ≡ Refused NotStarted ∷ Refused NotStarted ∷ Refused NotStarted ∷ Refused NotStarted ∷ Refused NotStarted ∷ Refused NotStarted ∷ Refused NotStarted
        ∷ Refused NotStarted ∷ Refused NotStarted ∷ Refused NotStarted ∷ Refused NotStarted ∷ Refused NotStarted ∷ Refused NotStarted ∷ Refused NotStarted
        ∷ Refused NotStarted ∷ Refused NotStarted ∷ Refused NotStarted ∷ Refused NotStarted ∷ [] }
    ensures writeall_is_pending { each_reply rows_config cap (Found [] 0 ∷ ok WriteAll ∷ []) 2
        ≡ Refused MultiPending ∷ Refused MultiPending ∷ Refused MultiPending ∷ Refused MultiPending ∷ Refused MultiPending ∷ Refused MultiPending
        ∷ Refused MultiPending ∷ Refused MultiPending ∷ Refused WrongType ∷ Refused WrongType ∷ Refused MultiPending ∷ Refused MultiPending
        ∷ Refused MultiPending ∷ Refused MultiPending ∷ StatusIs Fine ∷ Refused MultiPending ∷ Refused MultiPending ∷ Accepted ∷ [] }
    ensures readall_is_pending { each_reply rows_config cap (Found [] 0 ∷ ok ReadAll ∷ []) 5
        ≡ Refused MultiPending ∷ Refused MultiPending ∷ Refused MultiPending ∷ Refused MultiPending ∷ Refused WrongType ∷ Refused WrongType
        ∷ Refused MultiPending ∷ Refused MultiPending ∷ Refused MultiPending ∷ IndexIs 0 ∷ Refused MultiPending ∷ Refused MultiPending ∷ Refused MultiPending
        ∷ Refused MultiPending ∷ StatusIs Fine ∷ Refused MultiPending ∷ Refused MultiPending ∷ Refused NothingToCancel ∷ [] }
    ensures standard_queue_is_full { each_reply (with_queues 1 1 rows_config) cap (Found [] 0 ∷ ok (read 3) ∷ []) 2
        ≡ Refused QueueFull ∷ Refused QueueFull ∷ Accepted ∷ Accepted ∷ Refused QueueFull ∷ Refused QueueFull ∷ Refused QueueFull ∷ Refused QueueFull
        ∷ Refused WrongType ∷ Refused WrongType ∷ Accepted ∷ Accepted ∷ Accepted ∷ Accepted ∷ StatusIs Fine ∷ Accepted ∷ Accepted ∷ Refused NothingToCancel
        ∷ [] }
    ensures immediate_queue_is_full { each_reply (with_queues 1 1 rows_config) cap (Found [] 0 ∷ ok (write 3 bytes_1) ∷ []) 2
        ≡ Accepted ∷ Accepted ∷ Refused QueueFull ∷ Refused QueueFull ∷ Accepted ∷ Accepted ∷ Accepted ∷ Accepted ∷ Refused WrongType ∷ Refused WrongType
        ∷ Accepted ∷ Accepted ∷ Accepted ∷ Accepted ∷ StatusIs Fine ∷ Accepted ∷ Accepted ∷ Refused NothingToCancel ∷ [] }
    ensures history_is_full { each_reply rows_config 4 first 2
        ≡ Refused HistoryFull ∷ Refused HistoryFull ∷ Refused HistoryFull ∷ Refused HistoryFull ∷ Refused HistoryFull ∷ Refused HistoryFull
        ∷ Refused HistoryFull ∷ Refused HistoryFull ∷ Refused WrongType ∷ Refused WrongType ∷ Accepted ∷ Accepted ∷ Accepted ∷ Accepted ∷ StatusIs Fine
        ∷ Refused HistoryFull ∷ Refused HistoryFull ∷ Refused NothingToCancel ∷ [] }
{}
