// Worked requests with their answers, and what they aren't.
ghost use Rattle.std.specs.Prelude.{◌≡◌, [], ◌∷◌, ◌++◌, Some, None, Ok, Err, false};
ghost use Rattle.nvm_moves.specs.block_config.DemoConfig.{demo_config};
ghost use Rattle.nvm_moves.specs.block_machine.Words.{Fine, NotOk, IntegrityFailed, Invalidated, RedundancyFailed, Restored, Protected, Off, Read, Write};
ghost use Rattle.nvm_moves.specs.block_machine.Cases.{ok, refused, write, pick_write, post, bytes_1};
ghost use Rattle.uds_gateway.specs.declared.code.NegativeCode.TheVariants.{ServiceNotSupported, IncorrectLength, OutOfRange};
ghost use Rattle.uds_gateway.specs.Services.{asked_by};
ghost use Rattle.uds_gateway.specs.Answers.{uds};
ghost use Rattle.uds_gateway.specs.Cases.{Answers, write_2, write_2_posted, read_2, read_2_gave, read_2_posted, protected_config, many_config};

/// What requests ask for: a job of the block that they name, or why none.
pub fn requests_ask_for_jobs()
    ensures read { asked_by demo_config read_2 ≡ Ok (Read 2 false) }
    ensures write { asked_by demo_config write_2 ≡ Ok (Write 2 (Some bytes_1) 0) }
    ensures last_block { asked_by demo_config (0x22 ∷ 0x01 ∷ 0x03 ∷ []) ≡ Ok (Read 3 false) }
    ensures block_4 { asked_by demo_config (0x22 ∷ 0x01 ∷ 0x04 ∷ []) ≡ Err OutOfRange }
    ensures block_1 { asked_by demo_config (0x22 ∷ 0x01 ∷ 0x01 ∷ []) ≡ Err OutOfRange }
    ensures lower { asked_by demo_config (0x22 ∷ 0x00 ∷ 0x02 ∷ []) ≡ Err OutOfRange }
    ensures higher { asked_by demo_config (0x22 ∷ 0x02 ∷ 0x02 ∷ []) ≡ Err OutOfRange }
    ensures block_258 { asked_by many_config (0x22 ∷ 0x02 ∷ 0x02 ∷ []) ≡ Ok (Read 258 false) }
    ensures block_301 { asked_by many_config (0x22 ∷ 0x02 ∷ 0x2d ∷ []) ≡ Ok (Read 301 false) }
    ensures block_302 { asked_by many_config (0x22 ∷ 0x02 ∷ 0x2e ∷ []) ≡ Err OutOfRange }
    ensures other_service { asked_by demo_config (0x10 ∷ 0x03 ∷ []) ≡ Err ServiceNotSupported }
    ensures short_read { asked_by demo_config (0x22 ∷ 0x01 ∷ []) ≡ Err IncorrectLength }
    ensures long_read { asked_by demo_config (0x22 ∷ 0x01 ∷ 0x02 ∷ 0x00 ∷ []) ≡ Err IncorrectLength }
    ensures bare_write { asked_by demo_config (0x2e ∷ 0x01 ∷ 0x02 ∷ []) ≡ Err IncorrectLength }
    ensures short_write { asked_by demo_config (0x2e ∷ 0x01 ∷ 0x02 ∷ 0x11 ∷ []) ≡ Err IncorrectLength }
    ensures long_write { asked_by demo_config (write_2 ++ 0x55 ∷ []) ≡ Err IncorrectLength }
    ensures length_before_block { asked_by demo_config (0x2e ∷ 0x01 ∷ 0xff ∷ []) ≡ Err IncorrectLength }
    ensures block_before_data { asked_by demo_config (0x2e ∷ 0x01 ∷ 0xff ∷ 0x11 ∷ []) ≡ Err OutOfRange }
{}

/// Each row of the table of answers.
pub fn answers_by_the_table()
    ensures written { Answers write_2 (write_2_posted Fine) (0x6e ∷ 0x01 ∷ 0x02 ∷ []) }
    ensures failed_write { Answers write_2 (write_2_posted NotOk) (0x7f ∷ 0x2e ∷ 0x72 ∷ []) }
    ensures one_copy_written { Answers write_2 (write_2_posted RedundancyFailed) (0x7f ∷ 0x2e ∷ 0x72 ∷ []) }
    ensures read { Answers read_2 (read_2_gave Fine bytes_1) (0x62 ∷ 0x01 ∷ 0x02 ∷ bytes_1) }
    ensures one_copy_read { Answers read_2 (read_2_gave RedundancyFailed bytes_1) (0x62 ∷ 0x01 ∷ 0x02 ∷ bytes_1) }
    ensures defaults { Answers read_2 (read_2_gave Restored bytes_1) (0x62 ∷ 0x01 ∷ 0x02 ∷ bytes_1) }
    ensures failed_read { Answers read_2 (read_2_posted NotOk) (0x7f ∷ 0x22 ∷ 0x22 ∷ []) }
    ensures nothing_stored { Answers read_2 (read_2_posted IntegrityFailed) (0x7f ∷ 0x22 ∷ 0x22 ∷ []) }
    ensures invalid { Answers read_2 (read_2_posted Invalidated) (0x7f ∷ 0x22 ∷ 0x22 ∷ []) }
    ensures refused_write { uds protected_config (0x2e ∷ 0x01 ∷ 0x02 ∷ 0x55 ∷ []) (refused (write 2 (0x55 ∷ [])) Protected ∷ []) ≡ Some (0x7f ∷ 0x2e ∷ 0x22 ∷ []) }
    ensures other_service { Answers (0x10 ∷ 0x03 ∷ []) [] (0x7f ∷ 0x10 ∷ 0x11 ∷ []) }
    ensures wrong_length { Answers (0x22 ∷ 0x01 ∷ []) [] (0x7f ∷ 0x22 ∷ 0x13 ∷ []) }
    ensures no_block { Answers (0x22 ∷ 0x01 ∷ 0xff ∷ []) [] (0x7f ∷ 0x22 ∷ 0x31 ∷ []) }
{}

/// There is no answer before the Post, and none where the power goes off.
pub fn answers_wait_for_the_post()
    ensures asked { uds demo_config write_2 (ok (write 2 bytes_1) ∷ []) ≡ None }
    ensures picked { uds demo_config write_2 (ok (write 2 bytes_1) ∷ pick_write 2 bytes_1 0 ∷ []) ≡ None }
    ensures off { uds demo_config write_2 (ok (write 2 bytes_1) ∷ pick_write 2 bytes_1 0 ∷ Off 4 ∷ []) ≡ None }
{}
