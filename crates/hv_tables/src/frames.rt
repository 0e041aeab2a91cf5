// Worked frames: the input value, the lists' addresses and the result value.
ghost use Rattle.std.specs.Prelude.{◌≡◌, ◌^◌, [], ◌∷◌, not, true, false, None, Some, filter};
ghost use Rattle.std.specs.List.{range_with_len};
ghost use Rattle.hv_abi.specs.InputValue.{input_value, is_reserved_zero, restarted, result_value};
ghost use Rattle.hv_abi.specs.declared.frame.AbiFault.TheVariants.{UnknownCode, Input, Alignment};
ghost use Rattle.hv_tables.specs.Lines.{fault_line, input_line};

/// The parts of an input value, and which of its bits are reserved.
pub fn each_input_value_has_its_parts()
    ensures call_code { (input_value 0xFFFF).call ≡ 0xFFFF }
    ensures fast { (input_value 0x10000).fast ≡ true }
    ensures not_fast { (input_value 0xFFFFFFFFFFFEFFFF).fast ≡ false }
    ensures reps { (input_value 0x0000073600000000).reps ≡ 0x736 }
    ensures start { (input_value 0x0736000000000000).start ≡ 0x736 }
    ensures reserved { filter (λ bit. not (is_reserved_zero (2 ^ bit))) (range_with_len 0 64) ≡ 17 ∷ 18 ∷ 19
        ∷ 20 ∷ 21 ∷ 22 ∷ 23 ∷ 24 ∷ 25 ∷ 26 ∷ 27 ∷ 28 ∷ 29 ∷ 30 ∷ 31 ∷ 44 ∷ 45 ∷ 46 ∷ 47 ∷ 60 ∷ 61 ∷ 62 ∷ 63
        ∷ [] }
    ensures restarted { restarted 0x0003000300010048 5 ≡ 0x0005000300010048 }
    ensures restarted_at_zero { restarted 0xFFFFFFFFFFFFFFFF 0 ≡ 0xF000FFFFFFFFFFFF }
    ensures restarted_at_the_last { restarted 0 4095 ≡ 0x0FFF000000000000 }
    ensures registers { input_line 0x1817161514131211 0x2827262524232221 true ≡ 0x11 ∷ 0x12 ∷ 0x13 ∷ 0x14
        ∷ 0x15 ∷ 0x16 ∷ 0x17 ∷ 0x18 ∷ 0x21 ∷ 0x22 ∷ 0x23 ∷ 0x24 ∷ 0x25 ∷ 0x26 ∷ 0x27 ∷ 0x28 ∷ [] }
    ensures list { input_line 0x1817161514131211 0x2827262524232221 false ≡ [] }
{}

/// The first fault of a frame, by RCX, RDX and R8: the call code, then the input value, then the lists'
/// addresses.
pub fn each_frame_has_its_fault()
    ensures plain { fault_line 0x46 0 0 ≡ None }
    ensures empty_list_anywhere { fault_line 0x46 3 0 ≡ None }
    ensures reps_of_a_simple_call { fault_line 0x0000000100000046 0 0 ≡ Some Input }
    ensures start_of_a_simple_call { fault_line 0x0001000000000046 0 0 ≡ Some Input }
    ensures unknown_before_input { fault_line 0x0000000100007FFF 0 0 ≡ Some UnknownCode }
    ensures unknown_upper_bits { fault_line 0x0146 0 0 ≡ Some UnknownCode }
    ensures input_before_alignment { fault_line 0x000000010000004A 4 0 ≡ Some Input }
    ensures input_list_at_4 { fault_line 0x4A 4 0 ≡ Some Alignment }
    ensures input_list_up_to_the_page_end { fault_line 0x4A 0xFF8 0 ≡ None }
    ensures input_list_past_the_page_end { fault_line 0x4A 0xFFC 0 ≡ Some Alignment }
    ensures input_list_in_the_last_page { fault_line 0x4A 0xFFFFFFFFFFFFFFF8 0 ≡ None }
    ensures output_list_at_1 { fault_line 0x4A 0 1 ≡ Some Alignment }
    ensures output_list_up_to_the_page_end { fault_line 0x4A 0 0xFF0 ≡ None }
    ensures output_list_over_the_page_end { fault_line 0x4A 0 0xFF8 ≡ Some Alignment }
    ensures two_numbers_up_to_the_page_end { fault_line 0x44 0xFF0 0 ≡ None }
    ensures two_numbers_over_the_page_end { fault_line 0x44 0xFF8 0 ≡ Some Alignment }
    ensures rep_call { fault_line 0x0001000300000048 0 0 ≡ None }
    ensures start_at_the_count { fault_line 0x0003000300000048 0 0 ≡ Some Input }
    ensures no_reps { fault_line 0x0000000000000048 0 0 ≡ Some Input }
    ensures rep_call_is_not_fast { fault_line 0x0000000100010048 0 0 ≡ Some Input }
    ensures input_list_of_4096_bytes { fault_line 0x000001FF00000048 0 0 ≡ None }
    ensures input_list_of_4104_bytes { fault_line 0x0000020000000048 0 0 ≡ Some Alignment }
    ensures output_list_of_4096_bytes { fault_line 0x0000010000000050 0 0 ≡ None }
    ensures output_list_of_4112_bytes { fault_line 0x0000010100000050 0 0 ≡ Some Alignment }
    ensures fast { fault_line 0x10041 3 5 ≡ None }
    ensures fast_of_two_registers { fault_line 0x1005B 3 5 ≡ None }
    ensures not_fast_with_output { fault_line 0x10040 0 0 ≡ Some Input }
    ensures not_fast_of_24_bytes { fault_line 0x10045 0 0 ≡ Some Input }
    ensures not_fast_without_input { fault_line 0x10046 0 0 ≡ Some Input }
    ensures not_fast_of_256_bytes { fault_line 0x1005C 0 0 ≡ Some Input }
{}

/// The result value: the status, and the reps completed from bit 32 up.
pub fn each_result_has_its_value()
    ensures success { result_value 0 0 ≡ 0 }
    ensures reps_done { result_value 0 3 ≡ 0x0000000300000000 }
    ensures reps_before_a_denied_one { result_value 5 2 ≡ 0x0000000200000005 }
    ensures most_reps { result_value 0x1D 4095 ≡ 0x00000FFF0000001D }
{}
