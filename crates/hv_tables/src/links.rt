// Ports and connections: which types are equal, where a port aims, and what it keeps of its flags.
ghost use Rattle.std.specs.Prelude.{◌≡◌, ℕ, true, false, None, Some};
ghost use Rattle.hv_calls.specs.Call.{port_aim};
ghost use Rattle.hv_defs.specs.declared.aim.Aim.TheVariants.{One, Any};
ghost use Rattle.hv_defs.specs.declared.port_kind.PortKind.TheVariants.{Message, Event};
ghost use Rattle.hv_policy.specs.Aim.{aims_at};
ghost use Rattle.hv_policy.specs.Effect.{flags_of};
ghost use Rattle.hv_policy.specs.Met.{is_kind};
ghost use Rattle.hv_tables.specs.Lines.{is_target_line, staff, takers_line};

/// A port takes what its type says, and nothing else.
pub fn each_port_has_its_type()
    ensures message { is_kind Message Message ≡ true }
    ensures message_for_event { is_kind Message Event ≡ false }
    ensures event_for_message { is_kind Event Message ≡ false }
    ensures event { is_kind Event Event ≡ true }
{}

/// The first flag and the flag count that a port keeps: 0 for a message port, as given for an event port.
pub fn each_port_keeps_its_flags()
    ensures message { (number : ℕ) → flags_of Message number ≡ 0 }
    ensures event { (number : ℕ) → flags_of Event number ≡ number }
{}

/// A TargetVp of all ones is any processor, and every other number the index of one.
pub fn each_target_has_its_aim()
    ensures first { port_aim 0 ≡ One 0 }
    ensures last { port_aim 0xFFFFFFFE ≡ One 0xFFFFFFFE }
    ensures any { port_aim 0xFFFFFFFF ≡ Any }
    ensures at_its_own { aims_at (One 3) 3 ≡ true }
    ensures at_no_other { aims_at (One 3) 2 ≡ false }
    ensures any_at_each { (vp : ℕ) → aims_at Any vp ≡ true }
{}

/// The processor of a port's partition that takes a message, and the one that takes an event flag.
///
/// They depend on the partition, index, SCONTROL, SIEFP and SIMP of each existing processor. In partition 2,
/// processor 0 takes neither, 1 takes event flags, 4 takes messages, and 5 and 6 take both.
pub fn each_aim_has_its_takers()
    ensures any { takers_line staff 2 Any ≡ (Some 4, Some 1) }
    ensures any_without_processors { takers_line staff 4 Any ≡ (None, None) }
    ensures any_without_a_ready_one { takers_line staff 3 Any ≡ (None, None) }
    ensures one_ready_for_none { takers_line staff 2 (One 0) ≡ (None, None) }
    ensures one_ready_for_flags { takers_line staff 2 (One 1) ≡ (None, Some 1) }
    ensures one_ready_for_messages { takers_line staff 2 (One 4) ≡ (Some 4, None) }
    ensures one_ready_for_both { takers_line staff 2 (One 6) ≡ (Some 6, Some 6) }
    ensures one_that_is_not_there { takers_line staff 2 (One 2) ≡ (None, None) }
    ensures of_another_partition { takers_line staff 3 (One 6) ≡ (None, None) }
{}

/// P19 for a port's aim: it holds if the one processor exists, and always for any processor.
pub fn each_aim_has_its_target()
    ensures there { is_target_line staff 2 (One 0) ≡ true }
    ensures not_there { is_target_line staff 2 (One 2) ≡ false }
    ensures in_another_partition { is_target_line staff 4 (One 0) ≡ false }
    ensures any { (id : ℕ) → is_target_line staff id Any ≡ true }
{}
