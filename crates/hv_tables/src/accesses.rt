// The accesses, and the processors that calls may name.
ghost use Rattle.std.specs.Prelude.{◌≡◌, ℕ, true, false, [], ◌∷◌, None, Some};
ghost use Rattle.std.specs.FinMap.{contains_key};
ghost use Rattle.hv_defs.specs.Registers.{name_of_msr};
ghost use Rattle.hv_policy.specs.Flat.{Flat};
ghost use Rattle.hv_policy.specs.Met.{is_vp_free};
ghost use Rattle.hv_policy.specs.declared.event.Action.TheVariants.{ReadMsr, WriteMsr, ReadSlot, ClearSlot};
ghost use Rattle.hv_policy.specs.declared.event.Action.TheVariants.{ReadFlags, ClearFlag, TakeInterrupt};
ghost use Rattle.hv_tables.specs.Lines.{asked_line, subject_line};

/// The rules that apply to each access beyond P1 to P3, by number.
pub fn each_access_has_its_rules()
    ensures read_msr { (f : Flat) (caller msr : ℕ) → asked_line f caller (ReadMsr msr) ≡ 25 ∷ 26 ∷ [] }
    ensures write_msr { (f : Flat) (caller msr value : ℕ) → asked_line f caller (WriteMsr msr value) ≡ 25
        ∷ 26 ∷ 27 ∷ [] }
    ensures read_slot { (f : Flat) (caller sint : ℕ) → asked_line f caller (ReadSlot sint) ≡ 21 ∷ [] }
    ensures clear_slot { (f : Flat) (caller sint : ℕ) → asked_line f caller (ClearSlot sint) ≡ 21 ∷ [] }
    ensures read_flags { (f : Flat) (caller sint : ℕ) → asked_line f caller (ReadFlags sint) ≡ 21 ∷ [] }
    ensures clear_flag { (f : Flat) (caller sint flag : ℕ) → asked_line f caller (ClearFlag sint flag) ≡ 21
        ∷ [] }
    ensures take_interrupt { (f : Flat) (caller : ℕ) → asked_line f caller TakeInterrupt ≡ [] }
{}

/// The last SINT and flag that an access may name, and the next ones, which rule P21 refuses.
pub fn each_access_has_its_edges()
    ensures read_slot { (f : Flat) (caller : ℕ) → subject_line f caller (ReadSlot 15) ≡ true }
    ensures read_slot_beyond { (f : Flat) (caller : ℕ) → subject_line f caller (ReadSlot 16) ≡ false }
    ensures clear_slot { (f : Flat) (caller : ℕ) → subject_line f caller (ClearSlot 15) ≡ true }
    ensures clear_slot_beyond { (f : Flat) (caller : ℕ) → subject_line f caller (ClearSlot 16) ≡ false }
    ensures read_flags { (f : Flat) (caller : ℕ) → subject_line f caller (ReadFlags 15) ≡ true }
    ensures read_flags_beyond { (f : Flat) (caller : ℕ) → subject_line f caller (ReadFlags 16) ≡ false }
    ensures clear_flag { (f : Flat) (caller : ℕ) → subject_line f caller (ClearFlag 15 2047) ≡ true }
    ensures clear_flag_beyond_the_sints { (f : Flat) (caller : ℕ) → subject_line f caller (ClearFlag 16 0)
        ≡ false }
    ensures clear_flag_beyond_the_flags { (f : Flat) (caller : ℕ) → subject_line f caller (ClearFlag 0 2048)
        ≡ false }
{}

/// The register of each MSR, by its name in a call, and the neighboring numbers, which are no MSRs.
#[tactic(auto, unfolding(hv_defs::specs::Registers::name_of_msr))]
pub fn each_msr_has_its_register()
    ensures hypercall_page { name_of_msr 0x40000001 ≡ None }
    ensures vp_index { name_of_msr 0x40000002 ≡ Some 0x00090003 }
    ensures after_vp_index { name_of_msr 0x40000003 ≡ None }
    ensures before_scontrol { name_of_msr 0x4000007F ≡ None }
    ensures scontrol { name_of_msr 0x40000080 ≡ Some 0x000A0010 }
    ensures sversion { name_of_msr 0x40000081 ≡ Some 0x000A0011 }
    ensures siefp { name_of_msr 0x40000082 ≡ Some 0x000A0012 }
    ensures simp { name_of_msr 0x40000083 ≡ Some 0x000A0013 }
    ensures eom { name_of_msr 0x40000084 ≡ Some 0x000A0014 }
    ensures after_eom { name_of_msr 0x40000085 ≡ None }
    ensures before_sint0 { name_of_msr 0x4000008F ≡ None }
    ensures sint0 { name_of_msr 0x40000090 ≡ Some 0x000A0000 }
    ensures sint15 { name_of_msr 0x4000009F ≡ Some 0x000A000F }
    ensures after_sint15 { name_of_msr 0x400000A0 ≡ None }
    ensures by_its_name { name_of_msr 0x000A0010 ≡ None }
{}

/// The highest index of a processor.
pub fn each_processor_has_its_index()
    ensures last { (f : Flat) (target : ℕ) → contains_key f.vp (target, 63) ≡ false → is_vp_free f target 63
        ≡ true }
    ensures taken { (f : Flat) (target : ℕ) → contains_key f.vp (target, 63) ≡ true → is_vp_free f target 63
        ≡ false }
    ensures beyond { (f : Flat) (target : ℕ) → is_vp_free f target 64 ≡ false }
    ensures any { (f : Flat) (target : ℕ) → is_vp_free f target 0xFFFFFFFF ≡ false }
{}
