// What a processor's pages of messages and event flags show, and which vectors its SINTs raise.
ghost use Rattle.std.specs.Prelude.{◌≡◌, ℕ, Bool, true, false, [], ◌∷◌, ◌++◌, length, None, Some};
ghost use Rattle.std.specs.FinMap.{FinMap, get};
ghost use Rattle.std.specs.FinSet.{insert};
ghost use Rattle.std.specs.Ordering.{nat_cmp};
ghost use Rattle.hv_defs.specs.Registers.{takes_flags, takes_messages};
ghost use Rattle.hv_defs.specs.Slot.{message_bytes, zeros};
ghost use Rattle.hv_defs.specs.Vectors.{VectorSet, raised};
ghost use Rattle.hv_policy.specs.Mail.{Place, slot_at};
ghost use Rattle.hv_tables.specs.Lines.{flags_line};

/// The 256 bytes of a slot, or all zeros for an empty slot.
///
/// They are the type, the size of the payload, whether another message waits, two zeros, the port's id and
/// the payload, with zeros after it.
pub fn each_slot_has_its_bytes()
    ensures waiting { message_bytes 0x81020304 0x00C0FFEE (0xAB ∷ 0x10 ∷ 0xFF ∷ []) true ≡ 0x04 ∷ 0x03
        ∷ 0x02 ∷ 0x81 ∷ 3 ∷ 1 ∷ 0 ∷ 0 ∷ 0xEE ∷ 0xFF ∷ 0xC0 ∷ 0 ∷ 0 ∷ 0 ∷ 0 ∷ 0 ∷ 0xAB ∷ 0x10 ∷ 0xFF
        ∷ zeros 237 }
    ensures alone { message_bytes 0x81020304 0x00C0FFEE (0xAB ∷ 0x10 ∷ 0xFF ∷ []) false ≡ 0x04 ∷ 0x03 ∷ 0x02
        ∷ 0x81 ∷ 3 ∷ 0 ∷ 0 ∷ 0 ∷ 0xEE ∷ 0xFF ∷ 0xC0 ∷ 0 ∷ 0 ∷ 0 ∷ 0 ∷ 0 ∷ 0xAB ∷ 0x10 ∷ 0xFF ∷ zeros 237 }
    ensures size { (pending : Bool) → length (message_bytes 0x81020304 0x00C0FFEE (0xAB ∷ 0x10 ∷ 0xFF
        ∷ []) pending) ≡ 256 }
    ensures empty { (place : Place) → slot_at place [] ≡ zeros 256 }
{}

/// The bytes of a SINT's event flags: flag f is bit f % 8 of byte f / 8.
pub fn each_flag_has_its_bit()
    ensures of_sint_3 { flags_line ((3, 0) ∷ (3, 9) ∷ (3, 2047) ∷ (2, 5) ∷ []) 3 ≡ 0x01 ∷ 0x02
        ∷ (zeros 253 ++ 0x80 ∷ []) }
    ensures of_sint_2 { flags_line ((3, 0) ∷ (3, 9) ∷ (3, 2047) ∷ (2, 5) ∷ []) 2 ≡ 0x20 ∷ zeros 255 }
    ensures of_sint_1 { flags_line ((3, 0) ∷ (3, 9) ∷ (3, 2047) ∷ (2, 5) ∷ []) 1 ≡ zeros 256 }
{}

/// A SINT raises the vector in bits 7:0 of its register, unless bit 16 masks it.
pub fn each_sint_raises_its_vector()
    ensures vector { (registers : FinMap nat_cmp ℕ) (vectors : VectorSet) → get registers 0x000A0000
        ≡ Some 0x30 → raised registers 0 vectors ≡ insert vectors 0x30 }
    ensures masked { (registers : FinMap nat_cmp ℕ) (vectors : VectorSet) → get registers 0x000A0005
        ≡ Some 0x10030 → raised registers 5 vectors ≡ vectors }
    ensures all_but_the_mask { (registers : FinMap nat_cmp ℕ) (vectors : VectorSet)
        → get registers 0x000A000F ≡ Some 0xFFFFFFFFFFFE00F1 → raised registers 15 vectors
        ≡ insert vectors 0xF1 }
    ensures masked_255 { (registers : FinMap nat_cmp ℕ) (vectors : VectorSet) → get registers 0x000A000F
        ≡ Some 0x100FF → raised registers 15 vectors ≡ vectors }
    ensures no_register { (registers : FinMap nat_cmp ℕ) (vectors : VectorSet) → get registers 0x000A000F
        ≡ None → raised registers 15 vectors ≡ vectors }
{}

/// A processor takes messages if bit 0 of both SCONTROL and SIMP is set, and event flags if bit 0 of both
/// SCONTROL and SIEFP is.
pub fn each_page_is_on_by_its_bit()
    ensures messages { (registers : FinMap nat_cmp ℕ) → get registers 0x000A0010 ≡ Some 1
        → get registers 0x000A0013 ≡ Some 0x1001 → takes_messages registers ≡ true }
    ensures messages_without_scontrol { (registers : FinMap nat_cmp ℕ) → get registers 0x000A0010
        ≡ Some 0xFFFFFFFFFFFFFFFE → takes_messages registers ≡ false }
    ensures messages_without_simp { (registers : FinMap nat_cmp ℕ) → get registers 0x000A0010 ≡ Some 1
        → get registers 0x000A0013 ≡ Some 0x1000 → takes_messages registers ≡ false }
    ensures flags { (registers : FinMap nat_cmp ℕ) → get registers 0x000A0010 ≡ Some 1
        → get registers 0x000A0012 ≡ Some 0x2001 → takes_flags registers ≡ true }
    ensures flags_without_scontrol { (registers : FinMap nat_cmp ℕ) → get registers 0x000A0010
        ≡ Some 0xFFFFFFFFFFFFFFFE → takes_flags registers ≡ false }
    ensures flags_without_siefp { (registers : FinMap nat_cmp ℕ) → get registers 0x000A0010 ≡ Some 1
        → get registers 0x000A0012 ≡ Some 0x2000 → takes_flags registers ≡ false }
{}
