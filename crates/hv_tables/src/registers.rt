// The registers of a virtual processor, by their names in a call.
ghost use Rattle.std.specs.Prelude.{◌≡◌, ℕ, ◌^◌, ◌==◌, true, length, find, is_some, None, Some, Ok, Err};
ghost use Rattle.std.specs.FinMap.{get};
ghost use Rattle.hv_defs.specs.Registers.{start_registers, take};
ghost use Rattle.hv_defs.specs.declared.registers.RegFault.TheVariants.{ReadOnly, Value};
ghost use Rattle.hv_defs.specs.declared.registers.Takes.TheVariants.{Nothing, Any, SintValue, EndOfMessage};
ghost use Rattle.hv_defs.specs.declared.registers.TheConstants.{EOM, REGISTERS, SCONTROL, SIEFP, SIMP, SINT0};
ghost use Rattle.hv_defs.specs.declared.registers.TheConstants.{VP_INDEX};
ghost use Rattle.hv_tables.specs.Lines.{access_line};

/// The value of each register in a new processor with this index. The table has these 40 registers, and no
/// others.
#[tactic(auto, using(crate::proofs::NewProcessor::found_at_start))]
pub fn each_register_has_its_start()
    ensures vp_index_name { VP_INDEX ≡ 0x00090003 }
    ensures vp_index_row { is_some (find (λ row. row.name == 0x00090003) REGISTERS) ≡ true }
    ensures count { length REGISTERS ≡ 40 }
    ensures sint0_name { SINT0 ≡ 0x000A0000 }
    ensures scontrol_name { SCONTROL ≡ 0x000A0010 }
    ensures siefp_name { SIEFP ≡ 0x000A0012 }
    ensures simp_name { SIMP ≡ 0x000A0013 }
    ensures eom_name { EOM ≡ 0x000A0014 }
    ensures rax { (index : ℕ) → get (start_registers index) 0x00020000 ≡ Some 0 }
    ensures rcx { (index : ℕ) → get (start_registers index) 0x00020001 ≡ Some 0 }
    ensures rdx { (index : ℕ) → get (start_registers index) 0x00020002 ≡ Some 0 }
    ensures rbx { (index : ℕ) → get (start_registers index) 0x00020003 ≡ Some 0 }
    ensures rsp { (index : ℕ) → get (start_registers index) 0x00020004 ≡ Some 0 }
    ensures rbp { (index : ℕ) → get (start_registers index) 0x00020005 ≡ Some 0 }
    ensures rsi { (index : ℕ) → get (start_registers index) 0x00020006 ≡ Some 0 }
    ensures rdi { (index : ℕ) → get (start_registers index) 0x00020007 ≡ Some 0 }
    ensures r8 { (index : ℕ) → get (start_registers index) 0x00020008 ≡ Some 0 }
    ensures r9 { (index : ℕ) → get (start_registers index) 0x00020009 ≡ Some 0 }
    ensures r10 { (index : ℕ) → get (start_registers index) 0x0002000A ≡ Some 0 }
    ensures r11 { (index : ℕ) → get (start_registers index) 0x0002000B ≡ Some 0 }
    ensures r12 { (index : ℕ) → get (start_registers index) 0x0002000C ≡ Some 0 }
    ensures r13 { (index : ℕ) → get (start_registers index) 0x0002000D ≡ Some 0 }
    ensures r14 { (index : ℕ) → get (start_registers index) 0x0002000E ≡ Some 0 }
    ensures r15 { (index : ℕ) → get (start_registers index) 0x0002000F ≡ Some 0 }
    ensures rip { (index : ℕ) → get (start_registers index) 0x00020010 ≡ Some 0 }
    ensures rflags { (index : ℕ) → get (start_registers index) 0x00020011 ≡ Some 0 }
    ensures vp_index { (index : ℕ) → get (start_registers index) 0x00090003 ≡ Some index }
    ensures sint0 { (index : ℕ) → get (start_registers index) 0x000A0000 ≡ Some 0x10000 }
    ensures sint1 { (index : ℕ) → get (start_registers index) 0x000A0001 ≡ Some 0x10000 }
    ensures sint2 { (index : ℕ) → get (start_registers index) 0x000A0002 ≡ Some 0x10000 }
    ensures sint3 { (index : ℕ) → get (start_registers index) 0x000A0003 ≡ Some 0x10000 }
    ensures sint4 { (index : ℕ) → get (start_registers index) 0x000A0004 ≡ Some 0x10000 }
    ensures sint5 { (index : ℕ) → get (start_registers index) 0x000A0005 ≡ Some 0x10000 }
    ensures sint6 { (index : ℕ) → get (start_registers index) 0x000A0006 ≡ Some 0x10000 }
    ensures sint7 { (index : ℕ) → get (start_registers index) 0x000A0007 ≡ Some 0x10000 }
    ensures sint8 { (index : ℕ) → get (start_registers index) 0x000A0008 ≡ Some 0x10000 }
    ensures sint9 { (index : ℕ) → get (start_registers index) 0x000A0009 ≡ Some 0x10000 }
    ensures sint10 { (index : ℕ) → get (start_registers index) 0x000A000A ≡ Some 0x10000 }
    ensures sint11 { (index : ℕ) → get (start_registers index) 0x000A000B ≡ Some 0x10000 }
    ensures sint12 { (index : ℕ) → get (start_registers index) 0x000A000C ≡ Some 0x10000 }
    ensures sint13 { (index : ℕ) → get (start_registers index) 0x000A000D ≡ Some 0x10000 }
    ensures sint14 { (index : ℕ) → get (start_registers index) 0x000A000E ≡ Some 0x10000 }
    ensures sint15 { (index : ℕ) → get (start_registers index) 0x000A000F ≡ Some 0x10000 }
    ensures scontrol { (index : ℕ) → get (start_registers index) 0x000A0010 ≡ Some 0 }
    ensures sversion { (index : ℕ) → get (start_registers index) 0x000A0011 ≡ Some 1 }
    ensures siefp { (index : ℕ) → get (start_registers index) 0x000A0012 ≡ Some 0 }
    ensures simp { (index : ℕ) → get (start_registers index) 0x000A0013 ≡ Some 0 }
    ensures eom { (index : ℕ) → get (start_registers index) 0x000A0014 ≡ Some 0 }
{}

/// Each register's number as an MSR, the bits of the privilege that its access needs, and what it takes.
pub fn each_register_has_its_access()
    ensures rax { access_line 0x00020000 ≡ Some (None, 0, Any) }
    ensures rcx { access_line 0x00020001 ≡ Some (None, 0, Any) }
    ensures rdx { access_line 0x00020002 ≡ Some (None, 0, Any) }
    ensures rbx { access_line 0x00020003 ≡ Some (None, 0, Any) }
    ensures rsp { access_line 0x00020004 ≡ Some (None, 0, Any) }
    ensures rbp { access_line 0x00020005 ≡ Some (None, 0, Any) }
    ensures rsi { access_line 0x00020006 ≡ Some (None, 0, Any) }
    ensures rdi { access_line 0x00020007 ≡ Some (None, 0, Any) }
    ensures r8 { access_line 0x00020008 ≡ Some (None, 0, Any) }
    ensures r9 { access_line 0x00020009 ≡ Some (None, 0, Any) }
    ensures r10 { access_line 0x0002000A ≡ Some (None, 0, Any) }
    ensures r11 { access_line 0x0002000B ≡ Some (None, 0, Any) }
    ensures r12 { access_line 0x0002000C ≡ Some (None, 0, Any) }
    ensures r13 { access_line 0x0002000D ≡ Some (None, 0, Any) }
    ensures r14 { access_line 0x0002000E ≡ Some (None, 0, Any) }
    ensures r15 { access_line 0x0002000F ≡ Some (None, 0, Any) }
    ensures rip { access_line 0x00020010 ≡ Some (None, 0, Any) }
    ensures rflags { access_line 0x00020011 ≡ Some (None, 0, Any) }
    ensures vp_index { access_line 0x00090003 ≡ Some (Some 0x40000002, 2 ^ 6, Nothing) }
    ensures sint0 { access_line 0x000A0000 ≡ Some (Some 0x40000090, 2 ^ 2, SintValue) }
    ensures sint1 { access_line 0x000A0001 ≡ Some (Some 0x40000091, 2 ^ 2, SintValue) }
    ensures sint2 { access_line 0x000A0002 ≡ Some (Some 0x40000092, 2 ^ 2, SintValue) }
    ensures sint3 { access_line 0x000A0003 ≡ Some (Some 0x40000093, 2 ^ 2, SintValue) }
    ensures sint4 { access_line 0x000A0004 ≡ Some (Some 0x40000094, 2 ^ 2, SintValue) }
    ensures sint5 { access_line 0x000A0005 ≡ Some (Some 0x40000095, 2 ^ 2, SintValue) }
    ensures sint6 { access_line 0x000A0006 ≡ Some (Some 0x40000096, 2 ^ 2, SintValue) }
    ensures sint7 { access_line 0x000A0007 ≡ Some (Some 0x40000097, 2 ^ 2, SintValue) }
    ensures sint8 { access_line 0x000A0008 ≡ Some (Some 0x40000098, 2 ^ 2, SintValue) }
    ensures sint9 { access_line 0x000A0009 ≡ Some (Some 0x40000099, 2 ^ 2, SintValue) }
    ensures sint10 { access_line 0x000A000A ≡ Some (Some 0x4000009A, 2 ^ 2, SintValue) }
    ensures sint11 { access_line 0x000A000B ≡ Some (Some 0x4000009B, 2 ^ 2, SintValue) }
    ensures sint12 { access_line 0x000A000C ≡ Some (Some 0x4000009C, 2 ^ 2, SintValue) }
    ensures sint13 { access_line 0x000A000D ≡ Some (Some 0x4000009D, 2 ^ 2, SintValue) }
    ensures sint14 { access_line 0x000A000E ≡ Some (Some 0x4000009E, 2 ^ 2, SintValue) }
    ensures sint15 { access_line 0x000A000F ≡ Some (Some 0x4000009F, 2 ^ 2, SintValue) }
    ensures scontrol { access_line 0x000A0010 ≡ Some (Some 0x40000080, 2 ^ 2, Any) }
    ensures sversion { access_line 0x000A0011 ≡ Some (Some 0x40000081, 2 ^ 2, Nothing) }
    ensures siefp { access_line 0x000A0012 ≡ Some (Some 0x40000082, 2 ^ 2, Any) }
    ensures simp { access_line 0x000A0013 ≡ Some (Some 0x40000083, 2 ^ 2, Any) }
    ensures eom { access_line 0x000A0014 ≡ Some (Some 0x40000084, 2 ^ 2, EndOfMessage) }
    ensures no_register { access_line 0x000A0015 ≡ None }
{}

/// What a register keeps of a written value, at the edges.
pub fn each_register_takes_its_values()
    ensures nothing { (value : ℕ) → take Nothing value ≡ Err ReadOnly }
    ensures any { (value : ℕ) → take Any value ≡ Ok value }
    ensures end_of_message { (value : ℕ) → take EndOfMessage value ≡ Ok 0 }
    ensures vector_15 { take SintValue 15 ≡ Err Value }
    ensures vector_16 { take SintValue 16 ≡ Ok 16 }
    ensures vector_255 { take SintValue 255 ≡ Ok 255 }
    ensures vector_256 { take SintValue 256 ≡ Err Value }
    ensures masked_vector_0 { take SintValue 0x10000 ≡ Ok 0x10000 }
    ensures not_masked_by_bit_17 { take SintValue 0x20000 ≡ Err Value }
    ensures all_bits { take SintValue 0xFFFFFFFFFFFFFFFF ≡ Ok 0xFFFFFFFFFFFFFFFF }
{}
