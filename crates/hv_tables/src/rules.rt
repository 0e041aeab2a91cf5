// The rules.
ghost use Rattle.std.specs.Prelude.{◌≡◌, codes, Option, Some, None};
ghost use Rattle.hv_abi.specs.declared.call_kind.CallKind.{CallKind};
ghost use Rattle.hv_abi.specs.declared.call_kind.CallKind.TheVariants as kind;
ghost use Rattle.hv_policy.specs.declared.rule.Rule.TheVariants as rule;
ghost use Rattle.hv_tables.specs.Lines.{rule_line};

/// Each rule's number, name and status. The status depends on the call for P24 alone.
pub fn each_rule_has_its_line()
    ensures p1 { (call : Option CallKind) → rule_line rule.CallerExists call ≡ (1, codes "P1", Some 0xD) }
    ensures p2 { (call : Option CallKind) → rule_line rule.CallerActive call ≡ (2, codes "P2", Some 0x7) }
    ensures p3 { (call : Option CallKind) → rule_line rule.CallerVpExists call ≡ (3, codes "P3", Some 0xE) }
    ensures p4 { (call : Option CallKind) → rule_line rule.CallCode call ≡ (4, codes "P4", Some 0x2) }
    ensures p5 { (call : Option CallKind) → rule_line rule.InputValue call ≡ (5, codes "P5", Some 0x3) }
    ensures p6 { (call : Option CallKind) → rule_line rule.Alignment call ≡ (6, codes "P6", Some 0x4) }
    ensures p7 { (call : Option CallKind) → rule_line rule.Parameters call ≡ (7, codes "P7", Some 0x5) }
    ensures p8 { (call : Option CallKind) → rule_line rule.Privilege call ≡ (8, codes "P8", Some 0x6) }
    ensures p9 { (call : Option CallKind) → rule_line rule.TargetExists call ≡ (9, codes "P9", Some 0xD) }
    ensures p10 { (call : Option CallKind) → rule_line rule.TargetScope call ≡ (10, codes "P10", Some 0x6) }
    ensures p11 { (call : Option CallKind) → rule_line rule.PropertyKnown call ≡ (11, codes "P11", Some 0x9) }
    ensures p12 { (call : Option CallKind) → rule_line rule.TargetState call ≡ (12, codes "P12", Some 0x7) }
    ensures p13 { (call : Option CallKind) → rule_line rule.NoChildren call ≡ (13, codes "P13", Some 0x19) }
    ensures p14 { (call : Option CallKind) → rule_line rule.Depth call ≡ (14, codes "P14", Some 0xC) }
    ensures p15 { (call : Option CallKind) → rule_line rule.PeerExists call ≡ (15, codes "P15", Some 0xD) }
    ensures p16 { (call : Option CallKind) → rule_line rule.Connection call ≡ (16, codes "P16", Some 0x12) }
    ensures p17 { (call : Option CallKind) → rule_line rule.Port call ≡ (17, codes "P17", Some 0x11) }
    ensures p18 { (call : Option CallKind) → rule_line rule.Entitlement call ≡ (18, codes "P18", Some 0x6) }
    ensures p19 { (call : Option CallKind) → rule_line rule.VpExists call ≡ (19, codes "P19", Some 0xE) }
    ensures p20 { (call : Option CallKind) → rule_line rule.PropertyRange call ≡ (20, codes "P20", Some 0xA) }
    ensures p21 { (call : Option CallKind) → rule_line rule.Operand call ≡ (21, codes "P21", Some 0x5) }
    ensures p22 { (call : Option CallKind) → rule_line rule.VpReady call ≡ (22, codes "P22", Some 0x18) }
    ensures p23 { (call : Option CallKind) → rule_line rule.PortRoom call ≡ (23, codes "P23", Some 0x13) }
    ensures p24_of_no_call { rule_line rule.Pages None ≡ (24, codes "P24", Some 0xB) }
    ensures p24_of_withdraw_memory { rule_line rule.Pages (Some kind.WithdrawMemory)
        ≡ (24, codes "P24", Some 0x1D) }
    ensures p24_of_another_call { (call : CallKind) → ¬ (call ≡ kind.WithdrawMemory)
        → rule_line rule.Pages (Some call) ≡ (24, codes "P24", Some 0xB) }
    ensures p25 { (call : Option CallKind) → rule_line rule.MsrKnown call ≡ (25, codes "P25", None) }
    ensures p26 { (call : Option CallKind) → rule_line rule.MsrPrivilege call ≡ (26, codes "P26", None) }
    ensures p27 { (call : Option CallKind) → rule_line rule.MsrWrite call ≡ (27, codes "P27", None) }
{}
