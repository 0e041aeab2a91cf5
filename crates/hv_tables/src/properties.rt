// The properties of a partition.
ghost use Rattle.std.specs.Prelude.{◌≡◌, ℕ, [], ◌∷◌, true, false, Some, None};
ghost use Rattle.hv_defs.specs.declared.life.Life.TheVariants.{Created, Active};
ghost use Rattle.hv_privs.specs.Privileges.{of, restrict};
ghost use Rattle.hv_privs.specs.declared.Privileges.{Privileges};
ghost use Rattle.hv_policy.specs.Boot.{root_row};
ghost use Rattle.hv_policy.specs.Effect.{new_row};
ghost use Rattle.hv_policy.specs.Property.{property_code, property_of, takes_value};
ghost use Rattle.hv_policy.specs.declared.property.Property.TheVariants as property;
ghost use Rattle.hv_tables.specs.Lines.{masks_line};

/// The code of each property, and the neighboring codes, which no property has.
pub fn each_property_has_its_code()
    ensures privilege_flags { property_code property.PrivilegeFlags ≡ 0x00010000 }
    ensures cpu_reserve { property_code property.CpuReserve ≡ 0x00020001 }
    ensures cpu_cap { property_code property.CpuCap ≡ 0x00020002 }
    ensures cpu_weight { property_code property.CpuWeight ≡ 0x00020003 }
    ensures of_privilege_flags { property_of 0x00010000 ≡ Some property.PrivilegeFlags }
    ensures of_cpu_reserve { property_of 0x00020001 ≡ Some property.CpuReserve }
    ensures of_cpu_cap { property_of 0x00020002 ≡ Some property.CpuCap }
    ensures of_cpu_weight { property_of 0x00020003 ≡ Some property.CpuWeight }
    ensures zero { property_of 0 ≡ None }
    ensures before_privilege_flags { property_of 0x0000FFFF ≡ None }
    ensures after_privilege_flags { property_of 0x00010001 ≡ None }
    ensures before_cpu_reserve { property_of 0x00020000 ≡ None }
    ensures after_cpu_weight { property_of 0x00020004 ≡ None }
    ensures all_ones { property_of 0xFFFFFFFF ≡ None }
{}

/// The values at the edges of each property's range. A mask has no range.
pub fn each_property_has_its_range()
    ensures privilege_flags { (value : ℕ) → takes_value property.PrivilegeFlags value ≡ true }
    ensures lowest_reserve { takes_value property.CpuReserve 0 ≡ true }
    ensures highest_reserve { takes_value property.CpuReserve 65536 ≡ true }
    ensures above_reserve { takes_value property.CpuReserve 65537 ≡ false }
    ensures lowest_cap { takes_value property.CpuCap 0 ≡ true }
    ensures highest_cap { takes_value property.CpuCap 65536 ≡ true }
    ensures above_cap { takes_value property.CpuCap 65537 ≡ false }
    ensures below_weight { takes_value property.CpuWeight 0 ≡ false }
    ensures lowest_weight { takes_value property.CpuWeight 1 ≡ true }
    ensures highest_weight { takes_value property.CpuWeight 10000 ≡ true }
    ensures above_weight { takes_value property.CpuWeight 10001 ≡ false }
{}

/// What the root and a new partition start with.
pub fn each_property_has_its_start()
    ensures root { (mask : Privileges) → root_row mask
        ≡ record { parent = None; life = Active; mask = mask; reserve = 0; cap = 65536; weight = 100 } }
    ensures child { (parent : ℕ) (mask : Privileges) → new_row parent mask
        ≡ record {
          parent = Some parent;
          life = Created;
          mask = restrict mask (of 0x0000003000000044);
          reserve = 0;
          cap = 65536;
          weight = 100;
        } }
{}

/// The masks of partitions after one of them is given a mask.
///
/// Each partition has its id, parent, life state and mask. A mask given to an Active partition narrows its
/// whole subtree; a Created partition gets the mask.
pub fn each_mask_given_has_its_masks()
    ensures to_a_running_tenant { masks_line ((1, None, Active, 0x000001F700000044)
        ∷ (2, Some 1, Active, 0x000000F700000044) ∷ (3, Some 2, Created, 0x0000003000000044)
        ∷ (4, Some 1, Active, 0x0000003000000044) ∷ []) 2 0x000000E700000004 ≡ 0x000001F700000044
        ∷ 0x000000E700000004 ∷ 0x0000002000000004 ∷ 0x0000003000000044 ∷ [] }
    ensures four_deep { masks_line ((1, None, Active, 0xFF) ∷ (2, Some 1, Active, 0x0F)
        ∷ (3, Some 2, Active, 0x07) ∷ (5, Some 3, Active, 0x06) ∷ (8, Some 5, Created, 0x02)
        ∷ []) 2 0x0D ≡ 0xFF ∷ 0x0D ∷ 0x05 ∷ 0x04 ∷ 0 ∷ [] }
    ensures below_alone { masks_line ((1, None, Active, 0xFF) ∷ (2, Some 1, Active, 0x0F)
        ∷ (3, Some 2, Active, 0x07) ∷ (5, Some 3, Active, 0x06) ∷ (8, Some 5, Created, 0x02)
        ∷ []) 5 0x0D ≡ 0xFF ∷ 0x0F ∷ 0x07 ∷ 0x04 ∷ 0 ∷ [] }
    ensures bits_that_it_lacks { masks_line ((1, None, Active, 0x000000F700000044)
        ∷ (2, Some 1, Active, 0x0000003000000044) ∷ []) 2 0x0000003100000044 ≡ 0x000000F700000044
        ∷ 0x0000003000000044 ∷ [] }
    ensures one_bit_less { masks_line ((1, None, Active, 0x000000F700000044)
        ∷ (2, Some 1, Active, 0x0000003000000044) ∷ []) 2 0x0000003000000040 ≡ 0x000000F700000044
        ∷ 0x0000003000000040 ∷ [] }
    ensures to_a_created_partition { masks_line ((1, None, Active, 0x000000F700000044)
        ∷ (2, Some 1, Created, 0x0000003000000044) ∷ []) 2 0x000000F700000040 ≡ 0x000000F700000044
        ∷ 0x000000F700000040 ∷ [] }
{}
