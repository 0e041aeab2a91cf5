// The values of the rules that check a call's privilege, its target and the target's pages.

use crate::names::{life_name, privilege_name, property_name};
use crate::reasons::tree::{Tree, available, mask_of};
use crate::words::Words;
use hv_calls::Call;
use hv_defs::MAX_DEPTH;
use hv_partition::PageKind;
use hv_policy::{Property, States, needs};

// Adds the value of P2: the life state of a partition.
pub fn push_life(words: &mut Words, tree: &Tree, id: u64) {
    let Some(partition) = tree.get(id) else {
        return;
    };
    words.decimal("partition ", id);
    words.text(" is ");
    words.text(life_name(partition.life()));
}

// Adds the values of P8: the caller's mask, and the privilege that it lacks.
pub fn push_privilege(words: &mut Words, tree: &Tree, caller: u64, call: &Call<'_>) {
    push_missing(words, mask_of(tree, caller), needs(call).privilege.bits());
}

// Adds a mask, and the lowest of the needed bits that it lacks.
pub fn push_missing(words: &mut Words, mask: u64, needed: u64) {
    words.hex("mask ", mask);
    for bit in 0..64u32 {
        if needed >> bit & 1 == 1 && mask >> bit & 1 == 0 {
            words.text(" lacks ");
            words.text(privilege_name(bit).unwrap_or("a privilege"));
            words.decimal(", bit ", u64::from(bit));
            return;
        }
    }
}

// Adds the value of P10: the place of the target in the tree.
pub fn push_kinship(words: &mut Words, tree: &Tree, caller: u64, target: u64) {
    words.decimal("partition ", target);
    if target == caller {
        words.text(" is the caller");
        return;
    }
    match tree.parent_of(target) {
        None => words.text(" is the root"),
        Some(parent) => words.decimal(" is a child of ", parent),
    }
}

// Adds the values of P12: the target's life state, and those that the call allows.
pub fn push_state(words: &mut Words, tree: &Tree, target: u64, call: &Call<'_>) {
    push_life(words, tree, target);
    words.text(", not ");
    words.text(states_name(needs(call).states));
}

fn states_name(states: States) -> &'static str {
    match states {
        States::Any => "any",
        States::Created => "Created",
        States::Active => "Active",
        States::CreatedOrActive => "Created or Active",
        States::CreatedOrFinalized => "Created or Finalized",
    }
}

// Adds the value of P13: the number of the target's children.
pub fn push_children(words: &mut Words, tree: &Tree, target: u64) {
    let Some(count) = tree.children_of(target) else {
        return;
    };
    words.decimal("partition ", target);
    words.decimal(" has ", u64::from(count));
    words.text(if count == 1 { " child" } else { " children" });
}

// Adds the value of P14: the depth of the caller.
pub fn push_depth(words: &mut Words, tree: &Tree, caller: u64) {
    let Some(depth) = tree.depth_of(caller) else {
        return;
    };
    words.decimal("partition ", caller);
    words.decimal(" has depth ", depth);
    words.decimal(", and the most is ", MAX_DEPTH);
}

// Adds the value of P20: the range of the property.
pub fn push_range(words: &mut Words, call: &Call<'_>) {
    let Call::SetPartitionProperty { code, .. } = call else {
        return;
    };
    let Some(property) = Property::of(*code) else {
        return;
    };
    words.text(property_name(property));
    words.text(match property {
        Property::PrivilegeFlags => " takes any mask within the caller's",
        Property::CpuReserve | Property::CpuCap => " takes 0 to 65536",
        Property::CpuWeight => " takes 1 to 10000",
    });
}

// Adds the values of P24: the pages that the call needs, and those of the partition that pays.
pub fn push_pages(words: &mut Words, tree: &Tree, target: u64, call: &Call<'_>) {
    let (Some(partition), Some(children)) = (tree.get(target), tree.children_of(target)) else {
        return;
    };
    let needed = needs(call).charge;
    let pooled = partition.pages(PageKind::Pooled).count();
    words.decimal("needs ", needed);
    words.text(if needed == 1 { " page" } else { " pages" });
    words.decimal(", partition ", target);
    words.decimal(" has ", available(partition, children, pooled));
    words.decimal(" available of ", pooled);
    words.text(" pooled");
}
