// Booting the machine.
ghost use Rattle.std.specs.Prelude.{◌≡◌, ◌≤◌, ◌&&◌, ℕ, Some, None, cond, nat_le, nat_lt, IfOk, IfErr, OnOk};
ghost use Rattle.std.specs.FinMap as map;
ghost use Rattle.std.specs.FinSet as set;
ghost use Rattle.hv_partition.specs.Partition.{pages_in, with_pages};
ghost use Rattle.hv_policy.specs.Boot.{boot as booted};
ghost use Rattle.hv_policy.specs.BootFault.{boot_fault, IsBootRefusal};
ghost use Rattle.hv_machine.specs.BootRoot.{IsBootRoot};
ghost use Rattle.hv_machine.specs.IsFlat.{IsFlat};
ghost use Rattle.hv_machine.specs.MachineInvariant.{MachineInvariant};
ghost use Rattle.hv_machine.specs.Sound.{IsSound};
ghost use Rattle.hv_vp.specs.Vp.{new_vp};

use crate::machine::Machine;
use hv_defs::{FIRST_CHILD_ID, Life, MAX_PAGES, MAX_VPS, ROOT_ID, VP_CHARGE};
use hv_partition::{PageKind, Partition};
use hv_policy::{BootRefused, Config};
use hv_tree::IdTree;
use hv_vp::Vp;
use std::alloc::{AllocError, Allocator};

impl<A: Allocator + Copy> Machine<A> {
    /// Boots a machine with the root partition of the configuration, and nothing else.
    pub fn boot(alloc: A, config: Config) -> Result<Machine<A>, BootRefused>
        ensures refused { IfErr result (IsBootRefusal config) }
        ensures accepted { IfOk result (λ m. boot_fault config ≡ None) }
        ensures state { IfOk result (λ m. IsFlat m (booted config)) }
        ensures pages { IfOk result (λ m. m.pages ≡ config.pages) }

        // The machine stands for at least one flat state, and that state is lawful. The clauses on all
        // flat states that it stands for are therefore not vacuous.
        ensures lasting { IfOk result MachineInvariant }
        ensures sound { IfOk result IsSound }
    {
        check_config(config)?;
        let Ok(root) = make_root(&alloc, config) else {
            return Err(BootRefused::Memory);
        };
        let Ok(tree) = IdTree::new(alloc, ROOT_ID, root) else {
            return Err(BootRefused::Memory);
        };
        Ok(Machine {
            tree,
            pages: config.pages,
            next: FIRST_CHILD_ID,
            served: 0,
            alloc,
        })
    }
}

// Checks a configuration. The error is its first fault.
fn check_config(config: Config) -> Result<(), BootRefused>
    ensures ok { IfOk result (λ u. boot_fault config ≡ None) }
    ensures fault { IfErr result (λ e. boot_fault config ≡ Some e) }
{
    if config.pages == 0 || config.pages > MAX_PAGES {
        return Err(BootRefused::Pages);
    }
    if config.pool > config.pages {
        return Err(BootRefused::Pool);
    }
    if config.vps == 0
        || config.vps > MAX_VPS
        || VP_CHARGE * u64::from(config.vps) > u64::from(config.pool)
    {
        return Err(BootRefused::Vps);
    }
    Ok(())
}

// Makes the root partition: the first pages are pooled, the others are loose, and it has its processors.
fn make_root<A: Allocator + Clone>(alloc: &A, config: Config) -> Result<Partition<A>, AllocError>
    requires { config.pool ≤ config.pages }
    ensures { IfOk result (IsBootRoot config) }
{
    let mut root = Partition::new(alloc.clone()?, Life::Active, config.mask)?;
    give(&mut root, PageKind::Loose, config.pool, config.pages)?;
    give(&mut root, PageKind::Pooled, 0, config.pool)?;
    give_vps(&mut root, alloc, config.vps)?;
    Ok(root)
}

// Adds the pages from `from` up to but not including `to`, as one run.
fn give<A: Allocator>(
    root: &mut Partition<A>,
    kind: PageKind,
    from: u32,
    to: u32,
) -> Result<(), AllocError>
    requires order { from ≤ to }
    requires none { (pages_in kind root.old).pages ≡ set.empty }
    ensures pages { OnOk result ((page : ℕ) → set.contains (pages_in kind root.new).pages page
        ≡ nat_le from page && nat_lt page to) }
    ensures rest { root.new ≡ with_pages kind (pages_in kind root.new) root.old }
{
    if from == to {
        return Ok(());
    }
    root.reserve(kind, 1)?;
    root.put_run(kind, from, u64::from(to - from));
    Ok(())
}

// Adds the processors with the indexes below `to`.
fn give_vps<A: Allocator + Clone>(
    root: &mut Partition<A>,
    alloc: &A,
    to: u32,
) -> Result<(), AllocError>
    requires { root.old.vps.vps ≡ map.empty }
    ensures vps { OnOk result ((index : ℕ) → map.get root.new.vps.vps index
        ≡ cond (nat_lt index to) (Some (new_vp index)) None) }
    ensures rest { root.new ≡ record root.old { vps = root.new.vps } }
{
    for index in 0..to {
        let vp = Vp::new(alloc.clone()?, index)?;
        root.reserve_vp()?;
        root.add_vp(index, vp);
    }
    Ok(())
}
