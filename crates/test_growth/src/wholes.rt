// Machines that are booted, scripts that are read and tables that are printed.

use crate::rationed::Heap;
use crate::texts::has_table;
use crate::trial::{Answer, Told, Trial, attempt};
use hv_history::Kept;
use hv_machine::Machine;
use hv_policy::{Action, BootRefused, Caller, Config};
use hv_privs::Privileges;
use hv_script::{FaultKind, Line, Script, parse};
use hv_text::{PrintFault, table};
use std::alloc::AllocError;

const TEXT: &[u8] = b"boot 32 12 1 0x000000f700000044 1000
1.0 call 0x46 0x10 0x20 070809
phase
2.1 rdmsr 0x40000001
";

const ROOT_ALONE: &str = "\
partition 1 parent - Active mask 000000f700000044 loose 20 pooled 12 inuse 4 vps 1 ports 0 connections 0
pages 32
";

// A machine whose history may hold 1,000 events.
pub(crate) fn boot(heap: &Heap) -> Result<Kept<&Heap>, BootRefused> {
    Kept::boot(heap, config(), 1000)
}

fn config() -> Config {
    Config {
        pages: 32,
        pool: 12,
        vps: 1,
        mask: Privileges::of(0xF7_0000_0044),
    }
}

fn refused_boot(why: BootRefused) -> Answer {
    if why == BootRefused::Memory {
        Answer::Memory
    } else {
        Answer::Wrong
    }
}

// No machine yet.
#[derive(Drop)]
struct Booting<'h> {
    heap: &'h Heap,
    made: Option<Machine<&'h Heap>>,
}

impl<'h> Trial for Booting<'h> {
    fn call(&mut self) -> Answer {
        match Machine::boot(self.heap, config()) {
            Ok(machine) => {
                self.made = Some(machine);
                Answer::Served
            }
            Err(why) => refused_boot(why),
        }
    }

    fn is_before(&mut self) -> bool {
        self.made.is_none()
    }

    fn is_after(&mut self) -> bool {
        match &self.made {
            Some(machine) => is_booted(machine),
            None => false,
        }
    }
}

// Whether no event was served and the root is the only partition.
fn is_booted(machine: &Machine<&Heap>) -> bool {
    let tree = machine.tree();
    let is_alone = tree.contains(1) && tree.parent_of(1) == None && tree.children_of(1) == Some(0);
    machine.served() == 0 && machine.next_id() == 2 && is_alone
}

// No machine with a history yet.
#[derive(Drop)]
struct Keeping<'h> {
    heap: &'h Heap,
    made: Option<Kept<&'h Heap>>,
}

impl<'h> Trial for Keeping<'h> {
    fn call(&mut self) -> Answer {
        match boot(self.heap) {
            Ok(kept) => {
                self.made = Some(kept);
                Answer::Served
            }
            Err(why) => refused_boot(why),
        }
    }

    fn is_before(&mut self) -> bool {
        self.made.is_none()
    }

    fn is_after(&mut self) -> bool {
        match &self.made {
            Some(kept) => is_kept(self.heap, kept),
            None => false,
        }
    }
}

fn is_kept(heap: &Heap, kept: &Kept<&Heap>) -> bool {
    let is_asked = kept.config() == config() && kept.limit() == 1000;
    let is_new = kept.history().len() == 0 && is_booted(kept.machine());
    is_asked && is_new && has_table(heap.inner(), kept, ROOT_ALONE.as_bytes())
}

// No script read yet.
#[derive(Drop)]
struct Reading<'h> {
    heap: &'h Heap,
    read: Option<Script<&'h Heap>>,
}

impl<'h> Trial for Reading<'h> {
    // The lines that need memory are the second and the fourth.
    fn call(&mut self) -> Answer {
        match parse(self.heap, TEXT) {
            Ok(script) => {
                self.read = Some(script);
                Answer::Served
            }
            Err(fault) if fault.kind == FaultKind::Memory => Answer::Memory,
            Err(_) => Answer::Wrong,
        }
    }

    fn is_before(&mut self) -> bool {
        self.read.is_none()
    }

    fn is_after(&mut self) -> bool {
        match &self.read {
            Some(script) => is_read(script),
            None => false,
        }
    }
}

fn is_read(script: &Script<&Heap>) -> bool {
    let is_head = script.config == config() && script.limit == 1000;
    match script.lines.as_slice() {
        [call, access] => is_head && is_call(call) && is_access(access),
        _ => false,
    }
}

fn is_call(line: &Line<&Heap>) -> bool {
    let Action::Hypercall(frame) = &line.action else {
        return false;
    };
    let registers = [frame.rcx, frame.rdx, frame.r8];
    let is_frame = registers == [0x46, 0x10, 0x20]
        && frame.input.as_slice() == [7, 8, 9].as_slice();
    line.phase == 0 && line.by == Caller { part: 1, vp: 0 } && is_frame
}

fn is_access(line: &Line<&Heap>) -> bool {
    let is_read = matches!(line.action, Action::ReadMsr(0x4000_0001));
    line.phase == 1 && line.by == Caller { part: 2, vp: 1 } && is_read
}

// A machine to which nothing has happened.
#[derive(Drop)]
struct Printing<'h> {
    heap: &'h Heap,
    kept: Kept<&'h Heap>,
}

impl<'h> Trial for Printing<'h> {
    // The text goes to another allocator's memory.
    fn call(&mut self) -> Answer {
        let mut out: Vec<u8> = Vec::new(self.heap.inner());
        match table(&mut out, &self.kept) {
            Ok(()) if out.as_slice() == ROOT_ALONE.as_bytes() => Answer::Served,
            Err(PrintFault::Memory) if out.is_empty() => Answer::Memory,
            _ => Answer::Wrong,
        }
    }

    fn is_before(&mut self) -> bool {
        is_kept(self.heap, &self.kept)
    }

    fn is_after(&mut self) -> bool {
        is_kept(self.heap, &self.kept)
    }
}

// The thing that is made, read or printed.
#[derive(Clone, Copy)]
pub(crate) enum Whole {
    Machine,
    Kept,
    Script,
    Table,
}

pub(crate) fn ask(heap: &Heap, whole: Whole, blocks: u64) -> Result<Told, AllocError> {
    match whole {
        Whole::Machine => Ok(attempt(heap, &mut Booting { heap, made: None }, blocks)),
        Whole::Kept => Ok(attempt(heap, &mut Keeping { heap, made: None }, blocks)),
        Whole::Script => Ok(attempt(heap, &mut Reading { heap, read: None }, blocks)),
        Whole::Table => match boot(heap) {
            Ok(kept) => Ok(attempt(heap, &mut Printing { heap, kept }, blocks)),
            Err(_) => Err(AllocError),
        },
    }
}
