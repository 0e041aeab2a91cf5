// The names of registers.
ghost use Rattle.std.specs.Prelude.{◌≡◌, ◌≤◌, option_map};
ghost use Rattle.hv_words.specs.Names.{register_name};

use crate::words::Words;
use hv_vp::name_of_msr;

/// The name of the register with this number in a call, HV_REGISTER_NAME, or `None` if there is none.
///
/// As an MSR it has the prefix `HV_X64_MSR_`.
#[tactic(auto, unfolding(crate::specs::Names::register_name))]
pub fn register_name(name: u32) -> Option<&'static str>
    ensures { option_map (λ text. text.now) result ≡ register_name name }
{
    match name {
        0x0002_0000..=0x0002_0011 => general_name(name),
        0x0009_0003 => Some("VP_INDEX"),
        0x000A_0000..=0x000A_000F => sint_name(name),
        0x000A_0010 => Some("SCONTROL"),
        0x000A_0011 => Some("SVERSION"),
        0x000A_0012 => Some("SIEFP"),
        0x000A_0013 => Some("SIMP"),
        0x000A_0014 => Some("EOM"),
        _ => None,
    }
}

// The name of a general register.
#[tactic(auto, unfolding(crate::specs::Names::register_name))]
fn general_name(name: u32) -> Option<&'static str>
    requires least { 0x20000 ≤ name }
    requires most { name ≤ 0x20011 }
    ensures { option_map (λ text. text.now) result ≡ register_name name }
{
    match name {
        0x0002_0000 => Some("RAX"),
        0x0002_0001 => Some("RCX"),
        0x0002_0002 => Some("RDX"),
        0x0002_0003 => Some("RBX"),
        0x0002_0004 => Some("RSP"),
        0x0002_0005 => Some("RBP"),
        0x0002_0006 => Some("RSI"),
        0x0002_0007 => Some("RDI"),
        0x0002_0008 => Some("R8"),
        0x0002_0009 => Some("R9"),
        0x0002_000A => Some("R10"),
        0x0002_000B => Some("R11"),
        0x0002_000C => Some("R12"),
        0x0002_000D => Some("R13"),
        0x0002_000E => Some("R14"),
        0x0002_000F => Some("R15"),
        0x0002_0010 => Some("RIP"),
        0x0002_0011 => Some("RFLAGS"),
        _ => None,
    }
}

// The name of the register of a SINT.
#[tactic(auto, unfolding(crate::specs::Names::register_name))]
fn sint_name(name: u32) -> Option<&'static str>
    requires least { 0xA0000 ≤ name }
    requires most { name ≤ 0xA000F }
    ensures { option_map (λ text. text.now) result ≡ register_name name }
{
    match name {
        0x000A_0000 => Some("SINT0"),
        0x000A_0001 => Some("SINT1"),
        0x000A_0002 => Some("SINT2"),
        0x000A_0003 => Some("SINT3"),
        0x000A_0004 => Some("SINT4"),
        0x000A_0005 => Some("SINT5"),
        0x000A_0006 => Some("SINT6"),
        0x000A_0007 => Some("SINT7"),
        0x000A_0008 => Some("SINT8"),
        0x000A_0009 => Some("SINT9"),
        0x000A_000A => Some("SINT10"),
        0x000A_000B => Some("SINT11"),
        0x000A_000C => Some("SINT12"),
        0x000A_000D => Some("SINT13"),
        0x000A_000E => Some("SINT14"),
        0x000A_000F => Some("SINT15"),
        _ => None,
    }
}

/// Adds a register by its name, with its number in parentheses. An unknown register has its number alone.
pub fn push_register(words: &mut Words, name: u32) {
    match register_name(name) {
        Some(known) => {
            words.text(known);
            words.hex(" (", u64::from(name));
            words.text(")");
        }
        None => words.hex("", u64::from(name)),
    }
}

/// Adds an MSR by its name, with its number in parentheses. An unknown MSR has its number alone.
pub fn push_msr(words: &mut Words, msr: u32) {
    let known = match name_of_msr(msr) {
        Some(name) => register_name(name),
        None => None,
    };
    match known {
        Some(known) => {
            words.text("HV_X64_MSR_");
            words.text(known);
            words.hex(" (", u64::from(msr));
            words.text(")");
        }
        None => words.hex("MSR ", u64::from(msr)),
    }
}
