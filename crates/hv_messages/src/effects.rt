// The effect of each change at a processor. The last argument says what the processor read before the change
// or, for a post, what the change returned.
ghost use Rattle.std.specs.Prelude.{◌≡◌, ◌<◌, false, option_map};
ghost use Rattle.std.specs.FinSet as set;
ghost use Rattle.hv_defs.specs.Vectors.{highest};
ghost use Rattle.hv_defs.specs.declared.sizes.TheConstants.{SINTS};
ghost use Rattle.hv_admit.specs.Effect.{Tells, quiet as quiet_of};
ghost use Rattle.hv_mail.specs.Mail.{at, has_next, with_last};
ghost use Rattle.hv_mail.specs.declared.message.Message.{Message};
ghost use Rattle.hv_policy.specs.Effect.{post, row_signalled, with_vp};
ghost use Rattle.hv_policy.specs.Flat.{Flat};
ghost use Rattle.hv_policy.specs.Mail.{cleared};
ghost use Rattle.hv_admit.specs.Tie.{here, mail_row};
ghost use Rattle.hv_vp.specs.Vp.{VpState};
ghost use Rattle.hv_messages.specs.Processor.{HasState, interrupted, without_flag};

use hv_admit::{Effect, FlagChange, Synic};
use hv_mail::Pending;
use hv_vp::Vp;
use std::alloc::Allocator;

// Returns the effect of a post at a SINT below 16 of the processor. `shown` says whether a message became
// shown.
#[tactic(auto, using(crate::proofs::VpEffects::shows_told, crate::proofs::VpEffects::waits_told))]
pub fn posted<A: Allocator>(part: u64, index: u32, sint: u8, vp: &Vp<A>, shown: bool) -> Effect
    requires { sint < SINTS }
    ensures { (f : Flat) (v : VpState) (message : Message) → HasState f part index v
        → vp.now.registers ≡ v.registers → shown ≡ has_next (with_last (at v.mail sint) message)
        → Tells result f (post (mail_row (here part index sint) false message) f) }
{
    if !shown {
        return Effect::Synic(Synic {
            waiting: Some(sint),
            ..quiet(part, index)
        });
    }
    let mut raised = Pending::new();
    vp.add_vector(sint, &mut raised);
    Effect::Synic(Synic {
        shown: 1 << sint,
        raised,
        ..quiet(part, index)
    })
}

// Returns the effect of setting an event flag of a SINT below 16 of the processor. `was_set` says whether it
// was set before.
pub fn signalled<A: Allocator>(
    part: u64,
    index: u32,
    sint: u8,
    flag: u16,
    vp: &Vp<A>,
    was_set: bool,
) -> Effect
    requires { sint < SINTS }
    ensures { (f : Flat) (v : VpState) → HasState f part index v → vp.now.registers ≡ v.registers
        → was_set ≡ set.contains v.flags (sint, flag)
        → Tells result f (record f { vp = with_vp f.vp (part, index) (row_signalled sint flag) }) }
{
    if was_set {
        return Effect::Nothing;
    }
    let mut raised = Pending::new();
    vp.add_vector(sint, &mut raised);
    Effect::Synic(Synic {
        flag: Some(FlagChange {
            sint,
            flag,
            is_set: true,
        }),
        raised,
        ..quiet(part, index)
    })
}

// Returns the effect of clearing an event flag of the processor. `was_set` says whether it was set before.
pub fn flag_cleared(part: u64, index: u32, sint: u8, flag: u16, was_set: bool) -> Effect
    ensures { (f : Flat) (v : VpState) → HasState f part index v → was_set ≡ set.contains v.flags (sint, flag)
        → Tells result f (record f { vp = with_vp f.vp (part, index) (without_flag sint flag) }) }
{
    if !was_set {
        return Effect::Nothing;
    }
    Effect::Synic(Synic {
        flag: Some(FlagChange {
            sint,
            flag,
            is_set: false,
        }),
        ..quiet(part, index)
    })
}

// Returns the effect of removing the message that a SINT below 16 of the processor shows. `port` is the id of
// its port, or `None` if the SINT shows no message.
#[tactic(auto, using(crate::proofs::VpEffects::again_told))]
pub fn slot_cleared(part: u64, index: u32, sint: u8, port: Option<u32>) -> Effect
    requires { sint < SINTS }
    ensures { (f : Flat) (v : VpState) → HasState f part index v
        → port ≡ option_map (λ message. message.port) (at v.mail sint).slot
        → Tells result f (record f { mail = cleared (here part index sint) f.mail }) }
{
    let Some(port) = port else {
        return Effect::Nothing;
    };
    Effect::Synic(Synic {
        shown: 1 << sint,
        freed: Some(port),
        ..quiet(part, index)
    })
}

// Returns the effect of taking the highest pending vector of the processor. `vector` is that vector, or
// `None` if none is pending.
pub fn taken(part: u64, index: u32, vector: Option<u8>) -> Effect
    ensures { (f : Flat) (v : VpState) → HasState f part index v → vector ≡ highest v.pending
        → Tells result f (record f { vp = with_vp f.vp (part, index) interrupted }) }
{
    let Some(vector) = vector else {
        return Effect::Nothing;
    };
    Effect::Synic(Synic {
        taken: Some(vector),
        ..quiet(part, index)
    })
}

// Returns the effect at a processor that names nothing.
fn quiet(part: u64, vp: u32) -> Synic
    ensures { result ≡ quiet_of part vp }
{
    Synic {
        part,
        vp,
        shown: 0,
        waiting: None,
        flag: None,
        raised: Pending::new(),
        taken: None,
        freed: None,
    }
}
