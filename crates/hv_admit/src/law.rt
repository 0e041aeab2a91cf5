// What holds of each effect that an event tells.
ghost use Rattle.std.specs.Prelude.{◌≡◌};
ghost use Rattle.hv_policy.specs.Flat.{Flat};
ghost use Rattle.hv_admit.specs.Effect.{LeavesUnnamed, Tells};
ghost use Rattle.hv_admit.specs.Kind.{kind_of};
ghost use Rattle.hv_admit.specs.declared.effect.Effect.{Effect as EffectOf};
ghost use Rattle.hv_admit.specs.declared.effect.Effect.TheVariants as effect;

/// If no message, event flag, pending vector, page or processor changed, the effect is `Nothing`.
///
/// In particular this is the effect of each event that a rule refuses.
#[tactic(auto, using(crate::proofs::Unchanged::untold_unchanged))]
pub fn nothing_is_told_of_no_change()
    ensures { (f g : Flat) (told : EffectOf) → Tells told f g → LeavesUnnamed effect.Nothing f g
        → told ≡ effect.Nothing }
{}

/// Each change has effects of one kind alone.
///
/// For example, an effect that describes the finalizing of a partition with one processor is `Partition`, and
/// never `Processor`.
#[tactic(auto, using(crate::proofs::OneKind::one_kind))]
pub fn each_change_has_one_kind_of_effect()
    ensures { (f g : Flat) (told other : EffectOf) → Tells told f g → Tells other f g
        → kind_of told ≡ kind_of other }
{}
