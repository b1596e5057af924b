// The steps for the partition as a whole, after the boot.
ghost use Rattle.std.specs.Prelude.{◌≡◌};
ghost use Rattle.xp_base.specs.declared.step.Answer.TheVariants.{Word};
ghost use Rattle.xp_protocol.specs.declared.rule.Rule.TheVariants.{Own};
ghost use Rattle.xp_protocol.specs.Rules.{wanted_of};
ghost use Rattle.xp_partition.specs.Keeping.{state_of};
ghost use Rattle.xp_steps.specs.Stepping.{CanStep, IsStepped};

use crate::telling::{OwnWord, tell_all};
use xp_base::layout::{ACTIVATION, BEAT, DEACTIVATION, ENGAGED, MASK, OFFLINE};
use xp_base::step::{Op, OpKind, Wanted};
use xp_partition::keeping::Keeping;
use xp_partition::life::Life;
use xp_protocol::rule::OwnRule;

/// The step of a rule.
#[tactic(auto, using(crate::proofs::Wants::owning))]
pub fn wanted(keeping: &Keeping, rule: OwnRule) -> Wanted
    requires can { CanStep keeping.now (Own rule) }
    requires up { keeping.now.life ≡ Life.Up }
    ensures { result ≡ wanted_of keeping.now.part (state_of keeping.now) (Own rule) }
{
    let (index, kind) = match rule {
        OwnRule::ReadEngaged => (ENGAGED, OpKind::Load),
        OwnRule::TakeDeactivation => (DEACTIVATION, OpKind::Take),
        OwnRule::TakeActivation => (ACTIVATION, OpKind::Take),
        OwnRule::StoreMask => (MASK, OpKind::Store(keeping.partners.mask())),
        OwnRule::StoreBeat => (BEAT, OpKind::Store(keeping.beat.next())),
        OwnRule::StoreOffline => (OFFLINE, OpKind::Store(keeping.next_offline())),
        OwnRule::ReadStamp | OwnRule::ZeroMask | OwnRule::ZeroOffline | OwnRule::WriteStamp => {
            unreachable!()
        }
    };
    let owner = keeping.part.part;
    Wanted {
        op: Op { owner, index, kind },
        mark: None,
    }
}

/// The step of a rule has answered a word.
#[tactic(auto, using(crate::proofs::OwnSteps::owning))]
pub fn step(keeping: &mut Keeping, rule: OwnRule, word: u64)
    requires can { CanStep keeping.old (Own rule) }
    requires up { keeping.old.life ≡ Life.Up }
    ensures { IsStepped keeping.old (Own rule) (Word word) keeping.new }
{
    match rule {
        OwnRule::ReadEngaged => tell_all(&mut keeping.partners, OwnWord::Engaged(word)),
        OwnRule::TakeDeactivation => tell_all(&mut keeping.partners, OwnWord::Deactivated(word)),
        OwnRule::StoreMask => {
            let mask = keeping.partners.mask();
            keeping.beat.store_mask(mask);
            tell_all(&mut keeping.partners, OwnWord::Mask(mask));
        }
        OwnRule::TakeActivation => {}
        OwnRule::StoreBeat => {
            let _ = keeping.beat.tick();
        }
        OwnRule::StoreOffline => {
            let count = keeping.next_offline();
            keeping.beat.store_offline(count, keeping.script.begun());
        }
        OwnRule::ReadStamp | OwnRule::ZeroMask | OwnRule::ZeroOffline | OwnRule::WriteStamp => {
            unreachable!()
        }
    }
}
