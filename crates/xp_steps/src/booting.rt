// The steps of a boot.
ghost use Rattle.std.specs.Prelude.{◌≡◌, Some, None};
ghost use Rattle.xp_base.specs.declared.step.Answer.TheVariants.{Word};
ghost use Rattle.xp_protocol.specs.Rules.{wanted_of};
ghost use Rattle.xp_partition.specs.Keeping.{state_of};
ghost use Rattle.xp_steps.specs.Stepping.{CanStep, IsStepped};

use crate::peering::step_for;
use crate::telling::{OwnWord, tell_all};
use xp_base::ids::PartId;
use xp_base::step::{Answer, Wanted};
use xp_discover::boot::{Boot, BootAnswer};
use xp_partition::keeping::Keeping;
use xp_partition::life::Life;
use xp_protocol::rule::{OwnRule, PeerRule, Rule};

/// The step that comes next in a boot.
#[tactic(auto, using(crate::proofs::Wants::booting))]
pub fn wanted(keeping: &Keeping, rule: Rule) -> Wanted
    requires can { CanStep keeping.now rule }
    requires boots { keeping.now.life ≡ Life.Booting }
    ensures { result ≡ wanted_of keeping.now.part (state_of keeping.now) rule }
{
    match keeping.boot.next() {
        Some(wanted) => wanted,
        None => unreachable!(),
    }
}

/// The step of a boot for a partner has answered a word.
#[tactic(auto, using(crate::proofs::Boots::clearing))]
pub fn clear(keeping: &mut Keeping, number: PartId, rule: PeerRule, word: u64)
    requires can { CanStep keeping.old (Rule.Peer number rule) }
    requires boots { keeping.old.life ≡ Life.Booting }
    ensures { IsStepped keeping.old (Rule.Peer number rule) (Word word) keeping.new }
{
    let turn = keeping.clock.turns() + 1;
    step_for(
        &mut keeping.partners,
        number,
        rule,
        turn,
        None,
        Answer::Word(word),
    );
    let _ = keeping.boot.feed(word);
}

/// The step of a boot for the partition has answered a word. With its last step the boot is over,
/// and a stamp that can't be raised halts the partition.
#[tactic(auto, using(crate::proofs::Boots::going))]
pub fn step(keeping: &mut Keeping, rule: OwnRule, word: u64)
    requires can { CanStep keeping.old (Rule.Own rule) }
    requires boots { keeping.old.life ≡ Life.Booting }
    ensures { IsStepped keeping.old (Rule.Own rule) (Word word) keeping.new }
{
    match keeping.boot.feed(word) {
        None => {}
        Some(BootAnswer::Halted { word }) => keeping.life = Life::Halted { word },
        Some(BootAnswer::Booted { stamp }) => {
            keeping.life = Life::Up;
            keeping.boot = Boot::new(keeping.part.part, keeping.part.count.get());
            keeping.stamp = stamp;
            tell_all(&mut keeping.partners, OwnWord::Stamp(stamp));
        }
    }
}
