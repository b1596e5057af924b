// Which word a rule works on.
ghost use Rattle.std.specs.Prelude.{◌≡◌};
ghost use Rattle.xp_protocol.specs.Rules.{wanted_of};
ghost use Rattle.xp_partition.specs.Keeping.{state_of};
ghost use Rattle.xp_partition.specs.Partners.{AllHaveNotes};
ghost use Rattle.xp_steps.specs.Stepping.{CanStep};

use crate::{booting, linking, owning, peering};
use xp_base::ids::{Channel, PartId};
use xp_base::step::Wanted;
use xp_partition::keeping::Keeping;
use xp_partition::life::Life;
use xp_protocol::rule::Rule;

/// The step of a rule that can be followed: its word, what it does with it, and the mark of its
/// copy.
#[tactic(auto, using(crate::proofs::Wants::wanting))]
pub fn wanted(keeping: &Keeping, rule: Rule) -> Wanted
    requires can { CanStep keeping.now rule }
    requires room { AllHaveNotes 1 keeping.now.partners }
    ensures { result ≡ wanted_of keeping.now.part (state_of keeping.now) rule }
{
    match keeping.life {
        Life::Booting => booting::wanted(keeping, rule),
        Life::Up => wanted_up(keeping, rule),
        Life::Halted { .. } => unreachable!(),
    }
}

// The step of a rule that can be followed, after the boot.
#[tactic(auto, using(crate::proofs::Wants::wanting))]
fn wanted_up(keeping: &Keeping, rule: Rule) -> Wanted
    requires can { CanStep keeping.now rule }
    requires up { keeping.now.life ≡ Life.Up }
    requires room { AllHaveNotes 1 keeping.now.partners }
    ensures { result ≡ wanted_of keeping.now.part (state_of keeping.now) rule }
{
    match rule {
        Rule::Link(number, channel, rule) => {
            linking::wanted(
                keeping,
                PartId::known(number),
                Channel::known(channel),
                rule,
            )
        }
        Rule::Peer(number, rule) => peering::wanted(keeping, PartId::known(number), rule),
        Rule::Own(rule) => owning::wanted(keeping, rule),
    }
}
