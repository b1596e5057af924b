// The steps for the partners.
ghost use Rattle.std.specs.Prelude.{◌≡◌, ◌<◌, length};
ghost use Rattle.xp_protocol.specs.declared.rule.Rule.TheVariants.{Peer as ForPeer};
ghost use Rattle.xp_protocol.specs.Rules.{mark_of, wanted_of};
ghost use Rattle.xp_partition.specs.Keeping.{state_of};
ghost use Rattle.xp_partition.specs.Partners.{partner_at, AllHaveNotes};
ghost use Rattle.xp_steps.specs.Changing.{ChangesOne, MayFollow, IsPeerStepped};
ghost use Rattle.xp_steps.specs.Stepping.{CanStep, IsStepped};

use crate::counting::{count_copy, numbered};
use xp_base::ids::PartId;
use xp_base::step::{Answer, CopyMark, Wanted};
use xp_partition::keeping::Keeping;
use xp_partition::life::Life;
use xp_partition::partners::Partners;
use xp_partner::partner::Partner;
use xp_protocol::rule::PeerRule;

/// The step of a rule for a partner, with the number of its copy.
#[tactic(auto, using(crate::proofs::Wants::peering))]
pub fn wanted(keeping: &Keeping, number: PartId, rule: PeerRule) -> Wanted
    requires can { CanStep keeping.now (ForPeer number rule) }
    ensures { result ≡ wanted_of keeping.now.part (state_of keeping.now) (ForPeer number rule) }
{
    let partner = keeping.partners.at(number);
    let wanted = partner.wanted(rule);
    let Some(mark) = wanted.mark else {
        return wanted;
    };
    let going = partner.number(mark.kind);
    let mark = numbered(mark, &keeping.clock, going);
    Wanted {
        mark: Some(mark),
        ..wanted
    }
}

/// The step of a rule for a partner has answered, after the boot.
#[tactic(auto, using(crate::proofs::PeerSteps::stepping))]
pub fn step(
    keeping: &mut Keeping,
    number: PartId,
    rule: PeerRule,
    mark: Option<CopyMark>,
    answer: Answer,
)
    requires can { CanStep keeping.old (ForPeer number rule) }
    requires up { keeping.old.life ≡ Life.Up }
    requires mark { mark ≡
        mark_of keeping.old.part (state_of keeping.old) (ForPeer number rule) }
    requires room { AllHaveNotes 1 keeping.old.partners }
    ensures { IsStepped keeping.old (ForPeer number rule) answer keeping.new }
{
    count_copy(&mut keeping.clock, mark);
    let turn = keeping.clock.turns() + 1;
    step_for(&mut keeping.partners, number, rule, turn, mark, answer);
}

/// What the step of a rule for a partner makes of the partners.
#[tactic(auto, using(crate::proofs::Changing::changing))]
pub fn step_for(
    partners: &mut Partners,
    number: PartId,
    rule: PeerRule,
    turn: u64,
    mark: Option<CopyMark>,
    answer: Answer,
)
    requires number { number < length partners.old.list }
    requires can { MayFollow rule (partner_at partners.old.list number) }
    ensures one { ChangesOne number partners.old partners.new }
    ensures stepped { IsPeerStepped turn rule mark answer
        (partner_at partners.old.list number) (partner_at partners.new.list number) }
{
    partners.touch(number);
    let partner = partners.at_mut(number);
    step_of(partner, rule, turn, mark, answer);
}

// What the step of a rule for a partner makes of that partner.
fn step_of(partner: &mut Partner, rule: PeerRule, turn: u64, mark: Option<CopyMark>, answer: Answer)
    requires { MayFollow rule partner.old }
    ensures { IsPeerStepped turn rule mark answer partner.old partner.new }
{
    partner.names();
    partner.step(rule, turn, mark, answer);
}
