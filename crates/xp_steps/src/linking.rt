// The steps at the ends of the partners.
ghost use Rattle.std.specs.Prelude.{◌≡◌, ◌<◌, length};
ghost use Rattle.xp_protocol.specs.declared.rule.Rule.TheVariants.{Link};
ghost use Rattle.xp_protocol.specs.Rules.{mark_of, wanted_of};
ghost use Rattle.xp_channel.specs.Planned.{MayFail};
ghost use Rattle.xp_partition.specs.Keeping.{state_of};
ghost use Rattle.xp_partition.specs.Partners.{partner_at, AllHaveNotes};
ghost use Rattle.xp_steps.specs.Changing.{ChangesOne, MayLink, IsLinkStepped};
ghost use Rattle.xp_steps.specs.Stepping.{CanStep, IsStepped};

use crate::counting::{count_copy, count_put, numbered};
use xp_base::ids::{Channel, PartId};
use xp_base::step::{Answer, CopyMark, Wanted};
use xp_partition::keeping::Keeping;
use xp_partition::partners::Partners;
use xp_partner::partner::Partner;
use xp_protocol::rule::LinkRule;

/// The step of a rule at an end, with the number of its copy.
#[tactic(auto, using(crate::proofs::Wants::linking))]
pub fn wanted(keeping: &Keeping, number: PartId, channel: Channel, rule: LinkRule) -> Wanted
    requires can { CanStep keeping.now (Link number channel rule) }
    requires room { AllHaveNotes 1 keeping.now.partners }
    ensures { result ≡
        wanted_of keeping.now.part (state_of keeping.now) (Link number channel rule) }
{
    let partner = keeping.partners.at(number);
    let wanted = partner.wanted_link(channel, rule);
    let Some(mark) = wanted.mark else {
        return wanted;
    };
    let going = partner.link_number(channel, mark.kind);
    let mark = numbered(mark, &keeping.clock, going);
    Wanted {
        mark: Some(mark),
        ..wanted
    }
}

/// The step of a rule at an end has answered.
#[tactic(auto, using(crate::proofs::LinkSteps::stepping))]
pub fn step(
    keeping: &mut Keeping,
    number: PartId,
    channel: Channel,
    rule: LinkRule,
    mark: Option<CopyMark>,
    answer: Answer,
)
    requires can { CanStep keeping.old (Link number channel rule) }
    requires mark { mark ≡
        mark_of keeping.old.part (state_of keeping.old) (Link number channel rule) }
    requires load { MayFail mark answer }
    requires room { AllHaveNotes 1 keeping.old.partners }
    ensures { IsStepped keeping.old (Link number channel rule) answer keeping.new }
{
    count_copy(&mut keeping.clock, mark);
    count_put(&mut keeping.clock, rule, answer);
    step_at(&mut keeping.partners, number, channel, rule, mark, answer);
}

// What the step of a rule at an end makes of the partners.
#[tactic(auto, using(crate::proofs::Changing::changing))]
fn step_at(
    partners: &mut Partners,
    number: PartId,
    channel: Channel,
    rule: LinkRule,
    mark: Option<CopyMark>,
    answer: Answer,
)
    requires number { number < length partners.old.list }
    requires can { MayLink channel rule mark answer (partner_at partners.old.list number) }
    ensures one { ChangesOne number partners.old partners.new }
    ensures stepped { IsLinkStepped channel rule mark answer
        (partner_at partners.old.list number) (partner_at partners.new.list number) }
{
    partners.touch(number);
    let partner = partners.at_mut(number);
    step_of(partner, channel, rule, mark, answer);
}

// What the step of a rule at an end makes of its partner.
#[tactic(auto, using(crate::proofs::Changing::naming))]
fn step_of(
    partner: &mut Partner,
    channel: Channel,
    rule: LinkRule,
    mark: Option<CopyMark>,
    answer: Answer,
)
    requires { MayLink channel rule mark answer partner.old }
    ensures { IsLinkStepped channel rule mark answer partner.old partner.new }
{
    partner.names();
    partner.step_link(channel, rule, mark, answer);
}
