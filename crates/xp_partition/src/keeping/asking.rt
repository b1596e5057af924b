// What a planner asks of a partition.
ghost use Rattle.std.specs.Prelude.{◌≡◌, ◌<◌, Option, Some, None, if◌then◌else◌};
ghost use Rattle.std.specs.Option.{option_copied};
ghost use Rattle.xp_script.specs.declared.command.Command.{Command};
ghost use Rattle.xp_protocol.specs.State.{peer_of};
ghost use Rattle.xp_protocol.specs.Acts.{named_end};
ghost use Rattle.xp_plan.specs.Plan.{agenda_up, agenda_at, ask_up, ask_by, ask_own, ask_partner, ask_booting, offline_at, command_at, script_asked, link_asked, link_rule, is_joined, quota, IsErrand};
ghost use Rattle.xp_plan.specs.PeerSteps.{for_peer, boot_at, beat_at, mask_at, engagements_at};
ghost use Rattle.xp_planner.specs.Places.{IsPlaceOf};
ghost use Rattle.xp_discover.specs.Booting.{rule_for};
ghost use Rattle.xp_partition.specs.Keeping.{state_of, IsKept, CanAsk};

use crate::keeping::Keeping;
use crate::life::Life;
use xp_base::ids::{Channel, PartId};
use xp_discover::boot::BootStep;
use xp_plan::errand::{Agenda, Errand};
use xp_planner::affairs::Affairs;
use xp_protocol::rule::{LinkRule, OwnRule, PeerRule, Rule};
use xp_rounds::rounds::Place;
use xp_script::command::Command;

impl Affairs for Keeping {
    ghost use Rattle.xp_partition.specs.Keeping.{part_in, state_of, CanAsk};

    ghost part = { part_in };

    ghost state = { state_of };

    ghost can_ask = { CanAsk };

    fn agenda(&self, place: &Place) -> Agenda {
        match self.life {
            Life::Up => self.agenda_up(place),
            Life::Booting | Life::Halted { .. } => Agenda::Boot,
        }
    }

    fn step(&self, place: &Place, errand: Errand, used: u8) -> Option<Rule> {
        match self.life {
            Life::Up => self.step_up(place, errand, used),
            Life::Booting => self.booting_step(errand),
            Life::Halted { .. } => None,
        }
    }
}

// The rule of a step for a partner, or at one of the ends.
fn peer_rule(partner: PartId, rule: Option<PeerRule>) -> Option<Rule>
    ensures { result ≡ for_peer partner rule }
{
    Some(Rule::Peer(partner.get(), rule?))
}

fn link_rule(partner: PartId, channel: u8, rule: Option<LinkRule>) -> Option<Rule>
    ensures { result ≡ link_rule partner channel rule }
{
    Some(Rule::Link(partner.get(), channel, rule?))
}

// The rule of the protocol that a step of a boot follows.
fn boot_rule(step: BootStep) -> Rule
    ensures { result ≡ rule_for step }
{
    match step {
        BootStep::ReadStamp => Rule::Own(OwnRule::ReadStamp),
        BootStep::ZeroMask => Rule::Own(OwnRule::ZeroMask),
        BootStep::ZeroOffline => Rule::Own(OwnRule::ZeroOffline),
        BootStep::ZeroMagic(partner) => Rule::Peer(partner.get(), PeerRule::ZeroMagic),
        BootStep::ClearOldBit(partner) => Rule::Peer(partner.get(), PeerRule::ClearOldBit),
        BootStep::WriteStamp => Rule::Own(OwnRule::WriteStamp),
    }
}

impl Keeping {
    // The agenda of a place once the boot is over.
    #[tactic(auto, using(crate::proofs::Asking::seen))]
    fn agenda_up(&self, place: &Place) -> Agenda
        requires kept { IsKept self.now }
        requires place { IsPlaceOf self.now.part place.now }
        ensures { result ≡ agenda_up place.now (state_of self.now) }
    {
        match place {
            Place::Own => Agenda::Own,
            Place::Partner(partner) => self.agenda_with(*partner),
        }
    }

    #[tactic(auto, using(crate::proofs::Asking::seen))]
    fn agenda_with(&self, partner: PartId) -> Agenda
        requires kept { IsKept self.now }
        requires partner { partner < self.now.part.count }
        ensures { result ≡ (if is_joined (peer_of (state_of self.now) partner) then Agenda.Joined
            else Agenda.Apart) }
    {
        if self.partners.at(partner).is_joined() {
            Agenda::Joined
        } else {
            Agenda::Apart
        }
    }

    // The step of an errand once the boot is over.
    fn step_up(&self, place: &Place, errand: Errand, used: u8) -> Option<Rule>
        requires can { CanAsk self.now }
        requires place { IsPlaceOf self.now.part place.now }
        requires errand { IsErrand errand }
        ensures { result ≡ ask_up self.now.part place.now errand used (state_of self.now) }
    {
        match place {
            Place::Own => self.own_step(errand, used),
            Place::Partner(partner) => self.partner_step(*partner, errand, used),
        }
    }

    // The next step of a boot.
    #[tactic(auto, using(crate::proofs::Booting::boot_asked))]
    fn booting_step(&self, errand: Errand) -> Option<Rule>
        requires kept { IsKept self.now }
        requires life { self.now.life ≡ Life.Booting }
        ensures { result ≡ ask_booting self.now.part errand (state_of self.now) }
    {
        let Errand::Boot = errand else {
            return None;
        };
        Some(boot_rule(self.boot.step()?))
    }

    // The step of an errand at the own place.
    #[tactic(auto, using(crate::proofs::Asking::stepping))]
    fn own_step(&self, errand: Errand, used: u8) -> Option<Rule>
        requires kept { IsKept self.now }
        ensures { result ≡ ask_own self.now.part errand used (state_of self.now) }
    {
        match errand {
            Errand::Beat => self.beat_step(),
            Errand::Mask => self.mask_step(),
            Errand::Activations => Some(Rule::Own(OwnRule::TakeActivation)),
            Errand::Deactivations => Some(Rule::Own(OwnRule::TakeDeactivation)),
            Errand::Engagements => self.engagements_step(),
            Errand::Script => self.script_step(used),
            Errand::Boot
            | Errand::Look
            | Errand::Prepare
            | Errand::Engage
            | Errand::Answer
            | Errand::Record
            | Errand::Flags
            | Errand::Check
            | Errand::Signal(_)
            | Errand::Counters(_)
            | Errand::Bulk
            | Errand::Leave => None,
        }
    }

    // The own heartbeat is stored, unless the partition is offline.
    fn beat_step(&self) -> Option<Rule>
        ensures { result ≡ beat_at (state_of self.now) }
    {
        if self.beat.is_offline() {
            None
        } else {
            Some(Rule::Own(OwnRule::StoreBeat))
        }
    }

    // The own mask is stored, where it isn't as the own memory stands for the partners.
    fn mask_step(&self) -> Option<Rule>
        requires kept { IsKept self.now }
        ensures { result ≡ mask_at (state_of self.now) }
    {
        if self.beat.mask() == self.partners.mask() {
            None
        } else {
            Some(Rule::Own(OwnRule::StoreMask))
        }
    }

    // The own engagement word is loaded, where the own memory for a partner waits to be free.
    fn engagements_step(&self) -> Option<Rule>
        requires kept { IsKept self.now }
        ensures { result ≡ engagements_at self.now.part.part (state_of self.now) }
    {
        if self.partners.any_left(self.part.part) {
            Some(Rule::Own(OwnRule::ReadEngaged))
        } else {
            None
        }
    }

    // The step of an errand at the place of a partner.
    #[tactic(auto, using(crate::proofs::Asking::stepping))]
    fn partner_step(&self, number: PartId, errand: Errand, used: u8) -> Option<Rule>
        requires can { CanAsk self.now }
        requires partner { number < self.now.part.count }
        requires errand { IsErrand errand }
        ensures { result ≡ ask_partner self.now.part number errand used (state_of self.now) }
    {
        let partner = self.partners.at(number);
        match errand {
            Errand::Look => peer_rule(number, partner.look_step(used)),
            Errand::Prepare => partner.prepare_step(),
            Errand::Engage => peer_rule(number, partner.engage_step(self.clock.turns() + 1)),
            Errand::Answer => peer_rule(number, partner.answer_step()),
            Errand::Record => peer_rule(number, partner.record_step(used)),
            Errand::Flags => peer_rule(number, partner.flags_step()),
            Errand::Check => peer_rule(number, partner.check_step(used, self.clock.turns() + 1)),
            Errand::Leave => peer_rule(number, partner.leave_step()),
            Errand::Signal(channel) => {
                let rule = partner.signal_step(Channel::known(channel), used);
                link_rule(number, channel, rule)
            }
            Errand::Counters(channel) => {
                let rule = partner.counters_step(Channel::known(channel), used);
                link_rule(number, channel, rule)
            }
            Errand::Bulk => self.script_step(used),
            Errand::Boot
            | Errand::Beat
            | Errand::Mask
            | Errand::Activations
            | Errand::Deactivations
            | Errand::Engagements
            | Errand::Script => None,
        }
    }

    // The step of the command in progress, where there is one.
    #[tactic(auto, using(crate::proofs::Asking::stepping))]
    fn script_step(&self, used: u8) -> Option<Rule>
        requires kept { IsKept self.now }
        ensures { result ≡ script_asked self.now.part (state_of self.now) used }
    {
        if !self.script.is_doing() {
            return None;
        }
        self.command_step(self.current()?, used)
    }

    // The offline count is stored, where the command in progress asks for it.
    fn offline_step(&self) -> Option<Rule>
        ensures { result ≡ offline_at self.now.part (state_of self.now) }
    {
        if self.stores_offline() {
            Some(Rule::Own(OwnRule::StoreOffline))
        } else {
            None
        }
    }

    // The step of a command: at its end that of a send, a take or a release; of those that name no
    // end some store the offline count.
    #[tactic(auto, using(crate::proofs::Asking::commanding))]
    fn command_step(&self, command: &Command, used: u8) -> Option<Rule>
        requires kept { IsKept self.now }
        ensures { result ≡ command_at self.now.part (state_of self.now) used command.now
            (named_end command.now) }
    {
        let (number, channel) = match command {
            Command::Send {
                partner,
                channel,
                ..
            } => (*partner, *channel),
            Command::Take {
                partner,
                channel,
                ..
            } => (*partner, *channel),
            Command::Release {
                partner,
                channel,
                ..
            } => (*partner, *channel),
            Command::Register { .. }
            | Command::Unregister { .. }
            | Command::Connected { .. }
            | Command::Closed { .. }
            | Command::Drain { .. } => return None,
            Command::Net { .. }
            | Command::Frames { .. }
            | Command::Deactivate { .. }
            | Command::Activate { .. }
            | Command::Leave
            | Command::Idle { .. }
            | Command::Offline
            | Command::Online => return self.offline_step(),
        };
        let partner = self.partners.get(number)?;
        link_rule(
            number,
            channel.get(),
            partner.command_step(channel, used, command),
        )
    }
}
