// The step that each errand at a partner's place asks for.
ghost use Rattle.std.specs.Prelude.{◌≡◌, ◌&&◌, IfSome, IsSome, is_some, Some, None, true};
ghost use Rattle.xp_protocol.specs.Linking.{link_can};
ghost use Rattle.xp_protocol.specs.Peering.{copies_go_on};
ghost use Rattle.xp_plan.specs.EndSteps.{step_if, counters_at, signal_at};
ghost use Rattle.xp_plan.specs.PeerSteps.{look_at, prepare_at, engage_at, answer_at, record_at, check_at, leave_at};
ghost use Rattle.xp_plan.specs.Plan.{is_joined, command_step};
ghost use Rattle.xp_protocol.specs.Peering.{peer_can};
ghost use Rattle.xp_engage.specs.Partner.{here};
ghost use Rattle.xp_partner.specs.Partner.{peer_seen, channel_of};
ghost use Rattle.xp_protocol.specs.Runs.{any_owes};
ghost use Rattle.xp_partner.specs.Planned.{for_joined, other_copies};

use crate::ends;
use crate::partner::Partner;
use xp_base::ids::Channel;
use xp_protocol::rule::{LinkRule, PeerRule, Rule};
use xp_script::command::Command;

impl Partner {
    /// A look is begun by the first step of its errand, and made to its end.
    pub fn look_step(&self, used: u8) -> Option<PeerRule>
        ensures { result ≡ look_at used (peer_seen self.now) }
    {
        if used == 0 || self.page.len() > 0 {
            Some(PeerRule::LookAtPage)
        } else {
            None
        }
    }

    /// The own memory for a partner that is wanted is prepared and opened where it is free; the
    /// partition stores its mask before.
    pub fn prepare_step(&self) -> Option<Rule>
        ensures { result ≡ prepare_at self.now.standing.masked self.now.standing.partner
            (peer_seen self.now) }
    {
        self.standing.prepare_step()
    }

    /// A partner whose page is good is asked to be activated, and then the own bit is set at it.
    pub fn engage_step(&self, turn: u64) -> Option<PeerRule>
        ensures { result ≡ engage_at (here turn self.now.standing) (peer_seen self.now) }
    {
        self.standing.engage_step(turn)
    }

    /// The own bit goes where the partner's memory isn't open, once no copy of its words goes on;
    /// the session that was read is stored as echo, and then the second magic.
    #[tactic(auto, using(crate::proofs::Copying::answer_alone))]
    pub fn answer_step(&self) -> Option<PeerRule>
        ensures { result ≡ answer_at (peer_seen self.now) }
    {
        self.standing.answer_step(self.has_other_copies())
    }

    /// The partner's record is read until there is contact. A copy is begun by the first
    /// `RECORD_WORDS` steps of an errand, and made to its end.
    pub fn record_step(&self, used: u8) -> Option<PeerRule>
        ensures { result ≡ record_at used (peer_seen self.now) }
    {
        self.standing.record_step(used)
    }

    /// The own memory is closed to a partner that is to be deactivated, and left.
    #[tactic(auto, using(crate::proofs::Copying::leave_alone))]
    pub fn leave_step(&self) -> Option<PeerRule>
        ensures { result ≡ leave_at (peer_seen self.now) }
    {
        self.standing.leave_step(self.has_other_copies())
    }

    /// The flag word of a partner whose channels are used is taken.
    pub fn flags_step(&self) -> Option<PeerRule>
        ensures { result ≡ step_if (is_joined (peer_seen self.now)) PeerRule.TakeFlags }
    {
        if self.is_joined() {
            Some(PeerRule::TakeFlags)
        } else {
            None
        }
    }

    /// A check of the partner's heartbeat is begun by the first step of an errand, once it is due,
    /// and made to its end.
    pub fn check_step(&self, used: u8, turn: u64) -> Option<PeerRule>
        ensures { result ≡ check_at (here turn self.now.standing) used (peer_seen self.now) }
    {
        self.standing.check_step(used, turn)
    }

    /// What is owed on a channel to tell the partner, and the arguments of its flags.
    pub fn signal_step(&self, channel: Channel, used: u8) -> Option<LinkRule>
        ensures value { result ≡
            for_joined (peer_seen self.now) (signal_at used (channel_of self.now channel).end) }
        ensures can { IfSome result (λ rule. link_can (channel_of self.now channel).end rule) }
    {
        if !self.is_joined() {
            return None;
        }
        self.ends[channel.get() as usize].signal_step(used)
    }

    /// A copy of the partner's counters of a channel.
    pub fn counters_step(&self, channel: Channel, used: u8) -> Option<LinkRule>
        ensures value { result ≡
            for_joined (peer_seen self.now) (counters_at used (channel_of self.now channel).end) }
        ensures can { IfSome result (λ rule. link_can (channel_of self.now channel).end rule) }
    {
        if !self.is_joined() {
            return None;
        }
        self.ends[channel.get() as usize].counters_step(used)
    }

    /// The step of the command in progress at the end of a channel: of a send, a take or a release.
    pub fn command_step(&self, channel: Channel, used: u8, command: &Command) -> Option<LinkRule>
        ensures value { result ≡ for_joined (peer_seen self.now)
            (command_step used (channel_of self.now channel).end command.now) }
        ensures can { IfSome result (λ rule. link_can (channel_of self.now channel).end rule) }
    {
        if !self.is_joined() {
            return None;
        }
        let end = &self.ends[channel.get() as usize];
        match command {
            Command::Send { .. } => end.send_step(used),
            Command::Take { .. } => end.take_step(),
            Command::Release { .. } => end.store_step(),
            Command::Drain { .. }
            | Command::Register { .. }
            | Command::Unregister { .. }
            | Command::Connected { .. }
            | Command::Closed { .. }
            | Command::Net { .. }
            | Command::Frames { .. }
            | Command::Deactivate { .. }
            | Command::Activate { .. }
            | Command::Leave
            | Command::Idle { .. }
            | Command::Offline
            | Command::Online => None,
        }
    }

    /// Whether the channels of the partner are used: it is in contact, and isn't to be deactivated.
    pub fn is_joined(&self) -> bool
        ensures { result ≡ is_joined (peer_seen self.now) }
    {
        self.standing.contact().is_some() && self.standing.is_open()
    }

    /// Whether a copy of the partner's words goes on.
    pub fn copies_go_on(&self) -> bool
        ensures { result ≡ copies_go_on (peer_seen self.now) }
    {
        self.standing.is_reading() || self.has_other_copies()
    }

    // Whether another copy goes on than that of the partner's record.
    fn has_other_copies(&self) -> bool
        ensures { result ≡ other_copies self.now }
    {
        self.page.len() > 0 || ends::any_copying(&self.ends)
    }

    /// Whether a flag or a store of get is owed on any channel: there is contact then.
    pub fn owes(&self) -> bool
        ensures { result ≡
            (is_some self.now.standing.contact && any_owes (peer_seen self.now).links) }
    {
        self.standing.contact().is_some() && ends::any_owing(&self.ends)
    }
}
