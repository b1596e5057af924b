// The step at an end that each errand of a partition's plan asks for.
ghost use Rattle.std.specs.Prelude.{◌≡◌, IfSome, IsSome, Some, None, true, false};
ghost use Rattle.xp_protocol.specs.Linking.{link_can};
ghost use Rattle.xp_protocol.specs.Peering.{waits};
ghost use Rattle.xp_plan.specs.EndSteps.{send_at, take_at, counters_at, store_at, signal_at, control_signal};
ghost use Rattle.xp_channel.specs.Planned.{read_plan, flag_plan};

use crate::end::ChannelEnd;
use xp_base::link::Kind;
use xp_protocol::rule::{LinkRule, PullRule, RingRule};

impl ChannelEnd {
    /// What is owed to the partner. In the first two of the errand's steps a message request comes
    /// first, and then a store of get.
    pub fn signal_step(&self, used: u8) -> Option<LinkRule>
        ensures value { result ≡ signal_at used self.now.end }
        ensures can { IfSome result (λ rule. link_can self.now.end rule) }
    {
        if self.shake.contact().is_none() {
            return None;
        }
        if used < 2 && self.shake.owes_message() {
            return Some(LinkRule::SetFlag(Kind::MsgRequest));
        }
        if used < 2 {
            if let Some(rule) = self.store_step() {
                return Some(rule);
            }
        }
        self.control_step()
    }

    // The argument of a flag that waits for it, and else a control flag with what is stored before
    // it.
    #[tactic(auto, using(crate::proofs::Errands::control_planned))]
    fn control_step(&self) -> Option<LinkRule>
        ensures value { result ≡ control_signal self.now.end }
        ensures can { IsSome self.now.end.shake.meet →
            IfSome result (λ rule. link_can self.now.end rule) }
    {
        if let Some(argument) = self.plan_read() {
            return Some(LinkRule::ReadArgument(argument));
        }
        let kind = self.owed_flag()?;
        Some(self.plan_flag(kind))
    }

    /// A copy of the counters that goes on is made to its end. Another one is begun by the first
    /// two of the errand's steps, where it is owed or a take finds no entry.
    pub fn counters_step(&self, used: u8) -> Option<LinkRule>
        ensures value { result ≡ counters_at used self.now.end }
        ensures can { IfSome result (λ rule. link_can self.now.end rule) }
    {
        if !self.shake.is_connected() {
            return None;
        }
        let is_begun = used < 2
            && (self.sides.wants_counters() || self.sides.is_taking() && !self.sides.has_entry());
        if self.sides.is_copying_counters() || is_begun {
            Some(LinkRule::Pull(PullRule::ReadCounters))
        } else {
            None
        }
    }

    /// The step of a send in progress. It loads the partner's get by the first of the errand's
    /// steps alone.
    pub fn send_step(&self, used: u8) -> Option<LinkRule>
        ensures value { result ≡ send_at used self.now.end }
        ensures can { IfSome result (λ rule. link_can self.now.end rule) }
    {
        if !self.shake.is_connected() {
            return None;
        }
        let rule = self.sides.plan_send()?;
        match rule {
            RingRule::ReadGet => {
                if used == 0 {
                    Some(LinkRule::Ring(RingRule::ReadGet))
                } else {
                    None
                }
            }
            RingRule::WriteEntryWord(word) => Some(LinkRule::Ring(RingRule::WriteEntryWord(word))),
            RingRule::AcceptMessage => Some(LinkRule::Ring(RingRule::AcceptMessage)),
        }
    }

    /// The step of a take in progress: it loads the next entry, where there is one.
    pub fn take_step(&self) -> Option<LinkRule>
        ensures value { result ≡ take_at self.now.end }
        ensures can { IfSome result (λ rule. link_can self.now.end rule) }
    {
        if self.shake.is_connected() && self.sides.is_taking() && self.sides.has_entry() {
            Some(LinkRule::Pull(PullRule::ReadEntry))
        } else {
            None
        }
    }

    /// The store of get, where it is owed.
    pub fn store_step(&self) -> Option<LinkRule>
        ensures value { result ≡ store_at self.now.end }
        ensures can { IfSome result (λ rule. link_can self.now.end rule) }
    {
        if self.shake.is_connected() && self.sides.local_get() < self.sides.front() {
            Some(LinkRule::Acknowledge)
        } else {
            None
        }
    }
}

impl ChannelEnd {
    /// Whether a flag that was taken waits to be handled.
    pub fn waits(&self) -> bool
        ensures { result ≡ waits self.now.end }
    {
        self.shake.has_taken(Kind::OpenComplete)
            || self.shake.has_taken(Kind::OpenRequest)
            || self.shake.has_taken(Kind::OpenReply)
            || self.shake.has_taken(Kind::CloseRequest)
            || self.shake.has_taken(Kind::CloseReply)
            || self.shake.has_taken(Kind::MsgRequest)
    }
}
