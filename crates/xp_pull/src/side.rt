// The receiving side of one named channel, as a machine by itself: it begins a take, says which
// step it wants, and takes its answer.
ghost use Rattle.std.specs.Prelude.{◌≡◌, ◌≤◌, ◌↔◌, None, IfSome, IsSome, true, false};
ghost use Rattle.xp_protocol.specs.Parts.{IsRequestSize};
ghost use Rattle.xp_protocol.specs.Pulling.{new_pulling, take_refusal, pull_failed, pull_closed, is_copying, pull_can};
ghost use Rattle.xp_pull.specs.Planned.{wanted_for, sender_counters, kind_of};
ghost use Rattle.xp_pull.specs.Keeping.{NothingLeft};
ghost use Rattle.xp_pull.specs.Taking.{plan_unless, begun_answer, begun_side, fed_by, fed_side, fed_answer, stop_answer};

use crate::receiver::Receiver;
use xp_base::answer::TakeAnswer;
use xp_base::ids::{Channel, PartId};
use xp_base::link::LinkState;
use xp_base::reason::Reason;
use xp_base::step::{Answer, CopyKind, Wanted};
use xp_protocol::rule::PullRule;

/// The receiving side of a channel of partition `own` from a partner. Contracts see the names, what
/// its receiver knows, and whether it was stopped.
#[derive(Drop)]
pub struct PullSide {
    own: PartId,
    partner: PartId,
    channel: Channel,
    receiver: Receiver,
    stopped: bool,
}

impl PullSide {
    /// A side that has pulled nothing, for a partner's queue of this size.
    pub fn new(own: PartId, partner: PartId, channel: Channel, entries: u8, limit: u16) -> PullSide
        requires { IsRequestSize entries limit }
        ensures { result ≡ record {
          own = own;
          partner = partner;
          channel = channel;
          receiver = new_pulling entries limit;
          stopped = false;
        } }
    {
        PullSide {
            own,
            partner,
            channel,
            receiver: Receiver::new(entries, limit),
            stopped: false,
        }
    }

    /// Begins a take, and answers it at once where it is refused by the state of the link or the
    /// next message is cached. A side has one take at a time: another one that is begun takes its
    /// place.
    pub fn begin(&mut self, state: LinkState, wait: bool) -> Option<TakeAnswer>
        ensures answer { result ≡ begun_answer (take_refusal state) wait self.old.receiver }
        ensures side { self.new ≡
            record self.old { receiver = begun_side (take_refusal state) wait self.old.receiver } }
    {
        match state {
            LinkState::Closing(reason) => Some(TakeAnswer::Disconnecting { reason }),
            LinkState::Idle | LinkState::Opening => Some(TakeAnswer::NotConnected),
            LinkState::Connected => {
                self.receiver.start(wait);
                self.receiver.answer()
            }
        }
    }

    /// A copy of the counters is owed, as after a message request of the partner.
    pub fn pull(&mut self)
        ensures { self.new ≡
            record self.old { receiver = record self.old.receiver { owed = true } } }
    {
        self.receiver.pull();
    }

    /// The step that is wanted next, its copy being without a number.
    pub fn next(&self) -> Option<Wanted>
        ensures value { result ≡
            wanted_for self.now.own self.now.partner self.now.channel self.now.receiver
            (plan_unless self.now.stopped self.now.receiver) }
        ensures none { self.now.stopped ≡ false → (result ≡ None ↔ NothingLeft self.now.receiver) }
    {
        let rule = self.plan()?;
        Some(
            self.receiver
                .wanted(self.own, self.partner, self.channel, rule),
        )
    }

    /// Takes the answer of the step that `next` gave, beside the get that is known, the own put and
    /// the number below which all messages were released. It gives the answer of the take in
    /// progress, where that is due then, or the reason to deactivate the partner. A load that
    /// failed ends its copy, which yields nothing.
    pub fn feed(
        &mut self,
        answer: Answer,
        get: u64,
        put: u64,
        front: u64,
    ) -> Result<Option<TakeAnswer>, Reason>
        requires step { IsSome
            (wanted_for self.old.own self.old.partner self.old.channel self.old.receiver
            (plan_unless self.old.stopped self.old.receiver)) }
        requires front { front ≤ self.old.receiver.taken }
        ensures side { let f = fed_by (plan_unless self.old.stopped self.old.receiver)
            (sender_counters get put front) self.old.receiver answer in self.new ≡
            record self.old { receiver = fed_side f.reason f.local } }
        ensures outcome { let f = fed_by (plan_unless self.old.stopped self.old.receiver)
            (sender_counters get put front) self.old.receiver answer in result ≡
            fed_answer f.reason f.local }
    {
        let Some(rule) = self.plan() else {
            return Ok(None);
        };
        match answer {
            Answer::Word(word) => self.receiver.apply(get, put, front, rule, word)?,
            Answer::Failed => return Err(self.fail(rule)),
        };
        Ok(self.receiver.answer())
    }

    /// Gives up the take in progress and each copy; none begins any more.
    pub fn stop(&mut self, reason: Reason) -> Option<TakeAnswer>
        ensures answer { result ≡ stop_answer reason self.old.receiver.take }
        ensures side { self.new ≡
            record self.old {
              receiver = (pull_closed reason self.old.receiver).local;
              stopped =
                  true;
            } }
        ensures next { plan_unless self.new.stopped self.new.receiver ≡ None }
        ensures copying { is_copying self.new.receiver ≡ false }
    {
        self.stopped = true;
        let refusal = self.receiver.close(reason)?;
        Some(refusal.answer())
    }

    /// The get that a copy of the counters loaded last, 0 before.
    pub fn known_get(&self) -> u64
        ensures { result ≡ self.now.receiver.known }
    {
        self.receiver.known_get()
    }

    /// Whether a copy goes on.
    pub fn copying(&self) -> bool
        ensures { result ≡ is_copying self.now.receiver }
    {
        self.receiver.copying()
    }

    // The rule of the step that is wanted next.
    fn plan(&self) -> Option<PullRule>
        ensures value { result ≡ plan_unless self.now.stopped self.now.receiver }
        ensures can { IfSome result (λ rule. pull_can self.now.receiver rule) }
        ensures none { self.now.stopped ≡ false → (result ≡ None ↔ NothingLeft self.now.receiver) }
    {
        if self.stopped {
            return None;
        }
        self.receiver.plan()
    }

    // The load of a rule failed.
    fn fail(&mut self, rule: PullRule) -> Reason
        ensures side { self.new ≡
            record self.old { receiver = pull_failed (kind_of rule) self.old.receiver } }
        ensures reason { result ≡ Reason.CopyError (kind_of rule) 0 }
    {
        self.receiver.fail(rule);
        let kind = match rule {
            PullRule::ReadCounters => CopyKind::Counters,
            PullRule::ReadEntry => CopyKind::Entries,
        };
        Reason::CopyError { kind, number: 0 }
    }
}
