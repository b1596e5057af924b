// The sending side of one named channel, as a machine by itself: it says which step it wants, and
// takes its answer.
ghost use Rattle.std.specs.Prelude.{◌≡◌, ℕ, ◌<◌, ◌≤◌, ◌-◌, ◌^◌, ◌↔◌, length, None};
ghost use Rattle.xp_base.specs.declared.body.TheConstants.{SEND_BYTES};
ghost use Rattle.xp_protocol.specs.Parts.{IsRequestSize};
ghost use Rattle.xp_protocol.specs.Sending.{Send, new_sending, send_refusal, send_begun, with_remote_get, send_closed};
ghost use Rattle.xp_ring.specs.Planned.{send_plan, wanted_for};
ghost use Rattle.xp_ring.specs.Outcome.{outcome, answer_in, send_fed, MayFeed};

use crate::sender::Sender;
use xp_base::answer::SendAnswer;
use xp_base::ids::{Channel, PartId};
use xp_base::link::LinkState;
use xp_base::reason::Reason;
use xp_base::step::{Answer, CopyKind, Wanted};

/// The sending side of a channel of partition `own` to a partner. Contracts see the names, and what
/// its sender knows.
#[derive(Drop)]
pub struct SendSide {
    own: PartId,
    partner: PartId,
    channel: Channel,
    sender: Sender,
}

impl SendSide {
    /// A side without messages, for an own queue of this size.
    pub fn new(own: PartId, partner: PartId, channel: Channel, entries: u8, limit: u16) -> SendSide
        requires { IsRequestSize entries limit }
        ensures { result ≡ record {
          own = own;
          partner = partner;
          channel = channel;
          sender = new_sending entries limit;
        } }
    {
        SendSide {
            own,
            partner,
            channel,
            sender: Sender::new(entries, limit),
        }
    }

    /// Begins a send, unless it is refused: by the limit first, then by the state of the link.
    /// After a refusal the side is as before. A side has one send at a time: another one that is
    /// begun takes its place.
    pub fn begin(
        &mut self,
        state: LinkState,
        payload: &[u8],
        wait: bool,
        notify: bool,
    ) -> Option<SendAnswer>
        requires { length payload.now ≤ SEND_BYTES }
        ensures answer { result ≡ send_refusal state payload.now self.old.sender }
        ensures side { let send : Send = record
            { payload = payload.now; wait = wait; notify = notify } in
            self.new ≡ record self.old { sender = send_begun state send self.old.sender } }
    {
        self.sender.begin(state, payload, wait, notify)
    }

    /// The step that the send in progress wants, its copy being without a number.
    pub fn next(&self) -> Option<Wanted>
        requires { self.now.sender.put < 2 ^ 64 - 1 }
        ensures value { result ≡
            wanted_for self.now.own self.now.partner self.now.channel self.now.sender
            (send_plan self.now.sender) }
        ensures none { result ≡ None ↔ self.now.sender.send ≡ None }
    {
        let rule = self.sender.plan()?;
        Some(
            self.sender
                .wanted(self.own, self.partner, self.channel, rule),
        )
    }

    /// Takes the answer of the step that `next` gave. A load that failed ends its copy, and changes
    /// nothing.
    pub fn feed(&mut self, answer: Answer) -> Result<Option<SendAnswer>, Reason>
        requires put { self.old.sender.put < 2 ^ 64 - 1 }
        requires waits { MayFeed answer
            (wanted_for self.old.own self.old.partner self.old.channel self.old.sender
            (send_plan self.old.sender)) }
        ensures side { self.new ≡
            record self.old { sender = (send_fed self.old.sender answer).local } }
        ensures outcome { result ≡ outcome (send_fed self.old.sender answer) }
    {
        let Some(rule) = self.sender.plan() else {
            return Ok(None);
        };
        match answer {
            Answer::Word(word) => self.sender.apply(rule, word),
            Answer::Failed => Err(Reason::CopyError {
                kind: CopyKind::Get,
                number: 0,
            }),
        }
    }

    /// Gives up the send in progress, whose message isn't accepted.
    pub fn stop(&mut self, reason: Reason) -> Option<SendAnswer>
        ensures answer { result ≡ answer_in (send_closed reason self.old.sender).notes }
        ensures none { result ≡ None ↔ self.old.sender.send ≡ None }
        ensures side { self.new ≡
            record self.old { sender = (send_closed reason self.old.sender).local } }
    {
        self.sender.close(reason)
    }

    /// How many messages were accepted.
    pub fn put(&self) -> u64
        ensures { result ≡ self.now.sender.put }
    {
        self.sender.put()
    }

    /// The partner's get that is known: the one that was loaded last in this connection, 0 before.
    pub fn known_get(&self) -> u64
        ensures value { result ≡ self.now.sender.remote_get }
        ensures range { self.now.sender.remote_get ≤ self.now.sender.put }
    {
        self.sender.remote_get()
    }

    /// A get that the receiving side of this end loaded becomes known.
    pub fn know(&mut self, get: u64)
        requires low { self.old.sender.remote_get ≤ get }
        requires high { get ≤ self.old.sender.put }
        ensures { self.new ≡ record self.old { sender = with_remote_get get self.old.sender } }
    {
        self.sender.know(get);
    }
}
