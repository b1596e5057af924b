// The sending side of a channel, for whichever partner and channel its caller names: it stores a
// message's words in the next free entry of the own queue, and then put.
ghost use Rattle.std.specs.Prelude.{◌≡◌, ℕ, ◌<◌, ◌≤◌, ◌+◌, ◌-◌, ◌^◌, ◌↔◌, if◌then◌else◌, length, IfSome, IsSome, Some, None, bit_and, bit_or, is_some};
ghost use Rattle.std.specs.Int.{trailing_ones, w128};
ghost use Rattle.xp_base.specs.declared.body.TheConstants.{SEND_BYTES};
ghost use Rattle.xp_base.specs.declared.layout.TheConstants.{QUEUE_WORDS};
ghost use Rattle.xp_protocol.specs.Parts.{IsRequestSize};
ghost use Rattle.xp_protocol.specs.Wanting.{wanted_at};
ghost use Rattle.xp_protocol.specs.Sending.{new_sending, send_refusal, send_begun, with_remote_get, payload_of, ring_can, ring_row, ring_effect, send_closed, wants_notice};
ghost use Rattle.xp_ring.specs.Planned.{send_plan};
ghost use Rattle.xp_ring.specs.Outcome.{outcome, answer_notes, answer_of};

use std::marker::Model;
use xp_base::answer::SendAnswer;
use xp_base::body::{Body, entry_words};
use xp_base::ids::{Channel, PartId};
use xp_base::link::LinkState;
use xp_base::places::{counters, queue_word};
use xp_base::reason::Reason;
use xp_base::step::{CopyKind, CopyMark, Op, OpKind, Wanted};
use xp_protocol::contact::Size;
use xp_protocol::rule::RingRule;

/// The sending side of a channel. Contracts see what it knows.
#[derive(Drop)]
pub struct Sender {
    /// The size of the own queue.
    entries: u8,
    limit: u16,
    /// How many messages were accepted.
    put: u64,
    /// The partner's get that was loaded last in this connection, 0 before.
    remote_get: u64,
    /// A bit for each word of the next entry that was stored.
    written_words: u128,
    /// Whether a send is in progress, and then whether it may wait and asks for a notice, and its
    /// message.
    sending: bool,
    wait: bool,
    notify: bool,
    body: Body,
}

impl Model for Sender {
    ghost use Rattle.std.specs.Prelude.{ℕ, if◌then◌else◌, Option, Some, None};
    ghost use Rattle.xp_protocol.specs.Sending.{Sending, Send};

    ghost Value = { Sending };

    ghost use Rattle.xp_ring.specs.SenderInside.{view_of, IsSound};

    ghost view = { view_of };

    ghost invariant = { IsSound };
}

impl Sender {
    /// A side without messages, for an own queue of this size.
    pub fn new(entries: u8, limit: u16) -> Sender
        requires { IsRequestSize entries limit }
        ensures { result ≡ new_sending entries limit }
    {
        Sender {
            entries,
            limit,
            put: 0,
            remote_get: 0,
            written_words: 0,
            sending: false,
            wait: true,
            notify: false,
            body: Body::empty(),
        }
    }

    /// Begins a send, unless it is refused: by the limit first, then by the state of the link.
    /// After a refusal the side is as before. A side has one send at a time: another one that is
    /// begun takes its place.
    pub fn begin(
        &mut self,
        state: LinkState,
        payload: &[u8],
        wait: bool,
        notify: bool,
    ) -> Option<SendAnswer>
        requires { length payload.now ≤ SEND_BYTES }
        ensures answer { result ≡ send_refusal state payload.now self.old }
        ensures side { self.new ≡
            send_begun state (record { payload = payload.now; wait = wait; notify = notify })
            self.old }
    {
        let length = payload.len();
        if length > self.limit as usize {
            return Some(SendAnswer::TooBig {
                length: length as u32,
                limit: self.limit,
            });
        }
        match state {
            LinkState::Closing(reason) => Some(SendAnswer::Disconnecting { reason }),
            LinkState::Idle | LinkState::Opening => Some(SendAnswer::NotConnected),
            LinkState::Connected => {
                self.start(payload, wait, notify);
                None
            }
        }
    }

    /// Begins a send of a message that isn't longer than the limit.
    pub fn start(&mut self, payload: &[u8], wait: bool, notify: bool)
        requires { length payload.now ≤ self.old.limit }
        ensures { self.new ≡ record self.old {
          send = Some (record { payload = payload.now; wait = wait; notify = notify });
          written_words = 0;
        } }
    {
        let _limit = self.limit;
        self.body = Body::new(payload).unwrap();
        self.sending = true;
        self.wait = wait;
        self.notify = notify;
        self.written_words = 0;
    }

    /// The step that the send in progress makes next.
    pub fn plan(&self) -> Option<RingRule>
        ensures value { result ≡ send_plan self.now }
        ensures can { IfSome result (λ rule. ring_can self.now rule) }
        ensures none { result ≡ None ↔ self.now.send ≡ None }
    {
        if !self.sending {
            return None;
        }
        if self.put - self.remote_get >= self.entries as u64 {
            return Some(RingRule::ReadGet);
        }
        let words = entry_words(self.limit);
        if self.written_words < all_words(words) {
            Some(RingRule::WriteEntryWord(missing_word(self.written_words, words)))
        } else {
            Some(RingRule::AcceptMessage)
        }
    }

    /// The step of a rule for the partner and channel named, its copy being without a number.
    pub fn wanted(&self, own: PartId, partner: PartId, channel: Channel, rule: RingRule) -> Wanted
        requires can { ring_can self.now rule }
        requires put { self.now.put < 2 ^ 64 - 1 }
        ensures { result ≡ wanted_at own partner (ring_row own partner channel self.now rule) }
    {
        match rule {
            RingRule::ReadGet => Wanted {
                op: Op {
                    owner: partner,
                    index: counters(own, channel, 0),
                    kind: OpKind::Load,
                },
                mark: Some(CopyMark {
                    kind: CopyKind::Get,
                    number: 0,
                    word: 0,
                }),
            },
            RingRule::WriteEntryWord(field) => {
                let slot = (self.put % self.entries as u64) as u32;
                let first = entry_words(self.limit) as u32 * slot;
                Wanted {
                    op: Op {
                        owner: own,
                        index: queue_word(partner, channel, first + field as u32),
                        kind: OpKind::Store(self.body.entry_word(self.put, field)),
                    },
                    mark: None,
                }
            }
            RingRule::AcceptMessage => Wanted {
                op: Op {
                    owner: own,
                    index: counters(partner, channel, 1),
                    kind: OpKind::Store(self.put + 1),
                },
                mark: None,
            },
        }
    }

    /// Takes the word that a rule's step was answered. It gives the send's answer where that is
    /// decided with the step, or the reason to deactivate the partner.
    pub fn apply(&mut self, rule: RingRule, word: u64) -> Result<Option<SendAnswer>, Reason>
        requires can { ring_can self.old rule }
        requires put { self.old.put < 2 ^ 64 - 1 }
        ensures side { self.new ≡ (ring_effect self.old rule word).local }
        ensures outcome { result ≡ outcome (ring_effect self.old rule word) }
    {
        match rule {
            RingRule::ReadGet => self.hear(word),
            RingRule::WriteEntryWord(field) => {
                self.mark_written(field);
                Ok(None)
            }
            RingRule::AcceptMessage => Ok(Some(SendAnswer::Ok(self.accept()))),
        }
    }

    /// Takes the partner's get that was loaded for the send in progress. Err is BadCounters; the
    /// answer is that there is no free entry.
    pub fn hear(&mut self, get: u64) -> Result<Option<SendAnswer>, Reason>
        requires { ring_can self.old RingRule.ReadGet }
        ensures side { self.new ≡ (ring_effect self.old RingRule.ReadGet get).local }
        ensures outcome { result ≡ outcome (ring_effect self.old RingRule.ReadGet get) }
        ensures notes { (ring_effect self.old RingRule.ReadGet get).notes ≡
            answer_notes (answer_of result) }
    {
        if get < self.remote_get || self.put < get {
            return Err(Reason::BadCounters { get, put: self.put });
        }
        self.remote_get = get;
        if !self.wait && self.put - get == self.entries as u64 {
            self.sending = false;
            self.written_words = 0;
            return Ok(Some(SendAnswer::NoSlot { put: self.put, get }));
        }
        Ok(None)
    }

    /// A word of the next entry was stored.
    #[tactic(auto, using(crate::proofs::Missing::power_some))]
    pub fn mark_written(&mut self, field: u8)
        requires { ring_can self.old (RingRule.WriteEntryWord field) }
        ensures { self.new ≡ (ring_effect self.old (RingRule.WriteEntryWord field) 0).local }
    {
        self.written_words = with_word(self.written_words, field, entry_words(self.limit));
    }

    /// Put was stored: the message of the send in progress is accepted, under the number that is
    /// given.
    #[tactic(auto, using(crate::proofs::Missing::power_some))]
    pub fn accept(&mut self) -> u64
        requires can { ring_can self.old RingRule.AcceptMessage }
        requires put { self.old.put < 2 ^ 64 - 1 }
        ensures number { result ≡ self.old.put }
        ensures side { self.new ≡ (ring_effect self.old RingRule.AcceptMessage 0).local }
    {
        let number = self.put;
        self.put += 1;
        self.sending = false;
        self.written_words = 0;
        number
    }

    /// Gives up the send in progress, whose message isn't accepted. It gives the answer of the
    /// send.
    pub fn close(&mut self, reason: Reason) -> Option<SendAnswer>
        ensures side { self.new ≡ (send_closed reason self.old).local }
        ensures notes { (send_closed reason self.old).notes ≡ answer_notes result }
    {
        let sending = self.sending;
        self.sending = false;
        self.written_words = 0;
        if sending {
            Some(SendAnswer::Disconnecting { reason })
        } else {
            None
        }
    }

    /// A get that the receiving side of this end loaded becomes known.
    pub fn know(&mut self, get: u64)
        requires low { self.old.remote_get ≤ get }
        requires high { get ≤ self.old.put }
        ensures { self.new ≡ with_remote_get get self.old }
    {
        self.remote_get = get;
    }
}

impl Sender {
    /// The size of the own queue.
    pub fn size(&self) -> Size
        ensures entries { result.entries ≡ self.now.entries }
        ensures limit { result.limit ≡ self.now.limit }
        ensures size { IsRequestSize self.now.entries self.now.limit }
    {
        Size {
            entries: self.entries,
            limit: self.limit,
        }
    }

    /// How many messages were accepted.
    pub fn put(&self) -> u64
        ensures { result ≡ self.now.put }
    {
        self.put
    }

    /// The partner's get that was loaded last in this connection, 0 before.
    pub fn remote_get(&self) -> u64
        ensures value { result ≡ self.now.remote_get }
        ensures range { self.now.remote_get ≤ self.now.put }
    {
        self.remote_get
    }

    /// Whether a send is in progress.
    pub fn is_sending(&self) -> bool
        ensures { result ≡ is_some self.now.send }
    {
        self.sending
    }

    /// Whether a send is in progress that asks for a notice.
    pub fn asks(&self) -> bool
        ensures { result ≡ wants_notice self.now.send }
    {
        self.sending && self.notify
    }

    /// The message of the send in progress.
    pub fn body(&self) -> &Body
        requires { IsSome self.now.send }
        ensures { result.now ≡ payload_of self.now.send }
    {
        &self.body
    }
}

// The lowest word of an entry that wasn't stored.
#[tactic(auto, using(crate::proofs::Missing::missing))]
fn missing_word(stored: u128, words: u8) -> u8
    requires words { words ≤ QUEUE_WORDS }
    requires stored { stored < 2 ^ words - 1 }
    ensures value { result ≡ trailing_ones w128 stored }
    ensures range { result < words }
    ensures missing { bit_and stored (2 ^ result) ≡ 0 }
{
    stored.trailing_ones() as u8
}

// A bit for each of the words of an entry.
#[tactic(auto, using(crate::proofs::Missing::power_below))]
fn all_words(words: u8) -> u128
    requires some { 0 < words }
    requires few { words ≤ QUEUE_WORDS }
    ensures { result ≡ 2 ^ words - 1 }
{
    if words == 128 {
        u128::MAX
    } else {
        (1u128 << words) - 1
    }
}

// The words that were stored, and one more.
#[tactic(auto, using(crate::proofs::Missing::power_below, crate::proofs::Missing::one_more))]
fn with_word(stored: u128, field: u8, words: u8) -> u128
    requires words { words ≤ QUEUE_WORDS }
    requires field { field < words }
    requires stored { stored < 2 ^ words }
    ensures value { result ≡ bit_or stored (2 ^ field) }
    ensures range { result < 2 ^ words }
{
    stored | (1u128 << field)
}
