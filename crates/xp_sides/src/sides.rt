// The sides of an end: they take memory only while they are there, and contracts see new ones where
// they aren't.
ghost use Rattle.std.specs.Prelude.{◌≡◌, ℕ, ◌+◌, ◌-◌, ◌<◌, ◌≤◌, ◌^◌, ◌++◌, ◌∷◌, [], length, IfSome, IfOk, IsSome, OnOk, Some, None, is_some, true, false, ◌||◌, ◌&&◌, not, nat_eq, nat_lt};
ghost use Rattle.xp_base.specs.declared.layout.TheConstants.{LINES};
ghost use Rattle.xp_protocol.specs.Parts.{IsRequestSize};
ghost use Rattle.xp_protocol.specs.Wanting.{wanted_at};
ghost use Rattle.xp_protocol.specs.Sending.{new_sending, ring_can, ring_row, ring_effect, send_closed, with_remote_get, payload_of, wants_notice};
ghost use Rattle.xp_protocol.specs.Pulling.{new_pulling, pull_can, pull_row, pull_effect, pull_failed, pull_closed, take_due, is_copying};
ghost use Rattle.xp_protocol.specs.Releasing.{is_held, message_released};
ghost use Rattle.xp_protocol.specs.Acts.{below, first_number};
ghost use Rattle.xp_protocol.specs.Linking.{sender_counters, asked_more, copies_over};
ghost use Rattle.xp_ring.specs.Planned.{send_plan};
ghost use Rattle.xp_ring.specs.Outcome.{outcome as send_outcome, answer_notes, answer_of};
ghost use Rattle.xp_pull.specs.Planned.{pull_plan, kind_of, taken_side, has_message, has_entry};
ghost use Rattle.xp_pull.specs.Outcome.{outcome as pull_outcome, heard_notes, heard_of, refusal_notes};
ghost use Rattle.xp_ack.specs.Ack.{AllBelow, numbers_left};
ghost use Rattle.xp_sides.specs.Viewed.{SidesView, new_view, renewed, held_after, Fits};

use std::alloc::{AllocError, Global};
use std::marker::Model;
use xp_ack::notices::Notices;
use xp_ack::side::AckSide;
use xp_base::answer::{SendAnswer, TakeAnswer};
use xp_base::body::Body;
use xp_base::ids::{Channel, PartId};
use xp_base::link::LinkState;
use xp_base::reason::Reason;
use xp_base::step::Wanted;
use xp_protocol::contact::Size;
use xp_protocol::refusal::TakeRefusal;
use xp_protocol::rule::{PullRule, RingRule};
use xp_pull::receiver::Receiver;
use xp_ring::sender::Sender;

/// The sides that are there.
#[derive(Drop)]
pub struct There {
    send: Sender,
    pull: Receiver,
    ack: AckSide,
    pending_notices: Notices,
    /// The last get that was stored.
    local_get: u64,
    /// Whether a release waits for the store of get, and whether a drain waits.
    releasing: bool,
    draining: bool,
}

/// The sides of an end. Contracts see what they know, and whether there is memory for them.
#[derive(Drop)]
pub struct Sides {
    /// The sizes of both queues, for the sides that aren't there.
    own: Size,
    theirs: Size,
    there: Option<Box<There>>,
}

impl Model for Sides {
    ghost use Rattle.xp_sides.specs.Viewed.{SidesView};

    ghost Value = { SidesView };

    ghost use Rattle.xp_sides.specs.SidesInside.{view_of, IsSound};

    ghost view = { view_of };

    ghost invariant = { IsSound };
}

impl Sides {
    /// Sides for queues of these sizes. They take no memory.
    pub fn new(own: Size, theirs: Size) -> Sides
        requires own { IsRequestSize own.entries own.limit }
        requires theirs { IsRequestSize theirs.entries theirs.limit }
        ensures { result ≡ new_view own theirs false }
    {
        Sides {
            own,
            theirs,
            there: None,
        }
    }

    /// Whether there is memory for the sides.
    pub fn is_ready(&self) -> bool
        ensures { result ≡ self.now.ready }
    {
        self.there.is_some()
    }

    /// Makes room for the sides.
    #[inline(never)]
    pub fn reserve(&mut self, alloc: Global) -> Result<(), AllocError>
        ensures ok { OnOk result (self.new.ready ≡ true) }
        ensures same { self.new ≡ record self.old { ready = self.new.ready } }
        ensures kept { self.old.ready ≡ true → self.new.ready ≡ true }
    {
        if self.there.is_some() {
            return Ok(());
        }
        let there = There {
            send: Sender::new(self.own.entries, self.own.limit),
            pull: Receiver::new(self.theirs.entries, self.theirs.limit),
            ack: AckSide::new(),
            pending_notices: Notices::new(),
            local_get: 0,
            releasing: false,
            draining: false,
        };
        self.there = Some(Box::new(alloc, there)?);
        Ok(())
    }

    /// The step of the send in progress.
    pub fn plan_send(&self) -> Option<RingRule>
        ensures value { result ≡ send_plan self.now.sides.send }
        ensures can { IfSome result (λ rule. ring_can self.now.sides.send rule) }
    {
        match &self.there {
            Some(there) => there.send.plan(),
            None => None,
        }
    }

    /// The step of the receiving side.
    pub fn plan_pull(&self) -> Option<PullRule>
        ensures value { result ≡ pull_plan self.now.sides.pull }
        ensures can { IfSome result (λ rule. pull_can self.now.sides.pull rule) }
        ensures ready { IsSome result → self.now.ready ≡ true }
    {
        match &self.there {
            Some(there) => there.pull.plan(),
            None => None,
        }
    }

    /// The partner's get was loaded for the send in progress.
    #[tactic(auto, using(crate::proofs::Asking::below_ring))]
    pub fn hear_get(&mut self, get: u64) -> Result<Option<SendAnswer>, Reason>
        requires { ring_can self.old.sides.send RingRule.ReadGet }
        ensures sides { let f = ring_effect self.old.sides.send RingRule.ReadGet get in
            self.new ≡ record self.old { sides = record self.old.sides { send = f.local } } }
        ensures outcome { result ≡
            send_outcome (ring_effect self.old.sides.send RingRule.ReadGet get) }
        ensures notes { (ring_effect self.old.sides.send RingRule.ReadGet get).notes ≡
            answer_notes (answer_of result) }
    {
        match &mut self.there {
            Some(there) => there.send.hear(get),
            None => unreachable!(),
        }
    }

    /// A word of the next entry was stored.
    #[tactic(auto, using(crate::proofs::Asking::below_ring))]
    pub fn mark_written(&mut self, field: u8)
        requires { ring_can self.old.sides.send (RingRule.WriteEntryWord field) }
        ensures { let f = ring_effect self.old.sides.send (RingRule.WriteEntryWord field) 0 in
            self.new ≡ record self.old { sides = record self.old.sides { send = f.local } } }
    {
        match &mut self.there {
            Some(there) => there.send.mark_written(field),
            None => unreachable!(),
        }
    }

    /// Put was stored: the message of the send in progress is accepted, under the number that is
    /// given. Where its sender asked for a notice, the number waits for it.
    #[tactic(auto, using(crate::proofs::Asking::below_more, crate::proofs::Asking::below_append))]
    pub fn accept(&mut self, asks: bool) -> u64
        requires can { ring_can self.old.sides.send RingRule.AcceptMessage }
        requires put { self.old.sides.send.put < 2 ^ 64 - 1 }
        requires room { asks ≡ true → length self.old.sides.pending_notices < LINES }
        ensures number { result ≡ self.old.sides.send.put }
        ensures sides { let f = ring_effect self.old.sides.send RingRule.AcceptMessage 0 in
            self.new ≡ record self.old {
              sides = record self.old.sides {
                send = f.local;
                pending_notices =
                    asked_more self.old.sides.send.put asks self.old.sides.pending_notices;
              };
            } }
    {
        match &mut self.there {
            Some(there) => {
                let number = there.send.accept();
                if asks {
                    there.pending_notices.ask(number);
                }
                number
            }
            None => unreachable!(),
        }
    }

    /// The message of the send in progress.
    pub fn body(&self) -> &Body
        requires { IsSome self.now.sides.send.send }
        ensures { result.now ≡ payload_of self.now.sides.send.send }
    {
        match &self.there {
            Some(there) => there.send.body(),
            None => unreachable!(),
        }
    }

    /// Whether the send in progress asks for a notice.
    pub fn asks(&self) -> bool
        ensures { result ≡ wants_notice self.now.sides.send.send }
    {
        match &self.there {
            Some(there) => there.send.asks(),
            None => false,
        }
    }
}

impl Sides {
    /// The step of a rule of the sending side, its copy being without a number.
    pub fn wanted_ring(
        &self,
        own: PartId,
        partner: PartId,
        channel: Channel,
        rule: RingRule,
    ) -> Wanted
        requires can { ring_can self.now.sides.send rule }
        requires put { self.now.sides.send.put < 2 ^ 64 - 1 }
        ensures { result ≡ wanted_at own partner
            (ring_row own partner channel self.now.sides.send rule) }
    {
        match &self.there {
            Some(there) => there.send.wanted(own, partner, channel, rule),
            None => unreachable!(),
        }
    }

    /// The step of a rule of the receiving side, its copy being without a number.
    pub fn wanted_pull(
        &self,
        own: PartId,
        partner: PartId,
        channel: Channel,
        rule: PullRule,
    ) -> Wanted
        requires can { pull_can self.now.sides.pull rule }
        requires ready { self.now.ready ≡ true }
        ensures { result ≡ wanted_at own partner (pull_row own channel self.now.sides.pull rule) }
    {
        match &self.there {
            Some(there) => there.pull.wanted(own, partner, channel, rule),
            None => unreachable!(),
        }
    }

    /// A rule's step of the receiving side was answered this word. It gives the partner's get,
    /// where the word is one, or the reason to deactivate the partner.
    #[tactic(auto, using(crate::proofs::Fitting::fits_pulled))]
    pub fn pull(&mut self, rule: PullRule, word: u64) -> Result<Option<u64>, Reason>
        requires can { pull_can self.old.sides.pull rule }
        requires ready { self.old.ready ≡ true }
        ensures sides { let f = pull_effect (sender_counters self.old.sides) self.old.sides.pull
            rule word in
            self.new ≡ record self.old { sides = record self.old.sides { pull = f.local } } }
        ensures outcome { result ≡
            pull_outcome (pull_effect (sender_counters self.old.sides) self.old.sides.pull rule
            word) }
        ensures notes { (pull_effect (sender_counters self.old.sides) self.old.sides.pull rule
            word).notes ≡ heard_notes (heard_of result) }
        ensures heard { IfOk result
            (λ heard. IfSome heard
            (λ get. (self.old.sides.send.remote_get ≤ get) × (get ≤ self.old.sides.send.put))) }
    {
        match &mut self.there {
            Some(there) => {
                let remote_get = there.send.remote_get();
                let put = there.send.put();
                let front = there.ack.front();
                there.pull.apply(remote_get, put, front, rule, word)
            }
            None => unreachable!(),
        }
    }

    /// A load of the receiving side failed.
    #[tactic(auto, using(crate::proofs::Fitting::fits_failed))]
    pub fn fail_pull(&mut self, rule: PullRule)
        requires ready { self.old.ready ≡ true }
        ensures { self.new ≡ record self.old {
          sides = record self.old.sides
              { pull = pull_failed (kind_of rule) self.old.sides.pull };
        } }
    {
        match &mut self.there {
            Some(there) => there.pull.fail(rule),
            None => unreachable!(),
        }
    }

    /// A get of the partner becomes known.
    pub fn know(&mut self, get: u64)
        requires ready { self.old.ready ≡ true }
        requires low { self.old.sides.send.remote_get ≤ get }
        requires high { get ≤ self.old.sides.send.put }
        ensures { self.new ≡ record self.old
            { sides = record self.old.sides { send = with_remote_get get self.old.sides.send } } }
    {
        match &mut self.there {
            Some(there) => there.send.know(get),
            None => unreachable!(),
        }
    }

    /// Both sides are made anew, for an own queue and a partner's queue of these sizes, where no
    /// message was taken and no number waits for a notice.
    #[tactic(auto, using(crate::proofs::Fitting::fits_new))]
    #[inline(never)]
    pub fn open(&mut self, own: Size, theirs: Size)
        requires own { IsRequestSize own.entries own.limit }
        requires theirs { IsRequestSize theirs.entries theirs.limit }
        requires untaken { self.old.sides.pull.taken ≡ 0 }
        requires none { self.old.sides.pending_notices ≡ [] }
        ensures { self.new ≡ record self.old {
          sides = record self.old.sides {
            send = new_sending own.entries own.limit;
            pull = new_pulling theirs.entries theirs.limit;
          };
        } }
    {
        match &mut self.there {
            Some(there) => {
                there.send = Sender::new(own.entries, own.limit);
                there.pull = Receiver::new(theirs.entries, theirs.limit);
            }
            None => {
                self.own = own;
                self.theirs = theirs;
            }
        }
    }

    /// Begins a send.
    pub fn start_send(&mut self, payload: &[u8], wait: bool, notify: bool)
        requires ready { self.old.ready ≡ true }
        requires limit { length payload.now ≤ self.old.sides.send.limit }
        ensures { self.new ≡ record self.old {
          sides = record self.old.sides {
            send = record self.old.sides.send {
              send = Some (record { payload = payload.now; wait = wait; notify = notify });
              written_words = 0;
            };
          };
        } }
    {
        match &mut self.there {
            Some(there) => there.send.start(payload, wait, notify),
            None => unreachable!(),
        }
    }

    /// Begins a take.
    pub fn start_take(&mut self, wait: bool)
        requires ready { self.old.ready ≡ true }
        ensures { self.new ≡ record self.old {
          sides = record self.old.sides
              { pull = record self.old.sides.pull { take = Some wait; empty = None } };
        } }
    {
        match &mut self.there {
            Some(there) => there.pull.start(wait),
            None => unreachable!(),
        }
    }

    /// A copy of the counters is owed.
    pub fn owe_copy(&mut self)
        requires ready { self.old.ready ≡ true }
        ensures { self.new ≡ record self.old {
          sides = record self.old.sides
              { pull = record self.old.sides.pull { owed = true } };
        } }
    {
        match &mut self.there {
            Some(there) => there.pull.pull(),
            None => unreachable!(),
        }
    }

    /// Gives up the send in progress. It gives the answer of the send.
    pub fn close_send(&mut self, reason: Reason) -> Option<SendAnswer>
        ensures sides { self.new ≡
            record self.old {
              sides = record self.old.sides
                  { send = (send_closed reason self.old.sides.send).local };
            } }
        ensures notes { (send_closed reason self.old.sides.send).notes ≡ answer_notes result }
    {
        match &mut self.there {
            Some(there) => there.send.close(reason),
            None => None,
        }
    }

    /// Gives up the take in progress and each copy. It gives why the take is refused.
    pub fn close_pull(&mut self, reason: Reason) -> Option<TakeRefusal>
        ensures sides { self.new ≡
            record self.old {
              sides = record self.old.sides
                  { pull = (pull_closed reason self.old.sides.pull).local };
            } }
        ensures notes { (pull_closed reason self.old.sides.pull).notes ≡ refusal_notes result }
    {
        match &mut self.there {
            Some(there) => there.pull.close(reason),
            None => None,
        }
    }

    /// Each copy that goes on is over, and yields nothing.
    #[tactic(auto, using(crate::proofs::Fitting::fits_over))]
    pub fn end_copies(&mut self)
        ensures { self.new ≡ record self.old
            { sides = record self.old.sides { pull = copies_over self.old.sides.pull } } }
    {
        match &mut self.there {
            Some(there) => there.pull.end_copies(),
            None => {}
        }
    }

    /// The answer of the take in progress, where it is due; a message that is taken is held until
    /// it is released.
    #[tactic(auto, using(crate::proofs::Fitting::fits_taken))]
    pub fn take(&mut self) -> Option<TakeAnswer>
        requires { self.old.sides.pull.taken < 2 ^ 64 - 1 }
        ensures answer { result ≡ take_due self.old.sides.pull }
        ensures sides { self.new ≡
            record self.old {
              sides = record self.old.sides {
                pull = taken_side (take_due self.old.sides.pull) self.old.sides.pull;
                ack = held_after
                    (take_due self.old.sides.pull) self.old.sides.ack;
              };
            } }
    {
        match &mut self.there {
            Some(there) => {
                let number = there.pull.taken();
                let answer = there.pull.answer();
                if let Some(TakeAnswer::Taken { .. }) = &answer {
                    there.ack.taken(number);
                }
                answer
            }
            None => None,
        }
    }

    /// Releases the message of a number that is held. It waits for the store of get, unless the
    /// front stays.
    pub fn release(&mut self, number: u64)
        requires { is_held number self.old.sides.ack ≡ true }
        ensures { self.new ≡ record self.old {
          sides = record self.old.sides {
            ack = message_released number self.old.sides.ack;
            releasing = not
                (nat_eq self.old.sides.ack.front
                (message_released number self.old.sides.ack).front);
          };
        } }
    {
        match &mut self.there {
            Some(there) => {
                let before = there.ack.front();
                let _answer = there.ack.release(LinkState::Connected, number);
                there.releasing = there.ack.front() != before;
            }
            None => unreachable!(),
        }
    }

    /// Get is stored.
    pub fn acknowledge(&mut self) -> u64
        requires ready { self.old.ready ≡ true }
        ensures value { result ≡ self.old.sides.ack.front }
        ensures sides { self.new ≡
            record self.old {
              sides = record self.old.sides { local_get = self.old.sides.ack.front };
            } }
    {
        match &mut self.there {
            Some(there) => {
                let front = there.ack.front();
                there.local_get = front;
                front
            }
            None => unreachable!(),
        }
    }

    /// A release doesn't wait any more. Whether it did is the result.
    pub fn end_release(&mut self) -> bool
        ensures value { result ≡ self.old.sides.releasing }
        ensures sides { self.new ≡
            record self.old { sides = record self.old.sides { releasing = false } } }
    {
        match &mut self.there {
            Some(there) => {
                let waits = there.releasing;
                there.releasing = false;
                waits
            }
            None => false,
        }
    }

    /// A drain waits.
    pub fn start_drain(&mut self)
        requires { self.old.ready ≡ true }
        ensures { self.new ≡ record self.old { sides = record self.old.sides { draining = true } } }
    {
        match &mut self.there {
            Some(there) => there.draining = true,
            None => unreachable!(),
        }
    }

    /// A drain doesn't wait any more. Whether it did is the result.
    pub fn end_drain(&mut self) -> bool
        ensures value { result ≡ self.old.sides.draining }
        ensures sides { self.new ≡
            record self.old { sides = record self.old.sides { draining = false } } }
    {
        match &mut self.there {
            Some(there) => {
                let waits = there.draining;
                there.draining = false;
                waits
            }
            None => false,
        }
    }

    /// The lowest number that waits for a notice waits no longer.
    #[tactic(auto, using(crate::proofs::Asking::below_left))]
    pub fn first_notice(&mut self) -> Option<u64>
        ensures value { result ≡ first_number self.old.sides.pending_notices }
        ensures ready { IsSome result → self.old.ready ≡ true }
        ensures sides { let left = numbers_left (first_number self.old.sides.pending_notices)
            self.old.sides.pending_notices in
            self.new ≡ record self.old
            { sides = record self.old.sides { pending_notices = left } } }
    {
        match &mut self.there {
            Some(there) => {
                let notice = there.pending_notices.finish(Reason::Unregistered)?;
                Some(notice.number)
            }
            None => None,
        }
    }

    /// The lowest number that waits for a notice and lies below the get that is known waits no
    /// longer.
    #[tactic(auto, using(crate::proofs::Asking::below_left))]
    pub fn known_notice(&mut self) -> Option<u64>
        ensures value { result ≡
            below self.old.sides.send.remote_get self.old.sides.pending_notices }
        ensures sides { let left = numbers_left
            (below self.old.sides.send.remote_get self.old.sides.pending_notices)
            self.old.sides.pending_notices in
            self.new ≡ record self.old
            { sides = record self.old.sides { pending_notices = left } } }
    {
        match &mut self.there {
            Some(there) => {
                let remote_get = there.send.remote_get();
                let notice = there.pending_notices.acked(remote_get)?;
                Some(notice.number)
            }
            None => None,
        }
    }

    /// Nothing is left of the sides, and they take no memory any more.
    pub fn renew(&mut self)
        ensures { self.new ≡ renewed self.old }
    {
        if let Some(there) = &self.there {
            self.own = there.send.size();
            self.theirs = there.pull.size();
        }
        self.there = None;
    }
}

impl Sides {
    /// The front: all numbers below the front were released.
    pub fn front(&self) -> u64
        ensures { result ≡ self.now.sides.ack.front }
    {
        match &self.there {
            Some(there) => there.ack.front(),
            None => 0,
        }
    }

    /// The last get that was stored.
    pub fn local_get(&self) -> u64
        ensures { result ≡ self.now.sides.local_get }
    {
        match &self.there {
            Some(there) => there.local_get,
            None => 0,
        }
    }

    /// The limit of the own queue.
    pub fn own_limit(&self) -> u16
        ensures { result ≡ self.now.sides.send.limit }
    {
        match &self.there {
            Some(there) => there.send.size().limit,
            None => self.own.limit,
        }
    }

    /// Whether a release waits for the store of get.
    pub fn is_releasing(&self) -> bool
        ensures { result ≡ self.now.sides.releasing }
    {
        match &self.there {
            Some(there) => there.releasing,
            None => false,
        }
    }

    /// Whether a drain waits.
    pub fn is_draining(&self) -> bool
        ensures { result ≡ self.now.sides.draining }
    {
        match &self.there {
            Some(there) => there.draining,
            None => false,
        }
    }

    /// Whether a message was taken and not released.
    pub fn is_held(&self, number: u64) -> bool
        ensures { result ≡ is_held number self.now.sides.ack }
    {
        match &self.there {
            Some(there) => there.ack.is_held(number),
            None => false,
        }
    }

    /// Whether the partner has released all that was accepted, as far as it is known.
    pub fn is_acknowledged(&self) -> bool
        ensures { result ≡ nat_eq self.now.sides.send.remote_get self.now.sides.send.put }
    {
        match &self.there {
            Some(there) => there.send.remote_get() == there.send.put(),
            None => true,
        }
    }

    /// How many messages were accepted.
    pub fn put(&self) -> u64
        ensures { result ≡ self.now.sides.send.put }
    {
        match &self.there {
            Some(there) => there.send.put(),
            None => 0,
        }
    }

    /// How many messages were taken.
    pub fn taken(&self) -> u64
        ensures { result ≡ self.now.sides.pull.taken }
    {
        match &self.there {
            Some(there) => there.pull.taken(),
            None => 0,
        }
    }

    /// Whether the answer of the take in progress is due.
    pub fn is_due(&self) -> bool
        ensures { result ≡ is_some (take_due self.now.sides.pull) }
    {
        match &self.there {
            Some(there) => there.pull.is_due(),
            None => false,
        }
    }

    /// Whether the next message is cached.
    pub fn has_message(&self) -> bool
        ensures { result ≡ has_message self.now.sides.pull }
    {
        match &self.there {
            Some(there) => there.pull.has_message(),
            None => false,
        }
    }

    /// Whether the next word of an entry may be loaded.
    pub fn has_entry(&self) -> bool
        ensures value { result ≡ has_entry self.now.sides.pull }
        ensures can { result ≡ true → pull_can self.now.sides.pull PullRule.ReadEntry }
    {
        match &self.there {
            Some(there) => there.pull.has_entry(),
            None => false,
        }
    }

    /// Whether a take is in progress.
    pub fn is_taking(&self) -> bool
        ensures { result ≡ is_some self.now.sides.pull.take }
    {
        match &self.there {
            Some(there) => there.pull.is_taking(),
            None => false,
        }
    }

    /// Whether a send is in progress.
    pub fn is_sending(&self) -> bool
        ensures { result ≡ is_some self.now.sides.send.send }
    {
        match &self.there {
            Some(there) => there.send.is_sending(),
            None => false,
        }
    }

    /// Whether a copy goes on.
    pub fn copying(&self) -> bool
        ensures { result ≡ is_copying self.now.sides.pull }
    {
        match &self.there {
            Some(there) => there.pull.copying(),
            None => false,
        }
    }

    /// Whether a copy of the counters goes on.
    pub fn is_copying_counters(&self) -> bool
        ensures { result ≡ is_some self.now.sides.pull.counters }
    {
        match &self.there {
            Some(there) => there.pull.is_copying_counters(),
            None => false,
        }
    }

    /// Whether a copy of the counters goes on, or is owed.
    pub fn wants_counters(&self) -> bool
        ensures { result ≡ is_some self.now.sides.pull.counters || self.now.sides.pull.owed }
    {
        match &self.there {
            Some(there) => there.pull.wants_counters(),
            None => false,
        }
    }

    /// How many numbers wait for a notice.
    pub fn pending_notices(&self) -> u8
        ensures value { result ≡ length self.now.sides.pending_notices }
        ensures few { length self.now.sides.pending_notices ≤ LINES }
    {
        match &self.there {
            Some(there) => there.pending_notices.len(),
            None => 0,
        }
    }
}
