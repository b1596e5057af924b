// The steps of an end: what becomes of it when one is answered.
ghost use Rattle.std.specs.Prelude.{◌≡◌, ◌+◌, ◌-◌, ◌<◌, ◌≤◌, ◌^◌, ◌++◌, ◌∷◌, [], length, IfSome, IsSome, Some, None, true, false};
ghost use Rattle.xp_base.specs.declared.layout.TheConstants.{LINES};
ghost use Rattle.xp_base.specs.Kinds.{also};
ghost use Rattle.xp_protocol.specs.Sending.{ring_can};
ghost use Rattle.xp_protocol.specs.Pulling.{pull_can};
ghost use Rattle.xp_protocol.specs.State.{is_begun, link_of};
ghost use Rattle.xp_protocol.specs.Linking.{link_can, link_effect, acknowledged, with_sent, control_sent, flag_sent, owed, argument_stored, argument_read, with_argument};
ghost use Rattle.xp_protocol.specs.declared.rule.LinkRule.TheVariants.{Ring as ByRing, Pull as ByPull};
ghost use Rattle.xp_channel.specs.Channel.{kept, roomed, called};
ghost use Rattle.xp_openclose.specs.Planned.{is_control};
ghost use Rattle.xp_channel.specs.Opening.{sides_sent};
ghost use Rattle.xp_channel.specs.Room.{needs_sides, HasRoom, Pays, Settles, IsCountable, MayAsk};
ghost use Rattle.xp_channel.specs.Planned.{end_plan, wanted_by, fed, answered, place_of, rule_mark, error_or, MayAnswer, MayFail, MayFeed, MayStep};

use crate::end::{ChannelEnd, Work};
use xp_base::answer::{ReleaseAnswer, SendAnswer};
use xp_base::link::Kind;
use xp_base::places::queue_word;
use xp_base::reason::Reason;
use xp_base::step::{Answer, CopyKind};
use xp_protocol::contact::Replied;
use xp_protocol::rule::{Argument, LinkRule, PullRule, RingRule};

// A load of a copy that has no number failed.
fn copy_error(kind: CopyKind) -> Reason
    ensures { result ≡ Reason.CopyError kind 0 }
{
    Reason::CopyError { kind, number: 0 }
}

impl ChannelEnd {
    // The partner's get was loaded for the send in progress.
    #[tactic(auto, using(crate::proofs::Silent::sent_silent))]
    fn hear_get(&mut self, get: u64) -> Option<Reason>
        requires { ring_can self.old.end.sides.send RingRule.ReadGet }
        ensures end { self.new ≡
            kept (link_effect (place_of self.old) self.old.end (ByRing RingRule.ReadGet) get)
            self.old }
        ensures reason { result ≡
            (link_effect (place_of self.old) self.old.end (ByRing RingRule.ReadGet) get).reason }
    {
        match self.sides.hear_get(get) {
            Ok(Some(answer)) => {
                self.decided.send = Some(answer);
                None
            }
            Ok(None) => None,
            Err(reason) => Some(reason),
        }
    }

    // Put was stored: the message of the send in progress is accepted, of which the partner is to
    // be told.
    #[tactic(auto, using(crate::proofs::Silent::sent_silent, crate::proofs::Beginning::connected))]
    fn accept_message(&mut self)
        requires can { link_can self.old.end (ByRing RingRule.AcceptMessage) }
        requires counts { IsCountable self.old.end }
        requires room { HasRoom self.old }
        requires asks { MayAsk self.old.end }
        ensures end { self.new ≡
            called (kept (link_effect (place_of self.old) self.old.end
            (ByRing RingRule.AcceptMessage) 0) self.old) self.new }
        ensures calls { self.old.room.calls ≤ self.new.room.calls + 1 }
    {
        let asks = self.sides.asks();
        let number = self.sides.put();
        self.records.note_accepted(number, self.sides.body(), asks);
        self.sides.accept(asks);
        self.shake.owe_message(true);
        self.decided.send = Some(SendAnswer::Ok(number));
    }

    // A step of the sending side was answered a word.
    fn ring(&mut self, rule: RingRule, word: u64) -> Option<Reason>
        requires can { link_can self.old.end (ByRing rule) }
        requires counts { IsCountable self.old.end }
        requires room { HasRoom self.old }
        requires asks { MayStep self.old.end (ByRing rule) }
        ensures end { self.new ≡
            called (kept (link_effect (place_of self.old) self.old.end (ByRing rule) word) self.old)
            self.new }
        ensures calls { self.old.room.calls ≤ self.new.room.calls + 1 }
        ensures reason { result ≡
            (link_effect (place_of self.old) self.old.end (ByRing rule) word).reason }
    {
        match rule {
            RingRule::ReadGet => self.hear_get(word),
            RingRule::WriteEntryWord(field) => {
                self.sides.mark_written(field);
                None
            }
            RingRule::AcceptMessage => {
                self.accept_message();
                None
            }
        }
    }

    // A step of the receiving side was answered a word. The sending side of this end hears the
    // partner's get.
    #[tactic(auto, using(crate::proofs::Silent::heard_silent, crate::proofs::Beginning::copying_complete))]
    fn pull(&mut self, rule: PullRule, word: u64) -> Option<Reason>
        requires can { link_can self.old.end (ByPull rule) }
        requires room { HasRoom self.old }
        ensures end { self.new ≡
            kept (link_effect (place_of self.old) self.old.end (ByPull rule) word) self.old }
        ensures reason { result ≡
            (link_effect (place_of self.old) self.old.end (ByPull rule) word).reason }
    {
        match self.sides.pull(rule, word) {
            Ok(Some(get)) => {
                self.sides.know(get);
                None
            }
            Ok(None) => None,
            Err(reason) => Some(reason),
        }
    }

    // Get was stored, of which the partner is to be told; a release that waited for it is answered.
    #[tactic(auto, using(crate::proofs::Silent::released_silent, crate::proofs::Beginning::connected))]
    fn acknowledge(&mut self)
        requires can { link_can self.old.end LinkRule.Acknowledge }
        requires room { HasRoom self.old }
        ensures { self.new ≡ kept (acknowledged self.old.end) self.old }
    {
        let front = self.sides.acknowledge();
        self.shake.owe_message(true);
        self.records.note_acked(front);
        if self.sides.end_release() {
            self.decided.release = Some(ReleaseAnswer::Ok { front });
        }
    }
}

impl ChannelEnd {
    // A control flag was sent, and the record of the epoch begun.
    #[tactic(auto, using(crate::proofs::Beginning::sent_flag))]
    fn mark_sent(&mut self, kind: Kind)
        requires control { is_control kind ≡ true }
        requires owed { owed kind self.old.end ≡ true }
        requires contact { IsSome self.old.end.shake.meet }
        requires next { 0 < self.old.room.next }
        ensures end { self.new ≡ roomed (kept (with_sent kind self.old.end) self.old) self.new }
        ensures room { needs_sides self.new.end ≡ true → self.new.room ≡ self.old.room }
        ensures sent { self.new.end.shake.sent ≡ also kind self.old.end.shake.sent }
        ensures complete { self.new.end.shake.sent.open_complete ≡ true → needs_sides self.old.end ≡
            true }
        ensures next { self.old.room.next ≤ self.new.room.next + 1 }
    {
        let copying = self.sides.copying();
        self.open_record();
        self.open_sides(kind);
        self.shake.mark_sent(kind, self.registration, copying);
    }

    // With the open complete both sides are made anew.
    #[tactic(auto, using(crate::proofs::Beginning::replied_by, crate::proofs::Beginning::unopened_by))]
    fn open_sides(&mut self, kind: Kind)
        requires owed { owed kind self.old.end ≡ true }
        ensures { self.new ≡ record self.old
            { end = record self.old.end { sides = sides_sent kind self.old.end } } }
    {
        if kind == Kind::OpenComplete {
            let (own, theirs) = self.shake.queue_sizes();
            self.sides.open(own, theirs);
        }
    }

    // A control flag was sent: the epoch may end, and flags that were taken before may be handled.
    #[tactic(auto, using(crate::proofs::Settling::sending))]
    fn send_control(&mut self, kind: Kind) -> Option<Reason>
        requires control { is_control kind ≡ true }
        requires owed { owed kind self.old.end ≡ true }
        requires contact { IsSome self.old.end.shake.meet }
        requires epoch { self.old.end.epoch < 2 ^ 64 - 1 }
        requires ready { needs_sides self.old.end ≡ true → self.old.room.ready ≡ true }
        requires next { 2 ≤ self.old.room.next }
        ensures end { self.new ≡ roomed (kept (control_sent kind self.old.end) self.old) self.new }
        ensures reason { result ≡ (control_sent kind self.old.end).reason }
        ensures pays { Pays 0 2 self.old self.new }
    {
        self.mark_sent(kind);
        self.change();
        self.settle_all()
    }

    // A flag was sent.
    #[tactic(auto, using(crate::proofs::Beginning::complete_needs))]
    fn send_flag(&mut self, kind: Kind) -> Option<Reason>
        requires owed { owed kind self.old.end ≡ true }
        requires contact { IsSome self.old.end.shake.meet }
        requires epoch { self.old.end.epoch < 2 ^ 64 - 1 }
        requires ready { needs_sides self.old.end ≡ true → self.old.room.ready ≡ true }
        requires next { 2 ≤ self.old.room.next }
        ensures end { self.new ≡ roomed (kept (flag_sent kind self.old.end) self.old) self.new }
        ensures reason { result ≡ (flag_sent kind self.old.end).reason }
        ensures pays { Pays 0 2 self.old self.new }
    {
        match kind {
            Kind::MsgRequest => {
                self.shake.owe_message(false);
                None
            }
            Kind::CloseRequest
            | Kind::CloseReply
            | Kind::OpenRequest
            | Kind::OpenReply
            | Kind::OpenComplete => self.send_control(kind),
        }
    }

    // An argument was stored.
    fn store(&mut self, argument: Argument)
        ensures { self.new ≡ record self.old { end = argument_stored argument self.old.end } }
    {
        match argument {
            Argument::Request => {
                let word = self.request_word();
                self.shake.store_request(word);
            }
            Argument::Reply => self.shake.store_reply(),
            Argument::Code => self.shake.store_code(),
        }
    }

    // An argument was loaded.
    fn load(&mut self, argument: Argument, word: u64)
        ensures end { self.new ≡
            record self.old { end = with_argument argument (place_of self.old) word self.old.end } }
        ensures settles { Settles self.old self.new }
    {
        match argument {
            Argument::Request => self.shake.load_request(word),
            Argument::Reply => {
                let place = queue_word(self.own, self.records.channel(), 0) as u64;
                self.shake.load_reply(Replied {
                    word,
                    right: word == place,
                });
            }
            Argument::Code => self.shake.load_code(word),
        }
    }

    // An argument was loaded: the flag that waited for it may be handled.
    #[tactic(auto, using(crate::proofs::Settling::settles_then))]
    fn read(&mut self, argument: Argument, word: u64) -> Option<Reason>
        requires contact { IsSome self.old.end.shake.meet }
        requires epoch { self.old.end.epoch < 2 ^ 64 - 1 }
        requires ready { self.old.end.shake.sent.open_complete ≡ true → self.old.room.ready ≡ true }
        requires next { 0 < self.old.room.next }
        ensures end { self.new ≡
            roomed (kept (argument_read argument (place_of self.old) word self.old.end) self.old)
            self.new }
        ensures reason { result ≡
            (argument_read argument (place_of self.old) word self.old.end).reason }
        ensures settles { Settles self.old self.new }
    {
        self.load(argument, word);
        self.settle_all()
    }
}

impl ChannelEnd {
    // A rule's step was answered a word.
    #[tactic(auto, using(crate::proofs::Beginning::complete_needs))]
    fn apply(&mut self, rule: LinkRule, word: u64) -> Option<Reason>
        requires can { link_can self.old.end rule }
        requires counts { IsCountable self.old.end }
        requires room { HasRoom self.old }
        requires ready { needs_sides self.old.end ≡ true → self.old.room.ready ≡ true }
        requires next { IsSome self.old.end.shake.meet → 2 ≤ self.old.room.next }
        requires asks { MayStep self.old.end rule }
        ensures end { self.new ≡
            roomed (kept (link_effect (place_of self.old) self.old.end rule word) self.old)
            self.new }
        ensures reason { result ≡ (link_effect (place_of self.old) self.old.end rule word).reason }
        ensures pays { Pays 1 2 self.old self.new }
    {
        match rule {
            LinkRule::Ring(rule) => self.ring(rule, word),
            LinkRule::Pull(rule) => self.pull(rule, word),
            LinkRule::SetFlag(kind) => self.send_flag(kind),
            LinkRule::Acknowledge => {
                self.acknowledge();
                None
            }
            LinkRule::ZeroGet => {
                self.shake.zero_get();
                None
            }
            LinkRule::ZeroPut => {
                self.shake.zero_put();
                None
            }
            LinkRule::StoreArgument(argument) => {
                self.store(argument);
                None
            }
            LinkRule::ReadArgument(argument) => self.read(argument, word),
        }
    }

    // A rule's load failed: its copy is over.
    #[tactic(auto, using(crate::proofs::Beginning::copying_complete))]
    fn fail(&mut self, rule: LinkRule) -> Option<Reason>
        requires can { link_can self.old.end rule }
        requires load { IsSome (rule_mark self.old rule) }
        requires room { HasRoom self.old }
        ensures end { self.new ≡ kept (answered self.old rule Answer.Failed) self.old }
        ensures reason { result ≡ (answered self.old rule Answer.Failed).reason }
    {
        match rule {
            LinkRule::Ring(RingRule::ReadGet) => Some(copy_error(CopyKind::Get)),
            LinkRule::Pull(PullRule::ReadCounters) => {
                self.sides.fail_pull(PullRule::ReadCounters);
                Some(copy_error(CopyKind::Counters))
            }
            LinkRule::Pull(PullRule::ReadEntry) => {
                self.sides.fail_pull(PullRule::ReadEntry);
                Some(copy_error(CopyKind::Entries))
            }
            LinkRule::ReadArgument(_) => Some(copy_error(CopyKind::Args)),
            LinkRule::Ring(_)
            | LinkRule::Acknowledge
            | LinkRule::SetFlag(_)
            | LinkRule::ZeroGet
            | LinkRule::ZeroPut
            | LinkRule::StoreArgument(_) => unreachable!(),
        }
    }

    /// Whether the step of a rule may be made: one more number may wait, where it accepts a message
    /// that asks for a notice.
    pub fn may_step(&self, rule: LinkRule) -> bool
        ensures yes { result ≡ true → MayStep self.now.end rule }
        ensures no { MayStep self.now.end rule → result ≡ true }
    {
        match rule {
            LinkRule::Ring(RingRule::AcceptMessage) => self.may_ask(),
            LinkRule::Ring(RingRule::ReadGet)
            | LinkRule::Ring(RingRule::WriteEntryWord(_))
            | LinkRule::Pull(_)
            | LinkRule::Acknowledge
            | LinkRule::SetFlag(_)
            | LinkRule::ZeroGet
            | LinkRule::ZeroPut
            | LinkRule::StoreArgument(_)
            | LinkRule::ReadArgument(_) => true,
        }
    }

    /// Whether the step that `next` gives for a kind of work may be made, as `may_step` says.
    pub fn may_feed(&self, work: Work) -> bool
        ensures yes { result ≡ true → MayFeed self.now.end (end_plan work self.now.end) }
        ensures no { MayFeed self.now.end (end_plan work self.now.end) → result ≡ true }
    {
        match self.plan(work) {
            Some(rule) => self.may_step(rule),
            None => true,
        }
    }

    /// Takes the answer of a rule's step. It gives the reason to deactivate the partner, where
    /// there is one. Where there is turn room there is room for each step, and after it for the
    /// other calls of the turn.
    #[tactic(auto, using(crate::proofs::Beginning::complete_needs))]
    pub fn step(&mut self, rule: LinkRule, answer: Answer) -> Option<Reason>
        requires can { link_can self.old.end rule }
        requires load { MayFail (rule_mark self.old rule) answer }
        requires counts { IsCountable self.old.end }
        requires room { HasRoom self.old }
        requires ready { needs_sides self.old.end ≡ true → self.old.room.ready ≡ true }
        requires next { IsSome self.old.end.shake.meet → 2 ≤ self.old.room.next }
        requires asks { MayStep self.old.end rule }
        ensures end { self.new ≡ roomed (kept (answered self.old rule answer) self.old) self.new }
        ensures reason { result ≡ (answered self.old rule answer).reason }
        ensures pays { Pays 1 2 self.old self.new }
    {
        match answer {
            Answer::Word(word) => self.apply(rule, word),
            Answer::Failed => self.fail(rule),
        }
    }

    /// Takes the answer of the step that `next` gives for a kind of work. Err is a reason to
    /// deactivate the partner.
    #[tactic(auto, using(crate::proofs::Beginning::complete_needs))]
    pub fn feed(&mut self, work: Work, answer: Answer) -> Result<(), Reason>
        requires step { MayAnswer (wanted_by self.old (end_plan work self.old.end)) answer }
        requires counts { IsCountable self.old.end }
        requires room { HasRoom self.old }
        requires ready { needs_sides self.old.end ≡ true → self.old.room.ready ≡ true }
        requires next { IsSome self.old.end.shake.meet → 2 ≤ self.old.room.next }
        requires asks { MayFeed self.old.end (end_plan work self.old.end) }
        ensures end { self.new ≡
            roomed (kept (fed self.old (end_plan work self.old.end) answer) self.old) self.new }
        ensures reason { result ≡
            error_or (fed self.old (end_plan work self.old.end) answer).reason }
        ensures pays { Pays 1 2 self.old self.new }
    {
        let Some(rule) = self.plan(work) else {
            return Ok(());
        };
        match self.step(rule, answer) {
            None => Ok(()),
            Some(reason) => Err(reason),
        }
    }
}
