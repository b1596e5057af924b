// The step of an end that comes next, and the words of its steps.
ghost use Rattle.std.specs.Prelude.{◌≡◌, ◌<◌, IfSome, IsSome, Some, None, true, false};
ghost use Rattle.xp_base.specs.declared.layout.TheConstants.{ARGS_WORDS};
ghost use Rattle.xp_base.specs.Kinds.{flag};
ghost use Rattle.xp_protocol.specs.declared.rule.PullRule.TheVariants.{ReadEntry};
ghost use Rattle.xp_base.specs.Places.{Flag, Args, index_of};
ghost use Rattle.xp_protocol.specs.Effects.{load_copy};
ghost use Rattle.xp_protocol.specs.Wanting.{wanted_at};
ghost use Rattle.xp_protocol.specs.Linking.{link_can, owed, argument_field, request_of, code_of};
ghost use Rattle.xp_channel.specs.Room.{needs_sides, HasRoom, IsCountable};
ghost use Rattle.xp_channel.specs.Planned.{end_plan, signal_plan, read_plan, flag_plan, flag_step, opening_step, may_load_entry, rule_wanted, wanted_by};
ghost use Rattle.xp_channel.specs.Permitted.{ArePermitted, IfCan};

mod errands;

use crate::end::{ChannelEnd, Work};
use xp_base::ids::{Channel, PartId};
use xp_base::link::Kind;
use xp_base::places::{args, counters, flag_word, queue_word};
use xp_base::step::{CopyKind, CopyMark, Op, OpKind, Wanted};
use xp_protocol::rule::{Argument, LinkRule};

impl ChannelEnd {
    /// The step of a kind of work that comes next.
    pub fn plan(&self, work: Work) -> Option<LinkRule>
        ensures value { result ≡ end_plan work self.now.end }
        ensures can { IfSome result (λ rule. link_can self.now.end rule) }
    {
        match work {
            Work::Signal => self.plan_signal(),
            Work::Send => self.plan_send(),
            Work::Pull => self.plan_pull(),
        }
    }

    /// Whether the next word of an entry may be loaded, whatever copy of the counters is owed.
    pub fn may_load_entry(&self) -> bool
        ensures value { result ≡ may_load_entry self.now.end }
        ensures can { result ≡ true → link_can self.now.end (LinkRule.Pull ReadEntry) }
    {
        self.shake.may_copy() && self.sides.has_entry()
    }

    fn plan_send(&self) -> Option<LinkRule>
        ensures value { result ≡ end_plan Work.Send self.now.end }
        ensures can { IfSome result (λ rule. link_can self.now.end rule) }
    {
        if !self.shake.is_connected() {
            return None;
        }
        let rule = self.sides.plan_send()?;
        Some(LinkRule::Ring(rule))
    }

    fn plan_pull(&self) -> Option<LinkRule>
        ensures value { result ≡ end_plan Work.Pull self.now.end }
        ensures can { IfSome result (λ rule. link_can self.now.end rule) }
    {
        if !self.shake.may_copy() {
            return None;
        }
        let rule = self.sides.plan_pull()?;
        Some(LinkRule::Pull(rule))
    }

    // A message request, then a store of get, then the argument of a flag that waits for it, then a
    // control flag with what is stored before it.
    fn plan_signal(&self) -> Option<LinkRule>
        ensures value { result ≡ signal_plan self.now.end }
        ensures can { IfSome result (λ rule. link_can self.now.end rule) }
    {
        if self.shake.contact().is_none() {
            return None;
        }
        if self.shake.owes_message() {
            return Some(LinkRule::SetFlag(Kind::MsgRequest));
        }
        if self.shake.is_connected() && self.sides.local_get() < self.sides.front() {
            return Some(LinkRule::Acknowledge);
        }
        if let Some(argument) = self.plan_read() {
            return Some(LinkRule::ReadArgument(argument));
        }
        let kind = self.owed_flag()?;
        Some(self.plan_flag(kind))
    }

    // The argument of a flag that was taken and waits for it.
    fn plan_read(&self) -> Option<Argument>
        ensures value { result ≡ read_plan self.now.end }
        ensures can { IsSome self.now.end.shake.meet →
            IfSome result (λ x. link_can self.now.end (LinkRule.ReadArgument x)) }
    {
        if self.shake.has_sent(Kind::CloseReply) {
            return None;
        }
        if self.shake.has_taken(Kind::OpenRequest) && self.shake.request().is_none() {
            return Some(Argument::Request);
        }
        if self.shake.has_taken(Kind::OpenReply) && self.shake.reply().is_none() {
            return Some(Argument::Reply);
        }
        if self.shake.has_taken(Kind::CloseRequest) && self.shake.code().is_none() {
            return Some(Argument::Code);
        }
        None
    }

    // The control flag that is owed.
    fn owed_flag(&self) -> Option<Kind>
        ensures value { result ≡ flag_plan self.now.end }
        ensures owed { IfSome result (λ k. owed k self.now.end ≡ true) }
        ensures zero { result ≡ Some Kind.OpenRequest → self.now.end.shake.sent.open_complete ≡
            false }
    {
        self.shake
            .owes(self.registration.is_some(), self.sides.copying())
    }

    // What is stored before a flag, and then the flag.
    fn plan_flag(&self, kind: Kind) -> LinkRule
        requires owed { owed kind self.now.end ≡ true }
        requires zero { kind ≡ Kind.OpenRequest → self.now.end.shake.sent.open_complete ≡ false }
        ensures value { result ≡ flag_step kind self.now.end }
        ensures can { IsSome self.now.end.shake.meet → link_can self.now.end result }
    {
        match kind {
            Kind::OpenRequest => self.plan_opening(),
            Kind::OpenReply => {
                if self.shake.is_reply_stored() {
                    LinkRule::SetFlag(Kind::OpenReply)
                } else {
                    LinkRule::StoreArgument(Argument::Reply)
                }
            }
            Kind::CloseRequest => {
                if self.shake.is_code_stored() {
                    LinkRule::SetFlag(Kind::CloseRequest)
                } else {
                    LinkRule::StoreArgument(Argument::Code)
                }
            }
            Kind::OpenComplete => LinkRule::SetFlag(Kind::OpenComplete),
            Kind::CloseReply => LinkRule::SetFlag(Kind::CloseReply),
            Kind::MsgRequest => LinkRule::SetFlag(Kind::MsgRequest),
        }
    }

    // The next step of an opening: both counters are stored as 0, then the word of the registration
    // that stands, and then the open request is sent.
    fn plan_opening(&self) -> LinkRule
        requires owed { owed Kind.OpenRequest self.now.end ≡ true }
        requires zero { self.now.end.shake.sent.open_complete ≡ false }
        ensures value { result ≡ opening_step self.now.end }
        ensures can { IsSome self.now.end.shake.meet → link_can self.now.end result }
    {
        if !self.shake.is_get_zero() {
            LinkRule::ZeroGet
        } else if !self.shake.is_put_zero() {
            LinkRule::ZeroPut
        } else if self.shake.stored_request() == Some(self.request_word()) {
            LinkRule::SetFlag(Kind::OpenRequest)
        } else {
            LinkRule::StoreArgument(Argument::Request)
        }
    }

    // The code of the reason for which the channel closes.
    fn code_word(&self) -> u64
        ensures { result ≡ code_of self.now.end.shake.reason }
    {
        match self.shake.reason() {
            Some(reason) => reason.code() as u64,
            None => 0,
        }
    }
}

impl ChannelEnd {
    /// The step of a kind of work that is wanted next, its copy being without a number. It is a
    /// permitted one of each partition that knows this end.
    pub fn next(&self, work: Work) -> Option<Wanted>
        requires counts { IsCountable self.now.end }
        requires room { HasRoom self.now }
        ensures value { result ≡ wanted_by self.now (end_plan work self.now.end) }
        ensures can { IfCan self.now (end_plan work self.now.end) }
        ensures permitted { ArePermitted self.now result }
    {
        let rule = self.plan(work)?;
        Some(self.wanted(rule))
    }

    /// The step of a rule, its copy being without a number.
    pub fn wanted(&self, rule: LinkRule) -> Wanted
        requires can { link_can self.now.end rule }
        requires counts { IsCountable self.now.end }
        requires room { HasRoom self.now }
        ensures { result ≡ rule_wanted self.now rule }
    {
        let partner = self.records.partner();
        let channel = self.records.channel();
        match rule {
            LinkRule::Ring(rule) => self.sides.wanted_ring(self.own, partner, channel, rule),
            LinkRule::Pull(rule) => self.sides.wanted_pull(self.own, partner, channel, rule),
            LinkRule::Acknowledge => {
                stored(self.own, counters(partner, channel, 0), self.sides.front())
            }
            LinkRule::ZeroGet => stored(self.own, counters(partner, channel, 0), 0),
            LinkRule::ZeroPut => stored(self.own, counters(partner, channel, 1), 0),
            LinkRule::SetFlag(kind) => flag_set(self.own, partner, channel, kind),
            LinkRule::StoreArgument(argument) => self.argument_stored(argument),
            LinkRule::ReadArgument(argument) => {
                argument_loaded(self.own, partner, channel, argument)
            }
        }
    }

    // The store of an argument.
    fn argument_stored(&self, argument: Argument) -> Wanted
        ensures { result ≡ rule_wanted self.now (LinkRule.StoreArgument argument) }
    {
        let partner = self.records.partner();
        let channel = self.records.channel();
        match argument {
            Argument::Request => stored(self.own, args(partner, channel, 0), self.request_word()),
            Argument::Reply => stored(
                self.own,
                args(partner, channel, 1),
                queue_word(partner, channel, 0) as u64,
            ),
            Argument::Code => stored(self.own, args(partner, channel, 2), self.code_word()),
        }
    }
}

// The number of an argument among those of a channel.
fn argument_field(argument: Argument) -> u32
    ensures value { result ≡ argument_field argument }
    ensures low { result < ARGS_WORDS }
{
    match argument {
        Argument::Request => 0,
        Argument::Reply => 1,
        Argument::Code => 2,
    }
}

// A flag is set in the partner's flag word.
fn flag_set(own: PartId, partner: PartId, channel: Channel, kind: Kind) -> Wanted
    ensures { result ≡ record {
      op = record {
        owner = partner;
        index = index_of (Flag own);
        kind = OpKind.Or
            (flag channel kind);
      };
      mark = None;
    } }
{
    Wanted {
        op: Op {
            owner: partner,
            index: flag_word(own),
            kind: OpKind::Or(flag_bit(channel, kind)),
        },
        mark: None,
    }
}

// The load of the partner's argument word.
fn argument_loaded(own: PartId, partner: PartId, channel: Channel, argument: Argument) -> Wanted
    ensures { result ≡ wanted_at own partner
        (load_copy (Args own channel (argument_field argument)) CopyKind.Args 0) }
{
    Wanted {
        op: Op {
            owner: partner,
            index: args(own, channel, argument_field(argument)),
            kind: OpKind::Load,
        },
        mark: Some(CopyMark {
            kind: CopyKind::Args,
            number: 0,
            word: 0,
        }),
    }
}

// The bit of one flag in a flag word.
fn flag_bit(channel: Channel, kind: Kind) -> u64
    ensures { result ≡ flag channel kind }
{
    let bit: u8 = match kind {
        Kind::CloseRequest => 0,
        Kind::CloseReply => 1,
        Kind::OpenRequest => 2,
        Kind::OpenReply => 3,
        Kind::OpenComplete => 4,
        Kind::MsgRequest => 5,
    };
    1u64 << (8 * channel.get() + bit)
}

// A store in an own word.
fn stored(own: PartId, index: u32, word: u64) -> Wanted
    ensures { result ≡ record
        { op = record { owner = own; index = index; kind = OpKind.Store word }; mark = None } }
{
    Wanted {
        op: Op {
            owner: own,
            index,
            kind: OpKind::Store(word),
        },
        mark: None,
    }
}
