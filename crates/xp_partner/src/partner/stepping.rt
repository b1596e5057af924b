// The steps at the ends of a partner, and for the partner: what becomes of it when one is answered.
ghost use Rattle.std.specs.Prelude.{◌≡◌, ℕ, ◌+◌, ◌<◌, ◌≤◌, IfSome, IsSome, Some, None, true, false};
ghost use Rattle.xp_protocol.specs.Rules.{going_after};
ghost use Rattle.xp_protocol.specs.Linking.{link_can};
ghost use Rattle.xp_engage.specs.Partner.{unmarked};
ghost use Rattle.xp_engage.specs.Learning.{faulted};
ghost use Rattle.xp_channel.specs.Channel.{kept, roomed};
ghost use Rattle.xp_channel.specs.Room.{IsCountable, Pays};
ghost use Rattle.xp_channel.specs.Planned.{answered, rule_mark, MayFail, MayStep};
ghost use Rattle.xp_partner.specs.Partner.{peer_seen, channel_of, with_channel};
ghost use Rattle.xp_partner.specs.Room.{HasNotes, HaveNotes, HaveNotesLeft};
ghost use Rattle.xp_partner.specs.Stepping.{link_stepped, reason_by};

use crate::partner::Partner;
use xp_base::ids::Channel;
use xp_base::reason::Reason;
use xp_base::step::{Answer, CopyMark};
use xp_protocol::rule::LinkRule;

// The reason that a step gives: that of a failed load has the number of its copy.
fn reason_of(mark: Option<CopyMark>, answer: Answer, reason: Option<Reason>) -> Option<Reason>
    ensures { result ≡ reason_by mark answer reason }
{
    match answer {
        Answer::Word(_) => reason,
        Answer::Failed => {
            let mark = mark?;
            Some(Reason::CopyError {
                kind: mark.kind,
                number: mark.number,
            })
        }
    }
}

impl Partner {
    // The number of a copy of a channel that goes on is kept.
    fn keep_number(&mut self, channel: Channel, mark: Option<CopyMark>)
        ensures { self.new ≡ record self.old { going = going_after mark channel self.old.going } }
    {
        if let Some(mark) = mark {
            let going = &mut self.going[channel.get() as usize];
            going.keep(mark);
        }
    }

    // The step of a rule at one end.
    #[tactic(auto, using(crate::proofs::Channels::stepping))]
    fn step_end(&mut self, channel: Channel, rule: LinkRule, answer: Answer) -> Option<Reason>
        requires can { link_can (channel_of self.old channel).end rule }
        requires load { MayFail (rule_mark (channel_of self.old channel) rule) answer }
        requires counts { IsCountable (channel_of self.old channel).end }
        requires room { HasNotes 1 (channel_of self.old channel) }
        requires asks { MayStep (channel_of self.old channel).end rule }
        ensures whole { self.new ≡ with_channel channel (channel_of self.new channel) self.old }
        ensures end { channel_of self.new channel ≡
            roomed (kept (answered (channel_of self.old channel) rule answer)
            (channel_of self.old channel)) (channel_of self.new channel) }
        ensures reason { result ≡ (answered (channel_of self.old channel) rule answer).reason }
        ensures pays { Pays 1 2 (channel_of self.old channel) (channel_of self.new channel) }
    {
        let end = &mut self.ends[channel.get() as usize];
        end.step(rule, answer)
    }

    /// The step of a rule at one end has answered, which was wanted with this mark. A failed load,
    /// and what the end refuses, is a reason to deactivate the partner.
    #[tactic(auto, using(crate::proofs::Channels::left_stepped))]
    pub fn step_link(
        &mut self,
        channel: Channel,
        rule: LinkRule,
        mark: Option<CopyMark>,
        answer: Answer,
    )
        requires can { link_can (channel_of self.old channel).end rule }
        requires mark { unmarked mark ≡ rule_mark (channel_of self.old channel) rule }
        requires load { MayFail mark answer }
        requires counts { IsCountable (channel_of self.old channel).end }
        requires room { HasNotes 1 (channel_of self.old channel) }
        requires asks { MayStep (channel_of self.old channel).end rule }
        ensures whole { self.new ≡
            link_stepped channel mark rule answer (channel_of self.new channel) self.old }
        ensures end { channel_of self.new channel ≡
            roomed (kept (answered (channel_of self.old channel) rule answer)
            (channel_of self.old channel)) (channel_of self.new channel) }
        ensures room { (notes : ℕ) → HaveNotes (notes + 1) self.old → HaveNotesLeft notes self.new }
    {
        let reason = self.step_end(channel, rule, answer);
        let reason = self.standing.end_reason(reason_of(mark, answer, reason));
        self.give(reason);
        self.keep_number(channel, mark);
    }
}
