// The steps for a partner as they are made, and the numbers of copies that go on.
ghost use Rattle.std.specs.Prelude.{◌≡◌, ℕ};
ghost use Rattle.xp_protocol.specs.Linking.{link_can, link_row};
ghost use Rattle.xp_protocol.specs.Peering.{peer_row, page_word};
ghost use Rattle.xp_protocol.specs.Rules.{going_of, peer_going};
ghost use Rattle.xp_protocol.specs.Wanting.{wanted_at};
ghost use Rattle.xp_engage.specs.Partner.{IsStorable};
ghost use Rattle.xp_channel.specs.Room.{HasRoom, IsCountable};
ghost use Rattle.xp_partner.specs.Partner.{peer_seen, channel_of, going_at};

use crate::partner::Partner;
use xp_base::ids::Channel;
use xp_base::places::flag_word;
use xp_base::step::{CopyKind, CopyMark, Op, OpKind, Wanted};
use xp_protocol::rule::{LinkRule, PeerRule};

impl Partner {
    /// The step of a rule for the partner, its copy being without a number.
    #[tactic(auto, using(crate::proofs::Wanting::same_step))]
    pub fn wanted(&self, rule: PeerRule) -> Wanted
        requires { IsStorable self.now.standing rule }
        ensures { result ≡ wanted_at self.now.standing.own self.now.standing.partner
            (peer_row self.now.standing.own self.now.standing.stamp self.now.standing.partner
            (peer_seen self.now) rule) }
    {
        match rule {
            PeerRule::TakeFlags => Wanted {
                op: Op {
                    owner: self.standing.own(),
                    index: flag_word(self.standing.partner()),
                    kind: OpKind::Take,
                },
                mark: None,
            },
            PeerRule::LookAtPage => self.page_loaded(),
            PeerRule::AskActivation
            | PeerRule::CloseArea
            | PeerRule::ZeroMagic
            | PeerRule::ClearOldBit
            | PeerRule::Prepare(_)
            | PeerRule::OpenArea
            | PeerRule::SetEngagementBit
            | PeerRule::ReadRecord
            | PeerRule::CheckBeat
            | PeerRule::StoreEcho
            | PeerRule::StoreSecond
            | PeerRule::ClearEngagementBit
            | PeerRule::ClearDeactivationBit
            | PeerRule::TellPartner => self.standing.wanted(rule),
        }
    }

    // The load of the next word of the partner's page.
    fn page_loaded(&self) -> Wanted
        ensures { result ≡ wanted_at self.now.standing.own self.now.standing.partner
            (peer_row self.now.standing.own self.now.standing.stamp self.now.standing.partner
            (peer_seen self.now) PeerRule.LookAtPage) }
    {
        let word = self.page.len();
        Wanted {
            op: Op {
                owner: self.standing.partner(),
                index: page_word(word),
                kind: OpKind::Load,
            },
            mark: Some(CopyMark {
                kind: CopyKind::Page,
                number: 0,
                word: word as u32,
            }),
        }
    }

    /// The step of a rule at the end of a channel, its copy being without a number.
    #[tactic(auto, using(crate::proofs::Wanting::named_step))]
    pub fn wanted_link(&self, channel: Channel, rule: LinkRule) -> Wanted
        requires can { link_can (channel_of self.now channel).end rule }
        requires counts { IsCountable (channel_of self.now channel).end }
        requires room { HasRoom (channel_of self.now channel) }
        ensures { result ≡ wanted_at self.now.standing.own self.now.standing.partner
            (link_row self.now.standing.own self.now.standing.partner channel
            (channel_of self.now channel).end rule) }
    {
        self.ends[channel.get() as usize].wanted(rule)
    }

    /// The number of a copy for the partner that goes on, of its page, its record or its heartbeat.
    pub fn number(&self, kind: CopyKind) -> u64
        ensures { result ≡ peer_going kind self.now.numbers }
    {
        self.numbers.number(kind)
    }

    /// The number of a copy of a channel that goes on, of its counters or of a run of entries.
    pub fn link_number(&self, channel: Channel, kind: CopyKind) -> u64
        ensures { result ≡ going_of kind (going_at self.now channel) }
    {
        self.going[channel.get() as usize].number(kind)
    }
}

// Which word of a page a look loads at this number.
fn page_word(number: u8) -> u32
    ensures { result ≡ page_word number }
{
    match number {
        0 => 0,
        1 => 1,
        2 => 3,
        3 => 14,
        _ => 4,
    }
}
