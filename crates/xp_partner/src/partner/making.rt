// The steps for a partner: what becomes of it, and of the ends of its channels, when one is
// answered.
ghost use Rattle.std.specs.Prelude.{◌≡◌, ℕ, is_some, Some, None, true};
ghost use Rattle.xp_engage.specs.Partner.{IsStorable};
ghost use Rattle.xp_partner.specs.Partner.{rooms_of};
ghost use Rattle.xp_partner.specs.Room.{KeepLeft};
ghost use Rattle.xp_partner.specs.Making.{peer_made, marked, met_if, is_alone, MayTakeFlags};

use crate::ends;
use crate::partner::Partner;
use xp_base::reason::Reason;
use xp_base::step::{Answer, CopyKind, CopyMark};
use xp_protocol::rule::PeerRule;

impl Partner {
    /// The step of a rule for the partner has answered in this turn, which was wanted with this
    /// mark. What it gives as a reason to deactivate the partner is kept, and the ends go down,
    /// come into contact, or take their flags with it.
    #[tactic(auto, using(crate::proofs::Making::marked_made))]
    pub fn step(&mut self, rule: PeerRule, turn: u64, mark: Option<CopyMark>, answer: Answer)
        requires storable { IsStorable self.old.standing rule }
        requires flags { rule ≡ PeerRule.TakeFlags → MayTakeFlags self.old }
        ensures partner { self.new ≡ rooms_of (peer_made turn mark rule answer self.old) self.new }
        ensures left { KeepLeft self.old.channels self.new.channels }
    {
        match answer {
            Answer::Word(word) => {
                self.keep_mark(mark);
                self.apply(rule, turn, word);
            }
            Answer::Failed => self.fail(turn, mark),
        }
    }

    // A step has answered a word.
    fn apply(&mut self, rule: PeerRule, turn: u64, word: u64)
        requires storable { IsStorable self.old.standing rule }
        requires flags { rule ≡ PeerRule.TakeFlags → MayTakeFlags self.old }
        ensures partner { self.new ≡
            rooms_of (peer_made turn None rule (Answer.Word word) self.old) self.new }
        ensures left { KeepLeft self.old.channels self.new.channels }
    {
        match rule {
            PeerRule::TakeFlags => self.take_flags(word),
            PeerRule::LookAtPage => self.look(word),
            PeerRule::CloseArea => self.close_area(),
            PeerRule::AskActivation
            | PeerRule::ZeroMagic
            | PeerRule::ClearOldBit
            | PeerRule::Prepare(_)
            | PeerRule::OpenArea
            | PeerRule::SetEngagementBit
            | PeerRule::ReadRecord
            | PeerRule::CheckBeat
            | PeerRule::StoreEcho
            | PeerRule::StoreSecond
            | PeerRule::ClearEngagementBit
            | PeerRule::ClearDeactivationBit
            | PeerRule::TellPartner => self.step_alone(rule, turn, word),
        }
    }

    // A step that changes how the partition stands to the partner: there may be contact then.
    #[tactic(auto, using(crate::proofs::Making::alone_made))]
    fn step_alone(&mut self, rule: PeerRule, turn: u64, word: u64)
        requires alone { is_alone rule ≡ true }
        requires storable { IsStorable self.old.standing rule }
        ensures partner { self.new ≡
            rooms_of (peer_made turn None rule (Answer.Word word) self.old) self.new }
        ensures left { KeepLeft self.old.channels self.new.channels }
    {
        let was_met = self.standing.contact().is_some();
        let reason = self.standing.step(rule, turn, Answer::Word(word));
        self.meet(was_met);
        self.give(reason);
    }

    // The ends are in contact, where the partner has come to be.
    #[tactic(auto, using(crate::proofs::Making::meeting))]
    fn meet(&mut self, was_met: bool)
        ensures partner { self.new ≡ rooms_of (met_if was_met self.old) self.new }
        ensures left { KeepLeft self.old.channels self.new.channels }
    {
        if was_met {
            return;
        }
        if let Some((own, theirs)) = self.standing.contact() {
            ends::start(&mut self.ends, own, theirs, self.standing.both_new());
        }
    }

    // The own memory was closed: the ends go down for the reason to deactivate the partner.
    #[tactic(auto, using(crate::proofs::Making::closing))]
    fn close_area(&mut self)
        ensures partner { (turn word : ℕ) → self.new ≡
            rooms_of (peer_made turn None PeerRule.CloseArea (Answer.Word word) self.old) self.new }
        ensures left { KeepLeft self.old.channels self.new.channels }
    {
        let reason = self.standing.reason();
        let _ = self.standing.step(PeerRule::CloseArea, 0, Answer::Word(0));
        if let Some(reason) = reason {
            ends::down(&mut self.ends, reason);
        }
    }

    // A word of the partner's page was loaded.
    #[tactic(auto, using(crate::proofs::Making::looking))]
    fn look(&mut self, word: u64)
        ensures partner { (turn : ℕ) → self.new ≡
            rooms_of (peer_made turn None PeerRule.LookAtPage (Answer.Word word) self.old)
            self.new }
        ensures left { KeepLeft self.old.channels self.new.channels }
    {
        if let Some(shown) = self.page.add(word) {
            self.standing.looked(shown);
        }
    }

    // A load of a copy failed: the copy is over. A look that fails deactivates no partner whose
    // session doesn't stand as the own echo.
    #[tactic(auto, using(crate::proofs::Making::failing))]
    fn fail(&mut self, turn: u64, mark: Option<CopyMark>)
        ensures partner { (rule : PeerRule) → self.new ≡
            rooms_of (peer_made turn mark rule Answer.Failed self.old) self.new }
        ensures left { KeepLeft self.old.channels self.new.channels }
    {
        let has_echo = self.standing.has_echo();
        let Some(mark) = mark else {
            return;
        };
        let reason = Reason::CopyError {
            kind: mark.kind,
            number: mark.number,
        };
        if let CopyKind::Page = mark.kind {
            self.page.fail();
            if has_echo {
                self.standing.fault(reason);
            }
        } else if let CopyKind::Record = mark.kind {
            let _ = self.standing.step(PeerRule::ReadRecord, 0, Answer::Failed);
            self.standing.fault(reason);
        } else if let CopyKind::Beat = mark.kind {
            let _ = self
                .standing
                .step(PeerRule::CheckBeat, turn, Answer::Failed);
            self.standing.fault(reason);
        } else {
            self.standing.fault(reason);
        }
    }

    // The number of a copy for the partner that goes on is kept.
    fn keep_mark(&mut self, mark: Option<CopyMark>)
        ensures { self.new ≡ marked mark self.old }
    {
        if let Some(mark) = mark {
            self.numbers.keep(mark);
        }
    }
}
