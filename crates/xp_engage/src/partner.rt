// What is kept for a partner, as a machine.
ghost use Rattle.std.specs.Prelude.{◌≡◌, ◌≤◌, ◌+◌, ◌&&◌, nat_eq, nat_le, nat_lt, Bool, ℕ, ◌<◌, ◌*◌, ◌-◌, ◌^◌, IfSome, IsSome, is_some, Some, None, true, false};
ghost use Rattle.xp_protocol.specs.State.{Off, are_new, booted_engage, cold_engage};
ghost use Rattle.xp_base.specs.declared.step.OpKind.TheVariants.{Or, Store};
ghost use Rattle.xp_base.specs.declared.layout.TheConstants.{RECORD_WORDS};
ghost use Rattle.xp_script.specs.declared.part.ScenarioPart.{ScenarioPart};
ghost use Rattle.xp_protocol.specs.State.{State};
ghost use Rattle.xp_protocol.specs.declared.rule.PeerRule.{PeerRule};
ghost use Rattle.xp_protocol.specs.declared.rule.Rule.TheVariants.{Peer as ForPeer};
ghost use Rattle.xp_protocol.specs.Rules.{Can, wanted_of};
ghost use Rattle.xp_protocol.specs.Peering.{is_good, IsAreaWord, field_number, field_word, may_open, is_off, is_prepared, copies_go_on, try_contact, magic_read, place_read, last_read, record_read, is_wrong, look_reason, freed_engage, end_reason};
ghost use Rattle.xp_engage.specs.PartnerInside.{area_seen, going};
ghost use Rattle.xp_engage.specs.Partner.{new_partner, warm_partner, booted_partner, alone, alone_by, seen_in, here, step_wanted, made, stepped, step_reason, is_made, is_copy, IsStorable, IsPermitted, IsMade, MayAnswer, IsStateOf, unnumbered};
ghost use Rattle.xp_plan.specs.PeerSteps.{prepare_at, engage_at, answer_at, record_at, check_at, leave_at, is_open_to, has_waited};
ghost use Rattle.xp_engage.specs.Next.{partner_next, for_partner, wanted_for, check_begins};
ghost use Rattle.xp_engage.specs.Learning.{faulted, fed, wanted_as, shown_by, stamp_shown, looked_at, heard, engaged_by, flags_noted, is_freed, sessions_of, state_told};

use crate::area::{AreaState, Exchange, OwnArea, OwnBit, PartnerState, RecordCopy, StoredWords};
use std::marker::Model;
use xp_base::ids::{Channel, PartId};
use xp_base::layout::{
    ACTIVATION, BEAT, CHANNELS, DEACTIVATION, ENGAGED, FIRST, LINES_VERSION, RECORD_WORDS, SECOND,
};
use xp_base::masks::{bit, contains};
use xp_base::places::{args, counters, flag_word, record};
use xp_base::reason::Reason;
use xp_base::session::Session;
use xp_base::step::{Answer, CopyKind, CopyMark, Op, OpKind, Wanted};
use xp_beat::watch::Watch;
use xp_discover::look::LookAnswer;
use xp_protocol::contact::{Contact, Look, PartnerState as Standing};
use xp_protocol::rule::{AreaWord, OwnRule, PeerRule, RecordField, Rule};

/// What a partition keeps for a partner, but for the ends of their channels. Contracts see what is
/// known of it.
#[derive(Drop)]
pub struct PartnerEnd {
    own: PartId,
    partner: PartId,
    /// The word of the own version.
    version: u64,
    /// For how many turns no engagement bit is set after it was cleared.
    wait: u64,
    /// How many turns lie between two checks of the partner's heartbeat, 0 for no checks.
    check: u64,
    /// The stamp of this boot.
    stamp: u32,
    /// Whether the heartbeat mask that was stored last has the partner's bit.
    masked: bool,
    wanted: bool,
    look: Look,
    /// Whether the own version and that of the last good look know entries of several lines.
    both_new: bool,
    /// The flag words that were taken since no flag waited to be handled.
    flags_seen: u64,
    state: Standing,
    /// Why the partner is to be deactivated.
    reason: Option<Reason>,
    area: OwnArea,
    bit: OwnBit,
    exchange: Exchange,
    contact: Option<Contact>,
    watch: Watch,
}

impl Model for PartnerEnd {
    ghost use Rattle.xp_engage.specs.Partner.{Partner};
    ghost use Rattle.xp_engage.specs.PartnerInside.{partner_seen, IsGoing};

    ghost Value = { Partner };

    ghost view = { partner_seen };

    ghost invariant = { IsGoing };
}

// The parts of a partner of which nothing is known.
const NO_WORDS: StoredWords = StoredWords {
    session: false,
    echo: false,
    flags: false,
    places: 0,
    args: 0,
    counters: 0,
};

const NO_EXCHANGE: Exchange = Exchange {
    read: None,
    echo: None,
    shown: false,
    copy: None,
};

// The session of a partition that opens booted, under which its partners are in contact.
const FIRST_SESSION: Session = Session { stamp: 1, count: 1 };

impl PartnerEnd {
    // A partner with the own memory in this state, whose heartbeat isn't checked.
    fn cold(
        own: PartId,
        partner: PartId,
        version: u64,
        stamp: u32,
        window: u64,
        state: AreaState,
        booted: bool,
    ) -> PartnerEnd
        requires { 2 * window < 2 ^ 64 }
        ensures { result ≡ new_partner own partner version stamp (record (cold_engage
            (area_seen state)) { zeroed = booted; cleared = booted }) window 0 }
    {
        PartnerEnd {
            own,
            partner,
            version,
            wait: 2 * window,
            check: 0,
            stamp,
            masked: false,
            wanted: true,
            look: Look::Unseen,
            both_new: false,
            flags_seen: 0,
            state: Standing::Inactive,
            reason: None,
            area: OwnArea {
                state,
                count: 0,
                stored: NO_WORDS,
                deactivation_cleared: false,
                second: false,
                told: false,
                zeroed: booted,
            },
            bit: OwnBit {
                is_in: false,
                back_off: false,
                cleared_at: None,
                cleared: booted,
            },
            exchange: NO_EXCHANGE,
            contact: None,
            watch: Watch::new(0),
        }
    }

    /// A partner in a boot of this stamp: the own memory for it is as a former boot left it.
    /// `version` is the word of the own version, and `window` the scenario's: no engagement bit is
    /// set within two windows after it was cleared. `check` turns lie between two checks of the
    /// partner's heartbeat, 0 for no checks.
    pub fn new(
        own: PartId,
        partner: PartId,
        version: u64,
        stamp: u32,
        window: u64,
        check: u64,
    ) -> PartnerEnd
        requires { 2 * window < 2 ^ 64 }
        ensures { result ≡ new_partner own partner version stamp booted_engage window check }
    {
        let mut end = PartnerEnd::cold(own, partner, version, stamp, window, AreaState::Old, false);
        end.check = check;
        end
    }

    /// A partner that isn't in contact, of a partition that opens booted.
    pub fn off(own: PartId, partner: PartId, version: u64, window: u64, check: u64) -> PartnerEnd
        requires { 2 * window < 2 ^ 64 }
        ensures { result ≡ new_partner own partner version 1 (cold_engage Off) window check }
    {
        let mut end = PartnerEnd::cold(own, partner, version, 1, window, AreaState::Off, true);
        end.check = check;
        end
    }

    /// A partner that is in contact at the opening; `theirs` is the word of its version.
    pub fn warm(
        own: PartId,
        partner: PartId,
        version: u64,
        theirs: u64,
        window: u64,
        check: u64,
    ) -> PartnerEnd
        requires { 2 * window < 2 ^ 64 }
        ensures { result ≡ warm_partner own partner version theirs window check }
    {
        let cold = PartnerEnd::cold(own, partner, version, 1, window, AreaState::Ready, true);
        let word = FIRST_SESSION.word();
        PartnerEnd {
            check,
            masked: true,
            both_new: are_new(version, theirs),
            state: Standing::Active,
            area: OwnArea {
                count: 1,
                second: true,
                ..cold.area
            },
            bit: OwnBit {
                is_in: true,
                ..cold.bit
            },
            exchange: Exchange {
                read: Some(word),
                echo: Some(word),
                shown: true,
                copy: None,
            },
            contact: Some(Contact {
                own: FIRST_SESSION,
                theirs: FIRST_SESSION,
            }),
            watch: Watch::new(0),
            ..cold
        }
    }
}

// Whether both versions know entries of several lines.
fn are_new(own: u64, theirs: u64) -> bool
    ensures { result ≡ are_new own theirs }
{
    own >= LINES_VERSION && theirs >= LINES_VERSION
}

// What comes next, by errand: each step is one that the rules permit.
impl PartnerEnd {
    /// The own memory is closed to a partner that is to be deactivated, and left; `copying` tells
    /// whether another copy of the partner's words goes on than that of its record.
    #[tactic(auto, unfolding(xp_protocol::specs::State::idle_links))]
    pub fn leave_step(&self, copying: bool) -> Option<PeerRule>
        ensures value { result ≡ leave_at (alone_by copying self.now) }
        ensures permitted { (turn : ℕ) →
            IfSome result (λ m. IsPermitted turn copying self.now m) }
    {
        match self.area.state {
            AreaState::Old | AreaState::Off => None,
            AreaState::Ready => self.reason.map(|_| PeerRule::CloseArea),
            AreaState::Leaving => {
                if !self.bit.is_in {
                    None
                } else if !self.area.told {
                    Some(PeerRule::TellPartner)
                } else if self.is_copying(copying) {
                    None
                } else {
                    Some(PeerRule::ClearEngagementBit)
                }
            }
        }
    }

    /// The own memory for a partner that is wanted is prepared and opened where it is free; the
    /// partition stores its mask before.
    pub fn prepare_step(&self) -> Option<Rule>
        ensures value { result ≡ prepare_at self.now.masked self.now.partner (alone self.now) }
        ensures permitted { (turn : ℕ) (copying : Bool) →
            IfSome (for_partner result) (λ m. IsPermitted turn copying self.now m) }
    {
        let q = self.partner.get();
        if !self.is_free() {
            None
        } else if !self.area.deactivation_cleared {
            Some(Rule::Peer(q, PeerRule::ClearDeactivationBit))
        } else if let Some(word) = self.area.stored.missing() {
            Some(Rule::Peer(q, PeerRule::Prepare(word)))
        } else if !self.is_prepared() {
            None
        } else if self.masked {
            Some(Rule::Peer(q, PeerRule::OpenArea))
        } else {
            Some(Rule::Own(OwnRule::StoreMask))
        }
    }

    // Whether the own memory is free for a partner that is wanted, and a session is left.
    fn is_free(&self) -> bool
        ensures { result ≡ (is_off self.now.engage.area
            && (self.now.wanted && nat_lt self.now.engage.count 4294967295)) }
    {
        matches!(self.area.state, AreaState::Off) && self.wanted && self.area.count < u32::MAX
    }

    // Whether all was stored that opening the own memory asks.
    fn is_prepared(&self) -> bool
        ensures { result ≡ is_prepared self.now.engage }
    {
        self.area.stored.is_whole() && self.area.deactivation_cleared && self.area.count < u32::MAX
    }

    /// A partner whose page is good is asked to be activated, and then the own bit is set at it.
    pub fn engage_step(&self, turn: u64) -> Option<PeerRule>
        ensures value { result ≡ engage_at (here turn self.now) (alone self.now) }
        ensures permitted { (copying : Bool) →
            IfSome result (λ m. IsPermitted turn copying self.now m) }
    {
        if !self.is_open() || self.bit.is_in || !is_good(self.look) {
            return None;
        }
        match self.state {
            Standing::Inactive => {
                if self.wanted {
                    Some(PeerRule::AskActivation)
                } else {
                    None
                }
            }
            Standing::Requested => {
                if self.has_waited(turn) {
                    Some(PeerRule::SetEngagementBit)
                } else {
                    None
                }
            }
            Standing::Activating | Standing::Active | Standing::Deactivating => None,
        }
    }

    /// The own bit goes where the partner's memory isn't open, once no copy of its words goes on;
    /// the session that was read is stored as echo, and then the second magic.
    #[tactic(auto, unfolding(xp_protocol::specs::State::idle_links))]
    pub fn answer_step(&self, copying: bool) -> Option<PeerRule>
        ensures value { result ≡ answer_at (alone_by copying self.now) }
        ensures permitted { (turn : ℕ) →
            IfSome result (λ m. IsPermitted turn copying self.now m) }
    {
        if !self.is_open() {
            return None;
        }
        let has_echo = self.exchange.echo.is_some();
        if self.bit.is_in && self.bit.back_off && !has_echo && !self.is_copying(copying) {
            Some(PeerRule::ClearEngagementBit)
        } else if has_echo {
            if self.area.second {
                None
            } else {
                Some(PeerRule::StoreSecond)
            }
        } else if self.bit.is_in && self.exchange.read.is_some() {
            Some(PeerRule::StoreEcho)
        } else {
            None
        }
    }

    /// The partner's record is read until there is contact. A copy is begun by the first
    /// `RECORD_WORDS` steps of an errand, and made to its end.
    pub fn record_step(&self, used: u8) -> Option<PeerRule>
        ensures value { result ≡ record_at used (alone self.now) }
        ensures permitted { (turn : ℕ) (copying : Bool) →
            IfSome result (λ m. IsPermitted turn copying self.now m) }
    {
        let is_activating = matches!(self.state, Standing::Activating);
        let may_read = self.is_open()
            && self.bit.is_in
            && is_activating
            && self.contact.is_none()
            && !self.bit.back_off;
        if may_read && (self.exchange.copy.is_some() || (used as u32) < RECORD_WORDS) {
            Some(PeerRule::ReadRecord)
        } else {
            None
        }
    }

    // Whether a check is begun by an errand that has used so many turns.
    fn begins_check(&self, used: u8, turn: u64) -> bool
        ensures value { result ≡ check_begins used turn self.now }
        ensures due { result ≡ true → self.now.watch.since + self.now.check ≤ turn }
    {
        used == 0 && self.watch.is_due(self.check, turn)
    }

    /// The heartbeat of a partner in contact is checked, where checks are planned. A check is begun
    /// by the first step of an errand, once it is due, and made to its end.
    pub fn check_step(&self, used: u8, turn: u64) -> Option<PeerRule>
        ensures value { result ≡ check_at (here turn self.now) used (alone self.now) }
        ensures permitted { (copying : Bool) →
            IfSome result (λ m. IsPermitted turn copying self.now m) }
    {
        let may_check = self.is_open() && matches!(self.state, Standing::Active) && self.check > 0;
        let loaded = self.watch.len();
        if may_check && (loaded > 0 || self.begins_check(used, turn)) {
            Some(PeerRule::CheckBeat)
        } else {
            None
        }
    }

    /// The step for the partner that comes next in this turn, whatever its errand but that of a
    /// check; `copying` tells whether another copy of the partner's words goes on than that of its
    /// record.
    pub fn plan(&self, turn: u64, copying: bool) -> Option<PeerRule>
        ensures value { result ≡ partner_next turn copying self.now }
        ensures permitted { IfSome result (λ m. IsPermitted turn copying self.now m) }
    {
        if let Some(rule) = self.leave_step(copying) {
            return Some(rule);
        }
        if let Some(Rule::Peer(_, rule)) = self.prepare_step() {
            return Some(rule);
        }
        if let Some(rule) = self.engage_step(turn) {
            return Some(rule);
        }
        if let Some(rule) = self.answer_step(copying) {
            return Some(rule);
        }
        self.record_step(0)
    }

    /// Whether the own memory is open, and no reason to deactivate the partner stands.
    pub fn is_open(&self) -> bool
        ensures { result ≡ is_open_to self.now.engage }
    {
        matches!(self.area.state, AreaState::Ready) && self.reason.is_none()
    }

    // Whether so many turns have passed since the own bit was cleared.
    fn has_waited(&self, turn: u64) -> bool
        ensures { result ≡ has_waited self.now.wait turn self.now.engage.cleared_at }
    {
        match self.bit.cleared_at {
            None => true,
            Some(cleared) => cleared <= turn && turn - cleared >= self.wait,
        }
    }

    // Whether a copy of the partner's words goes on.
    #[tactic(auto, unfolding(xp_protocol::specs::State::idle_links))]
    fn is_copying(&self, others: bool) -> bool
        ensures { result ≡ copies_go_on (alone_by others self.now) }
    {
        others || self.exchange.copy.is_some()
    }

    /// The step that is wanted in this turn: one that the rules permit to each partition that knows
    /// this of the partner.
    pub fn next(&self, turn: u64, copying: bool) -> Option<Wanted>
        ensures value { result ≡ wanted_for self.now (partner_next turn copying self.now) }
        ensures permitted { (s : ScenarioPart) (st : State) (m : PeerRule) →
            partner_next turn copying self.now ≡ Some m →
            IsStateOf self.now turn copying s st →
            Can s st (ForPeer self.now.partner m)
            × (step_wanted self.now m ≡ unnumbered (wanted_of s st (ForPeer self.now.partner m))) }
    {
        let rule = self.plan(turn, copying)?;
        Some(self.wanted(rule))
    }
}

// Whether the last look showed a good page.
fn is_good(look: Look) -> bool
    ensures { result ≡ is_good look }
{
    matches!(look, Look::Good { .. })
}

// A step as it is made.
impl PartnerEnd {
    /// The step of a rule.
    pub fn wanted(&self, rule: PeerRule) -> Wanted
        requires made { is_made rule ≡ true }
        requires storable { IsStorable self.now rule }
        ensures { result ≡ step_wanted self.now rule }
    {
        match rule {
            PeerRule::AskActivation => self.set_bit(ACTIVATION),
            PeerRule::SetEngagementBit => self.set_bit(ENGAGED),
            PeerRule::TellPartner => self.set_bit(DEACTIVATION),
            PeerRule::ClearOldBit | PeerRule::ClearEngagementBit => {
                self.on_theirs(ENGAGED, OpKind::And(!bit(self.own)))
            }
            PeerRule::ClearDeactivationBit => {
                self.on_own(DEACTIVATION, OpKind::And(!bit(self.partner)))
            }
            PeerRule::ZeroMagic | PeerRule::CloseArea => self.store(record(self.partner, 0), 0),
            PeerRule::OpenArea => self.store(record(self.partner, 0), FIRST),
            PeerRule::StoreSecond => self.store(record(self.partner, 0), SECOND),
            PeerRule::StoreEcho => {
                self.store(record(self.partner, 2), self.exchange.read.unwrap_or(0))
            }
            PeerRule::Prepare(word) => self.prepare(word),
            PeerRule::CheckBeat => self.load_beat(),
            PeerRule::ReadRecord | PeerRule::TakeFlags | PeerRule::LookAtPage => self.load_record(),
        }
    }

    // A step on a word of the own memory, and on one of the partner's.
    fn on_own(&self, index: u32, kind: OpKind) -> Wanted
        ensures { result
            ≡ record {
              op = record { owner = self.now.own; index = index; kind = kind };
              mark =
                  None;
            } }
    {
        Wanted {
            op: Op {
                owner: self.own,
                index,
                kind,
            },
            mark: None,
        }
    }

    fn on_theirs(&self, index: u32, kind: OpKind) -> Wanted
        ensures { result
            ≡ record {
              op = record { owner = self.now.partner; index = index; kind = kind };
              mark
                  = None;
            } }
    {
        Wanted {
            op: Op {
                owner: self.partner,
                index,
                kind,
            },
            mark: None,
        }
    }

    // The own bit is set in a word of the partner's.
    fn set_bit(&self, index: u32) -> Wanted
        ensures { result
            ≡ record {
              op = record {
                owner = self.now.partner;
                index = index;
                kind = Or
                    (2 ^ self.now.own);
              };
              mark = None;
            } }
    {
        self.on_theirs(index, OpKind::Or(bit(self.own)))
    }

    fn store(&self, index: u32, word: u64) -> Wanted
        ensures { result
            ≡ record {
              op = record { owner = self.now.own; index = index; kind = Store word };
              mark = None;
            } }
    {
        self.on_own(index, OpKind::Store(word))
    }

    // A word of the own memory for the partner is stored before it is opened.
    fn prepare(&self, word: AreaWord) -> Wanted
        requires word { IsAreaWord word }
        requires count { self.now.engage.count < 2 ^ 32 - 1 }
        ensures { result ≡ step_wanted self.now (PeerRule.Prepare word) }
    {
        let q = self.partner;
        match word {
            AreaWord::SessionWord => {
                let session = Session {
                    stamp: self.stamp,
                    count: self.area.count + 1,
                };
                self.store(record(q, 1), session.word())
            }
            AreaWord::EchoWord => self.store(record(q, 2), 0),
            AreaWord::PlaceWord(field) => self.store(
                record(q, field_number(field)),
                field_word(q, field),
            ),
            AreaWord::ArgsWord(c, f) => self.store(args(q, Channel::known(c), f as u32), 0),
            AreaWord::FlagWord => self.store(flag_word(q), 0),
            AreaWord::CounterWord(c, f) => self.store(counters(q, Channel::known(c), f as u32), 0),
        }
    }

    // The next word of the partner's heartbeat is loaded.
    fn load_beat(&self) -> Wanted
        ensures { result ≡ step_wanted self.now PeerRule.CheckBeat }
    {
        let word = self.watch.len() as u32;
        Wanted {
            op: Op {
                owner: self.partner,
                index: BEAT + word,
                kind: OpKind::Load,
            },
            mark: Some(CopyMark {
                kind: CopyKind::Beat,
                number: 0,
                word,
            }),
        }
    }

    // The next word of the partner's record is loaded.
    fn load_record(&self) -> Wanted
        ensures { result ≡ step_wanted self.now PeerRule.ReadRecord }
    {
        let word = match self.exchange.copy {
            None => 0,
            Some(copy) => copy.done as u32,
        };
        Wanted {
            op: Op {
                owner: self.partner,
                index: record(self.own, word),
                kind: OpKind::Load,
            },
            mark: Some(CopyMark {
                kind: CopyKind::Record,
                number: 0,
                word,
            }),
        }
    }
}

// Which word of a record says a field.
fn field_number(field: RecordField) -> u32
    ensures value { result ≡ field_number field }
    ensures range { result < RECORD_WORDS }
{
    match field {
        RecordField::ArgsPlace => 3,
        RecordField::CountersPlace => 4,
        RecordField::FlagPlace => 5,
        RecordField::ChannelCount => 6,
        RecordField::Spare => 7,
    }
}

// What the word of the record for a partner says.
fn field_word(q: PartId, field: RecordField) -> u64
    ensures { result ≡ field_word q field }
{
    match field {
        RecordField::ArgsPlace => args(q, Channel::known(0), 0) as u64,
        RecordField::CountersPlace => counters(q, Channel::known(0), 0) as u64,
        RecordField::FlagPlace => flag_word(q) as u64,
        RecordField::ChannelCount => CHANNELS as u64,
        RecordField::Spare => 0,
    }
}

// What a step's answer makes of the partner's standing.
impl PartnerEnd {
    /// The step of a rule has answered in this turn: what is known of the partner changes, and the
    /// answer may be a reason to deactivate the partner, which isn't kept yet. A failed load is a
    /// reason whose copy has the number 0.
    #[tactic(auto, using(crate::proofs::Stepping::made_alike))]
    pub fn step(&mut self, rule: PeerRule, turn: u64, answer: Answer) -> Option<Reason>
        requires made { IsMade rule answer }
        requires storable { IsStorable self.old rule }
        ensures partner { self.new ≡ stepped turn self.old rule answer }
        ensures reason { result ≡ step_reason turn self.old rule answer }
    {
        match answer {
            Answer::Failed => self.fail(rule, turn),
            Answer::Word(word) => match rule {
                PeerRule::ReadRecord => self.read_record(turn, word),
                PeerRule::CheckBeat => self.watch.add(self.own, turn, word),
                _ => {
                    self.make(rule, turn);
                    None
                }
            },
        }
    }

    /// The step that was wanted in this turn has answered. A failed load gives a reason whose copy
    /// has the number 0.
    #[tactic(auto, using(crate::proofs::Stepping::faulted_none))]
    pub fn feed(&mut self, turn: u64, answer: Answer)
        requires next { IsSome (partner_next turn false self.old) }
        requires load { MayAnswer (partner_next turn false self.old) answer }
        ensures { self.new ≡ fed turn answer (partner_next turn false self.old) self.old }
    {
        let Some(rule) = self.plan(turn, false) else {
            return;
        };
        if let Some(reason) = self.step(rule, turn, answer) {
            self.fault(reason);
        }
    }

    // A load of a copy failed: the copy is over.
    fn fail(&mut self, rule: PeerRule, turn: u64) -> Option<Reason>
        requires made { is_made rule ≡ true }
        requires copy { is_copy rule ≡ true }
        ensures partner { self.new ≡ stepped turn self.old rule Answer.Failed }
        ensures reason { result ≡ step_reason turn self.old rule Answer.Failed }
    {
        if let PeerRule::CheckBeat = rule {
            self.watch.fail(turn);
            return Some(Reason::CopyError {
                kind: CopyKind::Beat,
                number: 0,
            });
        }
        self.exchange.copy = None;
        Some(Reason::CopyError {
            kind: CopyKind::Record,
            number: 0,
        })
    }

    // A step that reads nothing was made.
    fn make(&mut self, rule: PeerRule, turn: u64)
        requires made { is_made rule ≡ true }
        requires other { is_copy rule ≡ false }
        requires storable { IsStorable self.old rule }
        ensures { self.new ≡ made turn self.old rule 0 }
    {
        match rule {
            PeerRule::AskActivation => self.state = Standing::Requested,
            PeerRule::ZeroMagic => self.area.zeroed = true,
            PeerRule::ClearOldBit => self.bit.cleared = true,
            PeerRule::ClearDeactivationBit => self.area.deactivation_cleared = true,
            PeerRule::TellPartner => self.area.told = true,
            PeerRule::Prepare(word) => self.stored(word),
            PeerRule::OpenArea => self.open(),
            PeerRule::SetEngagementBit => self.engage(),
            PeerRule::StoreEcho => {
                self.exchange.echo = self.exchange.read;
                self.bit.back_off = false;
            }
            PeerRule::StoreSecond => {
                self.area.second = true;
                self.try_contact(turn);
            }
            PeerRule::ClearEngagementBit => self.disengage(turn),
            PeerRule::CloseArea => self.leave(),
            PeerRule::ReadRecord
            | PeerRule::CheckBeat
            | PeerRule::TakeFlags
            | PeerRule::LookAtPage => {}
        }
    }

    // A word of the own memory for the partner was stored.
    fn stored(&mut self, word: AreaWord)
        requires { IsAreaWord word }
        ensures { self.new ≡ made 0 self.old (PeerRule.Prepare word) 0 }
    {
        self.exchange.echo = None;
        let stored = &mut self.area.stored;
        match word {
            AreaWord::SessionWord => stored.session = true,
            AreaWord::EchoWord => stored.echo = true,
            AreaWord::FlagWord => stored.flags = true,
            AreaWord::PlaceWord(field) => stored.places |= 1 << field_number(field),
            AreaWord::ArgsWord(c, f) => stored.args |= 1 << (4 * c + f),
            AreaWord::CounterWord(c, f) => stored.counters |= 1 << (2 * c + f),
        }
    }

    // The own memory is open under a new session.
    fn open(&mut self)
        requires { self.old.engage.count < 2 ^ 32 - 1 }
        ensures { self.new ≡ made 0 self.old PeerRule.OpenArea 0 }
    {
        self.area.state = AreaState::Ready;
        self.area.count += 1;
        self.area.second = false;
        self.exchange.shown = false;
        self.bit.back_off = false;
    }

    // The own bit stands at the partner.
    fn engage(&mut self)
        ensures { self.new ≡ made 0 self.old PeerRule.SetEngagementBit 0 }
    {
        self.bit.is_in = true;
        self.bit.back_off = false;
        self.state = Standing::Activating;
        self.exchange.read = None;
        self.exchange.copy = None;
    }

    // The own bit is gone.
    fn disengage(&mut self, turn: u64)
        ensures { self.new ≡ made turn self.old PeerRule.ClearEngagementBit 0 }
    {
        self.bit.is_in = false;
        self.bit.back_off = false;
        self.bit.cleared_at = Some(turn);
        self.exchange.read = None;
        if let AreaState::Ready = self.area.state {
            self.state = Standing::Requested;
        }
    }

    // The own memory is closed, where there is a reason.
    fn leave(&mut self)
        ensures { self.new ≡ made 0 self.old PeerRule.CloseArea 0 }
    {
        if self.reason.is_some() {
            self.contact = None;
            self.area.state = AreaState::Leaving;
            self.area.told = false;
            self.state = Standing::Deactivating;
            self.exchange.copy = None;
            self.bit.back_off = false;
            self.watch.stop();
        }
    }

    // There is contact where both have stored their second magic and seen each other's session. The
    // partner's heartbeat is watched from this turn on.
    fn try_contact(&mut self, turn: u64)
        ensures { self.new
            ≡ seen_in self.old (try_contact turn self.old.stamp (alone self.old)).local }
    {
        if self.area.second && self.exchange.shown && self.contact.is_none() {
            self.state = Standing::Active;
            self.contact = Some(Contact {
                own: Session {
                    stamp: self.stamp,
                    count: self.area.count,
                },
                theirs: Session::of_word(self.exchange.echo.unwrap_or(0)),
            });
            self.watch = Watch::new(turn);
        }
    }
}

// The copy of the partner's record.
impl PartnerEnd {
    // The next word was loaded in this turn.
    fn read_record(&mut self, turn: u64, word: u64) -> Option<Reason>
        ensures partner { self.new ≡ made turn self.old PeerRule.ReadRecord word }
        ensures reason { result ≡ (record_read (here turn self.old)
            (alone self.old) self.old.engage.reading word).reason }
    {
        match self.exchange.copy {
            None => self.read_magic(word),
            Some(copy) => match copy.done {
                1 => {
                    self.exchange.read = Some(word);
                    self.exchange.copy = Some(RecordCopy { done: 2, ..copy });
                    None
                }
                2 => {
                    self.exchange.copy = Some(RecordCopy {
                        done: 3,
                        echo: word,
                        ..copy
                    });
                    None
                }
                7 => {
                    self.end_copy(turn, copy);
                    None
                }
                _ => self.read_place(copy, word),
            },
        }
    }

    // Takes the magic of the partner's record, and gives the reason to deactivate the
    // partner, where there is one.
    fn read_magic(&mut self, word: u64) -> Option<Reason>
        ensures partner { self.new ≡ seen_in self.old (magic_read (alone self.old) word).local }
        ensures reason { result ≡ (magic_read (alone self.old) word).reason }
    {
        let has_echo = self.exchange.echo.is_some();
        if word == 0 {
            self.bit.back_off = self.bit.back_off || !has_echo;
            if has_echo {
                Some(Reason::OtherGoingDown { word: 0 })
            } else {
                None
            }
        } else if word == FIRST || word == SECOND {
            self.exchange.copy = Some(RecordCopy {
                done: 1,
                after_echo: has_echo,
                magic: word,
                echo: 0,
            });
            None
        } else {
            Some(Reason::BadMagic { word })
        }
    }

    // A word that says where something stands, or how many channels there are.
    fn read_place(&mut self, copy: RecordCopy, word: u64) -> Option<Reason>
        requires { copy.done < 7 }
        ensures partner { self.new ≡ seen_in self.old (place_read self.old.own (alone self.old)
            (going copy) word).local }
        ensures reason { result ≡ (place_read self.old.own (alone self.old)
            (going copy) word).reason }
    {
        if is_wrong(self.own, copy.done, word) {
            self.exchange.copy = None;
            return Some(Reason::BadArgs { word });
        }
        self.exchange.copy = Some(RecordCopy {
            done: copy.done + 1,
            ..copy
        });
        None
    }

    // The last word was loaded in this turn.
    fn end_copy(&mut self, turn: u64, copy: RecordCopy)
        ensures { self.new ≡ seen_in self.old (last_read turn self.old.stamp (alone self.old)
            (going copy)).local }
    {
        self.exchange.copy = None;
        let own = Session {
            stamp: self.stamp,
            count: self.area.count,
        };
        if copy.after_echo && copy.magic == SECOND && copy.echo == own.word() {
            self.exchange.shown = true;
            self.try_contact(turn);
        }
    }
}

// Whether this word of the partner's record for partition `own` isn't the one that it has to be.
fn is_wrong(own: PartId, number: u8, word: u64) -> bool
    ensures { result ≡ is_wrong own number word }
{
    match number {
        3 => word != field_word(own, RecordField::ArgsPlace),
        4 => word != field_word(own, RecordField::CountersPlace),
        5 => word != field_word(own, RecordField::FlagPlace),
        6 => word != field_word(own, RecordField::ChannelCount),
        _ => false,
    }
}

// What the partition tells of the partner.
impl PartnerEnd {
    /// Whether the partner is wanted: one that isn't is deactivated (`Unloading`).
    pub fn want(&mut self, wanted: bool)
        ensures { self.new ≡ wanted_as wanted self.old }
    {
        self.wanted = wanted;
        if !wanted {
            self.fault(Reason::Unloading);
            if let AreaState::Off = self.area.state {
                self.state = Standing::Inactive;
            }
        }
    }

    /// A look at the partner's page was whole. The version that a good one showed counts from now
    /// on. It is a reason where the partner's session was stored, and the page is of another boot
    /// or of a version that isn't known.
    pub fn looked(&mut self, answer: LookAnswer)
        ensures { self.new ≡ looked_at answer self.old }
    {
        self.look = match answer {
            LookAnswer::Good { version, .. } => Look::Good { version },
            LookAnswer::Absent => Look::Absent,
            LookAnswer::BadVersion { word } => Look::BadVersion { word },
        };
        if let Look::Good { version } = self.look {
            self.both_new = are_new(self.version, version);
        }
        if let Some(echo) = self.exchange.echo {
            self.look_again(echo, answer);
        }
    }

    // What a look says of a partner whose session was stored.
    fn look_again(&mut self, echo: u64, answer: LookAnswer)
        ensures { self.new ≡ faulted (look_reason (Some echo) (shown_by answer)
            (stamp_shown answer)) self.old }
    {
        let old = Session::of_word(echo).stamp;
        match answer {
            LookAnswer::Good { stamp, .. } => {
                if stamp != old {
                    self.fault(Reason::Reactivating {
                        old,
                        new: stamp as u64,
                    });
                }
            }
            LookAnswer::Absent => {}
            LookAnswer::BadVersion { word } => self.fault(Reason::BadVersion { word }),
        }
    }

    /// A reason to deactivate the partner. The first one is kept, and one that comes while the own
    /// memory isn't open is dropped.
    pub fn fault(&mut self, reason: Reason)
        ensures { self.new ≡ faulted (Some reason) self.old }
    {
        if let AreaState::Ready = self.area.state {
            if self.reason.is_none() {
                self.reason = Some(reason);
            }
        }
    }

    /// The own deactivation word was taken: where it has the bit of a partner whose session was
    /// stored, this partner goes down.
    pub fn told(&mut self, word: u64)
        ensures { self.new ≡ heard word self.old }
    {
        if self.exchange.echo.is_some() && contains(word, self.partner) {
            self.fault(Reason::OtherGoingDown { word });
        }
    }

    /// The own flag word for the partner was taken; `waits` tells whether a flag that was taken
    /// before still waits to be handled, at any end of their channels. The words that were taken
    /// since none waited are kept, joined by or.
    pub fn note_flags(&mut self, word: u64, waits: bool)
        ensures { self.new ≡ flags_noted word waits self.old }
    {
        self.flags_seen = if waits { self.flags_seen | word } else { word };
    }

    /// The own engagement word was loaded: memory that the partner has left is free. Gives whether
    /// it became free, so that the connections to the partner are over.
    pub fn engaged(&mut self, word: u64) -> bool
        ensures partner { self.new ≡ engaged_by word self.old }
        ensures freed { result ≡ is_freed word self.old }
    {
        let is_left = match self.area.state {
            AreaState::Old => true,
            AreaState::Leaving => !self.bit.is_in,
            AreaState::Off | AreaState::Ready => false,
        };
        let is_freed = is_left && !contains(word, self.partner);
        if is_freed {
            self.free();
        }
        is_freed
    }

    // The own memory is free.
    fn free(&mut self)
        ensures { self.new
            ≡ record self.old { engage = freed_engage self.old.engage; contact = None } }
    {
        self.contact = None;
        self.state = Standing::Inactive;
        self.reason = None;
        self.area.state = AreaState::Off;
        self.area.stored = NO_WORDS;
        self.area.deactivation_cleared = false;
        self.area.second = false;
        self.area.told = false;
        self.exchange.read = None;
        self.exchange.shown = false;
        self.bit.back_off = false;
    }

    /// The partition boots: nothing is known of the partner, and the own memory for it is as the
    /// former boot left it.
    pub fn boot(&mut self)
        ensures { self.new ≡ booted_partner self.old }
    {
        let wait = self.wait;
        *self = PartnerEnd::new(
            self.own,
            self.partner,
            self.version,
            self.stamp,
            0,
            self.check,
        );
        self.wait = wait;
    }

    /// The boot is over, with this stamp.
    pub fn set_stamp(&mut self, stamp: u32)
        ensures { self.new ≡ record self.old { stamp = stamp } }
    {
        self.stamp = stamp;
    }

    /// The own heartbeat mask was stored, with the partner's bit or without it.
    pub fn masked(&mut self, stored: bool)
        ensures { self.new ≡ record self.old { masked = stored } }
    {
        self.masked = stored;
    }
}

// What the standing of the partner tells.
impl PartnerEnd {
    /// Whether all holds that opening the own memory asks, but, it may be, the stored mask bit.
    pub fn prepared(&self) -> bool
        ensures { result ≡ may_open (alone self.now) }
    {
        matches!(self.area.state, AreaState::Off) && self.wanted && self.is_prepared()
    }

    /// Whether the partner is wanted.
    pub fn is_wanted(&self) -> bool
        ensures { result ≡ self.now.wanted }
    {
        self.wanted
    }

    /// How the partition stands to the partner.
    pub fn state(&self) -> PartnerState
        ensures { result ≡ state_told self.now.engage }
    {
        match self.state {
            Standing::Inactive => PartnerState::Inactive,
            Standing::Requested => PartnerState::Requested,
            Standing::Activating => PartnerState::Activating,
            Standing::Active => PartnerState::Active,
            Standing::Deactivating => PartnerState::Deactivating(
                self.reason.unwrap_or(Reason::Unloading),
            ),
        }
    }

    /// The own memory for the partner.
    pub fn area(&self) -> AreaState
        ensures { area_seen result ≡ self.now.engage.area }
    {
        self.area.state
    }

    /// The partition.
    pub fn own(&self) -> PartId
        ensures { result ≡ self.now.own }
    {
        self.own
    }

    /// The partner.
    pub fn partner(&self) -> PartId
        ensures { result ≡ self.now.partner }
    {
        self.partner
    }

    /// The word of the own version.
    pub fn version(&self) -> u64
        ensures { result ≡ self.now.version }
    {
        self.version
    }

    /// How many turns lie between two checks of the partner's heartbeat, 0 for no checks.
    pub fn check(&self) -> u64
        ensures { result ≡ self.now.check }
    {
        self.check
    }

    /// Whether the partner's session stands as the own echo.
    pub fn has_echo(&self) -> bool
        ensures { result ≡ is_some self.now.engage.echo }
    {
        self.exchange.echo.is_some()
    }

    /// Whether a copy of the partner's record goes on.
    pub fn is_reading(&self) -> bool
        ensures { result ≡ is_some self.now.engage.reading }
    {
        self.exchange.copy.is_some()
    }

    /// Whether the own bit stands at the partner.
    pub fn attached(&self) -> bool
        ensures { result ≡ self.now.engage.bit }
    {
        self.bit.is_in
    }

    /// The own session and the partner's, where there is contact.
    pub fn contact(&self) -> Option<(Session, Session)>
        ensures { result ≡ sessions_of self.now.contact }
    {
        let contact = self.contact?;
        Some((contact.own, contact.theirs))
    }

    /// Whether the own version and the partner's know entries of several lines: the partner's is
    /// that of the last good look, or of the opening where it was in contact then. A contact has
    /// this of the moment in which it is made.
    pub fn both_new(&self) -> bool
        ensures { result ≡ self.now.both_new }
    {
        self.both_new
    }

    /// A reason to deactivate the partner that one of their channels' ends gave. An end that
    /// refuses a flag doesn't know the words in which it came: they are put in here.
    pub fn end_reason(&self, reason: Option<Reason>) -> Option<Reason>
        ensures { result ≡ end_reason self.now.flags_seen reason }
    {
        match reason {
            Some(Reason::BadFlags { .. }) => Some(Reason::BadFlags {
                word: self.flags_seen,
            }),
            _ => reason,
        }
    }

    /// Why the partner is to be deactivated: None exactly where no such reason stands.
    pub fn reason(&self) -> Option<Reason>
        ensures { result ≡ self.now.engage.reason }
    {
        self.reason
    }
}
