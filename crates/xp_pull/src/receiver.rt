// The receiving side of a channel, for whichever partner and channel its caller names: it loads the
// partner's counters and copies its entries, whose bodies it caches until they are taken.
ghost use Rattle.std.specs.Prelude.{◌≡◌, ℕ, ◌+◌, ◌-◌, ◌*◌, ◌%◌, ◌^◌, ◌<◌, ◌≤◌, ◌↔◌, ◌||◌, ◌++◌, ◌∷◌, [], if◌then◌else◌, length, drop, IfSome, IfOk, IsSome, Some, None, nat_lt, is_some, true, false};
ghost use Rattle.xp_protocol.specs.Parts.{IsRequestSize};
ghost use Rattle.xp_protocol.specs.Wanting.{wanted_at};
ghost use Rattle.xp_protocol.specs.Pulling.{new_pulling, take_due, pull_can, pull_row, pull_effect, pull_failed, pull_closed, get_pulled, put_pulled, entry_pulled, is_copying, run_now, words_each, run_fault, run_bodies, entry_fault};
ghost use Rattle.xp_protocol.specs.Linking.{copies_over};
ghost use Rattle.xp_pull.specs.Planned.{sender_counters, pull_plan, has_message, has_entry, taken_side, kind_of};
ghost use Rattle.xp_pull.specs.Outcome.{outcome, reason_or, heard_notes, heard_of, refusal_notes};
ghost use Rattle.xp_pull.specs.Cached.{IsFitting, AreFitting};
ghost use Rattle.xp_pull.specs.Keeping.{IsKept, NothingLeft};
ghost use Rattle.xp_base.specs.Entries.{entry_words};
ghost use Rattle.xp_base.specs.declared.layout.TheConstants.{HEAD_WORDS, LINES};
ghost use Rattle.xp_base.specs.declared.body.TheConstants.{BODY_BYTES};

use crate::cache::Cache;
use crate::copied::RunWords;
use std::marker::Model;
use xp_base::answer::TakeAnswer;
use xp_base::body::{Body, entry_words};
use xp_base::ids::{Channel, PartId};
use xp_base::layout::LENGTH_MARK;
use xp_base::places::{counters, queue_word};
use xp_base::reason::Reason;
use xp_base::step::{CopyKind, CopyMark, Op, OpKind, Wanted};
use xp_protocol::contact::Size;
use xp_protocol::refusal::TakeRefusal;
use xp_protocol::rule::PullRule;

/// The receiving side of a channel. It caches as many bodies as the partner's queue has entries.
/// Contracts see what it knows.
#[derive(Drop)]
pub struct Receiver {
    /// The size of the partner's queue.
    entries: u8,
    limit: u16,
    /// The partner's put that was loaded last.
    pulled_put: u64,
    /// How many entries were copied whole.
    pulled: u64,
    taken: u64,
    /// The bodies of the messages from `taken` on, below `pulled`.
    cache: Cache,
    /// The get of a copy of the counters that goes on.
    counters: Option<u64>,
    copied: RunWords,
    /// How many entries the run has that is being copied, 0 where none is.
    run: u8,
    /// The get that was loaded last.
    known: u64,
    owed: bool,
    /// Whether a take is in progress, and then whether it may wait.
    take: Option<bool>,
    /// The put that showed the take in progress an empty queue.
    empty: Option<u64>,
}

impl Model for Receiver {
    ghost use Rattle.xp_protocol.specs.Pulling.{Pulling};

    ghost Value = { Pulling };

    ghost use Rattle.xp_pull.specs.ReceiverInside.{view_of, IsSound};

    ghost view = { view_of };

    ghost invariant = { IsSound };
}

impl Receiver {
    /// A side that has pulled nothing, for a partner's queue of this size.
    pub fn new(entries: u8, limit: u16) -> Receiver
        requires { IsRequestSize entries limit }
        ensures { result ≡ new_pulling entries limit }
    {
        Receiver {
            entries,
            limit,
            pulled_put: 0,
            pulled: 0,
            taken: 0,
            cache: Cache::new(),
            counters: None,
            copied: RunWords::new(),
            run: 0,
            known: 0,
            owed: false,
            take: None,
            empty: None,
        }
    }

    /// Begins a take. A side has one take at a time: another one that is begun takes its place.
    pub fn start(&mut self, wait: bool)
        ensures { self.new ≡ record self.old { take = Some wait; empty = None } }
    {
        self.take = Some(wait);
        self.empty = None;
    }

    /// The answer of the take in progress, where it is due: a message that was taken leaves the
    /// cache.
    pub fn answer(&mut self) -> Option<TakeAnswer>
        ensures answer { result ≡ take_due self.old }
        ensures side { self.new ≡ taken_side (take_due self.old) self.old }
    {
        self.take?;
        if let Some(put) = self.empty {
            self.take = None;
            self.empty = None;
            return Some(TakeAnswer::Empty { put });
        }
        let body = self.cache.take_first()?;
        let number = self.taken;
        self.taken += 1;
        self.take = None;
        Some(TakeAnswer::Taken { number, body })
    }

    /// A copy of the counters is owed, as after a message request of the partner.
    pub fn pull(&mut self)
        ensures { self.new ≡ record self.old { owed = true } }
    {
        self.owed = true;
    }

    /// The step that comes next: of a copy that goes on, else of a copy of the counters that is
    /// owed, else of the next entry, and else a take in progress loads the counters, unless its
    /// answer is due.
    #[tactic(auto, using(crate::proofs::Runs::slot_within))]
    pub fn plan(&self) -> Option<PullRule>
        ensures value { result ≡ pull_plan self.now }
        ensures can { IfSome result (λ rule. pull_can self.now rule) }
        ensures none { result ≡ None ↔ NothingLeft self.now }
    {
        if self.counters.is_some() {
            Some(PullRule::ReadCounters)
        } else if self.copied.len() > 0 {
            Some(PullRule::ReadEntry)
        } else if self.owed {
            Some(PullRule::ReadCounters)
        } else if self.pulled < self.pulled_put {
            Some(PullRule::ReadEntry)
        } else if self.take.is_some() {
            Some(PullRule::ReadCounters)
        } else {
            None
        }
    }

    /// Whether the answer of the take in progress is due.
    pub fn is_due(&self) -> bool
        ensures { result ≡ is_some (take_due self.now) }
    {
        self.take.is_some() && (self.empty.is_some() || self.has_message())
    }

    /// Whether the next word of an entry may be loaded.
    #[tactic(auto, using(crate::proofs::Runs::slot_within))]
    pub fn has_entry(&self) -> bool
        ensures value { result ≡ has_entry self.now }
        ensures can { result ≡ true → pull_can self.now PullRule.ReadEntry }
    {
        if self.pulled == self.pulled_put {
            return false;
        }
        self.run_now() > 0
    }

    /// Whether the next message is cached.
    pub fn has_message(&self) -> bool
        ensures { result ≡ has_message self.now }
    {
        self.taken < self.pulled
    }

    /// The step that a rule makes for the partner and channel named, its copy being without a
    /// number.
    pub fn wanted(&self, own: PartId, partner: PartId, channel: Channel, rule: PullRule) -> Wanted
        requires { pull_can self.now rule }
        ensures { result ≡ wanted_at own partner (pull_row own channel self.now rule) }
    {
        match rule {
            PullRule::ReadCounters => {
                let word = if self.counters.is_some() { 1u32 } else { 0u32 };
                loaded(
                    partner,
                    counters(own, channel, word),
                    CopyKind::Counters,
                    word,
                )
            }
            PullRule::ReadEntry => {
                let slot = (self.pulled % self.entries as u64) as u32;
                let word = self.copied.len() as u32;
                let first = entry_words(self.limit) as u32 * slot;
                loaded(
                    partner,
                    queue_word(own, channel, first + word),
                    CopyKind::Entries,
                    word,
                )
            }
        }
    }

    /// Takes the word that a rule's step was answered, beside the sender's counters at the same
    /// end: the get as last loaded, the own put and the number below which all messages were
    /// released. It gives the partner's get, where the word is one, or the reason to deactivate the
    /// partner.
    pub fn apply(
        &mut self,
        remote_get: u64,
        put: u64,
        front: u64,
        rule: PullRule,
        word: u64,
    ) -> Result<Option<u64>, Reason>
        requires can { pull_can self.old rule }
        requires front { front ≤ self.old.taken }
        ensures side { self.new ≡
            (pull_effect (sender_counters remote_get put front) self.old rule word).local }
        ensures outcome { result ≡
            outcome (pull_effect (sender_counters remote_get put front) self.old rule word) }
        ensures notes { (pull_effect (sender_counters remote_get put front) self.old rule
            word).notes ≡ heard_notes (heard_of result) }
        ensures heard { IfOk result
            (λ heard. IfSome heard (λ get. (remote_get ≤ get) × (get ≤ put))) }
    {
        match rule {
            PullRule::ReadCounters => match self.counters {
                None => self.hear_get(remote_get, put, word),
                Some(get) => unheard(self.hear_put(front, get, word)),
            },
            PullRule::ReadEntry => unheard(self.copy(word)),
        }
    }

    /// A load of a rule failed: its copy is over, and yields nothing.
    pub fn fail(&mut self, rule: PullRule)
        ensures { self.new ≡ pull_failed (kind_of rule) self.old }
    {
        match rule {
            PullRule::ReadCounters => {
                if self.counters.is_none() {
                    self.owed = false;
                }
                self.counters = None;
            }
            PullRule::ReadEntry => {
                self.copied.clear();
                self.run = 0;
            }
        }
    }

    /// Gives up the take in progress and each copy. It gives why the take is refused.
    pub fn close(&mut self, reason: Reason) -> Option<TakeRefusal>
        ensures side { self.new ≡ (pull_closed reason self.old).local }
        ensures notes { (pull_closed reason self.old).notes ≡ refusal_notes result }
        ensures copying { is_copying self.new ≡ false }
    {
        let taking = self.take.is_some();
        self.counters = None;
        self.copied.clear();
        self.run = 0;
        self.owed = false;
        self.take = None;
        self.empty = None;
        if taking {
            Some(TakeRefusal::Disconnecting { reason })
        } else {
            None
        }
    }
}

impl Receiver {
    // A copy of the counters is answered its get.
    fn hear_get(&mut self, remote_get: u64, put: u64, get: u64) -> Result<Option<u64>, Reason>
        requires { self.old.counters ≡ None }
        ensures side { self.new ≡
            (get_pulled (sender_counters remote_get put 0) self.old get).local }
        ensures outcome { result ≡
            outcome (get_pulled (sender_counters remote_get put 0) self.old get) }
        ensures notes { (get_pulled (sender_counters remote_get put 0) self.old get).notes ≡
            heard_notes (heard_of result) }
        ensures heard { IfOk result
            (λ heard. IfSome heard (λ get. (remote_get ≤ get) × (get ≤ put))) }
    {
        self.owed = false;
        if get < remote_get || put < get {
            return Err(Reason::BadCounters { get, put });
        }
        self.counters = Some(get);
        self.known = get;
        Ok(Some(get))
    }

    // A copy of the counters, whose get was loaded, is answered its put.
    fn hear_put(&mut self, front: u64, get: u64, put: u64) -> Option<Reason>
        requires { front ≤ self.old.taken }
        ensures side { self.new ≡ (put_pulled (sender_counters 0 0 front) get self.old put).local }
        ensures reason { result ≡ (put_pulled (sender_counters 0 0 front) get self.old put).reason }
        ensures notes { (put_pulled (sender_counters 0 0 front) get self.old put).notes ≡ [] }
    {
        self.counters = None;
        if put < self.pulled_put || put - front > self.entries as u64 {
            return Some(Reason::BadCounters { get, put });
        }
        if self.take == Some(false) && put == self.taken {
            self.empty = Some(put);
        }
        self.pulled_put = put;
        None
    }

    // How many entries the run has whose next word is loaded: that of the copy that goes on, or
    // else all that are put, up to the queue's end.
    fn run_now(&self) -> u8
        requires { self.now.pulled < self.now.pulled_put }
        ensures value { result ≡ run_now self.now }
        ensures some { 0 < result }
        ensures put { self.now.pulled + result ≤ self.now.pulled_put }
        ensures round { self.now.pulled % self.now.entries + result ≤ self.now.entries }
        ensures words { length self.now.copied < words_each self.now * result }
    {
        if self.copied.len() > 0 {
            return self.run;
        }
        let there = self.pulled_put - self.pulled;
        let left = self.entries as u64 - self.pulled % self.entries as u64;
        if there < left {
            there as u8
        } else {
            left as u8
        }
    }

    // A word of a run of entries is answered; with the last one the bodies are cached, if each
    // entry is as it has to be.
    fn copy(&mut self, word: u64) -> Option<Reason>
        requires there { self.old.pulled < self.old.pulled_put }
        ensures side { self.new ≡ (entry_pulled (self.old.copied ++ word ∷ []) self.old).local }
        ensures reason { result ≡ (entry_pulled (self.old.copied ++ word ∷ []) self.old).reason }
        ensures notes { (entry_pulled (self.old.copied ++ word ∷ []) self.old).notes ≡ [] }
    {
        let run = self.run_now();
        self.copied.push(word);
        if self.copied.len() < entry_words(self.limit) * run {
            self.run = run;
            return None;
        }
        let fault = run_fault_in(self.copied.words(), self.limit, self.pulled, run);
        if fault.is_none() {
            cache_run(&mut self.cache, self.copied.words(), self.limit, run);
            self.pulled += run as u64;
        }
        self.copied.clear();
        self.run = 0;
        fault
    }
}

impl Receiver {
    /// Each copy that goes on is over, and yields nothing; all else stays.
    pub fn end_copies(&mut self)
        ensures { self.new ≡ copies_over self.old }
    {
        self.counters = None;
        self.copied.clear();
        self.run = 0;
    }

    /// The size of the partner's queue.
    pub fn size(&self) -> Size
        ensures entries { result.entries ≡ self.now.entries }
        ensures limit { result.limit ≡ self.now.limit }
        ensures kept { IsKept self.now }
    {
        Size {
            entries: self.entries,
            limit: self.limit,
        }
    }

    /// How many messages were taken.
    pub fn taken(&self) -> u64
        ensures value { result ≡ self.now.taken }
        ensures kept { IsKept self.now }
    {
        self.taken
    }

    /// The get that a copy of the counters loaded last, 0 before.
    pub fn known_get(&self) -> u64
        ensures { result ≡ self.now.known }
    {
        self.known
    }

    /// Whether a copy goes on.
    pub fn copying(&self) -> bool
        ensures { result ≡ is_copying self.now }
    {
        self.counters.is_some() || self.copied.len() > 0
    }

    /// Whether a copy of the counters goes on.
    pub fn is_copying_counters(&self) -> bool
        ensures { result ≡ is_some self.now.counters }
    {
        self.counters.is_some()
    }

    /// Whether a copy of the counters goes on, or is owed.
    pub fn wants_counters(&self) -> bool
        ensures { result ≡ is_some self.now.counters || self.now.owed }
    {
        self.counters.is_some() || self.owed
    }

    /// Whether a take is in progress.
    pub fn is_taking(&self) -> bool
        ensures { result ≡ is_some self.now.take }
    {
        self.take.is_some()
    }
}

// What a word that isn't a get tells.
fn unheard(reason: Option<Reason>) -> Result<Option<u64>, Reason>
    ensures { result ≡ reason_or reason None }
{
    match reason {
        None => Ok(None),
        Some(reason) => Err(reason),
    }
}

// A load of a copy that has no number.
fn loaded(partner: PartId, index: u32, kind: CopyKind, word: u32) -> Wanted
    ensures { result ≡ record {
      op = record { owner = partner; index = index; kind = OpKind.Load };
      mark = Some
          (record { kind = kind; number = 0; word = word });
    } }
{
    Wanted {
        op: Op {
            owner: partner,
            index,
            kind: OpKind::Load,
        },
        mark: Some(CopyMark {
            kind,
            number: 0,
            word,
        }),
    }
}

// What is wrong with the words of an entry of the next number: its length, or its number.
fn entry_fault_in(words: &[u64], limit: u16, pulled: u64) -> Option<Reason>
    requires { 16 ≤ length words.now }
    ensures value { result ≡ entry_fault limit pulled words.now }
    ensures length { result ≡ None → IsFitting limit words.now }
{
    let length = words[0];
    let number = words[1];
    if length < LENGTH_MARK || length > LENGTH_MARK + limit as u64 {
        return Some(Reason::BadLength { word: length });
    }
    if number != pulled {
        return Some(Reason::BadNumber {
            wanted: pulled,
            word: number,
        });
    }
    None
}

#[tactic(auto, using(crate::proofs::Runs::fault_steps))]
// What is wrong with the first entry that is refused, of a run of entries from a number on.
fn run_fault_in(words: &[u64], limit: u16, number: u64, run: u8) -> Option<Reason>
    requires words { length words.now ≡ entry_words limit * run }
    requires limit { limit ≤ BODY_BYTES }
    requires number { number + run < 2 ^ 64 }
    ensures value { result ≡ run_fault limit number run words.now }
    ensures fitting { result ≡ None → AreFitting limit run words.now }
{
    if run == 0 {
        return None;
    }
    let fault = entry_fault_in(words, limit, number);
    if fault.is_some() {
        return fault;
    }
    run_fault_in(after_first(words, limit), limit, number + 1, run - 1)
}

#[tactic(auto, using(crate::proofs::Runs::body_steps))]
// The bodies of a run of entries are cached.
fn cache_run(cache: &mut Cache, words: &[u64], limit: u16, run: u8)
    requires words { length words.now ≡ entry_words limit * run }
    requires limit { limit ≤ BODY_BYTES }
    requires fitting { AreFitting limit run words.now }
    requires room { length cache.old + run ≤ LINES }
    ensures cache { cache.new ≡ cache.old ++ run_bodies limit run words.now }
    ensures length { length cache.new ≡ length cache.old + run }
{
    if run == 0 {
        return;
    }
    cache.push(Body::of_words(words));
    cache_run(cache, after_first(words, limit), limit, run - 1);
}

// The words behind those of the first entry.
#[tactic(auto, using(crate::proofs::Runs::tail_of))]
fn after_first(words: &[u64], limit: u16) -> &[u64]
    requires limit { limit ≤ BODY_BYTES }
    requires words { entry_words limit ≤ length words.now }
    ensures words { result.now ≡ drop (entry_words limit) words.now }
    ensures length { length result.now ≡ length words.now - entry_words limit }
{
    &words[entry_words(limit) as usize..]
}
