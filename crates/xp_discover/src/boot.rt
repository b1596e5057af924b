// A boot, step by step.
ghost use Rattle.std.specs.Prelude.{◌≡◌, ◌+◌, ◌<◌, ◌≤◌, ◌↔◌, if◌then◌else◌, nat_lt, Some, None, IsSome, true};
ghost use Rattle.xp_base.specs.declared.layout.TheConstants.{PARTS};
ghost use Rattle.xp_script.specs.declared.part.ScenarioPart.{ScenarioPart};
ghost use Rattle.xp_protocol.specs.State.{State};
ghost use Rattle.xp_protocol.specs.Peering.{or_zero};
ghost use Rattle.xp_protocol.specs.Rules.{Can, wanted_of};
ghost use Rattle.xp_discover.specs.Booting.{first_start, partner_from, boot_step, rule_for, step_wanted, wanted_for, booted_on, step_answer, boot_after, boot_answer, IsBootOf};

use std::marker::Model;
use xp_base::ids::PartId;
use xp_base::layout::{ENGAGED, MASK, OFFLINE, STAMP};
use xp_base::masks::bit;
use xp_base::places::record;
use xp_base::step::{Op, OpKind, Wanted};

/// A step of a boot.
#[derive(Clone, Copy)]
pub enum BootStep {
    /// Loads the own stamp.
    ReadStamp,
    /// Stores 0 in the own heartbeat mask, and in the own offline count.
    ZeroMask,
    ZeroOffline,
    /// Stores 0 in the own magic for a partner.
    ZeroMagic(PartId),
    /// Clears the own bit in a partner's engagement word.
    ClearOldBit(PartId),
    /// Stores the stamp that was read plus 1.
    WriteStamp,
}

/// What becomes of a boot.
#[derive(Clone, Copy)]
pub enum BootAnswer {
    /// The partition is up, under this stamp.
    Booted { stamp: u32 },
    /// The stamp word that was read can't be raised: the partition makes no turn any more.
    Halted { word: u64 },
}

/// A boot. Contracts see what it has done.
#[derive(Drop)]
pub struct Boot {
    own: PartId,
    count: u8,
    /// The stamp that was read.
    read: Option<u32>,
    mask: bool,
    offline: bool,
    /// The partners below have the own magic 0.
    zeroed: u8,
    /// The partners below don't have the own engagement bit.
    cleared: u8,
    over: bool,
}

impl Model for Boot {
    ghost use Rattle.xp_discover.specs.Booting.{Starting};
    ghost use Rattle.xp_discover.specs.BootInside.{start_of, IsInRange};

    ghost Value = { Starting };

    ghost view = { start_of };

    ghost invariant = { IsInRange };
}

impl Boot {
    /// The boot of a partition among `count`, of which nothing was done yet.
    pub fn new(own: PartId, count: u8) -> Boot
        requires own { own < count }
        requires count { count ≤ PARTS }
        ensures { result ≡ first_start own count }
    {
        Boot {
            own,
            count,
            read: None,
            mask: false,
            offline: false,
            zeroed: 0,
            cleared: 0,
            over: false,
        }
    }

    /// The step that comes next, until the boot is over.
    pub fn step(&self) -> Option<BootStep>
        ensures value { result ≡ boot_step self.now }
        ensures none { result ≡ None ↔ self.now.over ≡ true }
    {
        if self.over {
            None
        } else if self.read.is_none() {
            Some(BootStep::ReadStamp)
        } else if !self.mask {
            Some(BootStep::ZeroMask)
        } else if !self.offline {
            Some(BootStep::ZeroOffline)
        } else if let Some(partner) = self.partner_from(self.cleared) {
            if self.zeroed <= partner.get() {
                Some(BootStep::ZeroMagic(partner))
            } else {
                Some(BootStep::ClearOldBit(partner))
            }
        } else {
            Some(BootStep::WriteStamp)
        }
    }

    // The first partner from this number on.
    fn partner_from(&self, number: u8) -> Option<PartId>
        requires { number ≤ self.now.count }
        ensures { result ≡ (if nat_lt (partner_from self.now.own number) self.now.count then Some
            (partner_from self.now.own number) else None) }
    {
        let next = if number == self.own.get() {
            number + 1
        } else {
            number
        };
        if next < self.count {
            PartId::new(next)
        } else {
            None
        }
    }

    /// The step that is wanted: one that the rules permit.
    pub fn next(&self) -> Option<Wanted>
        ensures value { result ≡ wanted_for self.now (boot_step self.now) }
        ensures none { result ≡ None ↔ self.now.over ≡ true }
        ensures permitted { (s : ScenarioPart) (st : State) (m : BootStep)
            → IsBootOf self.now s st →
            boot_step self.now ≡ Some m →
            Can s st (rule_for m) × (result ≡ Some (wanted_of s st (rule_for m))) }
    {
        let _ = &self.own;
        let step = self.step()?;
        Some(self.wanted(step))
    }

    // A step as it is made.
    fn wanted(&self, step: BootStep) -> Wanted
        ensures { result ≡ step_wanted self.now step }
    {
        let (owner, index, kind) = match step {
            BootStep::ReadStamp => (self.own, STAMP, OpKind::Load),
            BootStep::ZeroMask => (self.own, MASK, OpKind::Store(0)),
            BootStep::ZeroOffline => (self.own, OFFLINE, OpKind::Store(0)),
            BootStep::ZeroMagic(partner) => (self.own, record(partner, 0), OpKind::Store(0)),
            BootStep::ClearOldBit(partner) => (partner, ENGAGED, OpKind::And(!bit(self.own))),
            BootStep::WriteStamp => (self.own, STAMP, OpKind::Store(self.stamp() as u64)),
        };
        Wanted {
            op: Op { owner, index, kind },
            mark: None,
        }
    }

    // The stamp of this boot.
    fn stamp(&self) -> u32
        ensures { result ≡ or_zero self.now.boot.read + 1 }
    {
        self.read.unwrap_or(0) + 1
    }

    /// The step that was wanted has answered this word.
    pub fn feed(&mut self, word: u64) -> Option<BootAnswer>
        requires { IsSome (boot_step self.old) }
        ensures answer { result ≡ boot_answer self.old (boot_step self.old) word }
        ensures boot { self.new ≡ boot_after self.old (boot_step self.old) word }
    {
        match self.step()? {
            BootStep::ReadStamp => return self.read_stamp(word),
            BootStep::ZeroMask => self.mask = true,
            BootStep::ZeroOffline => self.offline = true,
            BootStep::ZeroMagic(partner) => self.zeroed = partner.get() + 1,
            BootStep::ClearOldBit(partner) => self.cleared = partner.get() + 1,
            BootStep::WriteStamp => {
                self.over = true;
                return Some(BootAnswer::Booted {
                    stamp: self.stamp(),
                });
            }
        }
        None
    }

    // The own stamp was read.
    fn read_stamp(&mut self, word: u64) -> Option<BootAnswer>
        ensures answer { result ≡ step_answer self.old BootStep.ReadStamp word }
        ensures boot { self.new ≡ booted_on self.old BootStep.ReadStamp word }
    {
        if word < u32::MAX as u64 {
            self.read = Some(word as u32);
            None
        } else {
            self.over = true;
            Some(BootAnswer::Halted { word })
        }
    }
}
