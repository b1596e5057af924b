// The partners of a partition, by number, and which of them were touched since room was made.
ghost use Rattle.std.specs.Prelude.{◌≡◌, ◌≢◌, ℕ, ◌<◌, ◌≤◌, length, slice_get, true};
ghost use Rattle.std.specs.Borrow.{sem};
ghost use Rattle.std.specs.Option.{option_copied};
ghost use Rattle.xp_base.specs.declared.layout.TheConstants.{PARTS};
ghost use Rattle.xp_base.specs.Masks.{has};
ghost use Rattle.xp_partition.specs.Partners.{partner_at};
ghost use Rattle.xp_partition.specs.Lending.{LendsPartner};

mod booting;
mod looking;
mod opening;
mod reserving;

use std::marker::Model;
use xp_base::ids::PartId;
use xp_base::masks;
use xp_partner::partner::Partner;

/// The partners of a partition, by number: one for each partition, the own one among them.
/// Contracts see them, and the set of those that were touched since room was made at them.
#[derive(Drop)]
pub struct Partners {
    list: Vec<Partner>,
    touched: u64,
}

impl Model for Partners {
    ghost use Rattle.xp_partition.specs.Partners.{Partners};

    ghost Value = { Partners };

    ghost view = { λ x. record { list = x.list.items; touched = x.touched } };
}

impl Partners {
    /// How many partners there are.
    pub fn len(&self) -> u8
        requires { length self.now.list ≤ PARTS }
        ensures { result ≡ length self.now.list }
    {
        self.list.len() as u8
    }

    /// A partner.
    pub fn at(&self, number: PartId) -> &Partner
        requires { number < length self.now.list }
        ensures { result.now ≡ partner_at self.now.list number }
    {
        &self.list[number.get() as usize]
    }

    /// A partner, where there is one of this number.
    pub fn get(&self, number: PartId) -> Option<&Partner>
        ensures { option_copied result ≡ slice_get self.now.list number }
    {
        self.list.get(number.get() as usize)
    }

    /// Which partners were touched since room was made: a bit for each.
    pub fn touched(&self) -> u64
        ensures { result ≡ self.now.touched }
    {
        self.touched
    }

    /// A partner is about to be changed: room is made at its ends before the next turn.
    pub fn touch(&mut self, number: PartId)
        ensures list { self.new.list ≡ self.old.list }
        ensures here { has self.new.touched number ≡ true }
        ensures others { (q : ℕ) → q < PARTS → q ≢ number →
            has self.new.touched q ≡ has self.old.touched q }
    {
        self.touched = masks::with(self.touched, number);
    }

    /// A partner that was touched, to be changed. The partners are the old ones then, with what
    /// became of this one.
    pub fn at_mut(&mut self, number: PartId) -> &mut Partner
        requires number { number < length self.old.list }
        requires touched { has self.old.touched number ≡ true }
        ensures* writes_back { sem 𝓛 (LendsPartner self.entry number result) }
        ensures value { result.now ≡ partner_at self.old.list number }
    {
        &mut self.list[number.get() as usize]
    }
}
