// The ring of places that a partition goes round.
ghost use Rattle.std.specs.Prelude.{◌≡◌, ℕ, ◌<◌, ◌≤◌, ◌*◌, List, nat_eq};
ghost use Rattle.xp_rounds.specs.Ring.{Ring, IsRing, at_start, place_at, after_turn, passed};
ghost use Rattle.xp_rounds.specs.Ring.{Call, turns_in, ComesTo};

use std::marker::Model;
use xp_base::ids::PartId;
use xp_base::layout::PARTS;

/// Where a partition is on its rounds: at its own affairs, or at those with one partner.
#[derive(Clone, Copy, Debug, PartialEq, Eq)]
pub enum Place {
    Own,
    Partner(PartId),
}

/// How many turns are made at a place at most before the next one is come to.
pub const VISIT_TURNS: u8 = 100;

/// The rounds of one partition: its own place, then its partners ascending, and again. Contracts
/// see the place as its number in that ring, and how many turns were made since it was come to.
#[derive(Clone, Copy)]
pub struct Rounds {
    own: u8,
    count: u8,
    at: u8,
    made: u8,
}

impl Model for Rounds {
    ghost use Rattle.xp_rounds.specs.Ring.{Ring};

    ghost Value = { Ring };

    ghost use Rattle.xp_rounds.specs.RoundsInside.{view_of, IsSound, fields_of};

    ghost view = { view_of };

    ghost invariant = { IsSound };

    ghost inverse = { fields_of };
}

impl Rounds {
    /// The rounds of partition `own` among `count`, at its own place. `count - 1` is a partition.
    pub fn new(own: PartId, count: u8) -> Rounds
        requires own { own < count }
        requires count { count ≤ PARTS }
        ensures start { result ≡ at_start own count }
        ensures ring { IsRing result }
    {
        Rounds {
            own: own.get(),
            count,
            at: 0,
            made: 0,
        }
    }

    /// The place that was come to.
    pub fn at(&self) -> Place
        ensures place { result ≡ place_at self.now.own self.now.at }
        ensures ring { IsRing self.now }
    {
        if self.at == 0 {
            Place::Own
        } else if self.at <= self.own {
            Place::Partner(PartId::known(self.at - 1))
        } else {
            Place::Partner(PartId::known(self.at))
        }
    }

    /// Whether no turn was made at this place since it was come to.
    pub fn is_fresh(&self) -> bool
        ensures { result ≡ nat_eq self.now.made 0 }
    {
        self.made == 0
    }

    /// A turn was made at this place. The next one is come to where `more` is false, so that no
    /// other turn is to be made here, or where 100 turns were made here.
    pub fn made(&mut self, more: bool)
        ensures { self.new ≡ after_turn more self.old }
    {
        if more && self.made + 1 < VISIT_TURNS {
            self.made += 1;
        } else {
            self.pass();
        }
    }

    /// The next place is come to without a turn.
    pub fn pass(&mut self)
        ensures { self.new ≡ passed self.old }
    {
        self.at = if self.at + 1 < self.count {
            self.at + 1
        } else {
            0
        };
        self.made = 0;
    }
}

/// Within any `VISIT_TURNS` turns a place, each place is come to, whatever is passed between them.
pub fn places_come()
    ensures { (r : Ring) → IsRing r → (calls : List Call) → VISIT_TURNS * r.count ≤ turns_in calls
        → (k : ℕ) → k < r.count → ComesTo k r calls }
{}
