// How many partitions a scenario has.
ghost use Rattle.std.specs.Prelude.{◌≡◌, ◌≤◌, ◌↔◌, IfSome, IsSome};
ghost use Rattle.xp_base.specs.declared.layout.TheConstants.{PARTS};
ghost use Rattle.xp_script.specs.Sizes.{IsCount};

use crate::limits::FEWEST_PARTS;
use std::marker::Model;
use xp_base::layout::PARTS;

/// The number of a scenario's partitions, 2 to 64. Contracts see the number.
#[derive(Clone, Copy)]
pub struct Count(u8);

impl Model for Count {
    ghost use Rattle.std.specs.Prelude.{ℕ};
    ghost use Rattle.xp_script.specs.Sizes.{IsCount};

    ghost Value = { ℕ };

    ghost view = { λ c. c.0 };

    ghost invariant = { λ c. IsCount c.0 };

    ghost inverse = { λ n. record { 0 = n } };
}

impl Count {
    /// The count of a number, where a scenario may have so many partitions.
    pub fn new(n: u8) -> Option<Count>
        ensures value { IfSome result (λ count. count ≡ n) }
        ensures range { IsSome result ↔ IsCount n }
    {
        if FEWEST_PARTS <= n && n <= PARTS {
            Some(Count(n))
        } else {
            None
        }
    }

    /// The count of a number that a scenario may have.
    pub fn known(n: u8) -> Count
        requires { IsCount n }
        ensures { result ≡ n }
    {
        Count(n)
    }

    /// The number itself.
    pub fn get(self) -> u8
        ensures value { result ≡ self }
        ensures range { IsCount self }
    {
        self.0
    }
}
