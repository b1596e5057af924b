//! A list that exists in proofs alone: it takes no byte and no time, and holds every item that was
//! ever pushed. Where a contract speaks of all that was done, and no code reads it, such a list
//! stands in place of a `Vec`.
#![tactic(auto)]

ghost use Rattle.std.specs.Prelude.{◌≡◌, ◌∷◌, ◌++◌, []};

use std::marker::Model;
use std::mem;
use std::snapshot::Snapshot;

// What a list holds, as a value that a snapshot can be taken of. Each one is dropped as soon as its
// snapshot is taken: a snapshot has no bytes, so no value of this type outlives the call that makes
// it.
#[cycle(chain)]
#[derive(Drop)]
struct Chain<T> {
    link: Link<T>,
}

#[cycle(chain)]
#[derive(Drop)]
enum Link<T> {
    Empty,
    Pushed(Snapshot<Chain<T>>, Snapshot<T>),
}

impl<T> Model for Chain<T> {
    ghost use Rattle.std.specs.Prelude.{List, length};

    ghost Value = { List T };

    ghost use Rattle.xp_ghost_list.specs.Chains.{items_of};

    ghost view = { λ c. items_of c.link };

    ghost size = { length };

    ghost use Rattle.std.proofs.Common.{arith, length-append};

    ghost size_decreases = { λ a h. Prim.grind (arith, length-append) };
}

/// A list that exists in proofs alone. Contracts see its items, in the order in which they were
/// pushed.
///
/// What it holds is only as true as what is proved of it: the type that keeps one ties the list to
/// the rest of its value by an invariant.
#[derive(Drop)]
pub struct GhostList<T> {
    items: Snapshot<Chain<T>>,
}

impl<T> Model for GhostList<T> {
    ghost use Rattle.std.specs.Prelude.{List};

    ghost Value = { List T };

    ghost view = { λ l. l.items.value };
}

impl<T> GhostList<T> {
    /// The list with no item.
    pub fn new() -> GhostList<T>
        ensures { result ≡ [] }
    {
        GhostList { items: empty() }
    }

    /// Appends what `item` is now. The item itself stays with the caller.
    pub fn push(&mut self, item: &T)
        ensures { self.new ≡ self.old ++ item.now ∷ [] }
    {
        let before = mem::replace(&mut self.items, empty());
        self.items = pushed(before, item);
    }
}

fn empty<T>() -> Snapshot<Chain<T>>
    ensures { result.value ≡ [] }
{
    let chain = Chain { link: Link::Empty };
    Snapshot::of(&chain)
}

fn pushed<T>(before: Snapshot<Chain<T>>, item: &T) -> Snapshot<Chain<T>>
    ensures { result.value ≡ before.value ++ item.now ∷ [] }
{
    let chain = Chain {
        link: Link::Pushed(before, Snapshot::of(item)),
    };
    Snapshot::of(&chain)
}
