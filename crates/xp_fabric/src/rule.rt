// The rule of the shared words: what each seat at their table knows, and what each step tells it.
//
// There are seven kinds of step. A load, a store, a fetch-or, a fetch-and and a swap with 0 are
// each made at the seat of one partition. Making a seat and joining two are loads of the table's
// first word, which stand in no history.
use atomic_table::{Join, Play, Split, TableRule};
use std::collections::LinkedList;
use xp_base::ids::PartId;
use xp_base::step::Step;
use xp_base::words::Words;

/// A partition, and the steps on words that its port made. It is what a seat knows, and that is
/// known in proofs alone: no value of it is made.
pub struct PartSteps {
    pub part: PartId,
    pub steps: LinkedList<Step>,
}

/// What a seat knows: the partitions that it stands for, each with its steps.
pub type View = LinkedList<PartSteps>;

/// The rule: one legal history leads from the opening words to the words now, and the seats know
/// their parts of it.
pub struct HistoryRule;

impl TableRule<u8, View, Words> for HistoryRule {
    ghost use Rattle.std.specs.Prelude.{length};
    ghost use Rattle.xp_base.specs.declared.layout.TheConstants.{PART_WORDS};
    ghost use Rattle.xp_fabric.specs.Rule.{HistoryHolds, fresh_parts};

    ghost holds = { HistoryHolds PART_WORDS };

    ghost first = { λ opening. fresh_parts 0 (length opening) };
}

/// A load, which appends itself to its seat's steps.
pub struct LoadStep;

impl Play<u8, View> for LoadStep {
    ghost use Rattle.xp_base.specs.declared.layout.TheConstants.{PART_WORDS};
    ghost use Rattle.xp_fabric.specs.Rule.{LoadAdds};

    ghost then = { LoadAdds PART_WORDS };
}

/// A store, which appends itself to its seat's steps.
pub struct StoreStep;

impl Play<u8, View> for StoreStep {
    ghost use Rattle.xp_base.specs.declared.layout.TheConstants.{PART_WORDS};
    ghost use Rattle.xp_fabric.specs.Rule.{StoreAdds};

    ghost then = { StoreAdds PART_WORDS };
}

/// A fetch-or, which appends itself to its seat's steps.
pub struct OrStep;

impl Play<u8, View> for OrStep {
    ghost use Rattle.xp_base.specs.declared.layout.TheConstants.{PART_WORDS};
    ghost use Rattle.xp_fabric.specs.Rule.{OrAdds};

    ghost then = { OrAdds PART_WORDS };
}

/// A fetch-and, which appends itself to its seat's steps.
pub struct AndStep;

impl Play<u8, View> for AndStep {
    ghost use Rattle.xp_base.specs.declared.layout.TheConstants.{PART_WORDS};
    ghost use Rattle.xp_fabric.specs.Rule.{AndAdds};

    ghost then = { AndAdds PART_WORDS };
}

/// A swap with 0, which appends itself to its seat's steps.
pub struct TakeStep;

impl Play<u8, View> for TakeStep {
    ghost use Rattle.xp_base.specs.declared.layout.TheConstants.{PART_WORDS};
    ghost use Rattle.xp_fabric.specs.Rule.{TakeAdds};

    ghost then = { TakeAdds PART_WORDS };
}

/// Making a seat: it is for the first partition of those that the old seat stands for.
pub struct MakeSeat;

impl Split<View> for MakeSeat {
    ghost use Rattle.xp_fabric.specs.Rule.{first_part, other_parts};

    ghost left = { other_parts };

    ghost right = { first_part };
}

/// Joining a seat: the seat that remains stands for the partitions of both, and the other for none.
pub struct JoinSeat;

impl Join<View> for JoinSeat {
    ghost use Rattle.std.specs.Prelude.{◌++◌, []};

    ghost both = { λ own other. other ++ own };

    ghost spent = { [] };
}
