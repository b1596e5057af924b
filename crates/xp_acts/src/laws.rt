// What is proved of acts by itself.
ghost use Rattle.std.specs.Prelude.{◌++◌, List, [], length};
ghost use Rattle.xp_base.specs.History.{Act};
ghost use Rattle.xp_partition.specs.declared.keeping.Keeping.{Keeping};
ghost use Rattle.xp_partition.specs.Keeping.{IsKept};
ghost use Rattle.xp_acts.specs.Acts.{Acts};

/// Acts and then acts are all of them, one after the other; and none change nothing.
#[tactic(auto, using(crate::proofs::Composing::acts_then, crate::proofs::Composing::no_acts))]
pub fn acts_compose()
    ensures none { (x : Keeping) → IsKept x → Acts x x [] }
    ensures more { (x y z : Keeping) → (first later : List Act) → Acts x y first → Acts y z later
        → Acts x z (first ++ later) }
{}
