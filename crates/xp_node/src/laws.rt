// What is proved of the turns of a node.
ghost use Rattle.std.specs.Prelude.{List, [], ◌∷◌, ◌++◌, Option};
ghost use Rattle.xp_base.specs.History.{Marked, Turn};
ghost use Rattle.xp_node.specs.Node.{NodeView, MakesTurn, HasMade};

/// A node that has made just some turns, and makes one more, has made just these and that one.
pub fn histories_extend()
    ensures { (old new : NodeView) → (made : Option Marked) → (x : MakesTurn old new made)
        → (turns : List Turn) → HasMade old turns → HasMade new (turns ++ x.turn ∷ []) }
{}
