// Where texts write memory from outside.
ghost use Rattle.std.specs.Prelude.{◌≡◌, ◌↔◌, ℕ, List, [], None};
ghost use Rattle.xp_script.specs.declared.scenario.Scenario.{Scenario};
ghost use Rattle.xp_scenario.specs.Spelled.{Spells};
ghost use Rattle.xp_scenario.specs.Pokes.{poke_in};

/// Of a text that spells a scenario, `poke_place` tells a place exactly where the scenario has
/// pokes.
pub fn pokes_placed()
    ensures { (text : List ℕ) (s : Scenario) → Spells text s
        → (poke_in text ≡ None) ↔ (s.pokes ≡ []) }
{}
