// What is promised of a partition that spends its turns by the plan.
ghost use Rattle.std.specs.Prelude.{List};
ghost use Rattle.xp_base.specs.History.{Turn};
ghost use Rattle.xp_script.specs.declared.part.ScenarioPart.{ScenarioPart};
ghost use Rattle.xp_protocol.specs.Parts.{IsLawfulPart};
ghost use Rattle.xp_protocol.specs.Runs.{Runs};
ghost use Rattle.xp_windows.specs.Visited.{Visited};
ghost use Rattle.xp_windows.specs.Windows.{Windows};

/// Whatever the memory answers: where each turn is permitted, makes the planned step, begins what
/// it can and gives the answers that are due, nothing that is due waits longer than a window.
pub fn visits_serve()
    ensures { (s : ScenarioPart) → IsLawfulPart s → (ts : List Turn) → Runs s ts
        → Visited s ts → Windows s ts }
{}
