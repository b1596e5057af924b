// Texts that are printed and read.
ghost use Rattle.std.specs.Prelude.{◌≡◌, Ok};
ghost use Rattle.xp_script.specs.declared.scenario.Scenario.{Scenario};
ghost use Rattle.xp_script.specs.Lawful.{IsLawful};
ghost use Rattle.xp_scenario.specs.Spelled.{Spells};
ghost use Rattle.xp_scenario.specs.Text.{scenario_in};
ghost use Rattle.xp_print.specs.Text.{text_of};

/// The text of a lawful scenario, as `print` writes it, spells that scenario, and `parse` reads the
/// same scenario back. The text may be longer than what a command of the program reads.
pub fn read_back()
    ensures spelled { (s : Scenario) → IsLawful s → Spells (text_of s) s }
    ensures read { (s : Scenario) → IsLawful s → scenario_in (text_of s) ≡ Ok s }
{}
