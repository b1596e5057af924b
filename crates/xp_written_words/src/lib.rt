//! Which words stand in the memory of all partitions after every history that they make by the
//! rules: those that a dump may hold.
#![tactic(auto)]

ghost use Rattle.std.specs.Prelude.{List};
ghost use Rattle.xp_base.specs.History.{Event};
ghost use Rattle.xp_base.specs.Memory.{Memory};
ghost use Rattle.xp_dump.specs.Grammar.{IsDump, IsInGrammar, dump_bytes};
ghost use Rattle.xp_protocol.specs.Reached.{ReachedWords};
ghost use Rattle.xp_script.specs.Lawful.{IsLawful};
ghost use Rattle.xp_script.specs.declared.scenario.Scenario.{Scenario};
ghost use Rattle.xp_written_words.specs.Written.{AreAllAllowed};

/// Whatever history the rules reach in a lawful scenario: each word of the memory is one that its
/// row in the table of dumps allows, kind by kind. So the memory is in the grammar of a dump, and
/// the bytes of its dump are a dump that tells exactly these words.
pub fn words_in_grammar()
    ensures kinds { (s : Scenario) → IsLawful s →
        (h : List Event) (m : Memory) → ReachedWords s h m → AreAllAllowed m }
    ensures grammar { (s : Scenario) → IsLawful s →
        (h : List Event) (m : Memory) → ReachedWords s h m → IsInGrammar m }
    ensures dump { (s : Scenario) → IsLawful s →
        (h : List Event) (m : Memory) → ReachedWords s h m → IsDump (dump_bytes m) m }
{}
