// How much the lines of a text say in all.
ghost use Rattle.std.specs.Prelude.{◌≡◌, ◌+◌, ◌≤◌, ℕ, List, min};
ghost use Rattle.xp_script.specs.declared.limits.TheConstants.{COMMAND_LIMIT, PAYLOAD_BYTES_LIMIT};
ghost use Rattle.xp_script.specs.Totals.{command_count, payload_bytes};
ghost use Rattle.xp_scenario.specs.declared.draft.Draft.{Draft};
ghost use Rattle.xp_scenario.specs.Drafts.{fresh};
ghost use Rattle.xp_scenario.specs.Spelled.{Lead};
ghost use Rattle.xp_language_laws.specs.Counts.{commands_in, bytes_in};

/// Past the limits a draft keeps no command, and no payload. Still its scripts tell what the limits
/// are told of: as many commands as its lines say, up to one past the limit; and, where these are
/// within theirs, as many bytes of payloads. The draft's own counters are those of its scripts.
pub fn totals_told()
    ensures commands { (lines : List (List ℕ)) (d : Draft) → Lead lines fresh d
        → command_count d.scripts ≡ min (commands_in lines) (COMMAND_LIMIT + 1) }
    ensures bytes { (lines : List (List ℕ)) (d : Draft) → Lead lines fresh d
        → commands_in lines ≤ COMMAND_LIMIT
        → min (payload_bytes d.scripts) (PAYLOAD_BYTES_LIMIT + 1)
        ≡ min (bytes_in lines) (PAYLOAD_BYTES_LIMIT + 1) }
    ensures counted_commands { (lines : List (List ℕ)) (d : Draft) → Lead lines fresh d
        → d.commands ≡ command_count d.scripts }
    ensures counted_bytes { (lines : List (List ℕ)) (d : Draft) → Lead lines fresh d
        → d.payload_bytes ≡ min (payload_bytes d.scripts) (PAYLOAD_BYTES_LIMIT + 1) }
{}
