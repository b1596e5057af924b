//! What holds between every two partitions after every history that partitions make by the rules:
//! guest and host, sessions, the places of flags, the line.
#![tactic(auto)]

ghost use Rattle.std.specs.Prelude.{List};
ghost use Rattle.xp_base.specs.History.{Event};
ghost use Rattle.xp_base.specs.Memory.{Memory};
ghost use Rattle.xp_invariants.specs.Flags.{FlagPlaces};
ghost use Rattle.xp_invariants.specs.Hosts.{GuestAndHost};
ghost use Rattle.xp_invariants.specs.Limits.{Limits};
ghost use Rattle.xp_invariants.specs.Lines.{Lines};
ghost use Rattle.xp_invariants.specs.Sessions.{Sessions};
ghost use Rattle.xp_protocol.specs.Reached.{ReachedWords};
ghost use Rattle.xp_script.specs.Lawful.{IsLawful};
ghost use Rattle.xp_script.specs.declared.scenario.Scenario.{Scenario};

/// Whatever history the rules reach in a lawful scenario: a partition's bit at another
/// says that its own area for the other is open or being left, and keeps the other's area
/// for it from being freed.
pub fn guests_and_hosts()
    ensures { (s : Scenario) → IsLawful s →
        (h : List Event) (m : Memory) → ReachedWords s h m → GuestAndHost s h }
{}

/// Whatever history the rules reach in a lawful scenario: the sessions under which an area is
/// opened rise over all boots, and an echo and a contact name sessions that the partner's record
/// has.
pub fn sessions_rise()
    ensures { (s : Scenario) → IsLawful s →
        (h : List Event) (m : Memory) → ReachedWords s h m → Sessions s h }
{}

/// Whatever history the rules reach in a lawful scenario: each control flag that an end has sent is
/// in one place at its partner, and its argument is the one that was stored for it.
pub fn flags_in_one_place()
    ensures { (s : Scenario) → IsLawful s →
        (h : List Event) (m : Memory) → ReachedWords s h m → FlagPlaces s h }
{}

/// Whatever history the rules reach in a lawful scenario: in each direction of a connection the
/// counters of both ends follow each other, and the entries from the last get up to put hold their
/// messages while they may be copied.
pub fn lines_hold()
    ensures { (s : Scenario) → IsLawful s →
        (h : List Event) (m : Memory) → ReachedWords s h m → Lines s h }
{}

/// Whatever history the rules reach in a lawful scenario: both ends of a connection have one limit,
/// the lesser of the two that they asked for, and so as many lines an entry, and each reads the
/// other's queue as long as it is. They open with different limits only where both versions know
/// entries of several lines.
pub fn limits_agree()
    ensures { (s : Scenario) → IsLawful s →
        (h : List Event) (m : Memory) → ReachedWords s h m → Limits s h }
{}
