// What the rules promise of every history that is reached.
ghost use Rattle.std.specs.Prelude.{List};
ghost use Rattle.xp_base.specs.History.{Event};
ghost use Rattle.xp_base.specs.Memory.{Memory};
ghost use Rattle.xp_script.specs.declared.scenario.Scenario.{Scenario};
ghost use Rattle.xp_script.specs.Lawful.{IsLawful};
ghost use Rattle.xp_protocol.specs.Reached.{ReachedWords};
ghost use Rattle.xp_promises.specs.Known.{VersionsAgree, VersionsKnown};
ghost use Rattle.xp_protocol.specs.Promised.{FlagsInOrder, Guarded, KeepsPrefixes, NothingRefused, Notices, Reuse, VersionsStand, Withdraws};

/// Whatever history the rules reach in a lawful scenario: what was taken at an end in a connection
/// is a prefix of what was accepted at the other in it, for each connection that ever was, by its
/// epoch and the sessions of both ends, on each channel of each two partitions, whether it opens
/// connected or not, and however often contact is lost and made anew.
pub fn prefixes_kept()
    ensures { (s : Scenario) → IsLawful s →
        (h : List Event) (m : Memory) → ReachedWords s h m → KeepsPrefixes s h }
{}

/// Whatever history the rules reach in a lawful scenario: no magic, no flag, no argument, no
/// counter and no entry was refused.
pub fn nothing_refused()
    ensures { (s : Scenario) → IsLawful s →
        (h : List Event) (m : Memory) → ReachedWords s h m → NothingRefused s h m }
{}

/// Whatever history the rules reach in a lawful scenario: between two ends in contact the control
/// flags are a queue, and arguments are those that were stored for their flags.
pub fn flags_in_order()
    ensures { (s : Scenario) → IsLawful s →
        (h : List Event) (m : Memory) → ReachedWords s h m → FlagsInOrder s h m }
{}

/// After whatever history the rules reach in a lawful scenario: a step that ends a connection for
/// unequal sizes, or for an argument that was refused, leaves its channel unregistered.
pub fn registrations_withdrawn()
    ensures { (s : Scenario) → IsLawful s → Withdraws s }
{}

/// Whatever history the rules reach in a lawful scenario: no step of a partition touches a word of
/// another partition's channel memory but one that is for it, and only while its own engagement bit
/// stands there; and no other partition changes that bit.
pub fn memory_guarded()
    ensures { (s : Scenario) → IsLawful s →
        (h : List Event) (m : Memory) → ReachedWords s h m → Guarded s h }
{}

/// Whatever history the rules reach in a lawful scenario: a word of a message is stored in an entry
/// only after the message that stood there before was acknowledged, and a number is acknowledged
/// only after all messages below it were taken and released.
pub fn entries_reused()
    ensures { (s : Scenario) → IsLawful s →
        (h : List Event) (m : Memory) → ReachedWords s h m → Reuse s h }
{}

/// Whatever history the rules reach in a lawful scenario: of the numbers that a connection's sends
/// asked for it is told once at most, in their order, of the first that they were delivered and of
/// exactly the others that the connection ended, and each in the turn in which it becomes due.
pub fn notices_told()
    ensures { (s : Scenario) → IsLawful s →
        (h : List Event) (m : Memory) → ReachedWords s h m → Notices s h }
{}

/// Whatever history the rules reach in a lawful scenario: each partition's version word is the one
/// that the scenario says. No rule stores there, so both ends of a channel judge at any time by the
/// same two versions.
pub fn versions_stand()
    ensures { (s : Scenario) → IsLawful s →
        (h : List Event) (m : Memory) → ReachedWords s h m → VersionsStand s m }
{}

/// Whatever history the rules reach in a lawful scenario: a partition in contact with another knows
/// whether both versions have entries of several lines, and so both know the same.
pub fn versions_known()
    ensures known { (s : Scenario) → IsLawful s →
        (h : List Event) (m : Memory) → ReachedWords s h m → VersionsKnown s h }
    ensures agree { (s : Scenario) → IsLawful s →
        (h : List Event) (m : Memory) → ReachedWords s h m → VersionsAgree s h }
{}
