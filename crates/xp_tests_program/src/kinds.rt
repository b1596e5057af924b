// Kinds of commands: one that is lawful and, where the kind has an unlawful form, one that is not.
use std::alloc::{AllocError, Global};
use std::test::Fail;
use xp_base::ids::{Channel, PartId};
use xp_lawful::lawful::is_lawful;
use xp_script::command::Command;
use xp_script::limits::default_budget;
use xp_script::made::{release, simple, take};
use xp_script::script::Script;

/// A command of partition 0: its partner and its channel, or its count of frames.
#[derive(Clone, Copy)]
enum Kind {
    Unregister(u8, u8),
    Connected(u8, u8),
    Closed(u8, u8),
    Take(u8, u8),
    Release(u8, u8),
    Frames(u64),
    Deactivate(u8),
    Activate(u8),
    Leave,
    Offline,
    Online,
}

fn part(number: u8) -> PartId {
    PartId::known(number % 64)
}

fn channel(number: u8) -> Channel {
    Channel::known(number % 4)
}

/// The command of a kind that names a channel; `leave` for another kind.
fn channel_command(kind: Kind) -> Command {
    match kind {
        Kind::Unregister(q, c) => Command::Unregister {
            partner: part(q),
            channel: channel(c),
        },
        Kind::Connected(q, c) => Command::Connected {
            partner: part(q),
            channel: channel(c),
        },
        Kind::Closed(q, c) => Command::Closed {
            partner: part(q),
            channel: channel(c),
        },
        Kind::Take(q, c) => take(part(q), channel(c)),
        Kind::Release(q, c) => release(part(q), channel(c), u64::MAX),
        _ => Command::Leave,
    }
}

fn command(kind: Kind) -> Command {
    match kind {
        Kind::Frames(count) => Command::Frames { count },
        Kind::Deactivate(q) => Command::Deactivate { partner: part(q) },
        Kind::Activate(q) => Command::Activate { partner: part(q) },
        Kind::Leave => Command::Leave,
        Kind::Offline => Command::Offline,
        Kind::Online => Command::Online,
        _ => channel_command(kind),
    }
}

/// Whether two partitions are lawful, where the script of partition 0 is this command.
fn is_lawful_command(alloc: Global, kind: Kind) -> Result<bool, AllocError> {
    let commands = vec![in alloc; command(kind)]?;
    let scripts = vec![in alloc; Script::new(commands), Script::new(Vec::new(alloc))]?;
    let scenario = simple(alloc, Vec::new(alloc), scripts, 1)?;
    Ok(is_lawful(&scenario))
}

/// Kinds of commands that name a partner, and whether they are lawful. Partition 0 is the script's
/// own, and there is no partition 2. Channel 1 is the device's: a script doesn't take or release
/// there.
const PARTNERS: [(Kind, bool); 21] = [
    (Kind::Unregister(1, 0), true),
    (Kind::Unregister(1, 1), true),
    (Kind::Unregister(0, 0), false),
    (Kind::Connected(1, 3), true),
    (Kind::Connected(1, 1), true),
    (Kind::Connected(2, 3), false),
    (Kind::Closed(1, 2), true),
    (Kind::Closed(1, 1), true),
    (Kind::Closed(0, 2), false),
    (Kind::Take(1, 0), true),
    (Kind::Take(1, 1), false),
    (Kind::Take(2, 0), false),
    (Kind::Release(1, 3), true),
    (Kind::Release(1, 1), false),
    (Kind::Release(0, 3), false),
    (Kind::Deactivate(1), true),
    (Kind::Deactivate(0), false),
    (Kind::Deactivate(2), false),
    (Kind::Activate(1), true),
    (Kind::Activate(0), false),
    (Kind::Activate(63), false),
];

/// Kinds of commands that name nothing, or a number of any size. They have no unlawful form.
const OTHERS: [Kind; 5] = [
    Kind::Frames(0),
    Kind::Frames(u64::MAX),
    Kind::Leave,
    Kind::Offline,
    Kind::Online,
];

#[test]
fn commands_that_name_a_partner(rt: HostRuntime) -> Result<(), Fail> {
    for (kind, wanted) in PARTNERS {
        let lawful = is_lawful_command(rt.alloc(), kind)?;
        assert!(rt; lawful == wanted);
    }
    Ok(())
}

#[test]
fn commands_without_an_unlawful_form(rt: HostRuntime) -> Result<(), Fail> {
    for kind in OTHERS {
        let lawful = is_lawful_command(rt.alloc(), kind)?;
        assert!(rt; lawful);
    }
    Ok(())
}

/// The default budgets of some counts of partitions.
const BUDGETS: [(u8, u64); 4] = [
    (2, 1_000_000),
    (16, 1_000_000),
    (17, 941_176),
    (64, 250_000),
];

#[test]
fn default_budgets(rt: HostRuntime) {
    for (count, turns) in BUDGETS {
        assert!(rt; default_budget(count) == turns, "{count} partitions");
    }
}
