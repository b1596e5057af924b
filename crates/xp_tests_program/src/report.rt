// Lines of the report against the texts that the format gives for them.
use std::alloc::{AllocError, Global};
use std::process::Abort;
use std::test::Fail;
use xp_base::answer::{
    DrainAnswer, DropCause, RegisterAnswer, ReleaseAnswer, SendAnswer, TakeAnswer, TransmitAnswer,
    UnregisterAnswer,
};
use xp_base::body::Body;
use xp_base::ids::{Channel, PartId};
use xp_base::reason::Reason;
use xp_base::session::Session;
use xp_base::step::CopyKind;
use xp_connections::record::Record;
use xp_node::ended::Ended;
use xp_report::head::{write_head, write_pool};
use xp_report::links::write_records;
use xp_report::log::write_entries;
use xp_report::order::sort_records;
use xp_report::text::report;
use xp_script::log::{Entry, LogAnswer, OnlineAnswer, Verb};

fn expect_log(rt: &impl Abort, alloc: Global, log: &[Entry], wanted: &str) -> Result<(), Fail> {
    let mut text = String::new(alloc);
    write_entries(&mut text, log)?;
    assert_eq!(rt; text.as_str(), wanted);
    Ok(())
}

const BAD: Reason = Reason::BadCounters { get: 0, put: 99 };

fn sent(number: u32, answer: SendAnswer) -> Entry {
    Entry {
        boot: 1,
        number,
        verb: Verb::Send,
        answer: Some(LogAnswer::Send(answer)),
    }
}

#[test]
fn sends(rt: HostRuntime) -> Result<(), Fail> {
    let too_big = SendAnswer::TooBig {
        length: 113,
        limit: 112,
    };
    let log = vec![in rt.alloc();
        sent(1, SendAnswer::Ok(0)),
        sent(2, too_big),
        sent(3, SendAnswer::Disconnecting { reason: BAD }),
        sent(4, SendAnswer::NotConnected),
        sent(5, SendAnswer::NoSlot { put: 1, get: 0 }),
    ]?;
    let wanted = "  1 1 send ok 0
  1 2 send too-big 113 112
  1 3 send disconnecting bad-counters 0 99
  1 4 send not-connected
  1 5 send no-slot 1 0
";
    expect_log(&rt, rt.alloc(), &log, wanted)
}

fn took(number: u32, answer: TakeAnswer) -> Entry {
    Entry {
        boot: 1,
        number,
        verb: Verb::Take,
        answer: Some(LogAnswer::Take(answer)),
    }
}

/// The message of a number was taken; a body that is too long stands as an empty one.
fn taken(entry: u32, number: u64, bytes: &[u8]) -> Entry {
    let body = Body::new(bytes).unwrap_or(Body::empty());
    took(entry, TakeAnswer::Taken { number, body })
}

#[test]
fn takes(rt: HostRuntime) -> Result<(), Fail> {
    let log = vec![in rt.alloc();
        taken(1, 0, b"hi"),
        taken(2, 1, &[0x61; 112]),
        taken(3, 2, b""),
        took(4, TakeAnswer::Empty { put: 3 }),
        took(5, TakeAnswer::Disconnecting { reason: BAD }),
        took(6, TakeAnswer::NotConnected),
    ]?;
    let wanted = "  1 1 take ok 0 2:6869
  1 2 take ok 1 112:6161616161616161..6161616161616161
  1 3 take ok 2 0:
  1 4 take empty 3
  1 5 take disconnecting bad-counters 0 99
  1 6 take not-connected
";
    expect_log(&rt, rt.alloc(), &log, wanted)
}

/// A command of the second boot and its answer.
fn again(number: u32, verb: Verb, answer: Option<LogAnswer>) -> Entry {
    Entry {
        boot: 2,
        number,
        verb,
        answer,
    }
}

fn released(number: u32, answer: ReleaseAnswer) -> Entry {
    again(number, Verb::Release, Some(LogAnswer::Release(answer)))
}

fn drained(number: u32, answer: DrainAnswer) -> Entry {
    again(number, Verb::Drain, Some(LogAnswer::Drain(answer)))
}

#[test]
fn releases_and_drains(rt: HostRuntime) -> Result<(), Fail> {
    let reason = Reason::PartnerClosed { code: 3 };
    let log = vec![in rt.alloc();
        released(12, ReleaseAnswer::Ok { front: 1 }),
        released(13, ReleaseAnswer::NotHeld),
        released(14, ReleaseAnswer::NotConnected),
        drained(15, DrainAnswer::Ok),
        drained(16, DrainAnswer::Disconnecting { reason }),
        drained(17, DrainAnswer::NotConnected),
    ]?;
    let wanted = "  2 12 release ok 1
  2 13 release not-held
  2 14 release not-connected
  2 15 drain ok
  2 16 drain disconnecting partner-closed 3
  2 17 drain not-connected
";
    expect_log(&rt, rt.alloc(), &log, wanted)
}

/// The words of all commands.
const VERBS: [Verb; 16] = [
    Verb::Register,
    Verb::Unregister,
    Verb::Connected,
    Verb::Closed,
    Verb::Send,
    Verb::Take,
    Verb::Release,
    Verb::Drain,
    Verb::Net,
    Verb::Frames,
    Verb::Deactivate,
    Verb::Activate,
    Verb::Leave,
    Verb::Idle,
    Verb::Offline,
    Verb::Online,
];

fn unanswered(alloc: Global) -> Result<Vec<Entry>, AllocError> {
    let mut log = Vec::new(alloc);
    for verb in &VERBS {
        log.push(again(4_000_000_000, *verb, None))?;
    }
    Ok(log)
}

#[test]
fn commands_without_answers(rt: HostRuntime) -> Result<(), Fail> {
    let log = unanswered(rt.alloc())?;
    let wanted = "  2 4000000000 register unanswered
  2 4000000000 unregister unanswered
  2 4000000000 connected unanswered
  2 4000000000 closed unanswered
  2 4000000000 send unanswered
  2 4000000000 take unanswered
  2 4000000000 release unanswered
  2 4000000000 drain unanswered
  2 4000000000 net unanswered
  2 4000000000 frames unanswered
  2 4000000000 deactivate unanswered
  2 4000000000 activate unanswered
  2 4000000000 leave unanswered
  2 4000000000 idle unanswered
  2 4000000000 offline unanswered
  2 4000000000 online unanswered
";
    expect_log(&rt, rt.alloc(), &log, wanted)
}

fn registered(number: u32, answer: RegisterAnswer) -> Entry {
    again(number, Verb::Register, Some(LogAnswer::Register(answer)))
}

fn unregistered(number: u32, answer: UnregisterAnswer) -> Entry {
    again(
        number,
        Verb::Unregister,
        Some(LogAnswer::Unregister(answer)),
    )
}

fn back_online(number: u32, answer: OnlineAnswer) -> Entry {
    again(number, Verb::Online, Some(LogAnswer::Online(answer)))
}

#[test]
fn registrations_and_online(rt: HostRuntime) -> Result<(), Fail> {
    let log = vec![in rt.alloc();
        registered(1, RegisterAnswer::Ok),
        registered(2, RegisterAnswer::Already),
        unregistered(3, UnregisterAnswer::Ok),
        unregistered(4, UnregisterAnswer::NotRegistered),
        back_online(5, OnlineAnswer::Ok),
        back_online(6, OnlineAnswer::NotOffline),
    ]?;
    let wanted = "  2 1 register ok
  2 2 register already
  2 3 unregister ok
  2 4 unregister not-registered
  2 5 online ok
  2 6 online not-offline
";
    expect_log(&rt, rt.alloc(), &log, wanted)
}

#[test]
fn answers_of_one_text(rt: HostRuntime) -> Result<(), Fail> {
    let log = vec![in rt.alloc();
        again(1, Verb::Connected, Some(LogAnswer::Connected)),
        again(2, Verb::Frames, Some(LogAnswer::Frames)),
        again(3, Verb::Deactivate, Some(LogAnswer::Deactivate)),
        again(4, Verb::Activate, Some(LogAnswer::Activate)),
        again(5, Verb::Leave, Some(LogAnswer::Leave)),
        again(6, Verb::Idle, Some(LogAnswer::Idle)),
        again(7, Verb::Offline, Some(LogAnswer::Offline)),
    ]?;
    let wanted = "  2 1 connected ok
  2 2 frames ok
  2 3 deactivate ok
  2 4 activate ok
  2 5 leave ok
  2 6 idle ok
  2 7 offline ok
";
    expect_log(&rt, rt.alloc(), &log, wanted)
}

/// Why connections end: each reason, with the words that it keeps.
const REASONS: [Reason; 15] = [
    Reason::Unregistered,
    Reason::PartnerClosed { code: 3 },
    Reason::UnequalSizes {
        own: 112,
        theirs: 1_008,
    },
    Reason::CopyError {
        kind: CopyKind::Beat,
        number: 7,
    },
    Reason::NoHeartbeat {
        last: 1,
        now: 2,
        mask: 3,
    },
    Reason::Reactivating { old: 1, new: 2 },
    Reason::OtherGoingDown { word: 8 },
    Reason::Unloading,
    Reason::BadVersion { word: 9 },
    Reason::BadMagic { word: 10 },
    Reason::BadArgs { word: 11 },
    Reason::BadCounters { get: 12, put: 13 },
    Reason::BadLength { word: 14 },
    Reason::BadNumber {
        wanted: 15,
        word: 16,
    },
    Reason::BadFlags {
        word: 18_446_744_073_709_551_615,
    },
];

fn closed(alloc: Global) -> Result<Vec<Entry>, AllocError> {
    let mut log = Vec::new(alloc);
    for reason in &REASONS {
        log.push(again(1, Verb::Closed, Some(LogAnswer::Closed(*reason))))?;
    }
    Ok(log)
}

#[test]
fn reasons(rt: HostRuntime) -> Result<(), Fail> {
    let log = closed(rt.alloc())?;
    let wanted = "  2 1 closed unregistered
  2 1 closed partner-closed 3
  2 1 closed unequal-sizes 112 1008
  2 1 closed copy-error beat 7
  2 1 closed no-heartbeat 1 2 3
  2 1 closed reactivating 1 2
  2 1 closed other-going-down 8
  2 1 closed unloading
  2 1 closed bad-version 9
  2 1 closed bad-magic 10
  2 1 closed bad-args 11
  2 1 closed bad-counters 12 13
  2 1 closed bad-length 14
  2 1 closed bad-number 15 16
  2 1 closed bad-flags 18446744073709551615
";
    expect_log(&rt, rt.alloc(), &log, wanted)
}

/// What the network device answers: the frame was sent to some partners, was dropped, or found no
/// buffer.
const TRANSMITS: [TransmitAnswer; 8] = [
    TransmitAnswer::Queued { to: 1 },
    TransmitAnswer::Queued { to: 0b1010_0110 },
    TransmitAnswer::Queued { to: 1 << 63 },
    TransmitAnswer::Queued { to: 1 << 63 | 1 },
    TransmitAnswer::Dropped {
        cause: DropCause::Multicast,
    },
    TransmitAnswer::Dropped {
        cause: DropCause::NoPartner,
    },
    TransmitAnswer::Dropped {
        cause: DropCause::Refused,
    },
    TransmitAnswer::NoBuffer { in_use: 8 },
];

fn transmitted(alloc: Global) -> Result<Vec<Entry>, AllocError> {
    let mut log = Vec::new(alloc);
    for answer in &TRANSMITS {
        log.push(again(1, Verb::Net, Some(LogAnswer::Net(*answer))))?;
    }
    Ok(log)
}

#[test]
fn transmits(rt: HostRuntime) -> Result<(), Fail> {
    let log = transmitted(rt.alloc())?;
    let wanted = "  2 1 net queued 0
  2 1 net queued 1,2,5,7
  2 1 net queued 63
  2 1 net queued 0,63
  2 1 net dropped multicast
  2 1 net dropped no-partner
  2 1 net dropped refused
  2 1 net no-buffer 8
";
    expect_log(&rt, rt.alloc(), &log, wanted)
}

/// A session of a boot.
fn session(stamp: u32, count: u32) -> Session {
    Session { stamp, count }
}

/// Adds empty messages: so many accepted, so many taken, and then the get that was stored.
fn add_messages(
    connection: &mut Record,
    accepted: u64,
    taken: u64,
    acked: u64,
) -> Result<(), AllocError> {
    for number in 0..accepted.max(taken) {
        connection.reserve()?;
        if number < accepted {
            connection.note_accepted(number, &Body::empty(), false);
        }
        if number < taken {
            connection.note_taken(&Body::empty());
        }
    }
    connection.note_acked(acked);
    Ok(())
}

/// A connection that goes on.
fn ongoing(alloc: Global) -> Result<Record, AllocError> {
    let mut connection = Record::blank(alloc, PartId::known(0), Channel::known(0));
    connection.begin(0, session(1, 1), session(1, 1));
    connection.note_connected();
    add_messages(&mut connection, 0, 5, 4)?;
    Ok(connection)
}

/// A connection that ended: one message was told as delivered, and one that the
/// connection ended first.
fn ended(alloc: Global) -> Result<Record, AllocError> {
    let mut connection = Record::blank(alloc, PartId::known(2), Channel::known(0));
    connection.begin(4, session(5, 6), session(7, 8));
    connection.note_connected();
    add_messages(&mut connection, 3, 2, 1)?;
    connection.reserve()?;
    connection.note_delivered(0);
    connection.note_ended(2);
    connection.note_over(Reason::PartnerClosed { code: 1 });
    Ok(connection)
}

/// A connection that ended before it was connected.
fn refused(alloc: Global) -> Record {
    let mut connection = Record::blank(alloc, PartId::known(3), Channel::known(0));
    connection.begin(0, session(1, 1), session(1, 1));
    connection.note_over(Reason::UnequalSizes {
        own: 16,
        theirs: 32,
    });
    connection
}

fn some_records(alloc: Global) -> Result<Vec<Record>, AllocError> {
    let mut records = Vec::new(alloc);
    records.push(ongoing(alloc)?)?;
    records.push(ended(alloc)?)?;
    records.push(refused(alloc))?;
    Ok(records)
}

/// The records of a list, lent.
fn lent(alloc: Global, records: &[Record]) -> Result<Vec<&Record>, AllocError> {
    let mut list = Vec::new(alloc);
    for connection in records {
        list.push(connection)?;
    }
    Ok(list)
}

#[test]
fn records(rt: HostRuntime) -> Result<(), Fail> {
    let records = some_records(rt.alloc())?;
    let mut text = String::new(rt.alloc());
    write_records(&mut text, &lent(rt.alloc(), &records)?)?;
    let wanted =
        "  link 0 0 epoch 0 own 1.1 partner 1.1 accepted 0 taken 5 acked 4 delivered 0 ended 0
  link 2 0 epoch 4 own 5.6 partner 7.8 accepted 3 taken 2 acked 1 delivered 1 ended 1
  over 2 0 epoch 4 own 5.6 partner 7.8 partner-closed 1
  over 3 0 epoch 0 own 1.1 partner 1.1 unequal-sizes 16 32
";
    assert_eq!(rt; text.as_str(), wanted);
    Ok(())
}

/// A connection that was begun and ended: its channel, its epoch, the stamp and the count of its
/// own session and of its partner's, and the code that its partner closed it with.
type Past = (u8, u64, (u32, u32), (u32, u32), u8);

/// Connections to a partner as they lie in a node: by channel, and for each channel as they were
/// begun. The last two are equal in all but the code.
const PAST: [Past; 9] = [
    (0, 0, (1, 1), (1, 1), 1),
    (0, 1, (1, 1), (1, 1), 2),
    (0, 0, (1, 2), (2, 1), 3),
    (0, 0, (2, 1), (1, 9), 4),
    (2, 0, (1, 1), (1, 1), 5),
    (2, 0, (2, 1), (1, 2), 6),
    (2, 0, (1, 10), (3, 1), 7),
    (2, 1, (1, 2), (2, 1), 9),
    (2, 1, (1, 2), (2, 1), 8),
];

fn over(alloc: Global, past: &Past) -> Record {
    let (channel, epoch, own, theirs, code) = *past;
    let channel = Channel::new(channel).unwrap_or(Channel::known(3));
    let mut connection = Record::blank(alloc, PartId::known(1), channel);
    connection.begin(epoch, session(own.0, own.1), session(theirs.0, theirs.1));
    connection.note_over(Reason::PartnerClosed { code });
    connection
}

fn past_records(alloc: Global) -> Result<Vec<Record>, AllocError> {
    let mut records = Vec::new(alloc);
    for past in &PAST {
        records.push(over(alloc, past))?;
    }
    Ok(records)
}

#[test]
fn records_in_order(rt: HostRuntime) -> Result<(), Fail> {
    let records = past_records(rt.alloc())?;
    let mut list = lent(rt.alloc(), &records)?;
    sort_records(&mut list)?;
    let mut text = String::new(rt.alloc());
    write_records(&mut text, &list)?;
    let wanted = "  over 1 0 epoch 0 own 1.1 partner 1.1 partner-closed 1
  over 1 0 epoch 1 own 1.1 partner 1.1 partner-closed 2
  over 1 2 epoch 0 own 1.1 partner 1.1 partner-closed 5
  over 1 0 epoch 0 own 1.2 partner 2.1 partner-closed 3
  over 1 2 epoch 1 own 1.2 partner 2.1 partner-closed 9
  over 1 2 epoch 1 own 1.2 partner 2.1 partner-closed 8
  over 1 2 epoch 0 own 1.10 partner 3.1 partner-closed 7
  over 1 2 epoch 0 own 2.1 partner 1.2 partner-closed 6
  over 1 0 epoch 0 own 2.1 partner 1.9 partner-closed 4
";
    assert_eq!(rt; text.as_str(), wanted);
    Ok(())
}

#[test]
fn heads(rt: HostRuntime) -> Result<(), Fail> {
    let mut text = String::new(rt.alloc());
    write_head(&mut text, 0, Some(Ended::Done), 1)?;
    write_pool(&mut text, 0)?;
    write_head(&mut text, 1, Some(Ended::Stopped), 2)?;
    write_pool(&mut text, 8)?;
    write_head(&mut text, 2, Some(Ended::Halted { word: 9 }), 3)?;
    write_head(&mut text, 63, None, 64)?;
    let wanted = "partition 0 done boots 1
partition 1 stopped boots 2
  pool 8
partition 2 halted boots 3
partition 63 running boots 64
";
    assert_eq!(rt; text.as_str(), wanted);
    Ok(())
}

#[test]
fn no_nodes(rt: HostRuntime) -> Result<(), Fail> {
    let text = report(rt.alloc(), &[])?;
    assert_eq!(rt; text.as_slice(), b"report 1\n".as_slice());
    Ok(())
}
