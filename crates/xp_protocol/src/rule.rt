// The steps that a partition can make, by what they may change. Partners and channels stand as
// plain numbers, whose ranges are part of the condition of each step.
use xp_base::link::Kind;

/// A step of the sending side of a channel.
#[derive(Clone, Copy)]
pub enum RingRule {
    /// Loads the partner's get, for a send in progress.
    ReadGet,
    /// Stores a word of the next entry.
    WriteEntryWord(u8),
    /// Stores put: the message is accepted.
    AcceptMessage,
}

/// A step of the receiving side of a channel.
#[derive(Clone, Copy)]
pub enum PullRule {
    /// Loads the partner's counters: get, then put.
    ReadCounters,
    /// Loads the next word of the partner's next entry.
    ReadEntry,
}

/// An argument of a flag: the size that is asked for, the place of the own entries, the code of a
/// reason.
#[derive(Clone, Copy)]
pub enum Argument {
    Request,
    Reply,
    Code,
}

/// A step at one end of a channel: it may change this end alone.
#[derive(Clone, Copy)]
pub enum LinkRule {
    Ring(RingRule),
    Pull(PullRule),
    /// Stores get: what was released.
    Acknowledge,
    /// Sets a flag in the partner's flag word.
    SetFlag(Kind),
    /// Stores 0 in get, and in put, before the open request of an epoch.
    ZeroGet,
    ZeroPut,
    /// Stores an argument before its flag.
    StoreArgument(Argument),
    /// Loads the argument of a flag of the partner that was taken.
    ReadArgument(Argument),
}

/// A word of a record that says where the words of the memory for the partner are, and how many
/// channels it has.
#[derive(Clone, Copy)]
pub enum RecordField {
    ArgsPlace,
    CountersPlace,
    FlagPlace,
    ChannelCount,
    Spare,
}

/// A word of the own memory for a partner that is stored before the memory is opened to it: the own
/// session, no echo, the other words of the record, no flags, an argument word, and a counter.
#[derive(Clone, Copy)]
pub enum AreaWord {
    SessionWord,
    EchoWord,
    PlaceWord(RecordField),
    ArgsWord(u8, u8),
    FlagWord,
    CounterWord(u8, u8),
}

/// A step for a partner: it may change how the partition stands to this partner, and all its ends.
#[derive(Clone, Copy)]
pub enum PeerRule {
    /// Sets the own bit in the partner's activation word.
    AskActivation,
    /// Takes the own flag word of the partner: what it has asked for.
    TakeFlags,
    /// Stores no magic in the own record for the partner: the connections to it go down.
    CloseArea,
    /// Stores no magic in the own record for the partner, in a boot.
    ZeroMagic,
    /// Clears the own bit in the partner's engagement word, in a boot.
    ClearOldBit,
    /// Stores a word of the own memory for the partner, before it is open.
    Prepare(AreaWord),
    /// Stores the first magic: the own memory is open to the partner under a new session.
    OpenArea,
    /// Sets the own bit in the partner's engagement word.
    SetEngagementBit,
    /// Loads the next word of the partner's record: its magic, its session, its echo, the places of
    /// its words and the number of its channels.
    ReadRecord,
    /// Stores the partner's session that was read.
    StoreEcho,
    /// Stores the second magic.
    StoreSecond,
    /// Clears the own bit in the partner's engagement word.
    ClearEngagementBit,
    /// Loads the next word of the partner's page that says what it is, and which boot it is in.
    LookAtPage,
    /// Loads the next word of the partner's heartbeat: its count, its mask, its offline count.
    CheckBeat,
    /// Clears the partner's bit in the own deactivation word.
    ClearDeactivationBit,
    /// Sets the own bit in the partner's deactivation word: the own memory is closed.
    TellPartner,
}

/// A step of the partition as a whole: it may change how it stands to each partner.
#[derive(Clone, Copy)]
pub enum OwnRule {
    /// Loads the own engagement word: which partners still use the own memory.
    ReadEngaged,
    /// Takes the own deactivation word: which partners go down.
    TakeDeactivation,
    /// Loads the own stamp, in a boot.
    ReadStamp,
    /// Stores 0 in the own heartbeat mask, and in the own offline count, in a boot.
    ZeroMask,
    ZeroOffline,
    /// Stores the stamp that was read plus 1: the boot is over.
    WriteStamp,
    /// Stores the own heartbeat mask: for which partners the own memory is open, or about to be.
    StoreMask,
    /// Takes the own activation word: which partners ask for a look.
    TakeActivation,
    /// Stores the own heartbeat count, one above the last.
    StoreBeat,
    /// Stores the own offline count, one up or down, as the command in progress asks for it.
    StoreOffline,
}

/// A step, by what it may change.
#[derive(Clone, Copy)]
pub enum Rule {
    Link(u8, u8, LinkRule),
    Peer(u8, PeerRule),
    Own(OwnRule),
}
