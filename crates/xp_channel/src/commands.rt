// The commands that one channel takes, and their answers.
ghost use Rattle.std.specs.Prelude.{◌≡◌};
ghost use Rattle.xp_channel.specs.Linked.{verb_of_link, linked};

use xp_base::answer::{
    DrainAnswer, RegisterAnswer, ReleaseAnswer, SendAnswer, TakeAnswer, UnregisterAnswer,
};
use xp_base::reason::Reason;
use xp_script::log::{LogAnswer, Verb};

/// A command to one end of a channel.
#[derive(Clone, Copy)]
pub enum LinkCommand<'a> {
    /// Registers the channel: how many messages the own queue holds, and the longest payload, in
    /// bytes.
    Register {
        entries: u8,
        limit: u16,
    },
    /// Takes the registration back: a channel whose open request was sent closes.
    Unregister,
    /// Waits until the channel is connected.
    Connected,
    /// Waits for the end of a connection: the k-th of these commands for the k-th that ends in this
    /// boot.
    Closed,
    /// Sends a message of at most `SEND_BYTES` bytes. Where it may not wait, a full queue refuses
    /// it. Where it asks for a notice, the sender is told of the delivery, or that the connection
    /// ended before.
    Send {
        payload: &'a [u8],
        wait: bool,
        notify: bool,
    },
    /// Takes the next message. Where it may not wait, an empty queue refuses it.
    Take {
        wait: bool,
    },
    /// Releases the message of a number that was taken.
    Release {
        number: u64,
    },
    /// Waits until the partner has acknowledged all that was accepted.
    Drain,
}

impl LinkCommand<'_> {
    /// The command's word.
    pub fn verb(self) -> Verb
        ensures { result ≡ verb_of_link self.entry }
    {
        match self {
            LinkCommand::Register { .. } => Verb::Register,
            LinkCommand::Unregister => Verb::Unregister,
            LinkCommand::Connected => Verb::Connected,
            LinkCommand::Closed => Verb::Closed,
            LinkCommand::Send { .. } => Verb::Send,
            LinkCommand::Take { .. } => Verb::Take,
            LinkCommand::Release { .. } => Verb::Release,
            LinkCommand::Drain => Verb::Drain,
        }
    }
}

/// What a command was answered.
#[derive(Drop)]
pub enum LinkAnswer {
    Register(RegisterAnswer),
    Unregister(UnregisterAnswer),
    /// The channel is connected.
    Connected,
    /// Why the connection ended.
    Closed(Reason),
    Send(SendAnswer),
    Take(TakeAnswer),
    Release(ReleaseAnswer),
    Drain(DrainAnswer),
}

/// An answer of the log, as one of a command to an end; None for a command that names no end.
pub fn link_answer(answer: Option<LogAnswer>) -> Option<LinkAnswer>
    ensures { result ≡ linked answer }
{
    match answer? {
        LogAnswer::Register(answer) => Some(LinkAnswer::Register(answer)),
        LogAnswer::Unregister(answer) => Some(LinkAnswer::Unregister(answer)),
        LogAnswer::Connected => Some(LinkAnswer::Connected),
        LogAnswer::Closed(reason) => Some(LinkAnswer::Closed(reason)),
        LogAnswer::Send(answer) => Some(LinkAnswer::Send(answer)),
        LogAnswer::Take(answer) => Some(LinkAnswer::Take(answer)),
        LogAnswer::Release(answer) => Some(LinkAnswer::Release(answer)),
        LogAnswer::Drain(answer) => Some(LinkAnswer::Drain(answer)),
        LogAnswer::Net(_)
        | LogAnswer::Frames
        | LogAnswer::Deactivate
        | LogAnswer::Activate
        | LogAnswer::Leave
        | LogAnswer::Idle
        | LogAnswer::Offline
        | LogAnswer::Online(_) => None,
    }
}
