// The commands of a script.
ghost use Rattle.std.specs.Prelude.{◌≡◌, IfOk};
ghost use Rattle.xp_script.specs.Commands.{verb_of};

use crate::log::Verb;
use crate::payload::Payload;
use std::alloc::{AllocError, Global};
use xp_base::ids::{Channel, PartId};

/// A command of a script: one variant for each command word. Each is answered once.
#[derive(Drop)]
pub enum Command {
    /// Registers the channel: how many messages the own queue holds, 1 to 8, and the longest
    /// payload, in bytes.
    Register {
        partner: PartId,
        channel: Channel,
        entries: u8,
        limit: u16,
    },
    /// Takes the registration back.
    Unregister {
        partner: PartId,
        channel: Channel,
    },
    /// Waits until the channel is connected.
    Connected {
        partner: PartId,
        channel: Channel,
    },
    /// Waits for the end of an epoch of this end, also of one that was never connected. The k-th
    /// `closed` of a script for a channel waits for the k-th epoch that ends in this boot.
    Closed {
        partner: PartId,
        channel: Channel,
    },
    /// Sends a message. Where it may not wait, a full queue refuses it. Where it asks for a notice,
    /// the sender is told of the delivery, or that the connection ended before.
    Send {
        partner: PartId,
        channel: Channel,
        payload: Payload,
        wait: bool,
        notify: bool,
    },
    /// Takes the next message. Where it may not wait, an empty queue refuses it.
    Take {
        partner: PartId,
        channel: Channel,
        wait: bool,
    },
    /// Releases a taken message, by its number in its connection.
    Release {
        partner: PartId,
        channel: Channel,
        number: u64,
    },
    /// Waits until the partner has acknowledged all that was accepted.
    Drain {
        partner: PartId,
        channel: Channel,
    },
    /// Gives a frame of 14 to 1,514 bytes to the network device.
    Net {
        frame: Payload,
    },
    /// Waits until the network device has handed up so many frames in this boot.
    Frames {
        count: u64,
    },
    /// Deactivates a partner, which is not wanted until `activate`.
    Deactivate {
        partner: PartId,
    },
    /// Wants a partner again.
    Activate {
        partner: PartId,
    },
    /// Deactivates every partner, and waits until each is inactive and its area off.
    Leave,
    /// Lets so many turns pass: 1 to 1,000,000.
    Idle {
        turns: u64,
    },
    /// Raises the offline count: partners are not to expect heartbeats.
    Offline,
    /// Lowers the offline count.
    Online,
}

impl Command {
    /// The command's word.
    pub fn verb(&self) -> Verb
        ensures { result ≡ verb_of self.now }
    {
        match self {
            Command::Register { .. } => Verb::Register,
            Command::Unregister { .. } => Verb::Unregister,
            Command::Connected { .. } => Verb::Connected,
            Command::Closed { .. } => Verb::Closed,
            Command::Send { .. } => Verb::Send,
            Command::Take { .. } => Verb::Take,
            Command::Release { .. } => Verb::Release,
            Command::Drain { .. } => Verb::Drain,
            Command::Net { .. } => Verb::Net,
            Command::Frames { .. } => Verb::Frames,
            Command::Deactivate { .. } => Verb::Deactivate,
            Command::Activate { .. } => Verb::Activate,
            Command::Leave => Verb::Leave,
            Command::Idle { .. } => Verb::Idle,
            Command::Offline => Verb::Offline,
            Command::Online => Verb::Online,
        }
    }

    /// Another command of the same meaning.
    pub fn copy(&self, alloc: Global) -> Result<Command, AllocError>
        ensures { IfOk result (λ command. command ≡ self.now) }
    {
        match self {
            Command::Register {
                partner,
                channel,
                entries,
                limit,
            } => Ok(Command::Register {
                partner: *partner,
                channel: *channel,
                entries: *entries,
                limit: *limit,
            }),
            Command::Unregister { partner, channel } => Ok(Command::Unregister {
                partner: *partner,
                channel: *channel,
            }),
            Command::Connected { partner, channel } => Ok(Command::Connected {
                partner: *partner,
                channel: *channel,
            }),
            Command::Closed { partner, channel } => Ok(Command::Closed {
                partner: *partner,
                channel: *channel,
            }),
            Command::Send {
                partner,
                channel,
                payload,
                wait,
                notify,
            } => Ok(Command::Send {
                partner: *partner,
                channel: *channel,
                payload: payload.copy(alloc)?,
                wait: *wait,
                notify: *notify,
            }),
            Command::Take {
                partner,
                channel,
                wait,
            } => Ok(Command::Take {
                partner: *partner,
                channel: *channel,
                wait: *wait,
            }),
            Command::Release {
                partner,
                channel,
                number,
            } => Ok(Command::Release {
                partner: *partner,
                channel: *channel,
                number: *number,
            }),
            Command::Drain { partner, channel } => Ok(Command::Drain {
                partner: *partner,
                channel: *channel,
            }),
            Command::Net { frame } => Ok(Command::Net {
                frame: frame.copy(alloc)?,
            }),
            Command::Frames { count } => Ok(Command::Frames { count: *count }),
            Command::Deactivate { partner } => Ok(Command::Deactivate { partner: *partner }),
            Command::Activate { partner } => Ok(Command::Activate { partner: *partner }),
            Command::Leave => Ok(Command::Leave),
            Command::Idle { turns } => Ok(Command::Idle { turns: *turns }),
            Command::Offline => Ok(Command::Offline),
            Command::Online => Ok(Command::Online),
        }
    }
}
