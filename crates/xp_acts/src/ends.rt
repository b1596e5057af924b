// The ends that commands name: a command is begun at one, and answered there.
ghost use Rattle.std.specs.Prelude.{◌≡◌, ◌<◌, length, IfSome, IsSome, Some, None};
ghost use Rattle.xp_base.specs.declared.layout.TheConstants.{CHANNELS};
ghost use Rattle.xp_protocol.specs.Acts.{end_begun, answered_by, due_by, named_end};
ghost use Rattle.xp_channel.specs.Room.{HasRoom, IsCountable};
ghost use Rattle.xp_channel.specs.Answering.{IsWellFormed};
ghost use Rattle.xp_acts.specs.Becoming.{AreNumbered};
ghost use Rattle.xp_acts.specs.Ends.{end_name, channel_at_end, BecomesAt};

use xp_base::ids::{Channel, PartId};
use xp_partition::partners::Partners;
use xp_script::command::Command;
use xp_script::log::{LogAnswer, Verb};

/// The end of a channel, by its partner.
#[derive(Clone, Copy)]
pub struct NamedEnd {
    pub partner: PartId,
    pub channel: Channel,
}

/// The end that a command names, if it names one.
pub fn named_end(command: &Command) -> Option<NamedEnd>
    ensures { end_name result ≡ named_end command.now }
{
    match command {
        Command::Register {
            partner,
            channel,
            ..
        } => at(*partner, *channel),
        Command::Unregister { partner, channel } => at(*partner, *channel),
        Command::Connected { partner, channel } => at(*partner, *channel),
        Command::Closed { partner, channel } => at(*partner, *channel),
        Command::Send {
            partner,
            channel,
            ..
        } => at(*partner, *channel),
        Command::Take {
            partner,
            channel,
            ..
        } => at(*partner, *channel),
        Command::Release {
            partner,
            channel,
            ..
        } => at(*partner, *channel),
        Command::Drain { partner, channel } => at(*partner, *channel),
        Command::Net { .. }
        | Command::Frames { .. }
        | Command::Deactivate { .. }
        | Command::Activate { .. }
        | Command::Leave
        | Command::Idle { .. }
        | Command::Offline
        | Command::Online => None,
    }
}

// The end for a partner and a channel.
fn at(partner: PartId, channel: Channel) -> Option<NamedEnd>
    ensures { result ≡ Some (record { partner = partner; channel = channel }) }
{
    Some(NamedEnd { partner, channel })
}

/// Begins a command at an end.
pub fn begin(partners: &mut Partners, end: NamedEnd, command: &Command)
    requires partner { end.partner < length partners.old.list }
    requires channel { end.channel < CHANNELS }
    requires numbered { AreNumbered partners.old }
    requires command { IsWellFormed command.now }
    requires room { HasRoom (channel_at_end partners.old end) }
    requires counts { IsCountable (channel_at_end partners.old end).end }
    ensures { BecomesAt partners.old end (λ e. end_begun e command.now) partners.new }
{
    partners.touch(end.partner);
    let partner = partners.at_mut(end.partner);
    partner.names();
    partner.begin(end.channel, command);
}

/// Gives the answer of a command of a kind at an end, where it is due.
pub fn answer(partners: &mut Partners, end: NamedEnd, verb: Verb) -> Option<LogAnswer>
    requires partner { end.partner < length partners.old.list }
    requires channel { end.channel < CHANNELS }
    requires numbered { AreNumbered partners.old }
    requires room { HasRoom (channel_at_end partners.old end) }
    requires counts { IsCountable (channel_at_end partners.old end).end }
    ensures value { result ≡ due_by verb (channel_at_end partners.old end).end }
    ensures none { result ≡ None → partners.new ≡ partners.old }
    ensures some { IfSome result (λ _.
        BecomesAt partners.old end (answered_by verb) partners.new) }
{
    if partners.at(end.partner).is_due(end.channel, verb) {
        give(partners, end, verb)
    } else {
        None
    }
}

// Gives the answer of a command at an end, which is due.
fn give(partners: &mut Partners, end: NamedEnd, verb: Verb) -> Option<LogAnswer>
    requires partner { end.partner < length partners.old.list }
    requires channel { end.channel < CHANNELS }
    requires numbered { AreNumbered partners.old }
    requires room { HasRoom (channel_at_end partners.old end) }
    requires counts { IsCountable (channel_at_end partners.old end).end }
    requires due { IsSome (due_by verb (channel_at_end partners.old end).end) }
    ensures value { result ≡ due_by verb (channel_at_end partners.old end).end }
    ensures partners { BecomesAt partners.old end (answered_by verb) partners.new }
{
    partners.touch(end.partner);
    let partner = partners.at_mut(end.partner);
    partner.names();
    partner.answer_of(end.channel, verb)
}
