// The words of commands.
ghost use Rattle.std.specs.Prelude.{◌≡◌};
ghost use Rattle.xp_commands.specs.Verbs.{verb_in, end_verb_in};

use xp_script::log::Verb;

/// The command's word that this is.
#[tactic(auto, unfolding(crate::specs::Verbs::verb_in))]
pub fn verb(word: &[u8]) -> Option<Verb>
    ensures { result ≡ verb_in word.now }
{
    if let Some(verb) = end_verb(word) {
        return Some(verb);
    }
    if word == b"net".as_slice() {
        Some(Verb::Net)
    } else if word == b"frames".as_slice() {
        Some(Verb::Frames)
    } else if word == b"deactivate".as_slice() {
        Some(Verb::Deactivate)
    } else if word == b"activate".as_slice() {
        Some(Verb::Activate)
    } else if word == b"leave".as_slice() {
        Some(Verb::Leave)
    } else if word == b"idle".as_slice() {
        Some(Verb::Idle)
    } else if word == b"offline".as_slice() {
        Some(Verb::Offline)
    } else if word == b"online".as_slice() {
        Some(Verb::Online)
    } else {
        None
    }
}

/// The word of a command for one end of a channel that this is.
#[tactic(auto, unfolding(crate::specs::Verbs::end_verb_in))]
fn end_verb(word: &[u8]) -> Option<Verb>
    ensures { result ≡ end_verb_in word.now }
{
    if word == b"send".as_slice() {
        Some(Verb::Send)
    } else if word == b"take".as_slice() {
        Some(Verb::Take)
    } else if word == b"release".as_slice() {
        Some(Verb::Release)
    } else if word == b"register".as_slice() {
        Some(Verb::Register)
    } else if word == b"unregister".as_slice() {
        Some(Verb::Unregister)
    } else if word == b"connected".as_slice() {
        Some(Verb::Connected)
    } else if word == b"closed".as_slice() {
        Some(Verb::Closed)
    } else if word == b"drain".as_slice() {
        Some(Verb::Drain)
    } else {
        None
    }
}
