// What is proved of a partner by itself: the room of its ends, and that what becomes of one end is
// what the definitions say of the partner.
ghost use Rattle.std.specs.Prelude.{◌≡◌, ℕ, ◌+◌, ◌<◌, Option};
ghost use Rattle.xp_base.specs.declared.layout.TheConstants.{CHANNELS};
ghost use Rattle.xp_base.specs.declared.step.Answer.{Answer};
ghost use Rattle.xp_base.specs.declared.step.CopyMark.{CopyMark};
ghost use Rattle.xp_protocol.specs.declared.rule.LinkRule.{LinkRule};
ghost use Rattle.xp_protocol.specs.State.{set_link};
ghost use Rattle.xp_engage.specs.Partner.{unmarked};
ghost use Rattle.xp_connections.specs.declared.record.TheConstants.{TURN_ROOM};
ghost use Rattle.xp_channel.specs.Channel.{Channel, kept, roomed};
ghost use Rattle.xp_channel.specs.Planned.{answered, rule_mark};
ghost use Rattle.xp_channel.specs.Room.{HasRoom};
ghost use Rattle.xp_partner.specs.Named.{AreNamed};
ghost use Rattle.xp_partner.specs.Partner.{Partner, peer_seen, channel_of, with_channel};
ghost use Rattle.xp_partner.specs.Stepping.{link_made, link_stepped};
ghost use Rattle.xp_partner.specs.Room.{HasNotes, HasNotesLeft, HaveTurnRoom, HaveNotes, HaveNotesLeft};

/// Room for a turn is room for `TURN_ROOM` notes, the step's among them.
#[tactic(auto, using(crate::proofs::Channels::turn_notes))]
pub fn turn_has_notes()
    ensures { (x : Partner) → HaveTurnRoom x → HaveNotes TURN_ROOM x }
{}

/// Room before a turn's step is room after a step that makes no note.
#[tactic(auto, using(crate::proofs::Channels::all_left))]
pub fn notes_are_left()
    ensures { (notes : ℕ) → (x : Partner) → HaveNotes notes x → HaveNotesLeft notes x }
{}

/// Where there is room for a note, commands may be begun and answered, and notices given.
#[tactic(auto, using(crate::proofs::Channels::room_some, crate::proofs::Channels::room_left))]
pub fn notes_are_room()
    ensures before { (notes : ℕ) → (x : Channel) → HasNotes (notes + 1) x → HasRoom x }
    ensures after { (notes : ℕ) → (x : Channel) → HasNotesLeft (notes + 1) x → HasRoom x }
{}

/// A step at one end makes of what is known of the partner what the definitions say.
pub fn step_is_defined()
    ensures { (own q c : ℕ) (mark : Option CopyMark) (m : LinkRule) (a : Answer) (end : Channel)
        (x : Partner) → c < CHANNELS → AreNamed own q x.channels
        → unmarked mark ≡ rule_mark (channel_of x c) m
        → end ≡ roomed (kept (answered (channel_of x c) m a) (channel_of x c)) end
        → peer_seen (link_stepped c mark m a end x) ≡ link_made own c mark (peer_seen x) m a }
{}

/// What a command, an answer or a notice makes of one end is what becomes of it in the partner.
#[tactic(auto, using(crate::proofs::Linked::channel_known))]
pub fn channel_is_link()
    ensures { (c : ℕ) (end : Channel) (x : Partner) →
        peer_seen (with_channel c end x) ≡ set_link (peer_seen x) c end.end }
{}
