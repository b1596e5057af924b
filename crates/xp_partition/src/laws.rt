// What is proved of the room of a partition's partners by itself.
ghost use Rattle.std.specs.Prelude.{◌≡◌, ◌≢◌, ℕ, ◌+◌, ◌<◌, ◌≤◌, length, true};
ghost use Rattle.xp_base.specs.declared.layout.TheConstants.{PARTS};
ghost use Rattle.xp_base.specs.Masks.{has};
ghost use Rattle.xp_connections.specs.declared.record.TheConstants.{TURN_ROOM};
ghost use Rattle.xp_partner.specs.Partner.{Partner};
ghost use Rattle.xp_partner.specs.Room.{HaveNotes, HaveNotesLeft};
ghost use Rattle.xp_partition.specs.Partners.{Partners, with_partner, AreRoomy, AllHaveTurnRoom, AllHaveNotes, AllHaveNotesLeft};

/// All partners that weren't touched have room for a turn: also when one more is touched, and
/// whatever becomes of one that was.
#[tactic(auto, using(crate::proofs::Roomy::touched_roomy, crate::proofs::Roomy::changed_roomy))]
pub fn untouched_are_roomy()
    ensures touched { (x y : Partners) → (q : ℕ) → length x.list ≤ PARTS → y.list ≡ x.list
        → has y.touched q ≡ true
        → ((i : ℕ) → i < PARTS → i ≢ q → has y.touched i ≡ has x.touched i)
        → AreRoomy x → AreRoomy y }
    ensures changed { (x : Partners) → (q : ℕ) → (p : Partner) → has x.touched q ≡ true
        → AreRoomy x → AreRoomy (with_partner q p x) }
{}

/// Where all partners have room for a turn they have it for `TURN_ROOM` notes, the step's among
/// them; and room before a turn's step is room after a step that makes no note.
#[tactic(auto, using(crate::proofs::Noting::all_turn_notes, crate::proofs::Noting::all_notes_left))]
pub fn turn_has_notes()
    ensures turn { (x : Partners) → AllHaveTurnRoom x → AllHaveNotes TURN_ROOM x }
    ensures left { (notes : ℕ) → (x : Partners) → AllHaveNotes notes x → AllHaveNotesLeft notes x }
{}

/// Room for some notes at all partners is room for no more of them; and it is left where one of
/// them changes that has it then.
#[tactic(auto, using(crate::proofs::Noting::noting))]
pub fn notes_are_kept()
    ensures fewer { (notes more : ℕ) → (x : Partners) → notes ≤ more
        → AllHaveNotes more x → AllHaveNotes notes x }
    ensures fewer_left { (notes more : ℕ) → (x : Partners) → notes ≤ more
        → AllHaveNotesLeft more x → AllHaveNotesLeft notes x }
    ensures changed { (notes : ℕ) → (x : Partners) → (q : ℕ) → (p : Partner)
        → q < length x.list → AllHaveNotes notes x → HaveNotes notes p
        → AllHaveNotes notes (with_partner q p x) }
    ensures changed_left { (notes : ℕ) → (x : Partners) → (q : ℕ) → (p : Partner)
        → q < length x.list → AllHaveNotesLeft notes x → HaveNotesLeft notes p
        → AllHaveNotesLeft notes (with_partner q p x) }
{}
