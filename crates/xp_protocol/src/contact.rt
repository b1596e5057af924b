// For which size a channel is registered, under which sessions two partitions are in contact, and
// how a partition stands to a partner.
use xp_base::session::Session;

/// The entries of a queue and the longest payload.
#[derive(Clone, Copy)]
pub struct Size {
    pub entries: u8,
    pub limit: u16,
}

/// What the last whole look at a partner's page showed.
#[derive(Clone, Copy)]
pub enum Look {
    Unseen,
    /// A page of this layout, with its version, which is known.
    Good { version: u64 },
    Absent,
    BadVersion { word: u64 },
}

/// How a partition stands to a partner.
#[derive(Clone, Copy)]
pub enum PartnerState {
    Inactive,
    /// The partner was asked to be activated.
    Requested,
    /// The own bit stands at the partner.
    Activating,
    /// There is contact.
    Active,
    Deactivating,
}

/// The sessions of a contact.
#[derive(Clone, Copy)]
pub struct Contact {
    pub own: Session,
    pub theirs: Session,
}

/// A reply word that was loaded, and whether it is the place where the partner's entries for this
/// end begin.
#[derive(Clone, Copy)]
pub struct Replied {
    pub word: u64,
    pub right: bool,
}
