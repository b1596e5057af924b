// What a partition does at the places of its rounds.

/// What is to be done at a place in one visit. It is fixed when the place is come to.
#[derive(Clone, Copy)]
pub enum Agenda {
    /// At every place, until the partition is booted, and of a partition that halted.
    Boot,
    /// At the own place.
    Own,
    /// At the place of a partner that isn't in contact, or is to be deactivated.
    Apart,
    /// At the place of a partner that is in contact.
    Joined,
}

/// Something to be done at a place, by a number of steps that its quota bounds.
#[derive(Clone, Copy)]
pub enum Errand {
    /// The steps of a boot.
    Boot,
    /// The own heartbeat is stored, unless the partition is offline.
    Beat,
    /// The own heartbeat mask is stored, where it isn't right.
    Mask,
    /// The own activation word is taken: which partners ask for a look.
    Activations,
    /// The own deactivation word is taken: which partners go down.
    Deactivations,
    /// The own engagement word is loaded, where the own memory for a partner waits to be free.
    Engagements,
    /// A look at a partner's page.
    Look,
    /// The own memory for a partner is prepared and opened to it.
    Prepare,
    /// A partner is asked to be activated, and the own bit is set in its engagement word.
    Engage,
    /// The own echo and the second magic are stored, or the own bit is cleared in the partner's
    /// engagement word where the partner's memory isn't open.
    Answer,
    /// A copy of a partner's record.
    Record,
    /// The own flag word of a partner is taken.
    Flags,
    /// A check of a partner's heartbeat, where one is due.
    Check,
    /// What is owed on a channel to tell the partner, and the arguments of its flags.
    Signal(u8),
    /// A copy of the partner's counters of a channel.
    Counters(u8),
    /// The steps of the command in progress, at the place of a partner.
    Bulk,
    /// The own memory is closed to a partner that is to be deactivated, and left.
    Leave,
    /// The steps of the command in progress, at the own place.
    Script,
}
