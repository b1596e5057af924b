// Whether a partition boots, is up, or makes no turn any more.
ghost use Rattle.std.specs.Prelude.{◌≡◌};
ghost use Rattle.xp_protocol.specs.Runs.{is_halted};
ghost use Rattle.xp_partition.specs.Life.{life_seen};

/// Where a partition is in its boot.
#[derive(Clone, Copy)]
pub enum Life {
    /// The partition boots: it makes the steps of its boot alone.
    Booting,
    /// The boot is over.
    Up,
    /// The stamp, this word, couldn't be raised: the partition makes no turn any more.
    Halted { word: u64 },
}

impl Life {
    /// Whether the partition halted.
    pub fn is_halted(self) -> bool
        ensures { result ≡ is_halted (life_seen self) }
    {
        matches!(self, Life::Halted { .. })
    }
}
