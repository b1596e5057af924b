// What one partition did, with the partition's name.
use xp_base::ids::PartId;

/// An item of a history, and the partition that it is of. Histories stand in proofs alone, so no
/// value is kept.
#[derive(Drop)]
pub struct PartItem<T> {
    pub part: PartId,
    pub item: T,
}
