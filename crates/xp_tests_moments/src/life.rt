// The life of a partner, step by step: two partitions that boot make contact, and one of them deactivates the other.
use crate::replays::{pair, replay};
use std::process::Abort;
use std::test::Fail;
use xp_base::layout::{
    ACTIVATION, DEACTIVATION, ENGAGED, FIRST, MASK, OFFLINE, RECORDS_AT, RECORDS_PLACE_AT, SECOND,
    SIGNATURE_AT, STAMP, VARIABLES_PLACE_AT, VERSION_AT,
};
use xp_base::step::{OpKind, Step};
use xp_world::world::World;

/// A step: whose word it works on, at which place, and what it does there.
type Row = (u8, u32, OpKind);

/// The record of partition 0 for partition 1, and that of partition 1 for partition 0.
const OWN: u32 = RECORDS_AT + 8;

const THEIRS: u32 = RECORDS_AT;

/// The first session of a first boot.
const SESSION: u64 = 4_294_967_297;

/// Partition 0 boots: it loads its stamp, clears what a former boot left, and stores the next stamp.
const BOOT: &[Row] = &[
    (0, STAMP, OpKind::Load),
    (0, MASK, OpKind::Store(0)),
    (0, OFFLINE, OpKind::Store(0)),
    (0, OWN, OpKind::Store(0)),
    (1, ENGAGED, OpKind::And(u64::MAX - 1)),
    (0, STAMP, OpKind::Store(1)),
];

/// It looks at its partner's page, asks it to be activated, and shows that it is engaged.
const LOOK: &[Row] = &[
    (0, STAMP, OpKind::Store(1)),
    (1, SIGNATURE_AT, OpKind::Load),
    (1, VERSION_AT, OpKind::Load),
    (1, VARIABLES_PLACE_AT, OpKind::Load),
    (1, RECORDS_PLACE_AT, OpKind::Load),
    (1, STAMP, OpKind::Load),
    (1, ACTIVATION, OpKind::Or(1)),
    (1, ENGAGED, OpKind::Or(1)),
];

/// It finds its memory free, prepares it under a session, shows it in its mask and opens it; it is engaged, reads its partner's record
/// and shows it. That is contact. Then it closes its memory, tells its partner, clears its bit, and finds its memory free again.
const AREA: &[Row] = &[
    (0, ENGAGED, OpKind::Load),
    (0, OWN + 1, OpKind::Store(SESSION)),
    (0, MASK, OpKind::Store(2)),
    (0, OWN, OpKind::Store(FIRST)),
    (1, ENGAGED, OpKind::Or(1)),
    (1, THEIRS, OpKind::Load),
    (1, THEIRS + 1, OpKind::Load),
    (0, OWN + 2, OpKind::Store(SESSION)),
    (0, OWN, OpKind::Store(SECOND)),
    (0, OWN, OpKind::Store(0)),
    (1, DEACTIVATION, OpKind::Or(1)),
    (1, ENGAGED, OpKind::And(u64::MAX - 1)),
    (0, ENGAGED, OpKind::Load),
];

/// Partition 1 is told so, and goes down too.
const TOLD: &[Row] = &[
    (1, THEIRS, OpKind::Store(SECOND)),
    (1, DEACTIVATION, OpKind::Take),
    (1, THEIRS, OpKind::Store(0)),
    (0, DEACTIVATION, OpKind::Or(2)),
    (0, ENGAGED, OpKind::And(u64::MAX - 2)),
    (1, ENGAGED, OpKind::Load),
];

/// Whose steps they are, and the steps in their order, between which others may stand.
const LIFE: [(u8, &[Row]); 4] = [(0, BOOT), (0, LOOK), (0, AREA), (1, TOLD)];

fn is_step(step: &Step, row: &Row) -> bool {
    let (owner, place, kind) = *row;
    step.op.owner.get() == owner && step.op.index == place && step.op.kind == kind
}

/// Whether steps have these among them, in this order.
fn has_in_order(steps: &[Step], rows: &[Row]) -> bool {
    let mut found: usize = 0;
    for step in steps {
        match rows.get(found) {
            Some(row) => {
                if is_step(step, row) {
                    found = found.saturating_add(1);
                }
            }
            None => return true,
        }
    }
    found >= rows.len()
}

/// Whether a partition made these steps in this order.
fn lived(world: &World, part: u8, rows: &[Row]) -> bool {
    for node in &world.nodes {
        if node.part() == part {
            return has_in_order(node.trace(), rows);
        }
    }
    false
}

fn expect_life(rt: &impl Abort, world: &World) {
    for (part, rows) in LIFE {
        assert!(rt; lived(world, part, rows), "steps of {part}");
    }
}

#[test]
fn a_life_of_a_partner(rt: HostRuntime) -> Result<(), Fail> {
    let scripts = ["idle 400\ndeactivate 1\nidle 300\n", "idle 900\n"];
    let made = replay(
        &rt,
        rt.alloc(),
        pair(rt.alloc(), "", scripts, "rounds 1000\n")?,
    )?;
    match &made.end {
        Some(world) => expect_life(&rt, world),
        None => assert!(rt; false, "no world"),
    }
    Ok(())
}
