// Worked scenarios of partitions that boot, meet, leave, stop and boot again, and of channels that
// open and close, each with its report, by the top call.
use crate::worked::{Row, expect_report};
use std::test::Fail;

const MEETINGS: [Row; 13] = [
    // Partitions that leave all partners.
    (
        b"xpsim 1
partitions 2
script 0
idle 20000
leave
script 1
idle 20000
leave
schedule
rounds 100000
",
        b"report 1
partition 0 done boots 1
  1 1 idle ok
  1 2 leave ok
partition 1 done boots 1
  1 1 idle ok
  1 2 leave ok
",
    ),
    // A partition boots again after its first message, and its partner learns of it.
    (
        b"xpsim 1
partitions 2
warm 0 1 0 entries 4 limit 112
restart 0 put 1
script 0
send 1 0 01
script 0
idle 50000
script 1
closed 0 0
schedule
rounds 100000
",
        b"report 1
partition 0 done boots 2
  1 1 send ok 0
  2 1 idle ok
  link 1 0 epoch 0 own 1.1 partner 1.1 accepted 1 taken 0 acked 0 delivered 0 ended 0
partition 1 done boots 1
  1 1 closed reactivating 1 2
  link 0 0 epoch 0 own 1.1 partner 1.1 accepted 0 taken 0 acked 0 delivered 0 ended 0
  over 0 0 epoch 0 own 1.1 partner 1.1 reactivating 1 2
",
    ),
    // A second registration, and the end of one that there is not.
    (
        b"xpsim 1
partitions 2
script 0
register 1 0 entries 2 limit 16
register 1 0 entries 2 limit 16
unregister 1 2
schedule
rounds 100000
",
        b"report 1
partition 0 done boots 1
  1 1 register ok
  1 2 register already
  1 3 unregister not-registered
partition 1 done boots 1
",
    ),
    // Cold start: a channel is opened, used, drained and closed.
    (
        b"xpsim 1
partitions 2
script 0
register 1 0 entries 4 limit 112
connected 1 0
send 1 0 01 notify
send 1 0 02 notify
send 1 0 03 notify
drain 1 0
unregister 1 0
closed 1 0
script 1
register 0 0 entries 4 limit 112
connected 0 0
take 0 0
release 0 0 0
take 0 0
release 0 0 1
take 0 0
release 0 0 2
closed 0 0
schedule
rounds 100000
",
        b"report 1
partition 0 done boots 1
  1 1 register ok
  1 2 connected ok
  1 3 send ok 0
  1 4 send ok 1
  1 5 send ok 2
  1 6 drain ok
  1 7 unregister ok
  1 8 closed unregistered
  link 1 0 epoch 0 own 1.1 partner 1.1 accepted 3 taken 0 acked 0 delivered 3 ended 0
  over 1 0 epoch 0 own 1.1 partner 1.1 unregistered
partition 1 done boots 1
  1 1 register ok
  1 2 connected ok
  1 3 take ok 0 1:01
  1 4 release ok 1
  1 5 take ok 1 1:02
  1 6 release ok 2
  1 7 take ok 2 1:03
  1 8 release ok 3
  1 9 closed partner-closed 1
  link 0 0 epoch 0 own 1.1 partner 1.1 accepted 0 taken 3 acked 3 delivered 0 ended 0
  over 0 0 epoch 0 own 1.1 partner 1.1 partner-closed 1
",
    ),
    // A channel is opened twice. One end stays registered.
    (
        b"xpsim 1
partitions 2
script 0
register 1 0 entries 4 limit 112
connected 1 0
send 1 0 0a notify
drain 1 0
unregister 1 0
closed 1 0
register 1 0 entries 4 limit 112
connected 1 0
send 1 0 0b notify
drain 1 0
script 1
register 0 0 entries 4 limit 112
connected 0 0
take 0 0
release 0 0 0
closed 0 0
connected 0 0
take 0 0
release 0 0 0
schedule
rounds 100000
",
        b"report 1
partition 0 done boots 1
  1 1 register ok
  1 2 connected ok
  1 3 send ok 0
  1 4 drain ok
  1 5 unregister ok
  1 6 closed unregistered
  1 7 register ok
  1 8 connected ok
  1 9 send ok 0
  1 10 drain ok
  link 1 0 epoch 0 own 1.1 partner 1.1 accepted 1 taken 0 acked 0 delivered 1 ended 0
  over 1 0 epoch 0 own 1.1 partner 1.1 unregistered
  link 1 0 epoch 1 own 1.1 partner 1.1 accepted 1 taken 0 acked 0 delivered 1 ended 0
partition 1 done boots 1
  1 1 register ok
  1 2 connected ok
  1 3 take ok 0 1:0a
  1 4 release ok 1
  1 5 closed partner-closed 1
  1 6 connected ok
  1 7 take ok 0 1:0b
  1 8 release ok 1
  link 0 0 epoch 0 own 1.1 partner 1.1 accepted 0 taken 1 acked 1 delivered 0 ended 0
  over 0 0 epoch 0 own 1.1 partner 1.1 partner-closed 1
  link 0 0 epoch 1 own 1.1 partner 1.1 accepted 0 taken 1 acked 1 delivered 0 ended 0
",
    ),
    // A channel closes twice: the second connection ends before it stands.
    (
        b"xpsim 1
partitions 2
warm 0 1 0 entries 2 limit 16
script 0
unregister 1 0
closed 1 0
register 1 0 entries 2 limit 16
idle 2048
unregister 1 0
closed 1 0
script 1
closed 0 0
closed 0 0
schedule
turns 0 8192
turns 1 8192
turns 0 16384
turns 1 8192
rounds 20000
",
        b"report 1
partition 0 done boots 1
  1 1 unregister ok
  1 2 closed unregistered
  1 3 register ok
  1 4 idle ok
  1 5 unregister ok
  1 6 closed unregistered
  link 1 0 epoch 0 own 1.1 partner 1.1 accepted 0 taken 0 acked 0 delivered 0 ended 0
  over 1 0 epoch 0 own 1.1 partner 1.1 unregistered
  over 1 0 epoch 1 own 1.1 partner 1.1 unregistered
partition 1 done boots 1
  1 1 closed partner-closed 1
  1 2 closed partner-closed 1
  link 0 0 epoch 0 own 1.1 partner 1.1 accepted 0 taken 0 acked 0 delivered 0 ended 0
  over 0 0 epoch 0 own 1.1 partner 1.1 partner-closed 1
  over 0 0 epoch 1 own 1.1 partner 1.1 partner-closed 1
",
    ),
    // Unequal limits.
    (
        b"xpsim 1
partitions 2
script 0
register 1 0 entries 2 limit 16
closed 1 0
script 1
register 0 0 entries 2 limit 32
closed 0 0
schedule
rounds 100000
",
        b"report 1
partition 0 done boots 1
  1 1 register ok
  1 2 closed unequal-sizes 16 32
  over 1 0 epoch 0 own 1.1 partner 1.1 unequal-sizes 16 32
partition 1 done boots 1
  1 1 register ok
  1 2 closed unequal-sizes 32 16
  over 0 0 epoch 0 own 1.1 partner 1.1 unequal-sizes 32 16
",
    ),
    // Limits that only one of the versions could agree.
    (
        b"xpsim 1
partitions 2
minor 0 2
script 0
register 1 0 entries 2 limit 200
closed 1 0
script 1
register 0 0 entries 4 limit 112
closed 0 0
schedule
rounds 100000
",
        b"report 1
partition 0 done boots 1
  1 1 register ok
  1 2 closed unequal-sizes 200 112
  over 1 0 epoch 0 own 1.1 partner 1.1 unequal-sizes 200 112
partition 1 done boots 1
  1 1 register ok
  1 2 closed unequal-sizes 112 200
  over 0 0 epoch 0 own 1.1 partner 1.1 unequal-sizes 112 200
",
    ),
    // Of two limits the lesser one is agreed.
    (
        b"xpsim 1
partitions 2
minor 0 2
minor 1 2
script 0
register 1 0 entries 2 limit 200
connected 1 0
send 1 0 113*61
script 1
register 0 0 entries 4 limit 112
connected 0 0
schedule
rounds 100000
",
        b"report 1
partition 0 done boots 1
  1 1 register ok
  1 2 connected ok
  1 3 send too-big 113 112
  link 1 0 epoch 0 own 1.1 partner 1.1 accepted 0 taken 0 acked 0 delivered 0 ended 0
partition 1 done boots 1
  1 1 register ok
  1 2 connected ok
  link 0 0 epoch 0 own 1.1 partner 1.1 accepted 0 taken 0 acked 0 delivered 0 ended 0
",
    ),
    // A copy fails, and the partitions meet again.
    (
        b"xpsim 1
partitions 2
warm 0 1 0 entries 4 limit 112
fault 1 entries 1
script 0
send 1 0 aa notify
closed 1 0
connected 1 0
send 1 0 bb notify
drain 1 0
script 1
take 0 0
closed 0 0
connected 0 0
take 0 0
release 0 0 0
schedule
rounds 100000
",
        b"report 1
partition 0 done boots 1
  1 1 send ok 0
  1 2 closed other-going-down 2
  1 3 connected ok
  1 4 send ok 0
  1 5 drain ok
  link 1 0 epoch 0 own 1.1 partner 1.1 accepted 1 taken 0 acked 0 delivered 0 ended 1
  over 1 0 epoch 0 own 1.1 partner 1.1 other-going-down 2
  link 1 0 epoch 0 own 1.2 partner 1.2 accepted 1 taken 0 acked 0 delivered 1 ended 0
partition 1 done boots 1
  1 1 take disconnecting copy-error entries 1
  1 2 closed copy-error entries 1
  1 3 connected ok
  1 4 take ok 0 1:bb
  1 5 release ok 1
  link 0 0 epoch 0 own 1.1 partner 1.1 accepted 0 taken 0 acked 0 delivered 0 ended 0
  over 0 0 epoch 0 own 1.1 partner 1.1 copy-error entries 1
  link 0 0 epoch 0 own 1.2 partner 1.2 accepted 0 taken 1 acked 1 delivered 0 ended 0
",
    ),
    // A load in the midst of a run of two entries fails, and neither is taken.
    (
        b"xpsim 1
partitions 2
warm 0 1 0 entries 4 limit 112
fault 1 entries 1 at 16
script 0
send 1 0 aa
send 1 0 bb
script 1
take 0 0
schedule
turns 0 8192
turns 1 8192
",
        b"report 1
partition 0 done boots 1
  1 1 send ok 0
  1 2 send ok 1
  link 1 0 epoch 0 own 1.1 partner 1.1 accepted 2 taken 0 acked 0 delivered 0 ended 0
partition 1 done boots 1
  1 1 take disconnecting copy-error entries 1
  link 0 0 epoch 0 own 1.1 partner 1.1 accepted 0 taken 0 acked 0 delivered 0 ended 0
",
    ),
    // A partition stops with its first message.
    (
        b"xpsim 1
partitions 2
warm 0 1 0 entries 4 limit 112
stop 0 put 1
script 0
send 1 0 77
script 1
take 0 0
release 0 0 0
schedule
rounds 20000
",
        b"report 1
partition 0 stopped boots 1
  1 1 send ok 0
  link 1 0 epoch 0 own 1.1 partner 1.1 accepted 1 taken 0 acked 0 delivered 0 ended 0
partition 1 done boots 1
  1 1 take ok 0 1:77
  1 2 release ok 1
  link 0 0 epoch 0 own 1.1 partner 1.1 accepted 0 taken 1 acked 1 delivered 0 ended 0
",
    ),
    // A partition boots again, and the channel is opened anew.
    (
        b"xpsim 1
partitions 2
warm 0 1 0 entries 4 limit 112
restart 0 put 1
script 0
send 1 0 01
script 0
register 1 0 entries 4 limit 112
connected 1 0
send 1 0 02 notify
drain 1 0
script 1
closed 0 0
connected 0 0
take 0 0
release 0 0 0
schedule
rounds 100000
",
        b"report 1
partition 0 done boots 2
  1 1 send ok 0
  2 1 register ok
  2 2 connected ok
  2 3 send ok 0
  2 4 drain ok
  link 1 0 epoch 0 own 1.1 partner 1.1 accepted 1 taken 0 acked 0 delivered 0 ended 0
  link 1 0 epoch 0 own 2.1 partner 1.2 accepted 1 taken 0 acked 0 delivered 1 ended 0
partition 1 done boots 1
  1 1 closed reactivating 1 2
  1 2 connected ok
  1 3 take ok 0 1:02
  1 4 release ok 1
  link 0 0 epoch 0 own 1.1 partner 1.1 accepted 0 taken 0 acked 0 delivered 0 ended 0
  over 0 0 epoch 0 own 1.1 partner 1.1 reactivating 1 2
  link 0 0 epoch 0 own 1.2 partner 2.1 accepted 0 taken 1 acked 1 delivered 0 ended 0
",
    ),
];

#[test]
fn worked_meetings(rt: HostRuntime) -> Result<(), Fail> {
    for (scenario, report) in MEETINGS {
        expect_report(&rt, rt.alloc(), scenario, report)?;
    }
    Ok(())
}
