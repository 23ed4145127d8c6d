// Worked orders of firing on both units.
use crate::fixtures::pair;
use dbm_unit::Dbm;
use sbm_unit::Sbm;
use std::test::Fail;
use unit_law::BarrierUnit;

// A mask fires before another that stands in front of it, where they share no member. Of two that
// share one, the second waits for the first.
#[test]
fn masks_fire_as_their_members_come(rt: HostRuntime) -> Result<(), Fail> {
    let mut unit = Dbm::new(rt.alloc(), 2)?;
    unit.load(&[pair(0, 1), pair(2, 3)]);
    unit.arrive(2);
    unit.arrive(3);
    assert_eq!(rt; unit.pick(), Some(1));
    unit.load(&[pair(0, 1), pair(1, 2)]);
    unit.arrive(1);
    unit.arrive(2);
    assert_eq!(rt; unit.pick(), None);
    assert_eq!(rt; unit.counts(), [1, 1].as_slice());
    unit.arrive(0);
    assert_eq!(rt; unit.pick(), Some(0));
    assert_eq!(rt; unit.counts(), [0, 1].as_slice());
    Ok(())
}

// The masks of processors 0 and 1 and of 2 and 127: these two come first, and wait for that one to
// fire.
#[test]
fn only_the_head_of_the_queue_fires(rt: HostRuntime) -> Result<(), Fail> {
    let mut unit = Sbm::new(rt.alloc(), 2)?;
    assert_eq!(rt; unit.room(), 2);
    unit.load(&[pair(0, 1), pair(2, 127)]);
    unit.arrive(2);
    unit.arrive(127);
    assert_eq!(rt; unit.pick(), None);
    unit.arrive(0);
    unit.arrive(1);
    assert_eq!(rt; unit.pick(), Some(0));
    assert_eq!(rt; unit.pick(), Some(1));
    assert_eq!(rt; unit.pick(), None);
    Ok(())
}
