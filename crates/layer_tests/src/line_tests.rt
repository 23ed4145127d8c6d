// The streams and the masks of a small line.
use bm_base::Mask;
use line_model::*;
use std::test::Fail;

// Tuple 0 on processor 0, then a barrier of 0 and 1, then tuples 2 and 3 on 1 and 0.
#[test]
fn a_barrier_is_a_wait_of_each_member(rt: HostRuntime) -> Result<(), Fail> {
    let mut mask = Mask::empty();
    mask.insert(0);
    mask.insert(1);
    let mut items = Items::new(rt.alloc());
    items.push(Item::Run {
        processor: 0,
        tuple: 0,
    })?;
    items.push(Item::Bar { mask })?;
    items.push(Item::Run {
        processor: 1,
        tuple: 2,
    })?;
    items.push(Item::Run {
        processor: 0,
        tuple: 3,
    })?;
    let line = Line { items };
    let (zero, two, three) = (
        StreamItem::Do { tuple: 0 },
        StreamItem::Do { tuple: 2 },
        StreamItem::Do { tuple: 3 },
    );
    assert_eq!(rt;
        line.stream(rt.alloc(), 0)?.as_slice(),
        [zero, StreamItem::Wait, three].as_slice()
    );
    assert_eq!(rt;
        line.stream(rt.alloc(), 1)?.as_slice(),
        [StreamItem::Wait, two].as_slice()
    );
    assert_eq!(rt; line.stream(rt.alloc(), 64)?.len(), 0);
    assert_eq!(rt; line.masks(rt.alloc())?.as_slice(), [mask].as_slice());
    Ok(())
}
