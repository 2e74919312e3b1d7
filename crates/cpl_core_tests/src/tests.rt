use crate::tiny::{Tiny, answer};
use cpl_core::Event::{ClaimPost, ClaimTake, Compute, Publish, Release};
use cpl_core::{Boxes, Core, Disabled, NotYet, PlainBoxes, ends_law, word_law};
use std::test::Fail;

#[test]
fn a_box_answers_by_its_word(rt: HostRuntime) -> Result<(), Fail> {
    let wiring = Tiny;
    let mut boxes = PlainBoxes::new(rt.alloc(), &wiring)?;
    let mut first = vec![in rt.alloc(); 7i64]?;
    let mut second = vec![in rt.alloc(); 8i64]?;
    let mut taken = vec![in rt.alloc(); 0i64]?;
    assert_eq!(rt;
        boxes.try_take(0, 0, &mut taken),
        Err(NotYet { edge: 0, word: 0 })
    );
    assert_eq!(rt; boxes.try_post(0, 0, &mut first), Ok(()));
    assert_eq!(rt;
        boxes.try_post(0, 1, &mut second),
        Err(NotYet { edge: 0, word: 2 })
    );
    assert_eq!(rt; second.as_slice(), [8].as_slice());
    assert_eq!(rt; boxes.try_take(0, 0, &mut taken), Ok(()));
    assert_eq!(rt; taken.as_slice(), [7].as_slice());
    assert_eq!(rt;
        boxes.try_take(0, 1, &mut taken),
        Err(NotYet { edge: 0, word: 4 })
    );
    Ok(())
}

#[test]
fn a_run_goes_event_by_event(rt: HostRuntime) -> Result<(), Fail> {
    let wiring = Tiny;
    word_law(&wiring);
    ends_law(&wiring);
    let mut core = Core::new(rt.alloc(), &wiring)?;
    for (event, want) in [
        (Publish { edge: 0 }, Err(0)),
        (ClaimTake { edge: 0 }, Err(0)),
        (Compute { piece: 0 }, Err(0)),
        (ClaimPost { edge: 0 }, Ok(())),
        (ClaimPost { edge: 0 }, Err(1)),
        (Publish { edge: 0 }, Ok(())),
        (ClaimPost { edge: 0 }, Err(2)),
        (Compute { piece: 0 }, Err(1)),
        (Release { edge: 0 }, Err(2)),
        (ClaimTake { edge: 0 }, Ok(())),
        (Release { edge: 0 }, Ok(())),
        (ClaimPost { edge: 0 }, Ok(())),
        (Publish { edge: 0 }, Ok(())),
        (Compute { piece: 1 }, Err(1)),
        (Compute { piece: 0 }, Ok(())),
        (ClaimTake { edge: 0 }, Ok(())),
        (Release { edge: 0 }, Ok(())),
        (ClaimPost { edge: 0 }, Err(8)),
        (ClaimTake { edge: 0 }, Err(8)),
        (Compute { piece: 0 }, Err(3)),
        (Compute { piece: 1 }, Err(2)),
    ] {
        let want = want.map_err(|word| Disabled { word });
        assert_eq!(rt;
            answer(&mut core, &wiring, event),
            Some(want),
            "at {event:?}"
        );
    }
    Ok(())
}
