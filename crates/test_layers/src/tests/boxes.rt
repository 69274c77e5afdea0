// Tests of control_box: a post and its acknowledgement.
use control_box::make_box;
use std::alloc::{AllocError, Global};

// Whether a fresh box goes as it should through one post and one acknowledgement.
fn goes_well(alloc: Global) -> Result<bool, AllocError> {
    let (mut poster, mut owner) = make_box(alloc)?;
    if poster.ready(2) || !poster.ready(1) {
        return Ok(false);
    }
    let mut well = owner.poll() == 0 && owner.last_turned() == 0;
    poster.post(1);
    well &= owner.poll() == 1 && !poster.ready(2);
    owner.turned(1);
    well &= owner.last_turned() == 1 && poster.ready(2);
    Ok(well)
}

#[test]
fn fresh_box(rt: HostRuntime) {
    assert!(rt; matches!(goes_well(rt.alloc()), Ok(true)));
}
