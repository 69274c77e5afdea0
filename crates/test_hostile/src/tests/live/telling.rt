use crate::tests::live::beside::{Case, is_in_time};

// The reader has to tell the first release before it asks for the second.
#[test]
fn each_release_told_at_once(rt: HostRuntime) {
    let case = Case {
        threads: "2",
        input: "\n\n",
        waits: true,
    };
    assert!(rt; is_in_time(&rt, rt.alloc(), case));
}

// The engine's one thread is held until the reader has heard.
#[test]
fn reader_beside_one_thread(rt: HostRuntime) {
    let case = Case {
        threads: "1",
        input: "\n\n",
        waits: true,
    };
    assert!(rt; is_in_time(&rt, rt.alloc(), case));
}
