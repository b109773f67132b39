//! Faults in words.
use mls_geom::{RectFault, TooMany};
use std::test::Fail;

#[test]
fn faults_in_words(rt: HostRuntime) -> Result<(), Fail> {
    for (fault, text) in [
        (RectFault::Empty, "empty box"),
        (RectFault::Outside, "outside the world"),
    ] {
        assert_eq!(rt; format!(in rt.alloc(); "{fault}")?.as_str(), text);
    }
    assert_eq!(rt;
        format!(in rt.alloc(); "{TooMany}")?.as_str(),
        "too many tiles"
    );
    Ok(())
}
