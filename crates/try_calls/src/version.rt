//! `mr_version`: texts of versions.
use crate::samples::{expect, version};
use std::test::Fail;

#[test]
fn ample_memory_text(rt: HostRuntime) -> Result<(), Fail> {
    expect(version("63.1000000")?.text(rt.alloc())?, "63.1000000")
}
