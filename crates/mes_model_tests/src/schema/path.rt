//! Tests of the printed form of paths.

use arrayvec::ArrayString;
use mes_model_schema::{Path, Step};
use std::process::Abort;

fn expect_text(rt: &impl Abort, path: &Path, expected: &str) {
    let mut text = ArrayString::new();
    path.text(&mut text);
    assert_eq!(rt; text.as_str(), expected);
}

#[test]
fn paths_are_printed(rt: HostRuntime) {
    expect_text(&rt, &Path::new(), ".");
    let path = Path::new()
        .with(Step::Name("a"))
        .with(Step::Name("b"))
        .with(Step::Index(0));
    expect_text(&rt, &path.copy(), "a.b[0]");
    expect_text(&rt, &path.with(Step::Name("c")), "a.b[0].c");
    expect_text(
        &rt,
        &Path::new().with(Step::Index(u64::MAX)),
        "[18446744073709551615]",
    );
}
