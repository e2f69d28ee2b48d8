//! Deep terms, long bodies and deep recursion.
use crate::command::{repeated, told};
use plhist::Status;
use std::test::Fail;

// Deep terms, long bodies and deep recursion take no stack.
#[test]
fn depth(rt: HostRuntime) -> Result<(), Fail> {
    let alloc = rt.alloc();
    let mut text = Vec::from_slice(alloc, b"p(")?;
    repeated(alloc, &mut text, "f(", 65_000)?;
    text.extend_from_slice(b"X")?;
    repeated(alloc, &mut text, ")", 65_000)?;
    text.extend_from_slice(b"). q :- ")?;
    repeated(alloc, &mut text, "true, ", 20_000)?;
    text.extend_from_slice(b"true. z(o). z(s(X)) :- z(X). r :- z(")?;
    repeated(alloc, &mut text, "s(", 10_000)?;
    text.extend_from_slice(b"o")?;
    repeated(alloc, &mut text, ")", 10_000)?;
    text.extend_from_slice(b"). :- p(_), q, r, write(done).")?;
    let (bytes, ended) = told(&rt, alloc, &text)?;
    assert!(rt; bytes.as_slice() == b"% thread 1 main: true\ndone\n".as_slice());
    assert!(rt; ended == Status::Done);
    Ok(())
}
