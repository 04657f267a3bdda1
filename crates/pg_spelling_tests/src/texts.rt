use pg_bytes::Text;
use std::alloc::{AllocError, Global};
use std::test::Fail;

// Whether the text has these bytes, and a copy is the same.
fn is_kept(alloc: Global, text: &str, bytes: &[u8]) -> Result<bool, AllocError> {
    let kept = Text::from_str(alloc, text)?;
    let copy = kept.copy()?;
    Ok(
        kept.as_str().as_bytes() == bytes
            && copy == kept
            && Text::from_string(kept.into_string()).as_str() == text,
    )
}

fn are_same(alloc: Global, a: &str, b: &str) -> Result<bool, AllocError> {
    Ok(Text::from_str(alloc, a)? == Text::from_str(alloc, b)?)
}

#[test]
fn keeps_texts(rt: HostRuntime) -> Result<(), Fail> {
    let bytes = [0xc3, 0xa9, b't', 0xc3, 0xa9];
    assert!(rt;
        is_kept(rt.alloc(), "\u{e9}t\u{e9}", &bytes)?
            && !are_same(rt.alloc(), "\u{e9}t\u{e9}", "ete")?
    );
    Ok(())
}
