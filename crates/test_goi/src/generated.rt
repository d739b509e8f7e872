//! The texts of generated programs.

use demo_text::demo_text;
use std::test::Fail;

#[test]
fn small_texts(rt: HostRuntime) -> Result<(), Fail> {
    let none = demo_text(rt.alloc(), 0)?;
    assert!(rt; none.as_slice() == b"(fun d:nat->nat. d 1) (fun x:nat. x + x)\n".as_slice());
    let one = demo_text(rt.alloc(), 1)?;
    assert!(rt;
        one.as_slice() == b"(fun d:nat->nat. (d 1) + (d 1)) (fun x:nat. x + x)\n".as_slice()
    );
    Ok(())
}

#[test]
fn largest_text(rt: HostRuntime) -> Result<(), Fail> {
    let text = demo_text(rt.alloc(), 12)?;
    assert!(rt; text.len() == 40_991);
    Ok(())
}
