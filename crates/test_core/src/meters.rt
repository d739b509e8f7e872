//! A meter in one thread, call by call.

use progress_meter::meter;
use std::alloc::{AllocError, Global};
use std::sync::Wait;
use std::test::Fail;

/// What two readers meet in turn, and then the last numbers of the first, of the second, and of the writer before and after both are gone.
fn readings<R: Wait>(rt: &R, alloc: Global) -> Result<([u64; 4], [u64; 4]), AllocError> {
    let (mut writer, mut first) = meter(alloc)?;
    let before = first.read(rt);
    writer.publish(rt, 3);
    let then = first.read(rt);
    let mut second = first.another()?;
    let other = second.read(rt);
    writer.publish(rt, 3);
    writer.publish(rt, 30);
    let met = [before, then, other, first.read(rt)];
    let (mine, others, published) = (first.last(), second.last(), writer.last());
    writer.settle(rt, first);
    writer.settle(rt, second);
    Ok((met, [mine, others, published, writer.last()]))
}

#[test]
fn readings_follow_what_is_published(rt: HostRuntime) -> Result<(), Fail> {
    let (met, last) = readings(&rt, rt.alloc())?;
    assert_eq!(rt; met, [0, 3, 3, 30]);
    assert_eq!(rt; last, [30, 3, 30, 30]);
    Ok(())
}

/// What is read, and was read last, when the greatest number was published twice.
fn greatest<R: Wait>(rt: &R, alloc: Global) -> Result<(u64, u64), AllocError> {
    let (mut writer, mut reader) = meter(alloc)?;
    writer.publish(rt, u64::MAX);
    writer.publish(rt, u64::MAX);
    Ok((reader.read(rt), reader.last()))
}

#[test]
fn the_greatest_number_can_be_published(rt: HostRuntime) -> Result<(), Fail> {
    let (met, last) = greatest(&rt, rt.alloc())?;
    assert_eq!(rt; met, u64::MAX);
    assert_eq!(rt; last, u64::MAX);
    Ok(())
}
