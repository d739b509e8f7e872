//! A meter between two threads.

ghost use Rattle.std.specs.Prelude.{◌≡◌, [], ◌∷◌};

use progress_meter::{Reader, Writer, meter};
use std::sync::Wait;
use std::test::Fail;
use std::thread::join;

const MOST: u64 = 20_000;

/// Publishes each number up to the most.
fn publish_all<R: Wait>(rt: &R, mut writer: Writer) -> Writer
    requires { writer.published ≡ 0 ∷ [] }
{
    for n in 0..MOST {
        writer.publish(rt, n);
    }
    writer.publish(rt, MOST);
    writer
}

/// Reads until the most is met, and answers how often something else was.
fn read_to_the_most<R: Wait>(rt: &R, mut reader: Reader) -> u64 {
    for times in 0..u64::MAX {
        if reader.read(rt) == MOST {
            return times;
        }
    }
    u64::MAX
}

#[test]
fn a_reader_beside_the_writer_meets_its_last_number(rt: HostRuntime) -> Result<(), Fail> {
    let (writer, first) = meter(rt.alloc())?;
    let (writer, times) = join(
        &rt,
        move ||
            requires { writer.published ≡ 0 ∷ [] }
        { publish_all(&rt, writer) },
        move || read_to_the_most(&rt, first),
    );
    assert_eq!(rt; writer.last(), MOST);
    assert!(rt; times < u64::MAX);
    Ok(())
}
