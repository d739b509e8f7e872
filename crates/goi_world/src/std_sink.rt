//! Writers of std.

ghost use Rattle.std.specs.Prelude.{◌≡◌, ◌<◌, ◌≤◌, IfOk, length};
ghost use Rattle.goi_world.specs.Told.{writing};
ghost use Rattle.goi_world.specs.SinkOfWriter.{unwritten, one_write};

use crate::past::{Past, Turn};
use crate::{Failed, Sink};
use std::io::Write;
use std::marker::Model;

/// A sink over a writer, of which nothing is known but what was written: each piece that was handed over, with how much of it was taken,
/// and how many writes failed.
#[derive(Drop)]
pub struct StdSink<W: Write> {
    writer: W,
    past: Past,
    faults: u64,
}

impl<W: Write> Model for StdSink<W> {
    ghost use Rattle.goi_world.specs.SinkOfWriter.{SinkOfWriter};

    ghost Value = { SinkOfWriter };

    ghost view = { λ sink. record { past = sink.past.turns.writes; faults = sink.faults } };
}

impl<W: Write> StdSink<W> {
    /// A sink that hands each piece to this writer.
    pub fn over(writer: W) -> StdSink<W>
        ensures { result ≡ unwritten }
    {
        StdSink {
            writer,
            past: Past::none(),
            faults: 0,
        }
    }
}

impl<W: Write> Sink for StdSink<W> {
    ghost use Rattle.goi_world.specs.SinkOfWriter.{writer_sink_seen, one_write};

    ghost seen = { writer_sink_seen };

    ghost writes = { λ before w now. now ≡ one_write before w };

    // A write that takes nothing of a piece that isn't empty is a fault.
    fn write(&mut self, piece: &[u8]) -> Result<usize, Failed>
        ensures bound { IfOk result (λ n. n ≤ length piece.now) }
        ensures some { IfOk result (λ n. 0 < length piece.now → 0 < n) }
        ensures after { self.new ≡ one_write self.old (writing piece.now result) }
        ensures later { self.old.faults ≤ self.new.faults }
    {
        match self.writer.write(piece) {
            Ok(count) if count > 0 || piece.is_empty() => {
                self.past = self.past.with(&Turn::Wrote(piece, Ok(count)));
                Ok(count)
            }
            _ => {
                self.faults = self.faults.saturating_add(1);
                self.past = self.past.with(&Turn::Wrote(piece, Err(Failed)));
                Err(Failed)
            }
        }
    }
}
