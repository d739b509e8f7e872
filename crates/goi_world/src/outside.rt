//! What reads and writes may be relied on for, whatever the device.

ghost use Rattle.std.specs.Prelude.{◌≡◌, ◌⊎◌, ◌+◌, ◌<◌, ◌≤◌, List, ℕ, IsTrue, length, take, Option, None, IsOk, IsErr, OnOk, OnErr, IfOk};
ghost use Rattle.goi_world.specs.Outside.{Rose, Reading, Writing, with_more};
ghost use Rattle.goi_world.specs.Told.{reading, writing, Fits};
ghost use Rattle.goi_world.specs.Seen.{FilesState, FilesKept, SinkState};

/// The one answer of a device that failed.
#[derive(Clone, Copy, Debug, PartialEq, Eq)]
pub struct Failed;

/// Files, by their names.
pub trait Files {
    /// What is seen of the files.
    ghost seen: { Self → FilesState };

    /// The first state became the second by this one read, which gave these bytes.
    ///
    /// Generic code can show it by reading alone, so that a contract can list all reads that were made.
    ghost reads: { Self → Reading → Self → Type 0 };

    /// All that was read so far is of files that hold this, where it tells what they hold.
    ghost fits: { Self → (List ℕ → Option (List ℕ)) → Type 0 };

    /// Reads bytes of a file from the offset `at` on, and answers how many.
    ///
    /// No bytes, where there is room for some, says that the end is reached.
    ///
    /// # Errors
    ///
    /// [`Failed`], where no file has this name or where the device failed. What the buffer holds then isn't said.
    fn read(&mut self, name: &str, at: u64, buf: &mut [u8]) -> Result<usize, Failed>
        ensures kept { FilesKept (seen self.old) (seen self.new) }
        ensures reads { reads self.old (reading name.now at (length buf.old) result buf.new) self.new }
        ensures bound { IfOk result (λ n. n ≤ length buf.new) }
        ensures lacked { IsTrue ((seen self.old).lacks name.now) → IsErr result }
        ensures later { (seen self.old).faults ≤ (seen self.new).faults }
        ensures ok { OnOk result ((seen self.new).faults ≡ (seen self.old).faults) }
        ensures failed { OnErr result (IsTrue ((seen self.old).lacks name.now) ⊎ Rose (seen self.old).faults (seen self.new).faults) }
        ensures sure { IsTrue (seen self.old).steady → IsTrue ((seen self.old).lacks name.now) ⊎ IsOk result };

    /// What fits after a read fits before it, and the read fits it.
    ghost fits_each: { (old : Self) (r : Reading) (new : Self) (told : List ℕ → Option (List ℕ)) → reads old r new → fits new told →
        fits old told × Fits told r };

    /// What is told beforehand fits.
    ghost told_fits: { (files : Self) → fits files (seen files).told };

    /// What is lacked isn't told.
    ghost lacked_untold: { (files : Self) (told : List ℕ → Option (List ℕ)) (name : List ℕ) → fits files told →
        IsTrue ((seen files).lacks name) → told name ≡ None };
}

/// A place that bytes are written to.
pub trait Sink {
    /// What is seen of the sink.
    ghost seen: { Self → SinkState };

    /// The first state became the second by this one write.
    ///
    /// Generic code can show it by writing alone, so that a contract can list all writes that were made.
    ghost writes: { Self → Writing → Self → Type 0 };

    /// Writes a front of the piece and answers its length, which is 0 only where the piece is empty.
    ///
    /// # Errors
    ///
    /// [`Failed`], where the device failed. Then nothing of the piece was written.
    fn write(&mut self, piece: &[u8]) -> Result<usize, Failed>
        ensures writes { writes self.old (writing piece.now result) self.new }
        ensures bound { IfOk result (λ n. n ≤ length piece.now) }
        ensures some { IfOk result (λ n. 0 < length piece.now → 0 < n) }
        ensures appended { IfOk result (λ n. (seen self.new).written ≡ with_more (seen self.old).written (take n piece.now)) }
        ensures later { (seen self.old).faults ≤ (seen self.new).faults }
        ensures ok { OnOk result ((seen self.new).faults ≡ (seen self.old).faults) }
        ensures failed { OnErr result (Rose (seen self.old).faults (seen self.new).faults) }
        ensures kept { OnErr result ((seen self.new).written ≡ (seen self.old).written) }
        ensures sure { 0 < (seen self.old).spare → IsOk result }
        ensures spare { IfOk result (λ n. (seen self.old).spare ≤ (seen self.new).spare + n) };
}
