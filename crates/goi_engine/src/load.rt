//! Reading a file, piece by piece, up to one byte more than its limit.

ghost use Rattle.std.specs.Prelude.{◌≡◌, ◌⊎◌, ◌<◌, ◌≤◌, ◌+◌, ℕ, List, Option, IsTrue, length, take, IsErr, OnOk, IfOk, IfSome, IsErrOf};
ghost use Rattle.goi_world.specs.Outside.{Rose, with_given};
ghost use Rattle.goi_world.specs.Told.{read_of};
ghost use Rattle.goi_world.specs.Seen.{FilesKept};
ghost use Rattle.pcf_values.specs.Most.{most_schedule_bytes};
ghost use Rattle.goi_engine.specs.FilesSeen.{LoadedBy};
ghost use Rattle.goi_engine.specs.Loads.{Loads, GoesOn};
ghost use Rattle.goi_engine.specs.declared.load.LoadError.TheVariants.{Memory};

use goi_world::Files;
use std::alloc::{AllocError, Global};

/// How many bytes are asked for in one turn.
const PIECE_BYTES: usize = 65_536;

/// Why a file wasn't loaded.
#[derive(Clone, Copy)]
pub(crate) enum LoadError {
    /// There was no memory.
    Memory,
    /// The file is lacked, or a read of it failed.
    Failed,
}

impl From<AllocError> for LoadError {
    ghost from_gives = { λ _ e. e ≡ Memory };

    fn from(_: AllocError) -> LoadError {
        LoadError::Memory
    }
}

/// The bytes of a file, or as many as show that it has more than so many.
///
/// Each turn but the last takes a byte, and the last may find the end. No place is read twice.
pub(crate) fn load<F: Files>(
    alloc: Global,
    files: &mut F,
    name: &str,
    limit: u32,
) -> Result<Vec<u8>, LoadError>
    requires { limit ≤ most_schedule_bytes }
    ensures kept { FilesKept (F.seen files.old) (F.seen files.new) }
    ensures bytes { IfOk result (λ v. (told : List ℕ → Option (List ℕ)) → F.fits files.new told →
        IfSome (told name.now) (λ bytes. v.items ≡ take (limit + 1) bytes)) }
    ensures no_further { IfOk result (λ v. length v.items ≤ limit + 1) }
    ensures reads { LoadedBy F.reads name.now limit files.old files.new }
    ensures lacked { IsTrue ((F.seen files.old).lacks name.now) → IsErr result }
    ensures ok { OnOk result ((F.seen files.new).faults ≡ (F.seen files.old).faults) }
    ensures memory { IsErrOf result LoadError.Memory → (F.seen files.new).faults ≡ (F.seen files.old).faults }
    ensures failed { IsErrOf result LoadError.Failed →
        IsTrue ((F.seen files.old).lacks name.now) ⊎ Rose (F.seen files.old).faults (F.seen files.new).faults }
    ensures sure { IsTrue (F.seen files.old).steady → IsErrOf result LoadError.Failed → IsTrue ((F.seen files.old).lacks name.now) }
{
    let enough = limit + 1;
    let mut piece = zeros(alloc, PIECE_BYTES)?;
    let buffer: &mut [u8] = &mut piece;
    let mut bytes = Vec::new(alloc);
    for turn in 0..enough {
        let most = PIECE_BYTES.min(enough as usize - bytes.len());
        let count = load_piece(files, name, limit, &mut buffer[..most], &mut bytes)?;
        if count == 0 || bytes.len() == enough as usize {
            return Ok(bytes);
        }
    }
    unreachable!()
}

/// So many zeros.
fn zeros(alloc: Global, count: usize) -> Result<Vec<u8>, AllocError>
    ensures { IfOk result (λ v. length v.items ≡ count) }
{
    vec![in alloc; 0u8; count]
}

/// Reads once, puts what was read behind the bytes, and answers how many bytes it was.
#[tactic(auto, using(crate::proofs::Loading::loads))]
fn load_piece<F: Files>(
    files: &mut F,
    name: &str,
    limit: u32,
    piece: &mut [u8],
    bytes: &mut Vec<u8>,
) -> Result<usize, LoadError>
    requires some { 0 < length piece.old }
    requires room { length bytes.old.items + length piece.old ≤ limit + 1 }
    ensures kept { FilesKept (F.seen files.old) (F.seen files.new) }
    ensures reads { (room : ℕ) × (gave : Option (List ℕ)) × (length bytes.old.items + room ≤ limit + 1) ×
        F.reads files.old (read_of name.now (length bytes.old.items) room gave) files.new ×
        OnOk result (with_given bytes.old.items gave ≡ bytes.new.items) }
    ensures loads { IfOk result (λ n. Loads limit bytes.old.items bytes.new.items n) }
    ensures goes_on { IfOk result (λ n. (told : List ℕ → Option (List ℕ)) → F.fits files.new told →
        GoesOn (told name.now) bytes.old.items bytes.new.items n) }
    ensures lacked { IsTrue ((F.seen files.old).lacks name.now) → IsErr result }
    ensures ok { OnOk result ((F.seen files.new).faults ≡ (F.seen files.old).faults) }
    ensures memory { IsErrOf result LoadError.Memory → (F.seen files.new).faults ≡ (F.seen files.old).faults }
    ensures failed { IsErrOf result LoadError.Failed →
        IsTrue ((F.seen files.old).lacks name.now) ⊎ Rose (F.seen files.old).faults (F.seen files.new).faults }
    ensures sure { IsTrue (F.seen files.old).steady → IsErrOf result LoadError.Failed → IsTrue ((F.seen files.old).lacks name.now) }
{
    let _ = limit;
    match files.read(name, bytes.len() as u64, piece) {
        Ok(count) => {
            bytes.extend_from_slice(&piece[..count])?;
            Ok(count)
        }
        Err(_) => Err(LoadError::Failed),
    }
}
