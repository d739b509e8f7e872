//! Files in memory, which fail where they are told to.

ghost use Rattle.std.specs.Prelude.{◌≡◌, ◌↔◌, ◌-◌, ◌++◌, ◌≤◌, IsTrue, length, min, take, drop, IsErr, OnErr, IfOk, IfSome};
ghost use Rattle.std.specs.Prelude.{MatchOption, None, Some};
ghost use Rattle.goi_world.specs.Told.{reading, Fits};
ghost use Rattle.goi_world.specs.FilesInMemory.{files_of, new_files, told_by, read_fails, read_length, read_into, after_read, bytes_of};

use crate::{Failed, Files};
use pcf_values::Ident;
use std::marker::Model;

/// Files in memory. Each read gives at most so many bytes, and the calls of some numbers fail.
///
/// A read of a name that no file has fails too. It is a call like any other, but never a fault.
#[derive(Drop)]
pub struct MemoryFiles {
    files: Vec<(Ident, Vec<u8>)>,
    most: u64,
    fails: Vec<u64>,
    calls: u64,
    faults: u64,
}

impl Model for MemoryFiles {
    ghost use Rattle.std.specs.Prelude.{◌≤◌};
    ghost use Rattle.goi_world.specs.FilesInMemory.{FilesInMemory, files_of};

    ghost Value = { FilesInMemory };

    ghost view = { λ m. record {
      files = files_of m.files.items;
      most = m.most;
      fails = m.fails.items;
      calls = m.calls;
      faults = m.faults;
    } };

    ghost invariant = { λ m. 1 ≤ m.most };
}

impl MemoryFiles {
    /// Files with these names and bytes. Of two with one name the first counts.
    ///
    /// A read gives at most `most` bytes, of which there is to be one at least, and the calls whose
    /// numbers, from 1, stand in `fails` fail.
    pub fn new(files: Vec<(Ident, Vec<u8>)>, most: u64, fails: Vec<u64>) -> MemoryFiles
        requires { 1 ≤ most }
        ensures { result ≡ new_files (files_of files.items) most fails.items }
    {
        MemoryFiles {
            files,
            most,
            fails,
            calls: 0,
            faults: 0,
        }
    }
}

impl Files for MemoryFiles {
    ghost use Rattle.std.specs.Prelude.{refl};
    ghost use Rattle.goi_world.specs.FilesInMemory.{memory_files_seen, told_by, ReadOnce, fits_once, lacked_untold};

    ghost seen = { memory_files_seen };

    ghost reads = { ReadOnce };

    // They hold what they hold.
    ghost fits = { λ m told. told ≡ told_by m };

    ghost fits_each = { fits_once };

    ghost told_fits = { λ _. refl };

    ghost lacked_untold = { lacked_untold };

    fn read(&mut self, name: &str, at: u64, buf: &mut [u8]) -> Result<usize, Failed>
        ensures after { self.new ≡ after_read self.old name.now }
        ensures fails { IsErr result ↔ IsTrue (read_fails self.old name.now) }
        ensures gives { IfOk result (λ n. IfSome (told_by self.old name.now) (λ bytes.
            (n ≡ read_length self.old bytes at buf.old) × (buf.new ≡ read_into self.old bytes at buf.old))) }
        ensures untouched { OnErr result (buf.new ≡ buf.old) }
        // What any files promise, where the clauses above don't show it by themselves.
        ensures fits { Fits (told_by self.old) (reading name.now at (length buf.old) result buf.new) }
        ensures later { self.old.faults ≤ self.new.faults }
    {
        self.calls = self.calls.saturating_add(1);
        let Some(bytes) = find_file(&self.files, name) else {
            return Err(Failed);
        };
        if self.fails.contains(&self.calls) {
            self.faults = self.faults.saturating_add(1);
            return Err(Failed);
        }
        Ok(read_piece(bytes, at, self.most, buf))
    }
}

/// The bytes of the first file of that name, or none.
fn find_file<'a>(files: &'a [(Ident, Vec<u8>)], name: &str) -> Option<&'a [u8]>
    ensures { MatchOption result
        (bytes_of (files_of files.now) name.now ≡ None)
        (λ b. bytes_of (files_of files.now) name.now ≡ Some b.now) }
{
    let mut rest = files;
    while let [file, after @ ..] = rest {
        if file.0.as_str() == name {
            return Some(&file.1);
        }
        rest = after;
    }
    None
}

/// Copies what stands at that place into the buffer, at most so many bytes, and says how many they are.
fn read_piece(bytes: &[u8], at: u64, most: u64, buf: &mut [u8]) -> usize
    requires { 1 ≤ most }
    ensures bound { result ≤ length buf.new }
    ensures count { result ≡ min (length bytes.now - at) (min (length buf.old) most) }
    ensures piece { buf.new ≡ take result (drop at bytes.now) ++ drop result buf.old }
{
    let from = at.min(bytes.len() as u64) as usize;
    let rest = &bytes[from..];
    let count = rest.len().min(buf.len()).min(most as usize);
    buf[..count].copy_from_slice(&rest[..count]);
    count
}
