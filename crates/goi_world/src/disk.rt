//! Files of the system.

ghost use Rattle.std.specs.Prelude.{◌≡◌, ◌≤◌, IfOk, length};
ghost use Rattle.std.proofs.Common.{rules};
ghost use Rattle.goi_world.specs.Told.{reading};
ghost use Rattle.goi_world.specs.FilesOnDisk.{unread_files, one_read};

use crate::past::{Past, Turn};
use crate::{Failed, Files};
use std::io::{Read, Seek, SeekFrom};
use std::marker::Model;
use std::{fs, io, rt};

/// A file that was opened, by its name, and how far it has been read.
#[derive(Drop)]
struct Opened<F: Drop> {
    name: String,
    file: F,
    at: u64,
}

/// The files of the system, of which nothing is known but what was read: each read, with the bytes that it gave, and how many failed.
///
/// The file that was read last stays open, and a read that goes on where the last one ended doesn't seek. So a pipe can be read, from
/// its beginning on; a read of a pipe at any other place fails.
#[derive(Drop)]
pub struct DiskFiles<'a, R: rt::Files + AllocGlobal> {
    system: &'a R,
    opened: Option<Opened<R::File>>,
    past: Past,
    faults: u64,
}

impl<'a, R: rt::Files + AllocGlobal> Model for DiskFiles<'a, R> {
    ghost use Rattle.goi_world.specs.FilesOnDisk.{FilesOnDisk};

    ghost Value = { FilesOnDisk };

    ghost view = { λ files. record { past = files.past.turns.reads; faults = files.faults } };
}

impl<'a, R: rt::Files + AllocGlobal> DiskFiles<'a, R> {
    /// The files of this runtime.
    pub fn new(rt: &'a R) -> DiskFiles<'a, R>
        ensures { result ≡ unread_files }
    {
        DiskFiles {
            system: rt,
            opened: None,
            past: Past::none(),
            faults: 0,
        }
    }
}

impl<'a, R: rt::Files + AllocGlobal> Files for DiskFiles<'a, R> {
    ghost use Rattle.goi_world.specs.Told.{AllFit};
    ghost use Rattle.goi_world.specs.FilesOnDisk.{disk_files_seen, one_read, fits_behind, fits_none};

    ghost seen = { disk_files_seen };

    ghost reads = { λ before r now. now ≡ one_read before r };

    ghost fits = { λ files told. AllFit told files.past };

    ghost fits_each = { fits_behind };

    ghost told_fits = { λ files. fits_none files.past };

    ghost lacked_untold = { λ _ _ _ _. Prim.search rules };

    // A missing file is a fault like any other.
    fn read(&mut self, name: &str, at: u64, buf: &mut [u8]) -> Result<usize, Failed>
        ensures bound { IfOk result (λ n. n ≤ length buf.new) }
        ensures after { self.new ≡ one_read self.old (reading name.now at (length buf.old) result buf.new) }
        ensures later { self.old.faults ≤ self.new.faults }
    {
        let room = buf.len();
        match read_on(self.system, &mut self.opened, name, at, buf) {
            Ok(count) => {
                self.past = self.past.with(&Turn::Read(name, at, room, Ok(count), buf));
                Ok(count)
            }
            Err(_) => {
                self.faults = self.faults.saturating_add(1);
                self.past = self
                    .past
                    .with(&Turn::Read(name, at, room, Err(Failed), buf));
                Err(Failed)
            }
        }
    }
}

/// Reads a file at a place, by the opened one where it is that file; after a fault none is kept open.
fn read_on<R: rt::Files + AllocGlobal>(
    rt: &R,
    opened: &mut Option<Opened<R::File>>,
    name: &str,
    at: u64,
    buf: &mut [u8],
) -> io::Result<usize>
    ensures { IfOk result (λ n. n ≤ length buf.new) }
{
    match opened.take() {
        Some(mut file) if file.name.as_str() == name => {
            let count = read_at(&mut file, at, buf)?;
            *opened = Some(file);
            Ok(count)
        }
        _ => read_first(rt, opened, name, at, buf),
    }
}

/// Opens a file and reads it at a place. It stays open where there is memory to keep its name.
fn read_first<R: rt::Files + AllocGlobal>(
    rt: &R,
    opened: &mut Option<Opened<R::File>>,
    name: &str,
    at: u64,
    buf: &mut [u8],
) -> io::Result<usize>
    ensures { IfOk result (λ n. n ≤ length buf.new) }
{
    match String::from_str(rt.alloc(), name) {
        Ok(kept) => {
            let file = fs::open(rt, name)?;
            let mut file = Opened {
                name: kept,
                file,
                at: 0,
            };
            let count = read_at(&mut file, at, buf)?;
            *opened = Some(file);
            Ok(count)
        }
        Err(_) => read_once(rt, name, at, buf),
    }
}

/// Reads a file that will be opened again. A place has to be sought in it even at its beginning, so a pipe, which would wait for another
/// writer then, fails here.
fn read_once<R: rt::Files + AllocGlobal>(
    rt: &R,
    name: &str,
    at: u64,
    buf: &mut [u8],
) -> io::Result<usize>
    ensures { IfOk result (λ n. n ≤ length buf.new) }
{
    let mut file = fs::open(rt, name)?;
    file.seek(SeekFrom::Start(at))?;
    file.read(buf)
}

/// Seeks only where the place isn't the one that was come to.
fn read_at<F: Read + Seek + Drop>(
    file: &mut Opened<F>,
    at: u64,
    buf: &mut [u8],
) -> io::Result<usize>
    ensures { IfOk result (λ n. n ≤ length buf.new) }
{
    if file.at != at {
        file.file.seek(SeekFrom::Start(at))?;
    }
    let count = file.file.read(buf)?;
    file.at = at.saturating_add(count as u64);
    Ok(count)
}
