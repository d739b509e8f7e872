//! A file of the system that isn't there when it is first asked for.

use goi_world::{DiskFiles, Failed, Files};
use std::alloc::Allocator;
use std::fs::{Metadata, OpenOptions};
use std::sync::atomic::{AtomicU32, Ordering};
use std::test::Fail;
use std::{fs, io, rt};

/// The files of a system in which the first file to be opened isn't there yet, and is there later, as a name that appears between two
/// tries.
#[derive(Drop)]
struct Late<'a, R: rt::Files> {
    system: &'a R,
    tries: AtomicU32,
}

impl<'a, R: rt::Files> rt::Files for Late<'a, R> {
    type File = R::File;

    type Dir = R::Dir;

    fn open_file(&self, how: &OpenOptions, path: &str) -> io::Result<R::File> {
        if self.tries.fetch_add(1, Ordering::Relaxed) == 0 {
            return Err(io::Error::from(io::ErrorKind::NotFound));
        }
        self.system.open_file(how, path)
    }

    fn open_dir(&self, path: &str) -> io::Result<R::Dir> {
        self.system.open_dir(path)
    }

    fn metadata(&self, path: &str) -> io::Result<Metadata> {
        self.system.metadata(path)
    }

    fn symlink_metadata(&self, path: &str) -> io::Result<Metadata> {
        self.system.symlink_metadata(path)
    }

    fn copy(&self, from: &str, to: &str) -> io::Result<u64> {
        self.system.copy(from, to)
    }

    fn rename(&self, from: &str, to: &str) -> io::Result<()> {
        self.system.rename(from, to)
    }

    fn remove_file(&self, path: &str) -> io::Result<()> {
        self.system.remove_file(path)
    }

    fn create_dir(&self, path: &str) -> io::Result<()> {
        self.system.create_dir(path)
    }

    fn remove_dir(&self, path: &str) -> io::Result<()> {
        self.system.remove_dir(path)
    }

    fn remove_dir_all<B: Allocator>(&self, alloc: B, path: &str) -> io::Result<()> {
        self.system.remove_dir_all(alloc, path)
    }
}

#[test]
fn a_lacked_file_is_not_opened_again(rt: HostRuntime) -> Result<(), Fail> {
    fs::write(&rt, "late", "hello")?;
    let late = Late {
        system: &rt,
        tries: AtomicU32::new(0),
    };
    let runtime = (late, rt.alloc());
    let mut files = DiskFiles::new(&runtime);
    let mut buffer = [0u8; 5];
    assert!(rt; files.read("late", 0, &mut buffer) == Err(Failed));
    assert!(rt; files.read("late", 0, &mut buffer) == Ok(5));
    assert!(rt; buffer.as_slice() == b"hello".as_slice());
    fs::remove_file(&rt, "late")?;
    Ok(())
}
