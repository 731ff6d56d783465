// A disk that is a file of the system. It tells nothing of content.
ghost use Rattle.std.specs.Prelude.{[], ◌≡◌, ◌≤◌, length, IfOk};
ghost use Rattle.ps_base.specs.Causes.{HasCause};

use ps_base::Failed;
use std::fs::OpenFile;
use std::io;
use std::io::{Read, Seek, SeekFrom, Write};
use std::marker::Model;

/// A file as a disk. Its sync is the system's `fdatasync`, which brings a changed length to the device too.
/// A contract sees it as its count of faults.
#[derive(Drop)]
pub struct FileDisk<F: Read + Write + Seek + OpenFile> {
    file: F,
    faults: u64,
}

impl<F: Read + Write + Seek + OpenFile> Model for FileDisk<F> {
    ghost use Rattle.std.specs.Prelude.{ℕ};

    ghost Value = { ℕ };

    ghost view = { λ d. d.faults };
}

impl<F: Read + Write + Seek + OpenFile> FileDisk<F> {
    /// The file as a disk that has failed so often already.
    pub fn new(file: F, faults: u64) -> FileDisk<F>
        ensures { result ≡ faults }
    {
        FileDisk { file, faults }
    }
}

// Counts the fault, if there is one.
fn counted<T: Drop>(faults: &mut u64, done: io::Result<T>) -> Result<T, Failed>
    ensures { HasCause faults.old faults.new result }
{
    match done {
        Ok(value) => Ok(value),
        Err(_) => {
            *faults = faults.saturating_add(1);
            Err(Failed)
        }
    }
}

// Reads until the room is full or the file ends.
fn read_room<F: Read + Seek>(file: &mut F, at: u64, room: &mut [u8]) -> io::Result<usize>
    ensures { IfOk result (λ n. n ≤ length room.new) }
{
    file.seek(SeekFrom::Start(at))?;
    let mut done = 0;
    'pieces: while done < room.len() {
        let count = file.read(&mut room[done..])?;
        if count == 0 {
            break;
        }
        done += count;
    }
    Ok(done)
}

fn write_piece<F: Write + Seek>(file: &mut F, at: u64, piece: &[u8]) -> io::Result<()> {
    file.seek(SeekFrom::Start(at))?;
    file.write_all(piece)
}

impl<F: Read + Write + Seek + OpenFile> crate::Disk for FileDisk<F> {
    ghost use Rattle.ps_disk.specs.Disk.{MayLeave};
    ghost use Rattle.ps_disk.specs.SeenLeft.{synced_left};

    ghost tells = { ⊥ };

    ghost seen = { λ _. [] };

    ghost synced = { λ _. [] };

    ghost written = { λ _. [] };

    ghost moment = { λ _. 0 };

    ghost left_since = { λ _ _ c. MayLeave [] [] c };

    ghost syncs = { λ _. 0 };

    ghost faults = { λ d. d };

    ghost seen_left = { λ _. synced_left [] [] };

    ghost counts_now = { λ _ _ _ _ leaves. leaves };

    ghost only_now = { λ _ _ left. left };

    fn len(&mut self) -> Result<u64, Failed> {
        let done = self.file.seek(SeekFrom::End(0));
        counted(&mut self.faults, done)
    }

    fn read_at(&mut self, at: u64, room: &mut [u8]) -> Result<usize, Failed> {
        match read_room(&mut self.file, at, room) {
            Ok(count) => Ok(count),
            Err(_) => {
                self.faults = self.faults.saturating_add(1);
                Err(Failed)
            }
        }
    }

    fn write_at(&mut self, at: u64, piece: &[u8]) -> Result<(), Failed> {
        let done = write_piece(&mut self.file, at, piece);
        counted(&mut self.faults, done)
    }

    fn sync(&mut self) -> Result<(), Failed> {
        let done = self.file.sync_data();
        counted(&mut self.faults, done)
    }

    fn fault_count(&self) -> u64 {
        self.faults
    }
}
