// A file of the system that tells its failures, and one that is held alone.
ghost use Rattle.std.specs.Prelude.{◌≡◌};

use crate::Kind;
use ps_types::Text;
use std::fs::{File, Metadata, OpenFile, TryLockError};
use std::io;
use std::io::{Eprint, ErrorKind, Read, Seek, SeekFrom, Write};

/// A file that can be held by one program alone, for as long as it is open.
pub trait HoldAlone {
    /// Holds the file, or fails where another program holds it.
    fn hold_alone(&self) -> io::Result<()>;
}

impl HoldAlone for File {
    fn hold_alone(&self) -> io::Result<()> {
        match self.try_lock() {
            Ok(()) => Ok(()),
            Err(TryLockError::WouldBlock) => Err(io::Error::from(ErrorKind::WouldBlock)),
            Err(TryLockError::Error(why)) => Err(why),
        }
    }
}

fn word_of(kind: Kind) -> &'static str {
    match kind {
        Kind::Source => "source",
        Kind::Sink => "sink",
        Kind::Store => "store",
        Kind::Clock => "clock",
    }
}

/// Tells on the standard error what failed, by its name and in the system's words. It is for people: nothing rests on it.
pub(crate) fn tell<R: Eprint>(rt: &R, kind: Kind, name: &Text, why: &io::Error) {
    let _ = eprintln!(rt; "pubsubd: {} {}: {why}", word_of(kind), name.as_str());
}

/// A file under its name, whose failures are told on the standard error of a runtime.
#[derive(Drop)]
pub struct Named<F: Drop, R: Drop> {
    rt: R,
    kind: Kind,
    name: Text,
    file: F,
}

impl<F: Drop, R: Eprint + Drop> Named<F, R> {
    pub(crate) fn new(rt: R, kind: Kind, name: Text, file: F) -> Named<F, R> {
        Named {
            rt,
            kind,
            name,
            file,
        }
    }

    fn told<T>(&self, done: io::Result<T>) -> io::Result<T>
        ensures { result ≡ done }
    {
        if let Err(why) = &done {
            tell(&self.rt, self.kind, &self.name, why);
        }
        done
    }
}

impl<F: Read + Drop, R: Eprint + Drop> Read for Named<F, R> {
    fn read(&mut self, buf: &mut [u8]) -> io::Result<usize> {
        let done = self.file.read(buf);
        self.told(done)
    }
}

impl<F: Write + Drop, R: Eprint + Drop> Write for Named<F, R> {
    fn write(&mut self, buf: &[u8]) -> io::Result<usize> {
        let done = self.file.write(buf);
        self.told(done)
    }

    fn flush(&mut self) -> io::Result<()> {
        let done = self.file.flush();
        self.told(done)
    }
}

impl<F: Seek + Drop, R: Eprint + Drop> Seek for Named<F, R> {
    fn seek(&mut self, to: SeekFrom) -> io::Result<u64> {
        let done = self.file.seek(to);
        self.told(done)
    }
}

impl<F: OpenFile + Drop, R: Eprint + Drop> OpenFile for Named<F, R> {
    fn metadata(&self) -> io::Result<Metadata> {
        self.told(self.file.metadata())
    }

    fn set_len(&self, size: u64) -> io::Result<()> {
        self.told(self.file.set_len(size))
    }

    fn sync_all(&self) -> io::Result<()> {
        self.told(self.file.sync_all())
    }

    fn sync_data(&self) -> io::Result<()> {
        self.told(self.file.sync_data())
    }
}
