// A source and a sink over files. They tell nothing of content: what a file gives or takes no contract can say.
ghost use Rattle.std.specs.Prelude.{◌≡◌, ◌<◌, ◌≤◌, None};
ghost use Rattle.ps_wire.specs.Files.{source_faults, sink_faults};

use crate::{Sink, Source};
use ps_base::Failed;
use std::io::{Read, Write};

/// A source over a file, or over anything else that reads.
#[derive(Drop)]
pub struct FileSource<F: Read> {
    file: F,
    faults: u64,
}

impl<F: Read> FileSource<F> {
    /// A source over the file, which has failed that often so far.
    pub fn new(file: F, faults: u64) -> FileSource<F>
        ensures { source_faults result ≡ faults }
    {
        FileSource { file, faults }
    }

    /// How often it has failed.
    pub fn faults(&self) -> u64
        ensures { result ≡ source_faults self.now }
    {
        self.faults
    }
}

impl<F: Read> Source for FileSource<F> {
    ghost left = { λ _. None };

    ghost faults = { source_faults };

    fn read(&mut self, room: &mut [u8]) -> Result<usize, Failed> {
        match self.file.read(room) {
            Ok(count) => Ok(count),
            Err(_) => {
                self.faults = self.faults.saturating_add(1);
                Err(Failed)
            }
        }
    }
}

/// A sink over a file, or over anything else that writes.
#[derive(Drop)]
pub struct FileSink<F: Write> {
    file: F,
    faults: u64,
}

impl<F: Write> FileSink<F> {
    /// A sink over the file, which has failed that often so far.
    pub fn new(file: F, faults: u64) -> FileSink<F>
        ensures { sink_faults result ≡ faults }
    {
        FileSink { file, faults }
    }

    /// How often it has failed.
    pub fn faults(&self) -> u64
        ensures { result ≡ sink_faults self.now }
    {
        self.faults
    }
}

impl<F: Write> Sink for FileSink<F> {
    ghost written = { λ _. None };

    ghost faults = { sink_faults };

    fn write(&mut self, piece: &[u8]) -> Result<usize, Failed> {
        match self.file.write(piece) {
            Ok(count) if count > 0 || piece.is_empty() => Ok(count),
            _ => {
                self.faults = self.faults.saturating_add(1);
                Err(Failed)
            }
        }
    }

    fn flush(&mut self) -> Result<(), Failed> {
        match self.file.flush() {
            Ok(()) => Ok(()),
            Err(_) => {
                self.faults = self.faults.saturating_add(1);
                Err(Failed)
            }
        }
    }
}
