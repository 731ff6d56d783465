// A line that is being read.
ghost use Rattle.std.specs.Prelude.{◌≡◌, ◌++◌, [], List, ℕ, OnOk};
ghost use Rattle.ps_wire.specs.Line.{StandsFor, IsFinished, IsFinishedAtEnd};

use crate::lines::NextLine;
use ps_base::{Bytes, Memory};
use std::alloc::Global;

/// The most bytes of a line, without its newline.
const LONGEST: usize = 262_144;

/// The pieces so far, or only that they are too many.
#[derive(Drop)]
pub struct Line {
    pub bytes: Vec<u8>,
    pub too_long: bool,
}

impl Line {
    /// A line with no byte yet.
    pub fn new(alloc: Global) -> Line
        ensures { StandsFor result [] }
    {
        Line {
            bytes: Vec::new(alloc),
            too_long: false,
        }
    }

    /// Adds a piece, and keeps no more than a line may have.
    pub fn push(&mut self, piece: &[u8]) -> Result<(), Memory>
        ensures { OnOk result ((front : List ℕ) → StandsFor self.old front → StandsFor self.new (front ++ piece.now)) }
    {
        let count = piece.len();
        if self.too_long || count > LONGEST || self.bytes.len() > LONGEST - count {
            self.too_long = true;
            return Ok(());
        }
        self.bytes.extend_from_slice(piece)?;
        Ok(())
    }

    /// What its newline makes of it.
    pub fn finish(self) -> NextLine
        ensures { (bytes : List ℕ) → StandsFor self bytes → IsFinished result bytes }
    {
        if self.too_long {
            NextLine::TooLong
        } else {
            NextLine::Line(Bytes::from_vec(self.bytes))
        }
    }

    /// What the end of input makes of it.
    pub fn finish_at_end(self) -> NextLine
        ensures { (bytes : List ℕ) → StandsFor self bytes → IsFinishedAtEnd result bytes }
    {
        if !self.too_long && self.bytes.is_empty() {
            NextLine::End
        } else {
            self.finish()
        }
    }
}
