// Laws about lines. Each function is its contract.
ghost use Rattle.std.specs.Prelude.{◌≡◌, ◌≢◌, ◌∷◌, [], List, ℕ};
ghost use Rattle.ps_types.specs.Lines.{lines_of, first_line, after_line, AreWritten, whole_lines, part_of};

/// The lines of a source are its first line and those of what stands behind it.
pub fn lines_go_on()
    ensures { (bytes : List ℕ) → bytes ≢ [] → lines_of bytes ≡ first_line bytes ∷ lines_of (after_line bytes) }
{}

/// What was written to a sink is whole lines and a rest without a newline, in one way.
pub fn written_in_one_way()
    ensures is { (bytes : List ℕ) → AreWritten bytes (whole_lines bytes) (part_of bytes) }
    ensures one { (bytes : List ℕ) (lines : List (List ℕ)) (rest : List ℕ) → AreWritten bytes lines rest
        → (whole_lines bytes ≡ lines) × (part_of bytes ≡ rest) }
{}

/// Lines that were written are the lines that a source of these bytes has.
pub fn written_lines_read_back()
    ensures { (bytes : List ℕ) (lines : List (List ℕ)) → AreWritten bytes lines [] → lines_of bytes ≡ lines }
{}
