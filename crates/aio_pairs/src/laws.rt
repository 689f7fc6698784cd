//! What holds of whole lines and of polls of a pair, as contracts of functions that do nothing.

ghost use Rattle.std.specs.Prelude.{◌≡◌, ◌++◌, List, ℕ};
ghost use Rattle.aio_pairs.specs.Exchanges.{PairOk};
ghost use Rattle.aio_pairs.specs.Lines.{longest_line, lines, IsPrefix, AreLines};

/// `lines` is the longest prefix of some bytes that is whole lines, each of at most 4,096 bytes.
pub fn lines_are_the_longest_prefix()
    ensures prefix { (bytes : List ℕ) → IsPrefix (lines bytes) bytes }
    ensures lines { (bytes : List ℕ) → AreLines longest_line (lines bytes) }
    ensures longest { (bytes other : List ℕ) → IsPrefix other bytes
        → AreLines longest_line other → IsPrefix other (lines bytes) }
{}

/// What was taken of the lines of some bytes, be it up to the midst of a line, is a prefix of their lines
/// whatever comes behind them, and then come the lines of the rest.
pub fn taken_lines_stay_lines()
    ensures { (taken left more : List ℕ) → IsPrefix taken (lines (taken ++ left))
        → lines (taken ++ (left ++ more)) ≡ taken ++ lines (left ++ more) }
{}

/// Two polls, one after the other, keep for a side what each of them keeps. So whatever number of polls
/// wrote is a prefix of the lines of all that was read, and nothing is lost or written twice.
pub fn polls_join()
    ensures { (first mid last read_1 read_2 written_1 written_2 : List ℕ)
        → PairOk first mid read_1 written_1 → PairOk mid last read_2 written_2
        → PairOk first last (read_1 ++ read_2) (written_1 ++ written_2) }
{}
