//! Laws: what several calls of a sink or a desk do, one after another.
ghost use Rattle.std.specs.Prelude.{◌≡◌, ℕ, List, [], ◌++◌};
ghost use Rattle.dist_outside.specs.SinkView.{SinkView, Grew, GrewByFront};
ghost use Rattle.dist_outside.specs.Files.{Mode, Idle, Writing, IsNotWriting, where_told};
ghost use Rattle.dist_outside.specs.DeskView.{DeskView, OnlyReads, Holds, FileGrew, FileGrewByFront, Closed};

/// A law: a sink that took nothing is as before, what it took in two steps it took in one, and what is cut off in the
/// second step is a front of both.
pub fn sink_grows()
    ensures begin { (sink : SinkView) → Grew [] sink sink }
    ensures nothing { (old new : SinkView) → Grew [] old new → new.written ≡ old.written }
    ensures twice { (first second : List ℕ) (old mid new : SinkView) → Grew first old mid → Grew second mid new
        → Grew (first ++ second) old new }
    ensures whole { (bytes : List ℕ) (old new : SinkView) → Grew bytes old new → GrewByFront bytes old new }
    ensures cut { (first second : List ℕ) (old mid new : SinkView) → Grew first old mid → GrewByFront second mid new
        → GrewByFront (first ++ second) old new }
    ensures longer { (first second : List ℕ) (old new : SinkView) → GrewByFront first old new
        → GrewByFront (first ++ second) old new }
{}

/// A law: a desk that was only read, and read again, was only read.
pub fn desk_only_reads()
    ensures begin { (desk : DeskView) → IsNotWriting desk.mode → OnlyReads desk desk }
    ensures twice { (old mid new : DeskView) → OnlyReads old mid → OnlyReads mid new → OnlyReads old new }
{}

/// A law: the same of the file that is being written as of a sink.
pub fn file_grows()
    ensures begin { (desk : DeskView) → FileGrew [] desk desk }
    ensures nothing { (old new : DeskView) → FileGrew [] old new → new.files ≡ old.files }
    ensures twice { (first second : List ℕ) (old mid new : DeskView) → FileGrew first old mid → FileGrew second mid new
        → FileGrew (first ++ second) old new }
    ensures whole { (bytes : List ℕ) (old new : DeskView) → FileGrew bytes old new → FileGrewByFront bytes old new }
    ensures cut { (first second : List ℕ) (old mid new : DeskView) → FileGrew first old mid
        → FileGrewByFront second mid new → FileGrewByFront (first ++ second) old new }
    ensures longer { (first second : List ℕ) (old new : DeskView) → FileGrewByFront first old new
        → FileGrewByFront (first ++ second) old new }
{}

/// A law: a file that was created holds what was written to it since, and still does when it is closed.
pub fn file_holds()
    ensures more { (name first second : List ℕ) (old mid new : DeskView)
        → Holds name first (Writing (where_told old.files name)) old mid → FileGrew second mid new
        → Holds name (first ++ second) (Writing (where_told old.files name)) old new }
    ensures closed { (name bytes : List ℕ) (mode : Mode) (old mid new : DeskView) → Holds name bytes mode old mid
        → Closed mid new → Holds name bytes Idle old new }
{}
