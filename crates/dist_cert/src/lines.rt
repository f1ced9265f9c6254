//! The line of a file that is being read, and what came behind it.
ghost use Rattle.std.specs.Prelude.{◌≡◌, ◌+◌, ◌^◌, ◌<◌, ◌≤◌, [], ◌∷◌, true, false, ℕ, List, length, drop, IfOk, IfErr};
ghost use Rattle.dist_base.specs.Ascii.{line_feed};
ghost use Rattle.dist_outside.specs.Files.{IsReading};
ghost use Rattle.dist_outside.specs.DeskView.{OnlyReads};
ghost use Rattle.dist_outside.specs.Reading.{ReadCause};
ghost use Rattle.dist_cert.specs.FileLines.{IsOneLine};
ghost use Rattle.dist_cert.specs.Reading.{WhereTold};
ghost use Rattle.dist_cert.specs.Held.{Held};
ghost use Rattle.dist_cert.specs.LineReadingPrivate.{held_text, text_held, IsReached, KeepsText, Ends, EndsAt, EndsOr, EndsAtSome, EndsOrSome, HasEnd, HasEndOr, LineCause, IsJudged};

use crate::pieces::Piece;
use dist_outside::{Desk, Limits, What, WorkError};
use memchr::memchr;
use std::alloc::{AllocError, Global};
use std::marker::Model;

/// Where a line was read to.
#[derive(Clone, Copy)]
pub(crate) enum Reached {
    /// Its line feed is next.
    Feed,
    /// The file ended.
    File,
    /// The line goes on.
    Within,
}

/// The line that is being read, and the rest of the piece in which it ends.
#[derive(Drop)]
pub(crate) struct Lines {
    line: Vec<u8>,
    piece: Piece,
}

impl Model for Lines {
    ghost use Rattle.dist_cert.specs.Held.{Held};
    ghost use Rattle.dist_cert.specs.FileLines.{IsOneLine};

    ghost Value = { Held };

    ghost view = { λ l. record { line = l.line.items; behind = l.piece } };

    ghost invariant = { λ l. IsOneLine l.line.items };
}

impl Lines {
    /// Nothing yet.
    pub(crate) fn new(alloc: Global) -> Lines
        ensures { result ≡ record { line = []; behind = [] } }
    {
        Lines {
            line: Vec::new(alloc),
            piece: Piece::new(alloc),
        }
    }

    /// The line, as far as it came.
    pub(crate) fn line(&self) -> &[u8]
        ensures { result.now ≡ self.now.line }
    {
        &self.line
    }

    /// A copy of the line, as far as it came.
    pub(crate) fn line_copy(&self) -> Result<Vec<u8>, AllocError>
        ensures { IfOk result (λ line. line.items ≡ self.now.line) }
    {
        Ok(self.line.clone()?)
    }

    /// Leaves the line behind, once its line feed is next.
    pub(crate) fn pass_line(&mut self)
        requires { 0 < length self.old.behind }
        ensures { self.new ≡ record { line = []; behind = drop 1 self.old.behind } }
    {
        self.line.clear();
        self.piece.skip(1);
    }

    /// Takes what the piece has of the line, and says whether the line's end was there.
    fn take_piece(&mut self) -> Result<bool, AllocError>
        ensures same { held_text self.new ≡ held_text self.old }
        ensures feed { IfOk result (λ found. found ≡ true → (more : List ℕ) × (self.new.behind ≡ line_feed ∷ more)) }
        ensures none { IfOk result (λ found. found ≡ false → self.new.behind ≡ []) }
        ensures one_line { IsOneLine self.new.line }
    {
        let piece = self.piece.as_slice();
        let end = memchr(b'\n', piece);
        let count = end.unwrap_or(piece.len());
        self.line.extend_from_slice(&piece[..count])?;
        self.piece.skip(count);
        Ok(end.is_some())
    }

    /// Takes what came of the line, or else reads a piece of it.
    fn read_piece<D: Desk>(&mut self, desk: &mut D) -> Result<Reached, WorkError>
        requires { IsReading (D.view desk.old).mode }
        ensures text { WhereTold (text_held self.old (D.view desk.old)) (text_held self.new (D.view desk.new))
            (λ rest more. KeepsText result self.new rest more) }
        ensures reached { IsReached self.old self.new result }
        ensures one_line { IsOneLine self.new.line }
        ensures cause { IfErr result (λ error. ReadCause error (D.view desk.old) (D.view desk.new) ⊥) }
        ensures reading { IsReading (D.view desk.new).mode }
        ensures only_reads { OnlyReads (D.view desk.old) (D.view desk.new) }
    {
        if self.piece.as_slice().is_empty() && !self.piece.fill(desk)? {
            return Ok(Reached::File);
        }
        if self.take_piece()? {
            Ok(Reached::Feed)
        } else {
            Ok(Reached::Within)
        }
    }

    /// Reads a piece of the line, and says where the reading ended, if it did: at the line's end, or at a limit.
    fn read_within<D: Desk>(
        &mut self,
        desk: &mut D,
        limits: &Limits,
        given: u64,
    ) -> Result<Option<Reached>, WorkError>
        requires reading { IsReading (D.view desk.old).mode }
        requires within { given ≤ limits.now.certificate }
        ensures text { WhereTold (text_held self.old (D.view desk.old)) (text_held self.new (D.view desk.new))
            (Ends (λ rest. EndsOr limits.now given self.new rest result)) }
        ensures end { IfOk result (HasEndOr limits.now given self.old self.new) }
        ensures some { EndsOrSome limits.now given self.new result }
        ensures cause { IfErr result (LineCause limits.now given self.new (D.view desk.old) (D.view desk.new)) }
        ensures reading { IsReading (D.view desk.new).mode }
        ensures only_reads { OnlyReads (D.view desk.old) (D.view desk.new) }
    {
        let reached = self.read_piece(desk)?;
        judge(
            reached,
            self.line().len() as u64,
            limits,
            limits.certificate - given,
        )
    }

    /// Reads on to the line's end, or until it passes a limit, of the whole of which so many bytes were given.
    pub(crate) fn read_line<D: Desk>(
        &mut self,
        desk: &mut D,
        limits: &Limits,
        given: u64,
    ) -> Result<Reached, WorkError>
        requires reading { IsReading (D.view desk.old).mode }
        requires within { given ≤ limits.now.certificate }
        ensures text { WhereTold (text_held self.old (D.view desk.old)) (text_held self.new (D.view desk.new))
            (Ends (λ rest. EndsAt limits.now given self.new rest result)) }
        ensures end { IfOk result (HasEnd limits.now given self.new) }
        ensures some { EndsAtSome limits.now given self.new result }
        ensures cause { IfErr result (LineCause limits.now given self.new (D.view desk.old) (D.view desk.new)) }
        ensures reading { IsReading (D.view desk.new).mode }
        ensures only_reads { OnlyReads (D.view desk.old) (D.view desk.new) }
    {
        loop {
            if let Some(reached) = self.read_within(desk, limits, given)? {
                return Ok(reached);
            }
        }
    }
}

/// Whether the reading of a line ends here, where so many bytes came of it without its line feed, and how many more bytes
/// the whole may have.
fn judge(
    reached: Reached,
    length: u64,
    limits: &Limits,
    room: u64,
) -> Result<Option<Reached>, WorkError>
    requires { length < 2 ^ 63 }
    ensures { IsJudged limits.now room length reached result }
{
    let came = match reached {
        Reached::Feed => length + 1,
        Reached::File | Reached::Within => length,
    };
    if came > room && room < limits.record_line {
        return Err(WorkError::TooLarge(What::Certificate));
    }
    if length >= limits.record_line {
        return Ok(Some(Reached::Within));
    }
    match reached {
        Reached::Within => Ok(None),
        Reached::Feed | Reached::File => Ok(Some(reached)),
    }
}
