//! Laws: what a line says it says once, and what was written is read.
ghost use Rattle.std.specs.Prelude.{◌≡◌, ℕ, List, [], ◌∷◌, ◌++◌};
ghost use Rattle.dist_outside.specs.declared.limits.Limits.{Limits};
ghost use Rattle.dist_cert.specs.Form.{HasForm, HasHeaderForm};
ghost use Rattle.dist_cert.specs.Refusal.{certificate_text};
ghost use Rattle.dist_cert.specs.ReadBackLaws.{CanBeWritten, GivesText};
ghost use Rattle.dist_cert.specs.ExactReaderLaws.{ReaderIsExact};
ghost use Rattle.dist_cert.specs.declared.records.CertRecord.{CertRecord};
ghost use Rattle.dist_cert.specs.declared.records.CertRecord.TheVariants.{End};
ghost use Rattle.dist_cert.specs.declared.records.Header.{Header};

/// A law: a line has the form of one record at most, and of one first line at most.
pub fn one_form()
    ensures records { (line : List ℕ) (step other : CertRecord) → HasForm line step → HasForm line other → step ≡ other }
    ensures headers { (line : List ℕ) (header other : Header) → HasHeaderForm line header → HasHeaderForm line other → header ≡ other }
{}

/// A law: what a writer can have written within the limits, with the end as its last line, a reader gives back within the
/// same limits: the same header and the same records in order, and then that the text ends.
pub fn written_is_read()
    ensures { (limits : Limits) (header : Header) (steps : List CertRecord) → CanBeWritten limits header steps
        → GivesText limits (certificate_text header (steps ++ End ∷ [])) header (steps ++ End ∷ []) }
{}

/// A law: what the text is decides the answer of a reader, but for a fault of the desk and want of memory.
pub fn reader_is_exact()
    ensures { ReaderIsExact }
{}
