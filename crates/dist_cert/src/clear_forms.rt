//! A law: the lines of a text are read in one way.
ghost use Rattle.dist_cert.specs.ClearFormsLaws.{FormsAreClear};

/// A law: a line has at most one form, and the text of a form has no line feed. The laws of `OneVerdict`, that a text is
/// accepted in one way, has one refusal, and never both, stand on it.
pub fn forms_are_clear()
    ensures { FormsAreClear }
{}
