//! The canonical text of an item.
ghost use Rattle.std.specs.Prelude.{◌≡◌, ◌<◌, ◌++◌, ◌∷◌, [], length, OnOk, OnErr};
ghost use Rattle.std.specs.List.{flat_map};
ghost use Rattle.dist_version.specs.Spelling.{IsVersion};
ghost use Rattle.dist_relation.specs.Grammar.{operator_text, qualifier_text, IsQualifier, ReadsDepends};
ghost use Rattle.dist_relation.specs.Canonical.{bound_text, atom_text, behind_bar, alternatives_text};
ghost use Rattle.dist_relation.specs.WrittenPrivate.{Extends, IsAtom, AreAtoms};

use crate::atom::{Atom, Bound, Op, Qualifier};
use crate::lists::Alternatives;
use std::alloc::AllocError;

/// The text of an operator.
fn op_text(op: Op) -> &'static [u8]
    ensures { result.now ≡ operator_text op }
{
    match op {
        Op::Lt => b"<<",
        Op::Le => b"<=",
        Op::Eq => b"=",
        Op::Ge => b">=",
        Op::Gt => b">>",
    }
}

/// Adds a colon and the qualifier, where there is one.
fn print_qualifier(qualifier: &Qualifier, out: &mut Vec<u8>) -> Result<(), AllocError>
    ensures text { OnOk result (out.new.items ≡ out.old.items ++ qualifier_text qualifier.now) }
    ensures valid { OnOk result (IsQualifier qualifier.now) }
    ensures err { OnErr result (Extends out.old.items out.new.items) }
{
    if let Qualifier::Named(name) = qualifier {
        out.push(b':')?;
        out.extend_from_slice(name.bytes())?;
    }
    Ok(())
}

/// Adds a bound in parentheses, behind a space.
fn print_bound(bound: &Bound, out: &mut Vec<u8>) -> Result<(), AllocError>
    ensures text { OnOk result (out.new.items ≡ out.old.items ++ bound_text (Some bound.now)) }
    ensures valid { OnOk result (IsVersion bound.now.version) }
    ensures err { OnErr result (Extends out.old.items out.new.items) }
{
    out.extend_from_slice(b" (")?;
    out.extend_from_slice(op_text(bound.op))?;
    out.push(b' ')?;
    out.extend_from_slice(bound.version.text())?;
    out.push(b')')?;
    Ok(())
}

/// Adds an atom.
fn print_atom(atom: &Atom, out: &mut Vec<u8>) -> Result<(), AllocError>
    ensures text { OnOk result (out.new.items ≡ out.old.items ++ atom_text atom.now) }
    ensures valid { OnOk result (IsAtom atom.now) }
    ensures err { OnErr result (Extends out.old.items out.new.items) }
{
    out.extend_from_slice(atom.name.bytes())?;
    print_qualifier(&atom.qualifier, out)?;
    if let Some(bound) = &atom.bound {
        print_bound(bound, out)?;
    }
    Ok(())
}

/// Adds an atom behind a bar.
fn print_behind_bar(atom: &Atom, out: &mut Vec<u8>) -> Result<(), AllocError>
    ensures text { OnOk result (out.new.items ≡ out.old.items ++ behind_bar atom.now) }
    ensures valid { OnOk result (IsAtom atom.now) }
    ensures err { OnErr result (Extends out.old.items out.new.items) }
{
    out.extend_from_slice(b" | ")?;
    print_atom(atom, out)?;
    Ok(())
}

/// Adds atoms, each behind a bar.
fn print_more(atoms: &[Atom], out: &mut Vec<u8>) -> Result<(), AllocError>
    ensures text { OnOk result (out.new.items ≡ out.old.items ++ flat_map behind_bar atoms.now) }
    ensures valid { OnOk result (AreAtoms atoms.now) }
    ensures err { OnErr result (Extends out.old.items out.new.items) }
{
    for atom in atoms {
        print_behind_bar(atom, out)?;
    }
    Ok(())
}

/// Adds atoms with bars between them.
fn print_atoms(item: &Alternatives, out: &mut Vec<u8>) -> Result<(), AllocError>
    ensures text { OnOk result (out.new.items ≡ out.old.items ++ alternatives_text item.now) }
    ensures valid { OnOk result ((0 < length item.now) × AreAtoms item.now) }
    ensures err { OnErr result (Extends out.old.items out.new.items) }
{
    let (first, others) = item.parts();
    print_atom(first, out)?;
    print_more(others, out)?;
    Ok(())
}

/// Adds the canonical text of an item at the end of `out`. After an `Err` `out` is as before.
pub fn print_alternatives(item: &Alternatives, out: &mut Vec<u8>) -> Result<(), AllocError>
    ensures text { OnOk result (out.new.items ≡ out.old.items ++ alternatives_text item.now) }

    // The text is read again as this item, and as nothing else, since each value has one reading.
    ensures reads { OnOk result (ReadsDepends (alternatives_text item.now) (item.now ∷ [])) }
    ensures err { OnErr result (out.new.items ≡ out.old.items) }
{
    let length = out.len();
    let printed = print_atoms(item, out);
    if printed.is_err() {
        out.truncate(length);
    }
    printed
}
