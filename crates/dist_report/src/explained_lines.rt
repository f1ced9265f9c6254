//! The text that tells what is answered of a package.
ghost use Rattle.std.specs.Prelude.{◌≡◌, ◌++◌, IfOk, OnOk, ℕ};
ghost use Rattle.dist_cert.specs.Rising.{AreRising, is_among};
ghost use Rattle.dist_report.specs.ExplainedText.{IsExplainedText, answer_lines, item_at, label_at, marked_line, marked_lines, relation_line};

use crate::lines::print_label;
use dist_check_group::has;
use dist_explain::{Explained, Relation, put_in_order, relations_of};
use dist_relation::print_alternatives;
use dist_repo::Repository;
use std::alloc::{AllocError, Global};

/// Adds the package of a number.
pub(crate) fn write_label_at(
    out: &mut Vec<u8>,
    repo: &Repository,
    number: u32,
) -> Result<(), AllocError>
    ensures { OnOk result (out.new.items ≡ out.old.items ++ label_at repo.now.packages number) }
{
    if number < repo.len() {
        print_label(repo.package(number), out)
    } else {
        Ok(())
    }
}

/// Adds the item at a place of a package.
fn write_item_at(
    out: &mut Vec<u8>,
    repo: &Repository,
    number: u32,
    place: usize,
) -> Result<(), AllocError>
    ensures { OnOk result (out.new.items ≡ out.old.items ++ item_at repo.now.packages number place) }
{
    if number >= repo.len() {
        return Ok(());
    }
    let depends = &repo.package(number).depends;
    if place < depends.len() {
        print_alternatives(depends.get(place), out)
    } else {
        Ok(())
    }
}

/// Adds the line of a relation.
fn write_relation(
    out: &mut Vec<u8>,
    repo: &Repository,
    relation: &Relation,
) -> Result<(), AllocError>
    ensures { OnOk result (out.new.items ≡ out.old.items ++ relation_line repo.now.packages relation.now) }
{
    match *relation {
        Relation::Needs(number, place) => {
            out.extend_from_slice(b"needs ")?;
            write_label_at(out, repo, number)?;
            out.extend_from_slice(b": ")?;
            write_item_at(out, repo, number, place)?;
        }
        Relation::Apart(first, second) => {
            out.extend_from_slice(b"apart ")?;
            write_label_at(out, repo, first)?;
            out.extend_from_slice(b" ")?;
            write_label_at(out, repo, second)?;
        }
    }
    out.push(b'\n')?;
    Ok(())
}

/// Whether rising numbers have this one.
fn has_number(numbers: &[u32], number: usize) -> bool
    requires { AreRising numbers.now }
    ensures { result ≡ is_among numbers.now number }
{
    match u32::try_from(number) {
        Ok(number) => has(numbers, number),
        Err(_) => false,
    }
}

/// Adds the line of the relation of a number, if it is needed or undecided.
fn write_marked(
    out: &mut Vec<u8>,
    repo: &Repository,
    needed: &[u32],
    undecided: &[u32],
    number: usize,
    relation: &Relation,
) -> Result<(), AllocError>
    requires needed { AreRising needed.now }
    requires undecided { AreRising undecided.now }
    ensures { OnOk result (out.new.items ≡ out.old.items ++ marked_line repo.now.packages needed.now undecided.now number relation.now) }
{
    if has_number(needed, number) {
        return write_relation(out, repo, relation);
    }
    if has_number(undecided, number) {
        out.extend_from_slice(b"perhaps ")?;
        return write_relation(out, repo, relation);
    }
    Ok(())
}

/// Adds the lines of the relations that are needed or undecided.
fn write_all_marked(
    out: &mut Vec<u8>,
    repo: &Repository,
    needed: &[u32],
    undecided: &[u32],
    list: &[Relation],
) -> Result<(), AllocError>
    requires needed { AreRising needed.now }
    requires undecided { AreRising undecided.now }
    ensures { OnOk result (out.new.items ≡ out.old.items ++ marked_lines repo.now.packages needed.now undecided.now 1 list.now) }
{
    for place in 0..list.len() {
        write_marked(out, repo, needed, undecided, place + 1, &list[place])?;
    }
    Ok(())
}

/// Numbers in their order, each once.
fn in_order(alloc: Global, numbers: &[u32]) -> Result<Vec<u32>, AllocError>
    ensures rising { IfOk result (λ list. AreRising list.items) }
    ensures same { IfOk result (λ list. (number : ℕ) → is_among list.items number ≡ is_among numbers.now number) }
{
    let mut list = numbers.to_vec(alloc)?;
    put_in_order(&mut list);
    Ok(list)
}

/// Adds the lines of the relations that are needed or undecided, in whatever order their numbers stand.
fn write_broken(
    alloc: Global,
    out: &mut Vec<u8>,
    repo: &Repository,
    needed: &[u32],
    undecided: &[u32],
    list: &[Relation],
) -> Result<(), AllocError>
    ensures { OnOk result (out.new.items ≡ out.old.items ++ marked_lines repo.now.packages needed.now undecided.now 1 list.now) }
{
    let needed_in_order = in_order(alloc, needed)?;
    let undecided_in_order = in_order(alloc, undecided)?;
    write_all_marked(out, repo, &needed_in_order, &undecided_in_order, list)
}

/// Adds what is answered.
fn write_answer(
    alloc: Global,
    out: &mut Vec<u8>,
    repo: &Repository,
    list: &[Relation],
    explained: &Explained,
) -> Result<(), AllocError>
    ensures { OnOk result (out.new.items ≡ out.old.items ++ answer_lines repo.now.packages list.now explained.now) }
{
    match explained {
        Explained::Installable => out.extend_from_slice(b"installable\n"),
        Explained::Undecided => out.extend_from_slice(b"undecided\n"),
        Explained::Broken(needed, undecided) => {
            out.extend_from_slice(b"broken\n")?;
            write_broken(
                alloc,
                out,
                repo,
                needed.as_slice(),
                undecided.as_slice(),
                list,
            )
        }
    }
}

/// The text that tells what is answered of a package. The relations are told in their own order.
pub fn explained_text(
    alloc: Global,
    repo: &Repository,
    package: u32,
    explained: &Explained,
) -> Result<Vec<u8>, AllocError>
    ensures { IfOk result (λ text. IsExplainedText repo.now «package» explained.now text.items) }
{
    let list = relations_of(alloc, repo)?;
    let mut out = b"package ".to_vec(alloc)?;
    write_label_at(&mut out, repo, package)?;
    out.push(b'\n')?;
    write_answer(alloc, &mut out, repo, &list, explained)?;
    Ok(out)
}
