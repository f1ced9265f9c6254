//! A plan of a later archive, written as a journal, leads there.
use crate::journals::{archive_of, is_answered};
use dist_archive::{Archive, Plan, Step, reach};
use dist_repo::{Repository, same};
use dist_samples::repository;
use dist_space::Space;
use std::alloc::{AllocError, Global};

/// Two packages of one source, one that goes, and one that stays.
const TODAY: &str = "Package: a\nVersion: 1\nSource: s\n
Package: b\nVersion: 1\nSource: s\n
Package: gone\nVersion: 1\n
Package: kept\nVersion: 1\n";

/// Both are uploaded, and one of a new name comes.
const LATER: &str = "Package: a\nVersion: 2\n\nPackage: b\nVersion: 2\n\nPackage: kept\nVersion: 1\n
Package: new\nVersion: 1\n";

/// Adds pieces of a text.
fn push(out: &mut Vec<u8>, pieces: &[&[u8]]) -> Result<(), AllocError> {
    for piece in pieces {
        out.extend_from_slice(piece)?;
    }
    Ok(())
}

/// Adds the stanzas of packages without relations.
fn push_stanzas(out: &mut Vec<u8>, block: &Repository) -> Result<(), AllocError> {
    for number in 0..block.len() {
        let package = block.package(number);
        push(
            out,
            &[
                b"Package: ",
                package.name.bytes(),
                b"\nVersion: ",
                package.version.text(),
                b"\n\n",
            ],
        )?;
    }
    Ok(())
}

/// The name of the first package of a block.
fn first_name(block: &Repository) -> &[u8] {
    if block.len() > 0 {
        block.package(0).name.bytes()
    } else {
        b""
    }
}

/// Adds a step, which of uploads names the cluster by the first package that it brings.
fn push_step(out: &mut Vec<u8>, step: &Step) -> Result<(), AllocError> {
    match step {
        Step::Upload(_, version, block) => {
            push(
                out,
                &[b"= upload ", first_name(block), b" ", version.text(), b"\n"],
            )?;
            push_stanzas(out, block)
        }
        Step::Removal(name) => push(out, &[b"= removal ", name.bytes(), b"\n"]),
        Step::NewName(block) => {
            push(out, &[b"= new\n"])?;
            push_stanzas(out, block)
        }
    }
}

/// Adds the steps of a plan.
fn push_steps(out: &mut Vec<u8>, plan: &Plan) -> Result<(), AllocError> {
    for place in 0..plan.len() {
        push_step(out, plan.get(place))?;
    }
    Ok(())
}

/// The plan that leads from a space to the packages of a later archive.
fn plan_of(alloc: Global, space: &Space, later: &Repository) -> Option<Plan> {
    if !later.is_flat() {
        return None;
    }
    reach(alloc, space, later).ok()
}

/// Whether an archive holds exactly some packages.
fn holds_all(archive: &Archive, later: &Repository) -> bool {
    for number in 0..later.len() {
        let package = later.package(number);
        match archive.held(package.name.bytes()) {
            Some(held) => {
                if !same(held, package) {
                    return false;
                }
            }
            None => return false,
        }
    }
    archive.len() == later.len()
}

/// Whether the journal of a plan leads an archive to a later one, by so many steps.
fn leads(
    alloc: Global,
    archive: &mut Archive,
    plan: &Plan,
    later: &Repository,
    steps: u32,
) -> bool {
    let mut journal = Vec::new(alloc);
    let so = push_steps(&mut journal, plan).is_ok()
        && is_answered(alloc, archive, &journal, Ok(steps))
        && holds_all(archive, later);
    drop(journal);
    so
}

/// Whether the journal of the plan from an archive to a later one leads there, by so many steps.
fn is_planned(alloc: Global, archive: &mut Archive, later: &Repository, steps: u32) -> bool {
    match plan_of(alloc, archive.space(), later) {
        Some(plan) => {
            let so = leads(alloc, archive, &plan, later, steps);
            drop(plan);
            so
        }
        None => false,
    }
}

/// Whether the journal of the plan from the archive of some stanzas to a later one leads there, by so many steps.
fn is_reached_from(alloc: Global, today: &str, later: &Repository, steps: u32) -> bool {
    let Some(mut archive) = archive_of(alloc, today) else {
        return false;
    };
    let so = is_planned(alloc, &mut archive, later, steps);
    drop(archive);
    so
}

/// Whether the journal of the plan from one archive to another leads there, by so many steps.
fn is_reached(alloc: Global, today: &str, later: &str, steps: u32) -> bool {
    let Some(later) = repository(alloc, later) else {
        return false;
    };
    let so = is_reached_from(alloc, today, &later, steps);
    drop(later);
    so
}

#[test]
fn plans_are_followed_to_later_archives(rt: HostRuntime) {
    assert!(rt; is_reached(rt.alloc(), TODAY, LATER, 3));
}
