//! The labels of a repository's packages, made once: a report tells most of them many times.
ghost use Rattle.std.specs.Prelude.{◌≡◌, [], IfOk, OnOk, map, slice_get};
ghost use Rattle.std.specs.Option.{option_map_or};
ghost use Rattle.dist_report.specs.PackageText.{label};

use crate::lines::print_label;
use dist_base::Flat;
use dist_repo::Repository;
use std::alloc::{AllocError, Global};
use std::marker::Model;

/// A repository with the label of each of its packages.
#[derive(Drop)]
pub(crate) struct Labels<'a> {
    repo: &'a Repository,
    texts: Flat<u8>,
}

impl<'a> Model for Labels<'a> {
    ghost use Rattle.std.specs.Prelude.{◌≡◌, map};
    ghost use Rattle.dist_repo.specs.PackageList.{PackageList};
    ghost use Rattle.dist_report.specs.PackageText.{label};

    ghost Value = { PackageList };

    ghost view = { λ labels. labels.repo.now };

    ghost invariant = { λ labels. labels.texts ≡ map label labels.repo.now.packages };
}

/// Adds the labels of all packages to none, each by way of a text that is used again.
fn fill(repo: &Repository, texts: &mut Flat<u8>, text: &mut Vec<u8>) -> Result<(), AllocError>
    requires { texts.old ≡ [] }
    ensures { OnOk result (texts.new ≡ map label repo.now.packages) }
{
    for number in 0..repo.len() {
        text.clear();
        print_label(repo.package(number), text)?;
        texts.push(text)?;
    }
    Ok(())
}

/// The labels of all packages.
fn texts_of(alloc: Global, repo: &Repository) -> Result<Flat<u8>, AllocError>
    ensures { IfOk result (λ texts. texts ≡ map label repo.now.packages) }
{
    let mut texts = Flat::new(alloc);
    let mut text = Vec::new(alloc);
    let filled = fill(repo, &mut texts, &mut text);
    drop(text);
    match filled {
        Ok(()) => Ok(texts),
        Err(error) => {
            drop(texts);
            Err(error)
        }
    }
}

impl<'a> Labels<'a> {
    pub(crate) fn new(alloc: Global, repo: &'a Repository) -> Result<Labels<'a>, AllocError>
        ensures { IfOk result (λ labels. labels ≡ repo.now) }
    {
        let texts = texts_of(alloc, repo)?;
        Ok(Labels { repo, texts })
    }

    /// The repository, which lives longer than the labels.
    pub(crate) fn repo(&self) -> &'a Repository
        ensures { result.now ≡ self.now }
    {
        self.repo
    }

    /// The label of the package of a number, or nothing where there is none.
    pub(crate) fn text(&self, number: u32) -> &[u8]
        ensures { result.now ≡ option_map_or label (slice_get self.now.packages number) [] }
    {
        let place = number as usize;
        if place < self.texts.len() {
            self.texts.get(place)
        } else {
            &[]
        }
    }
}
