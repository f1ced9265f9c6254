//! The report of `classes`: clusters with their members and classes, and new names with theirs.
ghost use Rattle.std.specs.Prelude.{◌≡◌, ◌++◌, ◌<◌, [], All, IfOk, OnOk, length, slice_index_or, codes};
ghost use Rattle.dist_classes.specs.Answers.{AreClustersOf};
ghost use Rattle.dist_classes.specs.ClassList.{HasExample, HasVersions};
ghost use Rattle.dist_classes.specs.NewNames.{AreNewNames};
ghost use Rattle.dist_report.specs.ClassesReport.{IsClassesText, class_and_example, class_lines, head_lines, first_lines};
ghost use Rattle.dist_report.specs.Lines.{listed};
ghost use Rattle.dist_report.specs.WrittenPrivate.{TellsCluster, TellsClusters, TellsName, TellsNames};

use crate::labels::Labels;
use crate::lines::{write_key, write_numbered, write_packages, write_string};
use dist_classes::{
    Class, Classes, CutFinder, Names, class_has_example, example, new_names, print_class,
    repository_clusters,
};
use dist_cluster::Clusters;
use dist_relation::Name;
use dist_repo::Repository;
use dist_version::Version;
use itoa::Buffer;
use std::alloc::{AllocError, Global};

/// Adds a class and its example, each behind what stands before it in its line.
pub(crate) fn write_class(
    alloc: Global,
    out: &mut Vec<u8>,
    before_class: &[u8],
    before_example: &[u8],
    class: &Class,
) -> Result<(), AllocError>
    requires { HasVersions class.now }
    ensures text { OnOk result (out.new.items ≡ out.old.items ++ class_and_example before_class.now before_example.now class.now) }
    ensures there { HasExample class.now }
{
    class_has_example(class);
    out.extend_from_slice(before_class)?;
    out.push(b'"')?;
    print_class(class, out)?;
    out.extend_from_slice(b"\"\n")?;
    write_string(out, before_example, example(alloc, class)?.text())?;
    Ok(())
}

/// Adds a list of classes.
fn write_classes(alloc: Global, out: &mut Vec<u8>, classes: &Classes) -> Result<(), AllocError>
    ensures text { OnOk result (out.new.items ≡ out.old.items ++ listed (codes "    classes:") class_lines classes.now) }
    ensures there { OnOk result (All HasExample classes.now) }
{
    write_key(out, b"    classes:", classes.len() == 0)?;
    for place in 0..classes.len() {
        let class = classes.get(place);
        write_class(alloc, out, b"      - class: ", b"        example: ", class)?;
    }
    Ok(())
}

/// Adds what stands before the members of a cluster: its name in the report, its source and its top.
fn write_head(
    out: &mut Vec<u8>,
    labels: &Labels,
    least: u32,
    top: &Version,
) -> Result<(), AllocError>
    requires { least < length labels.now.packages }
    ensures { OnOk result (out.new.items ≡ out.old.items ++ head_lines labels.now.packages least top.now) }
{
    write_numbered(out, labels, b"  - cluster: ", least)?;
    let package = labels.repo().package(least);
    write_string(out, b"    source: ", package.source.bytes())?;
    write_string(out, b"    top: ", top.text())?;
    Ok(())
}

/// Adds a cluster, by its number.
fn write_cluster(
    alloc: Global,
    out: &mut Vec<u8>,
    labels: &Labels,
    finder: &CutFinder<'_>,
    clusters: &Clusters,
    cluster: u32,
) -> Result<(), AllocError>
    requires of { finder.now ≡ labels.now }
    requires clusters { AreClustersOf labels.now clusters.now }
    requires cluster { cluster < length clusters.now.members }
    ensures { OnOk result (TellsCluster labels.now (slice_index_or clusters.now.members cluster []) (slice_index_or clusters.now.tops cluster []) out.old.items out.new.items) }
{
    let members = clusters.members(cluster);
    let classes = finder.classes_of_cluster(clusters, cluster)?;
    write_head(out, labels, members[0], clusters.top(cluster))?;
    write_packages(out, labels, b"    members:", b"      - ", members)?;
    write_classes(alloc, out, &classes)?;
    Ok(())
}

/// Adds all clusters.
fn write_clusters(
    alloc: Global,
    out: &mut Vec<u8>,
    labels: &Labels,
    finder: &CutFinder<'_>,
    clusters: &Clusters,
) -> Result<(), AllocError>
    requires of { finder.now ≡ labels.now }
    requires clusters { AreClustersOf labels.now clusters.now }
    ensures { OnOk result (TellsClusters labels.now out.old.items out.new.items) }
{
    write_key(out, b"clusters:", clusters.len() == 0)?;
    for cluster in 0..clusters.len() {
        write_cluster(alloc, out, labels, finder, clusters, cluster)?;
    }
    Ok(())
}

/// Adds a new name.
fn write_name(
    alloc: Global,
    out: &mut Vec<u8>,
    finder: &CutFinder<'_>,
    name: &Name,
) -> Result<(), AllocError>
    ensures { OnOk result (TellsName finder.now name.now out.old.items out.new.items) }
{
    let classes = finder.classes_of_new_name(name)?;
    write_string(out, b"  - name: ", name.bytes())?;
    write_classes(alloc, out, &classes)?;
    Ok(())
}

/// Adds all new names.
fn write_names(
    alloc: Global,
    out: &mut Vec<u8>,
    finder: &CutFinder<'_>,
    names: &Names,
) -> Result<(), AllocError>
    requires { AreNewNames finder.now names.now }
    ensures { OnOk result (TellsNames finder.now out.old.items out.new.items) }
{
    write_key(out, b"names:", names.len() == 0)?;
    for place in 0..names.len() {
        write_name(alloc, out, finder, names.get(place))?;
    }
    Ok(())
}

/// The lines before the clusters.
fn opened(alloc: Global, repo: &Repository) -> Result<Vec<u8>, AllocError>
    ensures { IfOk result (λ out. out.items ≡ first_lines repo.now.packages) }
{
    let mut out = Vec::from_slice(alloc, b"report: \"classes\"\npackages: ")?;
    let mut buffer = Buffer::new();
    out.extend_from_slice(buffer.format(repo.len()).as_bytes())?;
    out.push(b'\n')?;
    Ok(out)
}

/// The same, by the labels of the packages.
fn classes_text_by(alloc: Global, labels: &Labels) -> Result<Vec<u8>, AllocError>
    requires { length labels.now.packages < 4294967295 }
    ensures { IfOk result (λ text. IsClassesText labels.now text.items) }
{
    let repo = labels.repo();
    let clusters = repository_clusters(alloc, repo)?;
    let names = new_names(alloc, repo)?;
    let finder = CutFinder::new(alloc, repo)?;
    let mut out = opened(alloc, repo)?;
    write_clusters(alloc, &mut out, labels, &finder, &clusters)?;
    write_names(alloc, &mut out, &finder, &names)?;
    Ok(out)
}

/// The report of the classes of a repository: of each cluster, and of each name that is new to it.
///
/// The atoms of the repository are gone through once, and the text is one vector.
pub fn classes_text(alloc: Global, repo: &Repository) -> Result<Vec<u8>, AllocError>
    requires { length repo.now.packages < 4294967295 }
    ensures { IfOk result (λ text. IsClassesText repo.now text.items) }
{
    let labels = Labels::new(alloc, repo)?;
    let text = classes_text_by(alloc, &labels);
    drop(labels);
    text
}
