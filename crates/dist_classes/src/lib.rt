//! Classes of later versions: the versions above a cluster's top, and those of a new name, cut at what a repository's atoms
//! tell apart. All versions of a class match alike, so one example of each is enough for every question.
//!
//! `CutFinder` goes through the atoms once and then gives each cluster and each name its cuts; each name is asked once for a
//! cluster, however many entries have it, and only for the versions above its top.
#![tactic(auto)]

mod bound_table;
mod class_example;
mod class_list;
mod class_value;
mod clusters;
mod cut_finding;
mod fresh_names;
mod keys;
mod laws;

pub use class_example::{ClassExample, class_has_example, example};
pub use class_list::{Classes, class_of};
pub use class_value::{Class, print_class};
pub use clusters::repository_clusters;
pub use cut_finding::{CutFinder, classes_of, classes_of_new_name};
pub use fresh_names::{Names, new_names};
pub use laws::{
    classes_are_there, cuts_are_one, new_names_are_one, new_names_match_alike,
    new_versions_match_alike, no_class_is_empty, versions_are_in_one_class,
};
