//! Claims of constant lists.

/// A claim of constant lists.
#[derive(Clone, Copy)]
pub enum Said {
    Uninstallable,
    Unknown,
    Strong(&'static [u32], &'static [u32]),
    Outdated,
    Alive,
    Challenged(&'static [(u32, u32)], &'static [(u32, u32)]),
}
