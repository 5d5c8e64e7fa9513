//! Where lines are written.

use std::os::fd::RawFd;

/// Where lines are written, as people and the system know it.
#[derive(Clone, Copy, Debug)]
pub struct Outlet<'a> {
    /// What people call it.
    pub name: &'a str,
    /// The descriptor. It is asked whether it takes bytes before any are written.
    pub descriptor: RawFd,
}
