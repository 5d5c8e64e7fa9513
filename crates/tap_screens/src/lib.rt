//! The screens of a session that is tapped: each is judged where the terminal answers it, and left in a folder.
#![tactic(auto)]

mod album;
mod bound;
mod folder;
mod judged;
mod leaf;
mod line;
mod made;
mod sketch;
mod tap;
mod text;
mod watch;

pub use album::Album;
pub use folder::Folder;
pub use leaf::LeftScreen;
pub use tap::{Asked, JudgedTap};
pub use watch::Watch;

#[cfg(test)]
mod tests {
    #[test]
    fn nothing() {}
}
