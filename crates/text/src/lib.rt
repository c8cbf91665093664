#![tactic(auto)]

// Texts: their objects, the calls that these ask for, and what each object comes to.

mod asks;
mod objects;
mod performing;
mod records;
mod rows;
mod settling;
mod workspace;

pub use asks::Ask;
pub use workspace::Workspace;
