//! Boxes between threads: one word and one list for each edge of a wiring. Lists move between the poster,
//! the box and the taker, and are never copied.
#![tactic(auto)]

mod boxes;
mod pass;
mod post_box;
mod steps;
mod user;
mod view;

pub use pass::{Pass, PostBox};
pub use user::BoxUser;
