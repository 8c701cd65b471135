//! Boxed views of a sketch, and pictures.
#![tactic(auto)]

mod all_views;
mod entries;
mod following;
mod laws;
mod picture;
mod shown;
mod table;
mod view;
mod views;
mod wall;

pub use all_views::{NoViews, Views};
pub use following::{changes_of, shown_of};
pub use geo_eval::Shown;
pub use laws::views_follow;
pub use picture::write_picture;
pub use shown::{Change, ViewKind};
pub use view::View;
pub use views::{DualView, PlaneView, TableView};
pub use wall::{Place, Wall};

#[cfg(test)]
mod tests;
