//! Types that are laid out, and walks over them.

mod complex;
mod interface;
mod layout;
mod one_field;
mod padding;
mod peel;
mod places;
mod uniform;
mod variant_padding;
mod vector;
mod walk;

pub use interface::{TyAbiInterface, TyAndLayout};
pub use layout::Layout;
