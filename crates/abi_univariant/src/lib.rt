//! The layouts of types whose parts lie one after another, or all at the start: arrays and slices, lists of fields,
//! unions and vectors.
#![tactic(auto)]

// Arrays, unions, vectors, and what types take over from all of their fields.
mod array;
mod fields;
mod one_item;
mod simd;
mod unions;

// Lists of fields: their parts, orders and places.
mod fields_repr;
mod memory_order;
mod order;
mod part;
mod placing;
mod run;

// Their layouts: view, niche, and the whole; in an order that is handed in.
mod in_order;
mod list;
mod list_niche;
mod list_view;
mod univariant_layout;

// Lists that are to be the variants of a type.
mod fields_ref;
mod summary;
mod univariant_layouts;

pub use array::layout_of_array;
pub use fields::greatest_align;
pub use fields_ref::FieldsRef;
pub use fields_repr::round_up;
pub use in_order::layout_of_fields_in_order;
pub use list::{any_uninhabited, field_offsets, layout_of_fields, list_of_fields};
pub use list_view::pair_view;
pub use one_item::one;
pub use part::free_numbers;
pub use simd::{layout_of_scalable, layout_of_simd};
pub use summary::Summary;
pub use unions::layout_of_union;
pub use univariant_layout::UnivariantLayout;
pub use univariant_layouts::{UnivariantLayouts, VariantRest};
