use crate::item::ObjItem;

/// A page.
#[derive(Drop)]
pub struct ObjFile {
    /// The grid step in micrometres.
    pub grid: u32,
    /// The items, in order.
    pub items: Vec<ObjItem>,
}
