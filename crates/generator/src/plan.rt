// What a call would make.
use crate::binder::Binding;
use crate::slot::Slot;
use code::construct::Construct;
use code::names::Names;
use code::types::Ty;

// What becomes of the open binders once the code is made.
#[derive(Clone, Copy)]
pub enum Scope {
    Kept,
    Opened(Binding),
    Closed,
}

// The code to make, what is known of it, and the cell that receives it.
#[derive(Clone, Copy)]
pub struct Plan {
    pub(crate) to: Slot,
    pub(crate) construct: Construct,
    pub(crate) ty: Ty,
    pub(crate) size: u16,
    pub(crate) names: Names,
    pub(crate) scope: Scope,
}
