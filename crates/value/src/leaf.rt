// What is known of a leaf.
use basic::PhysicalType;
use plan::FieldKind;

/// How the values of a leaf are stored, and what they are shown as.
#[derive(Clone, Copy)]
pub struct LeafType {
    pub physical: PhysicalType,
    pub kind: FieldKind,
}
