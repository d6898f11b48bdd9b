// The kinds of value: document 01, "Values", the table.

// The kinds of value that hold no other.
#[derive(Clone, Copy, Debug, PartialEq, Eq)]
pub enum Leaf {
    Null,
    Boolean,
    Integer,
    Float,
    Bytes,
    String,
}

// The kinds that hold others.
#[derive(Clone, Copy, Debug, PartialEq, Eq)]
pub enum Container {
    List,
    Dictionary,
    Structure,
}
