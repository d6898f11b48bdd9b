// What a value is: document 01, "Values".

// What a value is, with where its parts lie in the message.
#[derive(Clone, Copy, Debug, PartialEq, Eq)]
pub enum Head {
    Null,
    Boolean(bool),
    Integer(i64),
    // The 64 bits.
    Float(u64),
    // The content: `size` bytes from `start` on.
    Bytes { start: usize, size: usize },
    String { start: usize, size: usize },
    // `count` items: the first one's marker is at `first`, and each other's where the one before it ends.
    List { first: usize, count: usize },
    // `count` entries, each a key and a value, laid out in the same way.
    Dictionary { first: usize, count: usize },
    // `count` fields, laid out in the same way.
    Structure { tag: u8, first: usize, count: usize },
}
