// Markers: the first byte of every value says its kind, and how its size is known.
ghost use Rattle.std.specs.Prelude.{◌≡◌, ◌+◌, ◌≤◌, ◌<◌, cond, eqb};
ghost use Rattle.markers.specs.Marker.{reserved, itself, small, sized, marker_of};

use crate::kind::{Container, Leaf};

// What a marker stands for.
#[derive(Clone, Copy, Debug, PartialEq, Eq)]
pub enum Kind {
    Reserved,
    Leaf(Leaf),
    Container(Container),
}

// A marker taken apart: `skip` bytes lie between it and what follows, 0 where the marker is the content itself; then come `width`
// bytes that give the size, or none, and it is `size`.
#[derive(Clone, Copy, Debug, PartialEq, Eq)]
pub struct Marker {
    pub kind: Kind,
    pub skip: usize,
    pub width: usize,
    pub size: usize,
}

impl Marker {
    fn reserved() -> Marker
        ensures { result ≡ reserved }
    {
        Marker {
            kind: Kind::Reserved,
            skip: 1,
            width: 0,
            size: 0,
        }
    }

    // The marker is the content.
    fn itself(kind: Leaf) -> Marker
        ensures { result ≡ itself kind 0 }
    {
        Marker {
            kind: Kind::Leaf(kind),
            skip: 0,
            width: 0,
            size: 1,
        }
    }

    // The marker tells the size.
    fn small(kind: Kind, size: usize) -> Marker
        ensures { result ≡ small kind size }
    {
        Marker {
            kind,
            skip: 1,
            width: 0,
            size,
        }
    }

    // The size has `width` bytes of its own: 1, 2 or 4, since a marker that would say 8 is reserved.
    fn sized(kind: Kind, width: usize) -> Marker
        ensures { result ≡ cond (eqb width 8) reserved (sized kind width 0) }
    {
        if width == 8 {
            return Marker::reserved();
        }
        Marker {
            kind,
            skip: 1,
            width,
            size: 0,
        }
    }

    // The markers C0 to C3 by their low two bits.
    fn constant(low: u8) -> Marker
        requires { low < 4 }
        ensures { result ≡ marker_of (0xC0 + low) }
    {
        match low {
            0 => Marker::small(Kind::Leaf(Leaf::Null), 0),
            1 => Marker::small(Kind::Leaf(Leaf::Float), 8),
            _ => Marker::itself(Leaf::Boolean),
        }
    }

    // The markers C0 to DF. They come in fours: in each but the first, the low two bits count how often 1 is doubled to give the width.
    fn wide(marker: u8) -> Marker
        requires { (0xC0 ≤ marker) × (marker ≤ 0xDF) }
        ensures { result ≡ marker_of marker }
    {
        let low = marker & 3;
        let width = 1usize << low;
        match marker >> 2 {
            0x30 => Marker::constant(low),
            0x32 => Marker::small(Kind::Leaf(Leaf::Integer), width),
            0x33 => Marker::sized(Kind::Leaf(Leaf::Bytes), width),
            0x34 => Marker::sized(Kind::Leaf(Leaf::String), width),
            0x35 => Marker::sized(Kind::Container(Container::List), width),
            0x36 => Marker::sized(Kind::Container(Container::Dictionary), width),
            _ => Marker::reserved(),
        }
    }
}

// What a marker stands for, by its high and its low four bits.
impl From<u8> for Marker {
    ghost from_gives = { λ byte marker. marker ≡ marker_of byte };

    // Inline: the readers of values and of keys take one each.
    #[inline(always)]
    fn from(byte: u8) -> Marker {
        let size = (byte & 15) as usize;
        match byte >> 4 {
            8 => Marker::small(Kind::Leaf(Leaf::String), size),
            9 => Marker::small(Kind::Container(Container::List), size),
            10 => Marker::small(Kind::Container(Container::Dictionary), size),
            11 => Marker::small(Kind::Container(Container::Structure), size),
            12 => Marker::wide(byte),
            13 => Marker::wide(byte),
            14 => Marker::reserved(),
            _ => Marker::itself(Leaf::Integer),
        }
    }
}
