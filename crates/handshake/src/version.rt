// The versions of Bolt that are known. A version travels as four bytes, `00 00 minor major`.
ghost use Rattle.std.specs.Prelude.{◌≡◌};
ghost use Rattle.handshake.specs.Version.{bytes_of, keeps_alive, proposed, named_by};

// A known version of Bolt 4. Its field is private: only the constants below, and what is read as one of them, are versions.
#[derive(Clone, Copy, Debug, PartialEq, Eq, PartialOrd, Ord)]
pub struct Version {
    minor: u8,
}

impl Version {
    pub const V4_0: Version = Version { minor: 0 };

    pub const V4_1: Version = Version { minor: 1 };

    pub const V4_2: Version = Version { minor: 2 };

    // The known version that four bytes name, if they name one.
    pub fn from_bytes(bytes: [u8; 4]) -> Option<Version>
        ensures { named_by result ≡ proposed bytes }
    {
        let [0, 0, minor, 4] = bytes else {
            return None;
        };
        match minor {
            0 => Some(Version::V4_0),
            1 => Some(Version::V4_1),
            2 => Some(Version::V4_2),
            _ => None,
        }
    }

    // The four bytes of a version, as a proposal has them and as the server echoes them.
    pub fn to_bytes(self) -> [u8; 4]
        ensures { result ≡ bytes_of self.minor }
    {
        [0, 0, self.minor, 4]
    }

    // Whether an empty message is a keep-alive.
    pub fn allows_keep_alive(self) -> bool
        ensures { result ≡ keeps_alive self.minor }
    {
        1 <= self.minor
    }
}
