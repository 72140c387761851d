//! Recognises files that hold a day file in another form by their first bytes.
ghost use Rattle.std.specs.Prelude.{◌≡◌};
ghost use Rattle.itchsnap_cli.specs.Packings.{is_capture, container_format_of};

/// The number of first bytes of a file that [`ContainerFormat::of`] looks at.
pub const MOST_MAGIC: usize = 6;

/// The form of a file that is not a day file, but may contain one.
#[derive(Clone, Copy, Debug, PartialEq, Eq)]
pub enum ContainerFormat {
    Gzip,
    Bzip2,
    Zstd,
    Xz,
    Lz4,
    Zip,
    /// Captured packets, in the form of pcap or of pcapng.
    Capture,
}

impl ContainerFormat {
    /// Returns the form of a file with these first bytes, if it is one of these forms.
    pub fn of(beginning: &[u8]) -> Option<ContainerFormat>
        ensures { result ≡ container_format_of beginning.now }
    {
        if beginning.starts_with(&[0x1f, 0x8b]) {
            Some(ContainerFormat::Gzip)
        } else if beginning.starts_with(b"BZh") {
            Some(ContainerFormat::Bzip2)
        } else if beginning.starts_with(&[0x28, 0xb5, 0x2f, 0xfd]) {
            Some(ContainerFormat::Zstd)
        } else if beginning.starts_with(&[0xfd, 0x37, 0x7a, 0x58, 0x5a, 0x00]) {
            Some(ContainerFormat::Xz)
        } else if beginning.starts_with(&[0x04, 0x22, 0x4d, 0x18]) {
            Some(ContainerFormat::Lz4)
        } else if beginning.starts_with(b"PK\x03\x04") {
            Some(ContainerFormat::Zip)
        } else if is_capture(beginning) {
            Some(ContainerFormat::Capture)
        } else {
            None
        }
    }
}

// Returns whether these are the magic numbers of pcap, for microseconds or for nanoseconds, in either byte order, or that of pcapng.
fn is_capture(beginning: &[u8]) -> bool
    ensures { result ≡ is_capture beginning.now }
{
    beginning.starts_with(&[0xa1, 0xb2, 0xc3, 0xd4])
        || beginning.starts_with(&[0xd4, 0xc3, 0xb2, 0xa1])
        || beginning.starts_with(&[0xa1, 0xb2, 0x3c, 0x4d])
        || beginning.starts_with(&[0x4d, 0x3c, 0xb2, 0xa1])
        || beginning.starts_with(&[0x0a, 0x0d, 0x0d, 0x0a])
}
