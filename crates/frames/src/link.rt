// A link: a processor, and its seal.
ghost use Rattle.std.specs.Prelude.{◌≡◌};
ghost use Rattle.frames.specs.Bytes.{link_bytes, link_of};

#[derive(Clone, Copy, Debug, PartialEq, Eq)]
pub struct Link {
    pub processor: u8,
    pub seal: u32,
}

impl From<Link> for [u8; 5] {
    fn from(link: Link) -> [u8; 5]
        ensures { result ≡ link_bytes link }
    {
        let [a, b, c, d] = link.seal.to_be_bytes();
        [link.processor, a, b, c, d]
    }
}

impl From<[u8; 5]> for Link {
    fn from(bytes: [u8; 5]) -> Link
        ensures { result ≡ link_of bytes }
    {
        let [processor, a, b, c, d] = bytes;
        Link {
            processor,
            seal: u32::from_be_bytes([a, b, c, d]),
        }
    }
}
