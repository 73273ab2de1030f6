//! Inputs that are compressed, by how they begin.

/// How what these programs write begins.
const BEGINNINGS: [(&[u8], &str); 4] = [
    (&[0x1f, 0x8b], "gzip"),
    (&[0x28, 0xb5, 0x2f, 0xfd], "zstd"),
    (&[0xfd, 0x37, 0x7a, 0x58, 0x5a, 0x00], "xz"),
    (&[0x42, 0x5a, 0x68], "bzip2"),
];

/// The program that has compressed an input.
pub(crate) fn packer_of(bytes: &[u8]) -> Option<&'static str> {
    for (beginning, name) in BEGINNINGS {
        if bytes.starts_with(beginning) {
            return Some(name);
        }
    }
    None
}
