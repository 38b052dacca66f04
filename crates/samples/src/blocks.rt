// Sample blocks and fingerprints. Each is made from a tag of one byte, so that what is read can be compared with what
// was sent.
use words::BLOCK_SIZE;

// The byte at an offset of the bytes that are made from a tag: with slope 0 the tag everywhere, else another byte at
// each offset.
fn byte_at(tag: u8, slope: u8, offset: usize) -> u8 {
    ((u16::from(tag) + (offset % 256) as u16 * u16::from(slope)) % 256) as u8
}

pub fn paint(bytes: &mut [u8], tag: u8, slope: u8) {
    for (offset, byte) in bytes.iter_mut().enumerate() {
        *byte = byte_at(tag, slope, offset);
    }
}

// The bytes are the block that is made from the tag.
pub fn is_block(bytes: &[u8], tag: u8, slope: u8) -> bool {
    let mut block = [0u8; BLOCK_SIZE];
    paint(&mut block, tag, slope);
    words::same_bytes(bytes, &block)
}
