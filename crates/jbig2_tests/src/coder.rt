//! Tests prefix codes, the lengths of codes, and the numbers that the arithmetic coder decodes.
mod huffman_tables;
pub mod integers;

use jbig2_coder::code_length::code_length;

#[test]
fn codes_have_the_fewest_bits(rt: HostRuntime) {
    let lengths = [
        code_length(0),
        code_length(1),
        code_length(4),
        code_length(5),
        code_length(1 << 21),
    ];
    assert!(rt; lengths == [0, 0, 2, 3, 21]);
}
