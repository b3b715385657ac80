//! Tests each public call of page information and segment types.
use jbig2_base::reader::Reader;
use jbig2_framing::page_info::{PageInformation, parse_page_information};
use jbig2_framing::segment::SegmentType;

/// The information of a black page of 8 by 1, 600 by 300 pixels a metre, in stripes of at most 3 rows.
const PAGE: [u8; 19] = [
    0, 0, 0, 8, 0, 0, 0, 1, 0, 0, 2, 0x58, 0, 0, 1, 0x2C, 4, 0x80, 3,
];

#[test]
fn page_information_is_read(rt: HostRuntime) {
    let Ok(information) = parse_page_information(&mut Reader::new(&PAGE)) else {
        assert!(rt; false);
        return;
    };
    assert!(rt; information.x_resolution == Some(600) && information.y_resolution == Some(300));
    let striping = information.striping;
    assert!(rt; striping.is_striped && striping.max_stripe_size == 3);
}

#[test]
fn types_have_numbers(rt: HostRuntime) {
    assert!(rt; PageInformation::default().x_resolution == None);
    assert!(rt; SegmentType::from_type_value(62) == SegmentType::Extension);
    assert!(rt; SegmentType::from_type_value(63).is_reserved());
}
