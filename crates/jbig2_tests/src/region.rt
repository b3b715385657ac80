//! Tests region information, templates, generic regions and refinements.
mod generic;
mod refinement;

use jbig2_base::bitmap::operator::CombinationOperator;
use jbig2_base::reader::Reader;
use jbig2_region::region_info::parse_region_segment_info;
use jbig2_region::template::Template;

/// The region information of a region of 8 by 1 pixels.
const INFORMATION: [u8; 17] = [0, 0, 0, 8, 0, 0, 0, 1, 0, 0, 0, 2, 0, 0, 0, 3, 4];

#[test]
fn information_and_templates(rt: HostRuntime) {
    let Ok(information) = parse_region_segment_info(&mut Reader::new(&INFORMATION)) else {
        assert!(rt; false);
        return;
    };
    let size = (information.width, information.height);
    let place = (information.x_location, information.y_location);
    assert!(rt; size == (8, 1) && place == (2, 3));
    assert!(rt; information.combination_operator == CombinationOperator::Replace);
    assert!(rt; Template::from_byte(6) == Template::Template2);
    assert!(rt; Template::Template1.context_bits() == 13);
}
