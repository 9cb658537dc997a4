use crate::places::places;
use crate::reader::Reader;
use crate::split::next_line;
use obj_lines::Line;
use std::alloc::AllocError;
use std::test::Fail;

#[test]
fn cuts_at_the_first_line_feed(rt: HostRuntime) -> Result<(), Fail> {
    let cut = next_line(b"# end\n\nv");
    assert_eq!(rt; cut, Some((b"# end".as_slice(), b"\nv".as_slice())));
    assert_eq!(rt; next_line(b"# end"), None);
    Ok(())
}

#[test]
fn tells_the_places_of_a_face(rt: HostRuntime) -> Result<(), AllocError> {
    let triangle = places(8, 3, 3, vec![in rt.alloc(); 9, 10, 11]?);
    assert_eq!(rt; triangle.as_deref(), Some([0, 1, 2].as_slice()));
    assert!(rt; places(8, 3, 3, vec![in rt.alloc(); 9, 10, 12]?).is_none());
    assert!(rt; places(8, 3, 3, vec![in rt.alloc(); 9, 10, 9]?).is_none());
    assert!(rt; places(8, 3, 4, vec![in rt.alloc(); 9, 10, 11]?).is_none());
    Ok(())
}

#[test]
fn takes_lines_at_their_places(rt: HostRuntime) -> Result<(), AllocError> {
    let headed = Reader::Start.take(rt.alloc(), Line::Version)?;
    assert!(rt; matches!(&headed, Some(Reader::Headed)));
    let among = Reader::Headed.take(rt.alloc(), Line::Grid(100))?;
    assert!(rt; matches!(&among, Some(Reader::Among(_))));
    assert!(rt; Reader::Headed.take(rt.alloc(), Line::End)?.is_none());
    Ok(())
}
