//! Runs the example of the page of `itch_commands`.

use itch_commands::check::check;
use itch_frame::Counted;
use test_doubles::FuseWriter;

#[test]
fn a_file_is_checked(rt: HostRuntime) {
    let file = b"\0\x0cS\0\0\0\0\0\0\0\0\0\0O";
    let mut out = FuseWriter::new(rt.alloc(), 64, None);
    let answer = check(rt.alloc(), Counted::new(&file[..]), &mut out);
    assert!(rt; matches!(answer, Ok(true)));
    assert_eq!(rt; out.written(), b"ok 1 messages\n".as_slice());
}
