// From a line to its command and back.
use keel_script::{is_blank, print_command, read_command};
use std::test::Fail;

#[test]
fn a_line_is_read_and_printed(rt: HostRuntime) -> Result<(), Fail> {
    let command = read_command(rt.alloc(), b"put %  a%20b   sync")
        .ok()
        .ok_or("a command")?;
    let line = print_command(rt.alloc(), &command).ok().ok_or("memory")?;
    assert_eq!(rt; line.as_slice(), b"put % a%20b sync".as_slice());
    Ok(())
}

#[test]
fn a_comment_says_nothing(rt: HostRuntime) {
    assert!(rt; is_blank(b"#open"));
}
