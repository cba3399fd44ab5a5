// Texts of numbers, members and nodes, which `sim` and `cluster` write.

use crate::detect::devices::Narrow;
use crate::numbered::{id, process, tagged};
use rapid_text::{RunFault, write_members, write_node, write_number, write_text};
use std::test::Fail;

#[test]
fn each_is_appended(rt: HostRuntime) -> Result<(), Fail> {
    let mut output = Vec::new(rt.alloc());
    write_node(&id(65_535), &mut output)?;
    write_members(&[process(1), process(20)], &mut output)?;
    write_members(&[], &mut output)?;
    write_number(u64::MAX, &mut output)?;
    assert_eq!(rt;
        output.as_slice(),
        b"node 65535 1 2018446744073709551615".as_slice()
    );
    Ok(())
}

#[test]
fn tags_follow_the_number_of_a_member(rt: HostRuntime) -> Result<(), Fail> {
    let members = [
        process(1),
        tagged(2, &[b"db"])?,
        tagged(30, &[b"!", b"aa", b"b"])?,
        process(4),
    ];
    let mut output = Vec::new(rt.alloc());
    write_members(&members, &mut output)?;
    assert_eq!(rt; output.as_slice(), b" 1 2[db] 30[!,aa,b] 4".as_slice());
    Ok(())
}

#[test]
fn all_of_a_text_is_written(rt: HostRuntime) -> Result<(), Fail> {
    let mut writer = Narrow {
        written: Vec::new(rt.alloc()),
        calls: 100,
        takes_none: false,
    };
    write_text(&mut writer, b"height 3 members 1 2")?;
    assert_eq!(rt;
        writer.written.as_slice(),
        b"height 3 members 1 2".as_slice()
    );
    Ok(())
}

#[test]
fn a_beginning_is_written_before_a_fault(rt: HostRuntime) {
    for takes_none in [false, true] {
        let mut writer = Narrow {
            written: Vec::new(rt.alloc()),
            calls: 3,
            takes_none,
        };
        let ended = write_text(&mut writer, b"height");
        assert_eq!(rt; ended, Err(RunFault::Write), "at {takes_none}");
        let written = writer.written.as_slice();
        assert!(rt; b"height".starts_with(written), "at {takes_none}");
        assert_eq!(rt; written.len(), 3, "at {takes_none}");
    }
}
