// Faults of the input and the output of `detect`.

use crate::detect::devices::{Faulty, Narrow};
use crate::detect::worked::joined;
use rapid_detect::run_detect;
use rapid_text::RunFault;
use std::test::Fail;

#[test]
fn ends_by_name_if_a_read_fails(rt: HostRuntime) -> Result<(), Fail> {
    let input = joined(rt.alloc(), "watermarks 4 3 2 / batch / edge / batch")?;
    let whole = b"none\nrefused BadLine\nnone\n";
    for calls in 0..7 {
        let mut reader = Faulty {
            input: input.as_slice(),
            calls,
        };
        let mut output = Vec::new(rt.alloc());
        let ran = run_detect(rt.alloc(), &mut reader, &mut output);
        let ends = calls > input.len() / 7 + 1;
        assert_eq!(rt;
            ran,
            if ends { Ok(()) } else { Err(RunFault::Read) },
            "at {calls}"
        );
        assert!(rt;
            whole.as_slice().starts_with(output.as_slice()),
            "at {calls}"
        );
        assert_eq!(rt;
            ends,
            output.len() == whole.len() && ran.is_ok(),
            "at {calls}"
        );
    }
    Ok(())
}

#[test]
fn ends_by_name_if_a_write_fails(rt: HostRuntime) -> Result<(), Fail> {
    let input = joined(rt.alloc(), "watermarks 4 3 2 / batch / edge / batch")?;
    let whole = b"none\nrefused BadLine\nnone\n";
    for takes_none in [false, true] {
        for calls in 0..60 {
            let mut writer = Narrow {
                written: Vec::new(rt.alloc()),
                calls,
                takes_none,
            };
            let ran = run_detect(rt.alloc(), &mut input.as_slice(), &mut writer);
            assert!(rt;
                whole.as_slice().starts_with(writer.written.as_slice()),
                "at {calls}"
            );
            let all = writer.written.len() == whole.len();
            assert_eq!(rt;
                ran,
                if all { Ok(()) } else { Err(RunFault::Write) },
                "at {calls}"
            );
        }
    }
    Ok(())
}
