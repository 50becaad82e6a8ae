// A form from a reader that fails after the last byte that is asked for.
use crate::NotBegun;
use std::io;
use std::io::{Error, ErrorKind, Read};

// This many bytes, and then an error.
#[derive(Drop)]
struct Late {
    left: usize,
}

impl Read for Late {
    fn read(&mut self, buf: &mut [u8]) -> io::Result<usize> {
        if self.left == 0 {
            return Err(Error::from(ErrorKind::Other));
        }
        let count = self.left.min(buf.len());
        self.left -= count;
        Ok(count)
    }
}

#[test]
fn a_late_failure_is_told(rt: HostRuntime) {
    for left in [0, 100, 68866, 68867] {
        let begun = crate::read_from(Late { left }, rt.alloc());
        assert!(rt; matches!(begun, Err(NotBegun::Unread(_))));
    }
    // it fails after a byte that is not asked for
    let begun = crate::read_from(Late { left: 68869 }, rt.alloc());
    assert!(rt; matches!(begun, Err(NotBegun::Refused(_))));
}
