use crate::sketch_answer;
use std::test::Fail;

#[test]
fn the_text_goes_where_there_is_room(rt: HostRuntime) -> Result<(), Fail> {
    let rows: [(&[u8], &[u8], i32, &[u8; 9], usize); 4] = [
        (b"check", b"point", 1, b"refused l", 25),
        (b"  check  order=last ", b"", 1, b"refused l", 25),
        (b"\xFF", b"", 2, b"usage: sk", 244),
        (b"session", b"", 0, b"\0\0\0\0\0\0\0\0\0", 0),
    ];
    for (words, input, status, front, length) in rows {
        let mut output = [0u8; 9];
        let mut size = 0;
        assert_eq!(rt;
            sketch_answer(rt.alloc(), words, input, &mut output, &mut size),
            status
        );
        assert_eq!(rt; output.as_slice(), front.as_slice());
        assert_eq!(rt; size, length);
    }
    Ok(())
}

#[test]
fn what_stood_behind_the_text_stays(rt: HostRuntime) -> Result<(), Fail> {
    let mut output = [7u8; 30];
    let mut size = 0;
    sketch_answer(rt.alloc(), b"check", b"point", &mut output, &mut size);
    assert_eq!(rt;
        output.as_slice(),
        b"refused line 1 E1 header\n\x07\x07\x07\x07\x07".as_slice()
    );
    Ok(())
}
