// A call that stands in the buffer whole, and what follows it.
use super::*;

// A call that stands in the buffer is read, its field as long as what was lent for it; behind one that is unknown none is; and what was lent comes back.
#[test]
fn reads_a_call(rt: HostRuntime) {
    let mut buffer = [b'r', 0, 0, 0, 3, 7, 8, 9, b'?'];
    let mut first = [1, 2, 3];
    let mut second = [5];
    let mut third = [6];
    let mut fourth = [8];
    let mut reader = Reader {
        stdin: rt.stdin(),
        buffer: &mut buffer,
        at: 0,
        end: 9,
        whole: true,
    };
    let mut fields = Fields {
        first: &mut first,
        second: &mut second,
        third: &mut third,
        fourth: &mut fourth,
    };
    let lengths = read_call(&mut reader, &mut fields).map(|c| c.lengths);
    assert_eq!(rt; lengths.ok(), Some([3, 0, 0, 0]));
    assert!(rt; read_call(&mut reader, &mut fields).is_err());
    assert!(rt; read_call(&mut reader, &mut fields).is_err());
    assert!(rt; !reader.whole);
    assert_eq!(rt; first, [7, 8, 9]);
    assert_eq!(rt; buffer, [b'r', 0, 0, 0, 3, 7, 8, 9, b'?']);
}
