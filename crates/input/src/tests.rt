// Readers that need nothing of the input: what they are asked for stands in their buffer, or they were cut.
use super::*;

// What stands in the buffer is read, a reader that was cut reads nothing, and what was lent comes back.
#[test]
fn lends_back(rt: HostRuntime) {
    let mut buffer = [1, 2, 3, 4];
    let mut reader = Reader {
        stdin: rt.stdin(),
        buffer: &mut buffer,
        at: 1,
        end: 4,
        whole: true,
    };
    let mut two = [0; 2];
    assert_eq!(rt; reader.byte(), Some(2));
    assert_eq!(rt; reader.fill(&mut two), Some(()));
    assert_eq!(rt; two, [3, 4]);
    reader.cut();
    assert_eq!(rt; reader.byte(), None);
    assert_eq!(rt; buffer, [1, 2, 3, 4]);
}

// A new reader begins at the front, where no clause says so, has nothing to read, and leaves what was lent as it was.
#[test]
fn begins_with_nothing(rt: HostRuntime) {
    let mut buffer = [1, 2, 3, 4];
    let reader = Reader::new(rt.stdin(), &mut buffer);
    assert_eq!(rt; reader.at, 0);
    assert_eq!(rt; reader.end, 0);
    assert_eq!(rt; buffer, [1, 2, 3, 4]);
}
