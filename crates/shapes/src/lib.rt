// What follows the byte of a call, and numbers of four and of eight bytes.
#![tactic(auto)]

ghost use Rattle.std.specs.Prelude.{◌≡◌, ◌+◌, ◌<◌, ◌≤◌, ◌^◌, length, IfSome};
ghost use Rattle.shapes.specs.Numbers.{four_at, eight_at};
ghost use Rattle.shapes.specs.Shapes.{shape};

// What follows the byte of a call: how many numbers, and how many bytes an item of each field has; 0 where the call has no such field. An item is a
// byte, a record or a set.
#[derive(Clone, Copy)]
pub struct Shape {
    pub numbers: usize,
    pub items: [usize; 4],
}

// The shape of each call that there is.
#[tactic(auto, unfolding(crate::specs::Shapes::shape))]
pub fn shape_of(byte: u8) -> Option<Shape>
    ensures shape { result ≡ shape byte }
    ensures few { IfSome result (λ s. s.numbers ≤ 3) }
{
    let (numbers, items) = match byte {
        b'r' => (0, [1, 0, 0, 0]),
        b'l' => (0, [1, 1, 0, 0]),
        b'e' => (1, [3, 1, 0, 0]),
        b'o' => (1, [1, 1, 0, 0]),
        b'b' => (2, [1, 1, 0, 0]),
        b'v' => (2, [1, 1, 0, 0]),
        b'c' => (1, [1, 1, 0, 0]),
        b'n' => (1, [1, 1, 0, 0]),
        b'w' => (1, [1, 1, 0, 0]),
        b'x' => (1, [1, 1, 1, 8]),
        _ => return None,
    };
    Some(Shape { numbers, items })
}

// Four bytes as a number, big-endian.
pub fn four(b: &[u8], i: usize) -> usize
    requires { i + 4 ≤ length b.now }
    ensures value { result ≡ four_at b.now i }
    ensures small { result < 2 ^ 32 }
{
    u32::from_be_bytes([b[i], b[i + 1], b[i + 2], b[i + 3]]) as usize
}

// Eight bytes as a number.
pub fn eight(b: &[u8], i: usize) -> usize
    requires { i + 8 ≤ length b.now }
    ensures { result ≡ eight_at b.now i }
{
    let bytes = [
        b[i],
        b[i + 1],
        b[i + 2],
        b[i + 3],
        b[i + 4],
        b[i + 5],
        b[i + 6],
        b[i + 7],
    ];
    u64::from_be_bytes(bytes) as usize
}
