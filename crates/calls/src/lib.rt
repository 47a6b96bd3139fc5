// How a call is written: its byte, then its numbers, then its fields.
#![tactic(auto)]

ghost use Rattle.std.specs.Prelude.{◌≡◌, [], ◌∷◌, ◌≤◌, length, take, IfOk, IfSome, OnErr, Err, false};
ghost use Rattle.input.specs.Inputs.{SameBuffer, TookSome, buffered, whole};
ghost use Rattle.calls.specs.Calls.{CallBytes, CountBytes, FieldBytes, Inside, NumberBytes, ReadCall, SameBytes, read_fields};

use input::Reader;
use shapes::eight;

// A call that was read: its byte, its numbers, and how many bytes each field has.
#[derive(Clone, Copy)]
pub struct Call {
    pub byte: u8,
    pub numbers: [usize; 3],
    pub lengths: [usize; 4],
}

// The lent bytes that the fields of a call go to.
#[derive(Drop)]
pub struct Fields<'a> {
    pub first: &'a mut [u8],
    pub second: &'a mut [u8],
    pub third: &'a mut [u8],
    pub fourth: &'a mut [u8],
}

// Why there is no call: the input ended before its byte, or the call was cut, or its byte is unknown.
#[derive(Clone, Copy)]
pub enum NoCall {
    End,
    Cut,
}

// Reads k numbers; the others are 0.
fn read_numbers(reader: &mut Reader, k: usize) -> Option<[usize; 3]>
    requires { k ≤ 3 }
    ensures took { IfSome result (λ ns. TookSome (NumberBytes k ns) reader.old reader.new) }
    ensures lent { SameBuffer reader.old reader.new }
{
    let mut b = [0; 24];
    reader.fill(&mut b[..8 * k])?;
    Some([eight(&b, 0), eight(&b, 8), eight(&b, 16)])
}

// Reads a length, or a count, of at most `most`.
fn read_size(reader: &mut Reader, most: usize) -> Option<usize>
    ensures took { IfSome result (λ n. TookSome (CountBytes n) reader.old reader.new × (n ≤ most)) }
    ensures lent { SameBuffer reader.old reader.new }
{
    let mut b = [0; 4];
    reader.fill(&mut b)?;
    let n = shapes::four(&b, 0);
    if n <= most { Some(n) } else { None }
}

// Reads a field to the front of `to`: how many items of `item` bytes it has, and then those; its bytes. One for which `to` is too short is cut.
fn read_field(reader: &mut Reader, item: usize, to: &mut [u8]) -> Option<usize>
    ensures took { IfSome result (λ n. TookSome (FieldBytes item (take n to.new)) reader.old reader.new × (n ≤ length to.old)) }
    ensures lent { SameBuffer reader.old reader.new }
{
    if item == 0 {
        return Some(0);
    }
    let n = item * read_size(reader, to.len() / item)?;
    reader.fill(&mut to[..n])?;
    Some(n)
}

// Reads what follows the byte of a call.
fn read_rest(reader: &mut Reader, byte: u8, fields: &mut Fields) -> Option<Call>
    ensures took { IfSome result (λ c. TookSome (λ t. CallBytes c.byte c.numbers (read_fields c fields.new) (byte ∷ t)) reader.old reader.new) }
    ensures inside { IfSome result (λ c. Inside c fields.new.first.now fields.new.second.now fields.new.third.now fields.new.fourth.now) }
    ensures same { SameBytes fields.old fields.new }
    ensures lent { SameBuffer reader.old reader.new }
{
    let shape = shapes::shape_of(byte)?;
    let numbers = read_numbers(reader, shape.numbers)?;
    let first = read_field(reader, shape.items[0], fields.first)?;
    let second = read_field(reader, shape.items[1], fields.second)?;
    let third = read_field(reader, shape.items[2], fields.third)?;
    let fourth = read_field(reader, shape.items[3], fields.fourth)?;
    Some(Call {
        byte,
        numbers,
        lengths: [first, second, third, fourth],
    })
}

// Reads a call. Where there is none, none is read from then on.
pub fn read_call(reader: &mut Reader, fields: &mut Fields) -> Result<Call, NoCall>
    ensures read_call { IfOk result (λ c. ReadCall reader.old c reader.new (read_fields c fields.new)) }
    ensures inside { IfOk result (λ c. Inside c fields.new.first.now fields.new.second.now fields.new.third.now fields.new.fourth.now) }
    ensures same { SameBytes fields.old fields.new }
    ensures lent { SameBuffer reader.old reader.new }
    ensures end { result ≡ Err NoCall.End → buffered reader.old ≡ [] }
    ensures cut { OnErr result (whole reader.new ≡ false) }
{
    let byte = reader.byte().ok_or(NoCall::End)?;
    match read_rest(reader, byte, fields) {
        Some(call) if reader.whole => Ok(call),
        _ => {
            reader.cut();
            Err(NoCall::Cut)
        }
    }
}

#[cfg(test)]
mod tests;
