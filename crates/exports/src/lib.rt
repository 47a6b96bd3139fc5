// The operations as functions on numbers and slices, as C calls them: each returns document 01's number, and lays what is returned with it into `values`.
#![tactic(auto)]

ghost use Rattle.std.specs.Prelude.{◌≡◌, map, length};
ghost use Rattle.collections.specs.Reads.{read_answer, read_told};
ghost use Rattle.listing.specs.Lists.{list_answer, list_after};
ghost use Rattle.entering.specs.Enters.{enter_answer, enter_after, enter_told};
ghost use Rattle.triplets.specs.Spelled.{spelled};
ghost use Rattle.ordering.specs.Orders.{order_answer, order_after, order_told};
ghost use Rattle.building.specs.Builds.{build_answer, build_after, build_told};
ghost use Rattle.building.specs.Vetoes.{veto_answer, veto_after};
ghost use Rattle.parsing.specs.Parses.{parse_answer, parse_after, parse_told};
ghost use Rattle.rendering.specs.Renders.{render_answer, render_after, render_told};
ghost use Rattle.checking.specs.Checks.{check_answer, check_told};
ghost use Rattle.easing.specs.Eases.{lent};
ghost use Rattle.loosening.specs.Loosens.{loosen_answer, loosen_after, loosen_told};
ghost use Rattle.triples.specs.Named.{named};
ghost use Rattle.laying.specs.Codes.{laid, Handed};
ghost use Rattle.exports.specs.Asked.{triple_answer, triple_species};

// Reads a collection.
pub fn koodhaxil_read(b: &[u8], values: &mut [usize]) -> usize
    ensures { Handed (read_told (read_answer b.now)) values.old result values.new }
{
    laying::lay(replies::answer(collections::read(b)), values)
}

// Lists a collection into the table t. A refusal leaves every byte of t as it was.
pub fn koodhaxil_list(b: &[u8], t: &mut [u8], values: &mut [usize]) -> usize
    ensures handed { Handed (read_told (list_answer b.now (length t.old))) values.old result values.new }
    ensures t_after { t.new ≡ list_after b.now t.old }
{
    let a = listing::list(b, t);
    laying::lay(replies::answer(a), values)
}

// Enters triplets into the table t. A refusal leaves every byte of t as it was.
pub fn koodhaxil_enter(
    n: usize,
    records: &[triplets::Triplet],
    t: &mut [u8],
    values: &mut [usize],
) -> usize
    ensures handed { Handed (enter_told (enter_answer n (map spelled records.now) (length t.old))) values.old result values.new }
    ensures t_after { t.new ≡ enter_after n (map spelled records.now) t.old }
{
    let a = triplets::enter(n, records, t);
    laying::lay(replies::answer(a), values)
}

// Puts a tree in house order, to the front of the room. A refusal leaves every byte of the room as it was.
pub fn koodhaxil_order(n: usize, body: &[u8], room: &mut [u8], values: &mut [usize]) -> usize
    ensures handed { Handed (order_told (order_answer n body.now (length room.old))) values.old result values.new }
    ensures room_after { room.new ≡ order_after n body.now room.old }
{
    let a = ordering::order(n, body, room);
    laying::lay(replies::answer(a), values)
}

// Builds the tree of a set of species, of the table t, to the front of the room. A refusal leaves every byte of the room as it was.
pub fn koodhaxil_build(n: usize, set: u64, t: &[u8], room: &mut [u8], values: &mut [usize]) -> usize
    ensures handed { Handed (build_told (build_answer n set t.now (length room.old))) values.old result values.new }
    ensures room_after { room.new ≡ build_after n set t.now room.old }
{
    let a = building::build(n, set, t, room);
    laying::lay(replies::build(a), values)
}

// Makes the veto build of a set of species, of the table t, to the front of the room. A refusal leaves every byte of the room as it was.
pub fn koodhaxil_veto(n: usize, set: u64, t: &[u8], room: &mut [u8], values: &mut [usize]) -> usize
    ensures handed { Handed (build_told (veto_answer n set t.now (length room.old))) values.old result values.new }
    ensures room_after { room.new ≡ veto_after n set t.now room.old }
{
    let a = building::veto(n, set, t, room);
    laying::lay(replies::build(a), values)
}

// Checks the tree of a body against the table t.
pub fn koodhaxil_check(n: usize, t: &[u8], body: &[u8], values: &mut [usize]) -> usize
    ensures { Handed (check_told (check_answer n t.now body.now)) values.old result values.new }
{
    laying::lay(replies::answer(checking::check(n, t, body)), values)
}

// Reads a Newick text into a body, at the front of the room. A refusal leaves every byte of the room as it was.
pub fn koodhaxil_parse(n: usize, text: &[u8], room: &mut [u8], values: &mut [usize]) -> usize
    ensures handed { Handed (parse_told (parse_answer n text.now (length room.old))) values.old result values.new }
    ensures room_after { room.new ≡ parse_after n text.now room.old }
{
    let a = parsing::parse(n, text, room);
    laying::lay(replies::answer(a), values)
}

// Writes a tree as Newick text to the front of the room. A refusal leaves every byte of the room as it was.
pub fn koodhaxil_render(n: usize, body: &[u8], room: &mut [u8], values: &mut [usize]) -> usize
    ensures handed { Handed (render_told (render_answer n body.now (length room.old))) values.old result values.new }
    ensures room_after { room.new ≡ render_after n body.now room.old }
{
    let a = rendering::render(n, body, room);
    laying::lay(replies::answer(a), values)
}

// Loosens the tree of a body by the table t: the final tree to the front of the room, and the dropped sets to the front of the list. A refusal leaves both as
// they were.
pub fn koodhaxil_loosen(
    n: usize,
    t: &[u8],
    body: &[u8],
    room: &mut [u8],
    list: &mut [u64],
    values: &mut [usize],
) -> usize
    ensures handed { Handed (loosen_told (loosen_answer n t.now body.now (length room.old) (length list.old))) values.old result values.new }
    ensures list_after { lent room.new list.new ≡ loosen_after n t.now body.now (lent room.old list.old) }
{
    let a = loosening::loosen(n, t, body, room, list);
    laying::lay(replies::answer(a), values)
}

// Is there a triple with this index? It is a question, so that its answer is none of document 01's numbers: 1 for yes, with the three species laid into
// `values`, and 0 for no, which leaves `values` as it was.
pub fn koodhaxil_triple(index: usize, values: &mut [usize]) -> usize
    ensures value { result ≡ triple_answer (named index) }
    ensures values_after { values.new ≡ laid (triple_species (named index)) values.old }
{
    match triples::triple_at(index) {
        Some(x) => {
            laying::put(values, 0, x.low);
            laying::put(values, 1, x.mid);
            laying::put(values, 2, x.high);
            1
        }
        None => 0,
    }
}
