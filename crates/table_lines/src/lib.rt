// The line of each call that reads a collection, fills a table or builds from one: the operation is called, and its reply is written, with what it left in the lent table or room.
#![tactic(auto)]

ghost use Rattle.std.specs.Prelude.{◌≡◌};
ghost use Rattle.listing.specs.Lists.{list_after};
ghost use Rattle.entering.specs.Enters.{enter_after};
ghost use Rattle.building.specs.Builds.{build_after};
ghost use Rattle.building.specs.Vetoes.{veto_after};
ghost use Rattle.writing.specs.Pages.{wrote_on};
ghost use Rattle.table_lines.specs.Lines.{read_line, list_line, enter_line, build_line, veto_line};

use writing::Text;

// Reads a collection, and writes the line of the call.
pub fn read_line(out: &mut Text, b: &[u8])
    ensures { out.new ≡ wrote_on out.old (read_line b.now) }
{
    reply_text::put_line(out, replies::answer(collections::read(b)));
}

// Lists a collection into the table t, and writes the line of the call.
pub fn list_line(out: &mut Text, b: &[u8], t: &mut [u8])
    ensures writes { out.new ≡ wrote_on out.old (list_line b.now t.old) }
    ensures t_after { t.new ≡ list_after b.now t.old }
{
    let a = listing::list(b, t);
    reply_text::put_barred(out, replies::answer(a), t);
}

// Enters records into the table t, and writes the line of the call.
pub fn enter_line(out: &mut Text, n: usize, records: &[[u8; 3]], t: &mut [u8])
    ensures writes { out.new ≡ wrote_on out.old (enter_line n records.now t.old) }
    ensures t_after { t.new ≡ enter_after n records.now t.old }
{
    let a = entering::enter(n, records, t);
    reply_text::put_barred(out, replies::answer(a), t);
}

// Builds the tree of a set of species, of the table t, and writes the line of the call.
pub fn build_line(out: &mut Text, n: usize, set: u64, t: &[u8], room: &mut [u8])
    ensures writes { out.new ≡ wrote_on out.old (build_line n set t.now room.old) }
    ensures room_after { room.new ≡ build_after n set t.now room.old }
{
    let a = building::build(n, set, t, room);
    reply_text::put_barred(out, replies::build(a), room);
}

// Makes the veto build of a set of species, of the table t, and writes the line of the call.
pub fn veto_line(out: &mut Text, n: usize, set: u64, t: &[u8], room: &mut [u8])
    ensures writes { out.new ≡ wrote_on out.old (veto_line n set t.now room.old) }
    ensures room_after { room.new ≡ veto_after n set t.now room.old }
{
    let a = building::veto(n, set, t, room);
    reply_text::put_barred(out, replies::build(a), room);
}
